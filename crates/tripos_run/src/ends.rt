// How a run ends, on a machine of either kind.
ghost use Rattle.std.specs.Prelude.{◌≡◌, ◌++◌};
ghost use Rattle.byte_streams.specs.Sinks.{FailsBySink, GathersFor, PrintsTo};
ghost use Rattle.tripos_run.specs.Answer.{status_of, words_text};
ghost use Rattle.tripos_run.specs.Texts.{closing_text};

use crate::dump::gather_dump;
use crate::messages::gather_closing;
use crate::reports::Report;
use byte_streams::{Output, Sink, SinkFault, pass_on};
use kernel_model::Stop;
use program_answers::Status;
use word_store::Store;

/// Writes what is pending, the closing line, and what is asked for besides.
pub(crate) fn write_end<K: Sink>(
    report: Report,
    steps: u64,
    stop: Stop,
    store: &Store,
    out: &mut K,
    pending: &mut Output,
) -> Result<(), SinkFault>
    ensures text { PrintsTo K.Sink out.old out.new
        (pending.old ++ (closing_text steps stop ++ words_text report store.now)) result }
    ensures cause { FailsBySink K.Sink out.old out.new result }
{
    gather_closing(steps, stop, out, pending)?;
    gather_words(report, store, out, pending)?;
    pass_on(out, pending)
}

fn gather_words<K: Sink>(
    report: Report,
    store: &Store,
    out: &mut K,
    pending: &mut Output,
) -> Result<(), SinkFault>
    ensures text { GathersFor K.Sink out.old out.new pending.old pending.new
        (words_text report store.now) result }
    ensures cause { FailsBySink K.Sink out.old out.new result }
{
    match report {
        Report::Console | Report::Events | Report::Sums(_) => Ok(()),
        Report::Words => match store.words(0, store.size()) {
            Some(words) => gather_dump(words, out, pending),
            None => unreachable!(),
        },
    }
}

/// The status of a call whose machine was run to this end.
pub(crate) fn status_of(stop: Stop) -> Status
    ensures { result ≡ status_of stop }
{
    match stop {
        Stop::Steps | Stop::Quit(_) | Stop::Finish => Status::Done,
        Stop::Fault { .. } => Status::GuestFault,
    }
}
