// The words of a store, printed.
ghost use Rattle.std.specs.Prelude.{◌≡◌, ◌<◌, ◌^◌, length};
ghost use Rattle.byte_streams.specs.Pending.{Gathers};
ghost use Rattle.byte_streams.specs.Sinks.{FailsBySink, GathersFor};
ghost use Rattle.tripos_run.specs.Texts.{dump_text, word_text};

use byte_streams::{Output, Sink, SinkFault};
use debugger::gather_word as gather_line;

/// Gathers a line for each word that is not 0, in rising order: its address in decimal, and eight hex digits.
pub fn gather_dump<K: Sink>(
    words: &[u32],
    out: &mut K,
    pending: &mut Output,
) -> Result<(), SinkFault>
    ensures text { GathersFor K.Sink out.old out.new pending.old pending.new
        (dump_text 0 words.now) result }
    ensures cause { FailsBySink K.Sink out.old out.new result }
{
    for (a, w) in words.iter().enumerate() {
        gather_word(a as u64, *w, out, pending)?;
    }
    Ok(())
}

fn gather_word<K: Sink>(a: u64, w: u32, out: &mut K, pending: &mut Output) -> Result<(), SinkFault>
    ensures text { GathersFor K.Sink out.old out.new pending.old pending.new
        (word_text a w) result }
    ensures cause { FailsBySink K.Sink out.old out.new result }
{
    if w == 0 {
        return Ok(());
    }
    gather_line(a, w, out, pending)
}
