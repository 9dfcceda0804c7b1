// What is written of tries.
ghost use Rattle.std.specs.Prelude.{◌≡◌};
ghost use Rattle.byte_streams.specs.Sinks.{FailsBySink, GathersFor, PrintsTo};
ghost use Rattle.show_run.specs.ValueTries.TryTexts.{bytes_text, ending_text, fault_text, gathering_text, group_text, groups_text, head_text, line_text, no_boot_text, quit_text, rest_text, span_text, spans_text, stop_text, tried_text, values_text};

use crate::value_tries::groups::{Gathering, Group};
use crate::value_tries::outcomes::Ending;
use crate::value_tries::spans::Span;
use byte_streams::{Output, Piece, Sink, SinkFault, gather, gather_pieces, pass_on};
use kernel_model::Stop;

/// Writes the groups, and how many tries there were.
pub fn write_gathering<K: Sink>(gathering: &Gathering, out: &mut K) -> Result<(), SinkFault>
    ensures text { PrintsTo K.Sink out.old out.new
        (gathering_text gathering.now.groups.items gathering.now.tried) result }
    ensures cause { FailsBySink K.Sink out.old out.new result }
{
    let mut pending = Output::new();
    gather_gathering(gathering, out, &mut pending)?;
    pass_on(out, &mut pending)
}

fn gather_gathering<K: Sink>(
    gathering: &Gathering,
    out: &mut K,
    pending: &mut Output,
) -> Result<(), SinkFault>
    ensures text { GathersFor K.Sink out.old out.new pending.old pending.new
        (gathering_text gathering.now.groups.items gathering.now.tried) result }
    ensures cause { FailsBySink K.Sink out.old out.new result }
{
    gather_groups(gathering.groups.as_slice(), out, pending)?;
    gather_tried(gathering.tried, out, pending)
}

fn gather_tried<K: Sink>(tried: u64, out: &mut K, pending: &mut Output) -> Result<(), SinkFault>
    ensures text { GathersFor K.Sink out.old out.new pending.old pending.new
        (tried_text tried) result }
    ensures cause { FailsBySink K.Sink out.old out.new result }
{
    gather_pieces(
        out,
        pending,
        &[
            Piece::Text(b"tried "),
            Piece::Decimal(tried),
            Piece::Text(b"\n"),
        ],
    )
}

fn gather_groups<K: Sink>(
    groups: &[Group],
    out: &mut K,
    pending: &mut Output,
) -> Result<(), SinkFault>
    ensures text { GathersFor K.Sink out.old out.new pending.old pending.new
        (groups_text groups.now) result }
    ensures cause { FailsBySink K.Sink out.old out.new result }
{
    for group in groups {
        gather_group(group, out, pending)?;
    }
    Ok(())
}

// The line of a group, and what comes after it.
fn gather_group<K: Sink>(group: &Group, out: &mut K, pending: &mut Output) -> Result<(), SinkFault>
    ensures text { GathersFor K.Sink out.old out.new pending.old pending.new
        (group_text group.now) result }
    ensures cause { FailsBySink K.Sink out.old out.new result }
{
    gather_line(group, out, pending)?;
    gather_rest(group, out, pending)
}

fn gather_line<K: Sink>(group: &Group, out: &mut K, pending: &mut Output) -> Result<(), SinkFault>
    ensures text { GathersFor K.Sink out.old out.new pending.old pending.new
        (line_text group.now) result }
    ensures cause { FailsBySink K.Sink out.old out.new result }
{
    gather_head(group, out, pending)?;
    gather_ending(group.outcome.ending, out, pending)
}

// The values, and then the bytes.
fn gather_rest<K: Sink>(group: &Group, out: &mut K, pending: &mut Output) -> Result<(), SinkFault>
    ensures text { GathersFor K.Sink out.old out.new pending.old pending.new
        (rest_text group.now) result }
    ensures cause { FailsBySink K.Sink out.old out.new result }
{
    gather_values(group.spans.as_slice(), out, pending)?;
    gather_bytes(group.outcome.bytes.as_slice(), out, pending)
}

fn gather_values<K: Sink>(
    spans: &[Span],
    out: &mut K,
    pending: &mut Output,
) -> Result<(), SinkFault>
    ensures text { GathersFor K.Sink out.old out.new pending.old pending.new
        (values_text spans.now) result }
    ensures cause { FailsBySink K.Sink out.old out.new result }
{
    gather(out, pending, b"\nvalues")?;
    gather_spans(spans, out, pending)
}

fn gather_bytes<K: Sink>(bytes: &[u8], out: &mut K, pending: &mut Output) -> Result<(), SinkFault>
    ensures text { GathersFor K.Sink out.old out.new pending.old pending.new
        (bytes_text bytes.now) result }
    ensures cause { FailsBySink K.Sink out.old out.new result }
{
    gather_pieces(
        out,
        pending,
        &[Piece::Text(b"\n"), Piece::Text(bytes), Piece::Text(b"\n")],
    )
}

fn gather_head<K: Sink>(group: &Group, out: &mut K, pending: &mut Output) -> Result<(), SinkFault>
    ensures text { GathersFor K.Sink out.old out.new pending.old pending.new
        (head_text group.now) result }
    ensures cause { FailsBySink K.Sink out.old out.new result }
{
    gather_pieces(
        out,
        pending,
        &[
            Piece::Text(b"outcome "),
            Piece::Decimal(group.count),
            Piece::Text(b" "),
            Piece::Decimal(group.least),
            Piece::Text(b" "),
            Piece::Decimal(group.most),
            Piece::Text(b" "),
            Piece::Decimal(group.outcome.bytes.as_slice().len() as u64),
            Piece::Text(b" "),
        ],
    )
}

fn gather_ending<K: Sink>(
    ending: Ending,
    out: &mut K,
    pending: &mut Output,
) -> Result<(), SinkFault>
    ensures text { GathersFor K.Sink out.old out.new pending.old pending.new
        (ending_text ending) result }
    ensures cause { FailsBySink K.Sink out.old out.new result }
{
    match ending {
        Ending::Stopped(stop) => gather_stop(stop, out, pending),
        Ending::NoBoot { line, code } => gather_no_boot(line, code, out, pending),
        Ending::NoSession => gather(out, pending, b"no session"),
    }
}

fn gather_no_boot<K: Sink>(
    line: u32,
    code: u32,
    out: &mut K,
    pending: &mut Output,
) -> Result<(), SinkFault>
    ensures text { GathersFor K.Sink out.old out.new pending.old pending.new
        (no_boot_text line code) result }
    ensures cause { FailsBySink K.Sink out.old out.new result }
{
    gather_pieces(
        out,
        pending,
        &[
            Piece::Text(b"no boot "),
            Piece::Decimal(u64::from(line)),
            Piece::Text(b" "),
            Piece::Decimal(u64::from(code)),
        ],
    )
}

fn gather_stop<K: Sink>(stop: Stop, out: &mut K, pending: &mut Output) -> Result<(), SinkFault>
    ensures text { GathersFor K.Sink out.old out.new pending.old pending.new
        (stop_text stop) result }
    ensures cause { FailsBySink K.Sink out.old out.new result }
{
    match stop {
        Stop::Steps => gather(out, pending, b"steps"),
        Stop::Quit(code) => gather_quit(code, out, pending),
        Stop::Finish => gather(out, pending, b"finish"),
        Stop::Fault {
            code,
            address,
            task,
        } => gather_fault(code, address, task, out, pending),
    }
}

fn gather_quit<K: Sink>(code: u32, out: &mut K, pending: &mut Output) -> Result<(), SinkFault>
    ensures text { GathersFor K.Sink out.old out.new pending.old pending.new
        (quit_text code) result }
    ensures cause { FailsBySink K.Sink out.old out.new result }
{
    gather_pieces(
        out,
        pending,
        &[Piece::Text(b"quit "), Piece::Decimal(u64::from(code))],
    )
}

fn gather_fault<K: Sink>(
    code: u32,
    address: u32,
    task: u32,
    out: &mut K,
    pending: &mut Output,
) -> Result<(), SinkFault>
    ensures text { GathersFor K.Sink out.old out.new pending.old pending.new
        (fault_text code address task) result }
    ensures cause { FailsBySink K.Sink out.old out.new result }
{
    gather_pieces(
        out,
        pending,
        &[
            Piece::Text(b"fault "),
            Piece::Decimal(u64::from(code)),
            Piece::Text(b" at "),
            Piece::Decimal(u64::from(address)),
            Piece::Text(b" in task "),
            Piece::Decimal(u64::from(task)),
        ],
    )
}

fn gather_spans<K: Sink>(spans: &[Span], out: &mut K, pending: &mut Output) -> Result<(), SinkFault>
    ensures text { GathersFor K.Sink out.old out.new pending.old pending.new
        (spans_text spans.now) result }
    ensures cause { FailsBySink K.Sink out.old out.new result }
{
    for span in spans {
        gather_span(*span, out, pending)?;
    }
    Ok(())
}

fn gather_span<K: Sink>(span: Span, out: &mut K, pending: &mut Output) -> Result<(), SinkFault>
    ensures text { GathersFor K.Sink out.old out.new pending.old pending.new
        (span_text span) result }
    ensures cause { FailsBySink K.Sink out.old out.new result }
{
    let Span { first, last } = span;
    if first == last {
        return gather_pieces(out, pending, &[Piece::Text(b" "), Piece::Decimal(first)]);
    }
    gather_pieces(
        out,
        pending,
        &[
            Piece::Text(b" "),
            Piece::Decimal(first),
            Piece::Text(b"-"),
            Piece::Decimal(last),
        ],
    )
}
