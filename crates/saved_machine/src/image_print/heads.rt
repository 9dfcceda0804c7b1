// The first lines of the text of a machine.
ghost use Rattle.std.specs.Prelude.{false, true};
ghost use Rattle.module_text.specs.TextReader.Lines.{text_of_lines};
ghost use Rattle.byte_streams.specs.Sinks.{FailsBySink, GathersFor};
ghost use Rattle.saved_machine.specs.ImagePrint.Private.Texts.{head_lines};

use byte_streams::Piece::{Decimal, Text};
use byte_streams::{Output, Sink, SinkFault, gather_pieces};
use saved_text::saved_lines::print_regs;
use word_store::Regs;

/// Adds the first five lines of a machine with a kernel to what is pending.
pub(crate) fn print_kernel_head<K: Sink>(
    version: u32,
    words: u32,
    period: u32,
    step: u64,
    regs: &Regs,
    out: &mut K,
    pending: &mut Output,
) -> Result<(), SinkFault>
    ensures text { GathersFor K.Sink out.old out.new pending.old pending.new
        (text_of_lines (head_lines version words false period step regs.now)) result }
    ensures cause { FailsBySink K.Sink out.old out.new result }
{
    gather_pieces(
        out,
        pending,
        &[
            Text(b"TRIPOS-IMAGE "),
            Decimal(u64::from(version)),
            Text(b"\nSTORE "),
            Decimal(u64::from(words)),
            Text(b"\nTICK "),
            Decimal(u64::from(period)),
            Text(b"\nSTEP "),
            Decimal(step),
            Text(b"\n"),
        ],
    )?;
    print_regs(regs, out, pending)
}

/// Adds the first five lines of a machine without a kernel.
pub(crate) fn print_bare_head<K: Sink>(
    version: u32,
    words: u32,
    step: u64,
    regs: &Regs,
    out: &mut K,
    pending: &mut Output,
) -> Result<(), SinkFault>
    ensures text { GathersFor K.Sink out.old out.new pending.old pending.new
        (text_of_lines (head_lines version words true 0 step regs.now)) result }
    ensures cause { FailsBySink K.Sink out.old out.new result }
{
    gather_pieces(
        out,
        pending,
        &[
            Text(b"TRIPOS-IMAGE "),
            Decimal(u64::from(version)),
            Text(b"\nSTORE "),
            Decimal(u64::from(words)),
            Text(b"\nBARE"),
            Text(b"\nSTEP "),
            Decimal(step),
            Text(b"\n"),
        ],
    )?;
    print_regs(regs, out, pending)
}
