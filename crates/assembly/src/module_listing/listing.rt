// The listing of a hunk, and of a module.
ghost use Rattle.std.specs.Prelude.{◌≡◌, ◌<◌, ◌^◌, length};
ghost use Rattle.std.specs.List.{AllByRecursion};
ghost use Rattle.byte_streams.specs.Pending.{Gathers};
ghost use Rattle.byte_streams.specs.Sinks.{FailsBySink, GathersFor, PrintsTo};
ghost use Rattle.assembly.specs.ModuleListing.HunkListing.{head_line, lines_of_words, listing, listing_of_module};

use crate::module_listing::hunks::HunkBytes;
use crate::module_listing::lines::gather_line;
use byte_streams::{Output, Piece, Sink, SinkFault, gather_pieces, pass_on};
use module_text::{Hunk, Module};

/// Writes the listing of a hunk of fewer than 2 ^ 30 words: the line `HUNK k length n`, where k is `number` and n the
/// number of words, and then a line for each instruction, from byte 0 up to the hunk's end. `SinkFault` comes only where
/// the sink's count of faults rose; then a prefix of the listing is written.
pub fn disassemble<K: Sink>(hunk: &Hunk, number: u32, out: &mut K) -> Result<(), SinkFault>
    requires { length hunk.now.words < 2 ^ 30 }
    ensures text { PrintsTo K.Sink out.old out.new
        (listing number hunk.now.words) result }
    ensures cause { FailsBySink K.Sink out.old out.new result }
{
    let mut pending = Output::new();
    gather_hunk(hunk, number, out, &mut pending)?;
    pass_on(out, &mut pending)
}

/// Writes the listing of a module: the listings of its hunks, in their order, numbered from 1. `SinkFault` comes only
/// where the sink's count of faults rose; then a prefix of the listing is written.
pub fn disassemble_module<K: Sink>(m: &Module, out: &mut K) -> Result<(), SinkFault>
    requires count { length m.now.hunks < 2 ^ 32 }
    requires words { AllByRecursion (λ h. length h.words < 2 ^ 30) m.now.hunks }
    ensures text { PrintsTo K.Sink out.old out.new
        (listing_of_module m.now.hunks) result }
    ensures cause { FailsBySink K.Sink out.old out.new result }
{
    let mut pending = Output::new();
    gather_hunks(m, out, &mut pending)?;
    pass_on(out, &mut pending)
}

fn gather_hunks<K: Sink>(m: &Module, out: &mut K, pending: &mut Output) -> Result<(), SinkFault>
    requires count { length m.now.hunks < 2 ^ 32 }
    requires words { AllByRecursion (λ h. length h.words < 2 ^ 30) m.now.hunks }
    ensures text { GathersFor K.Sink out.old out.new pending.old pending.new
        (listing_of_module m.now.hunks) result }
    ensures cause { FailsBySink K.Sink out.old out.new result }
{
    for (i, hunk) in m.hunks.as_slice().iter().enumerate() {
        gather_hunk(hunk, i as u32 + 1, out, pending)?;
    }
    Ok(())
}

#[tactic(auto, unfolding(crate::specs::ModuleListing::HunkListing::listing))]
fn gather_hunk<K: Sink>(
    hunk: &Hunk,
    number: u32,
    out: &mut K,
    pending: &mut Output,
) -> Result<(), SinkFault>
    requires { length hunk.now.words < 2 ^ 30 }
    ensures text { GathersFor K.Sink out.old out.new pending.old pending.new
        (listing number hunk.now.words) result }
    ensures cause { FailsBySink K.Sink out.old out.new result }
{
    let code = HunkBytes::new(hunk);
    gather_head(number, code.words(), out, pending)?;
    gather_lines(&code, out, pending)
}

fn gather_head<K: Sink>(
    number: u32,
    words: u32,
    out: &mut K,
    pending: &mut Output,
) -> Result<(), SinkFault>
    ensures text { GathersFor K.Sink out.old out.new pending.old pending.new
        (head_line number words) result }
    ensures cause { FailsBySink K.Sink out.old out.new result }
{
    gather_pieces(
        out,
        pending,
        &[
            Piece::Text(b"HUNK "),
            Piece::Decimal(u64::from(number)),
            Piece::Text(b" length "),
            Piece::Decimal(u64::from(words)),
            Piece::Text(b"\n"),
        ],
    )
}

// Gathers the lines of all bytes.
fn gather_lines<K: Sink>(
    code: &HunkBytes,
    out: &mut K,
    pending: &mut Output,
) -> Result<(), SinkFault>
    ensures text { GathersFor K.Sink out.old out.new pending.old pending.new
        (lines_of_words code.now) result }
    ensures cause { FailsBySink K.Sink out.old out.new result }
{
    let end = u64::from(4 * code.words());
    let mut place = 0;
    while place < end {
        let length = gather_line(code, place as u32, out, pending)?;
        place += u64::from(length);
    }
    Ok(())
}
