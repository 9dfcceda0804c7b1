// Printing a module.
ghost use Rattle.std.specs.Prelude.{◌≡◌, ◌<◌, ◌^◌, length};
ghost use Rattle.std.specs.List.{AllByRecursion, flat_map};
ghost use Rattle.byte_streams.specs.Pending.{Gathers};
ghost use Rattle.byte_streams.specs.Sinks.{FailsBySink, GathersFor, PrintsTo};
ghost use Rattle.module_text.specs.Canonical.{IsPrintable, IsPrintableHunk, after_word, end_text, head_text, item_text, printed, relocations_text, text_of_hunk, word_text, words_text};

use crate::grammar::{END, HUNK, RELOCATIONS};
use crate::{Hunk, Module};
use byte_streams::{Output, Piece, Sink, SinkFault, gather_pieces, pass_on};

/// How many words a line has.
const WORDS_A_LINE: usize = 8;

/// Writes the text of a module: for each hunk a line with its type and its length and then its words, eight a line; then,
/// where it has relocations, a line with their type and their number and then the offsets, eight a line; last the end
/// word. Words have eight lower-case hex digits. It takes no memory. `SinkFault` comes only where the sink's count of
/// faults rose; then a prefix of the text is written.
pub fn print_module<K: Sink>(m: &Module, out: &mut K) -> Result<(), SinkFault>
    requires { IsPrintable m.now }
    ensures text { PrintsTo K.Sink out.old out.new (printed m.now) result }
    ensures cause { FailsBySink K.Sink out.old out.new result }
{
    let mut pending = Output::new();
    gather_module(m, out, &mut pending)?;
    pass_on(out, &mut pending)
}

#[tactic(auto, unfolding(crate::specs::Canonical::printed))]
fn gather_module<K: Sink>(m: &Module, out: &mut K, pending: &mut Output) -> Result<(), SinkFault>
    requires { IsPrintable m.now }
    ensures text { GathersFor K.Sink out.old out.new pending.old pending.new
        (printed m.now) result }
    ensures cause { FailsBySink K.Sink out.old out.new result }
{
    gather_hunks(m.hunks.as_slice(), out, pending)?;
    gather_end(out, pending)
}

// Gathers the line of the end word.
fn gather_end<K: Sink>(out: &mut K, pending: &mut Output) -> Result<(), SinkFault>
    ensures text { GathersFor K.Sink out.old out.new pending.old pending.new
        end_text result }
    ensures cause { FailsBySink K.Sink out.old out.new result }
{
    gather_pieces(out, pending, &[Piece::Word(END), Piece::Text(b"\n")])
}

fn gather_hunks<K: Sink>(hunks: &[Hunk], out: &mut K, pending: &mut Output) -> Result<(), SinkFault>
    requires { AllByRecursion IsPrintableHunk hunks.now }
    ensures text { GathersFor K.Sink out.old out.new pending.old pending.new
        (flat_map text_of_hunk hunks.now) result }
    ensures cause { FailsBySink K.Sink out.old out.new result }
{
    for hunk in hunks {
        gather_hunk(hunk, out, pending)?;
    }
    Ok(())
}

// Gathers a hunk and its relocations.
fn gather_hunk<K: Sink>(hunk: &Hunk, out: &mut K, pending: &mut Output) -> Result<(), SinkFault>
    requires { IsPrintableHunk hunk.now }
    ensures text { GathersFor K.Sink out.old out.new pending.old pending.new
        (text_of_hunk hunk.now) result }
    ensures cause { FailsBySink K.Sink out.old out.new result }
{
    gather_item(HUNK, hunk.words.as_slice(), out, pending)?;
    gather_relocations(hunk.relocations.as_slice(), out, pending)
}

// Gathers all relocations of a hunk, if there are any.
fn gather_relocations<K: Sink>(
    offsets: &[u32],
    out: &mut K,
    pending: &mut Output,
) -> Result<(), SinkFault>
    requires { length offsets.now < 2 ^ 32 }
    ensures text { GathersFor K.Sink out.old out.new pending.old pending.new
        (relocations_text offsets.now) result }
    ensures cause { FailsBySink K.Sink out.old out.new result }
{
    if offsets.is_empty() {
        return Ok(());
    }
    gather_item(RELOCATIONS, offsets, out, pending)
}

// Gathers a line with the type and the number of the words, and then the words.
fn gather_item<K: Sink>(
    kind: u32,
    words: &[u32],
    out: &mut K,
    pending: &mut Output,
) -> Result<(), SinkFault>
    requires { length words.now < 2 ^ 32 }
    ensures text { GathersFor K.Sink out.old out.new pending.old pending.new
        (item_text kind words.now) result }
    ensures cause { FailsBySink K.Sink out.old out.new result }
{
    gather_head(kind, words.len() as u32, out, pending)?;
    gather_words(words, out, pending)
}

// Gathers the line before the words of an item.
fn gather_head<K: Sink>(
    kind: u32,
    count: u32,
    out: &mut K,
    pending: &mut Output,
) -> Result<(), SinkFault>
    ensures text { GathersFor K.Sink out.old out.new pending.old pending.new
        (head_text kind count) result }
    ensures cause { FailsBySink K.Sink out.old out.new result }
{
    gather_pieces(
        out,
        pending,
        &[
            Piece::Word(kind),
            Piece::Text(b" "),
            Piece::Word(count),
            Piece::Text(b"\n"),
        ],
    )
}

// Gathers words, eight a line.
fn gather_words<K: Sink>(words: &[u32], out: &mut K, pending: &mut Output) -> Result<(), SinkFault>
    ensures text { GathersFor K.Sink out.old out.new pending.old pending.new
        (words_text 0 (length words.now) words.now) result }
    ensures cause { FailsBySink K.Sink out.old out.new result }
{
    for (i, word) in words.iter().enumerate() {
        gather_word(i, words.len(), *word, out, pending)?;
    }
    Ok(())
}

// Gathers word i of n.
fn gather_word<K: Sink>(
    i: usize,
    n: usize,
    word: u32,
    out: &mut K,
    pending: &mut Output,
) -> Result<(), SinkFault>
    requires { i < n }
    ensures text { GathersFor K.Sink out.old out.new pending.old pending.new
        (word_text i n word) result }
    ensures cause { FailsBySink K.Sink out.old out.new result }
{
    let after = after_word(i, n);
    gather_pieces(out, pending, &[Piece::Word(word), Piece::Text(after)])
}

// What is after word i of n.
fn after_word(i: usize, n: usize) -> &'static [u8]
    requires { i < n }
    ensures { result.now ≡ after_word i n }
{
    if i % WORDS_A_LINE == WORDS_A_LINE - 1 || i + 1 == n {
        return b"\n";
    }
    b" "
}
