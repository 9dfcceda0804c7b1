// The words of a store.
ghost use Rattle.std.specs.Prelude.{◌≡◌, ◌<◌, ◌+◌, ◌^◌, drop, length, take};
ghost use Rattle.byte_streams.specs.Pending.{Gathers};
ghost use Rattle.byte_streams.specs.Sinks.{FailsBySink, GathersFor};
ghost use Rattle.debugger.specs.Texts.{word_line, word_lines, words_text};

use byte_streams::Piece::{Decimal, Text, Word};
use byte_streams::{Output, Sink, SinkFault, gather_pieces};
use word_store::Store;

/// Gathers a word's line: its address in decimal, and eight hex digits.
pub fn gather_word<K: Sink>(
    a: u64,
    w: u32,
    out: &mut K,
    pending: &mut Output,
) -> Result<(), SinkFault>
    ensures text { GathersFor K.Sink out.old out.new pending.old pending.new
        (word_line a w) result }
    ensures cause { FailsBySink K.Sink out.old out.new result }
{
    gather_pieces(
        out,
        pending,
        &[Decimal(a), Text(b" "), Word(w), Text(b"\n")],
    )
}

/// Gathers the lines of so many words from an address on, of those that are in the store.
pub(crate) fn gather_words<K: Sink>(
    store: &Store,
    from: u32,
    count: u32,
    out: &mut K,
    pending: &mut Output,
) -> Result<(), SinkFault>
    ensures text { GathersFor K.Sink out.old out.new pending.old pending.new
        (words_text from count store.now) result }
    ensures cause { FailsBySink K.Sink out.old out.new result }
{
    let there = store.size().saturating_sub(from).min(count);
    match store.words(from, there) {
        Some(words) => gather_lines(u64::from(from), words, out, pending),
        None => Ok(()),
    }
}

// The first of these words is at the address.
fn gather_lines<K: Sink>(
    from: u64,
    words: &[u32],
    out: &mut K,
    pending: &mut Output,
) -> Result<(), SinkFault>
    requires { from + length words.now < 2 ^ 64 }
    ensures text { GathersFor K.Sink out.old out.new pending.old pending.new
        (word_lines from words.now) result }
    ensures cause { FailsBySink K.Sink out.old out.new result }
{
    for (i, w) in words.iter().enumerate() {
        gather_word(from + i as u64, *w, out, pending)?;
    }
    Ok(())
}
