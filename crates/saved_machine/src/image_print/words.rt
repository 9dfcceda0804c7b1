// The words of a machine's text, and its last line.
ghost use Rattle.std.specs.Prelude.{◌≡◌};
ghost use Rattle.saved_text.specs.ImageForm.{word_statement, word_statements};
ghost use Rattle.byte_streams.specs.Sinks.{FailsBySink, GathersFor};
ghost use Rattle.saved_machine.specs.ImagePrint.Private.Texts.{end_text, statements_text};

use byte_streams::{Output, Sink, SinkFault};
use saved_text::saved_lines::{print_go, print_word};
use word_store::Store;

/// Adds a line for each word that is not 0 to what is pending, and the last line.
pub(crate) fn print_end<K: Sink>(
    store: &Store,
    go: u64,
    out: &mut K,
    pending: &mut Output,
) -> Result<(), SinkFault>
    ensures text { GathersFor K.Sink out.old out.new pending.old pending.new
        (end_text go store.now) result }
    ensures cause { FailsBySink K.Sink out.old out.new result }
{
    print_words(all_words(store), out, pending)?;
    print_go(go, out, pending)
}

/// All words of a store, lent.
pub(crate) fn all_words(store: &Store) -> &[u32]
    ensures { result.now ≡ store.now }
{
    match store.words(0, store.size()) {
        Some(words) => words,
        None => unreachable!(),
    }
}

fn print_words<K: Sink>(words: &[u32], out: &mut K, pending: &mut Output) -> Result<(), SinkFault>
    ensures text { GathersFor K.Sink out.old out.new pending.old pending.new
        (statements_text (word_statements 0 words.now)) result }
    ensures cause { FailsBySink K.Sink out.old out.new result }
{
    for (a, w) in words.iter().enumerate() {
        print_word_at(a as u64, *w, out, pending)?;
    }
    Ok(())
}

fn print_word_at<K: Sink>(
    a: u64,
    w: u32,
    out: &mut K,
    pending: &mut Output,
) -> Result<(), SinkFault>
    ensures text { GathersFor K.Sink out.old out.new pending.old pending.new
        (statements_text (word_statement a w)) result }
    ensures cause { FailsBySink K.Sink out.old out.new result }
{
    if w == 0 {
        return Ok(());
    }
    print_word(a, w, out, pending)
}
