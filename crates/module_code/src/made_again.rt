// Whether assembly makes a hunk again.
ghost use Rattle.std.specs.Prelude.{◌≡◌, ◌<◌, true, length, IfOk};
ghost use Rattle.module_text.specs.Canonical.{IsPrintableHunk, printed};
ghost use Rattle.module_code.specs.Made.{IsFormOf, Makes, MakesFront, one_hunk, with_last};

use crate::global_tables::read_table;
use crate::parts::Form;
use assembly::assemble;
use module_text::{Hunk, Hunks, Module, TextEnd, WordList, print_module};
use std::alloc::{AllocError, Global};
use text_sinks::TextSink;
use tool_texts::Said::Bytes;
use tool_texts::push_sentence;

/// The form in which a hunk is written of which these lines were made: as these, where they make it again, and else as words.
pub fn form_with(alloc: Global, hunk: &Hunk, lines: Vec<u8>) -> Result<Form, AllocError>
    requires { IsPrintableHunk hunk.now }
    ensures { IfOk result (IsFormOf hunk.now) }
{
    if makes(alloc, lines.as_slice(), hunk)? {
        return Ok(Form::Whole(lines));
    }
    if makes_front(alloc, lines.as_slice(), hunk)? {
        return Ok(Form::WithLast(lines));
    }
    let mut why = Vec::new(alloc);
    push_sentence(&mut why, &[Bytes(b"its assembly makes another hunk")])?;
    Ok(Form::Words(why))
}

// Whether the assembler makes this hunk of these lines.
fn makes(alloc: Global, lines: &[u8], hunk: &Hunk) -> Result<bool, AllocError>
    requires { IsPrintableHunk hunk.now }
    ensures { IfOk result (λ is. is ≡ true → Makes lines.now hunk.now) }
{
    if lines.len() >= 1 << 30 {
        return Ok(false);
    }
    match assemble(alloc, lines) {
        Ok(made) => {
            let wanted = printed_hunk(alloc, hunk)?;
            Ok(made.as_slice() == wanted.as_slice())
        }
        Err(TextEnd::Bad { .. }) => Ok(false),
        Err(TextEnd::WantMemory) => Err(AllocError),
    }
}

// Whether it makes a hunk of these lines whose last word is the highest number of a global that it sets, and that is this one otherwise.
fn makes_front(alloc: Global, lines: &[u8], hunk: &Hunk) -> Result<bool, AllocError>
    requires { IsPrintableHunk hunk.now }
    ensures { IfOk result (λ is. is ≡ true → MakesFront lines.now hunk.now) }
{
    let words = hunk.words.as_slice();
    if words.is_empty() {
        return Ok(false);
    }
    let last = highest_set(alloc, words)?;
    let other = hunk_with_last(alloc, hunk, last)?;
    makes(alloc, lines, &other)
}

// The highest number that the global table of a hunk sets.
fn highest_set(alloc: Global, words: &[u32]) -> Result<u32, AllocError> {
    let table = read_table(alloc, words)?;
    Ok(
        table
            .pairs
            .iter()
            .map(|pair| pair.number)
            .max()
            .unwrap_or(0),
    )
}

// The printed text of a module of one hunk.
fn printed_hunk(alloc: Global, hunk: &Hunk) -> Result<Vec<u8>, AllocError>
    requires { IsPrintableHunk hunk.now }
    ensures { IfOk result (λ v. v.items ≡ printed (one_hunk hunk.now)) }
{
    let mut hunks = Vec::new(alloc);
    hunks.push(copy(alloc, hunk)?)?;
    let module = Module {
        hunks: Hunks::new(hunks),
    };
    let mut sink = TextSink::new(alloc);
    match print_module(&module, &mut sink) {
        Ok(()) => Ok(sink.bytes),
        Err(_) => Err(AllocError),
    }
}

// The same hunk once more.
fn copy(alloc: Global, hunk: &Hunk) -> Result<Hunk, AllocError>
    ensures { IfOk result (λ h. h ≡ hunk.now) }
{
    let mut words = Vec::new(alloc);
    words.extend_from_slice(hunk.words.as_slice())?;
    hunk_of(alloc, words, hunk.relocations.as_slice())
}

// A hunk with another last word.
#[tactic(auto, using(crate::proofs::LastWords::printable_with))]
fn hunk_with_last(alloc: Global, hunk: &Hunk, last: u32) -> Result<Hunk, AllocError>
    requires some { 0 < length hunk.now.words }
    requires printable { IsPrintableHunk hunk.now }
    ensures made { IfOk result (λ h. h ≡ with_last last hunk.now) }
    ensures printable { IfOk result IsPrintableHunk }
{
    let mut words = Vec::new(alloc);
    words.extend_from_slice(hunk.words.as_slice())?;
    words.pop();
    words.push(last)?;
    hunk_of(alloc, words, hunk.relocations.as_slice())
}

// A hunk of these words, with copies of these relocations.
fn hunk_of(alloc: Global, words: Vec<u32>, offsets: &[u32]) -> Result<Hunk, AllocError>
    ensures { IfOk result (λ h. h ≡ record { words = words.items; relocations = offsets.now }) }
{
    let mut relocations = Vec::new(alloc);
    relocations.extend_from_slice(offsets)?;
    Ok(Hunk {
        words: WordList::new(words),
        relocations: WordList::new(relocations),
    })
}
