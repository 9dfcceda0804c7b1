// The assembly of a hunk.
ghost use Rattle.std.specs.Prelude.{IfOk};
ghost use Rattle.module_text.specs.Canonical.{IsPrintableHunk};
ghost use Rattle.module_code.specs.Made.{IsFormOf};

use crate::flow::find_code;
use crate::hunk_code::HunkCode;
use crate::known_names::Names;
use crate::labels::find_labels;
use crate::lines::Source;
use crate::made_again::form_with;
use crate::parts::Form;
use crate::reasons::why_none;
use module_text::Hunk;
use std::alloc::{AllocError, Global};
use tool_texts::Said::{Bytes, Number};
use tool_texts::push_sentence;

/// The form in which a hunk is written: as assembly where that makes it again, and else as words.
pub fn form_of(alloc: Global, hunk: &Hunk, names: &Names) -> Result<Form, AllocError>
    requires { IsPrintableHunk hunk.now }
    ensures { IfOk result (IsFormOf hunk.now) }
{
    let code = find_code(alloc, hunk)?;
    if let Some(why) = why_none(alloc, &code)? {
        return Ok(Form::Words(why));
    }
    let lines = assembly_lines(alloc, code, names)?;
    form_with(alloc, hunk, lines)
}

// The assembly of a hunk.
fn assembly_lines(alloc: Global, code: HunkCode, names: &Names) -> Result<Vec<u8>, AllocError> {
    let mut code = code;
    let labels = find_labels(alloc, &mut code, names)?;
    let source = Source::new(alloc, code, labels)?;
    let mut text = Vec::new(alloc);
    source.push_lines(alloc, names, &mut text)?;
    push_globals(&mut text, &source)?;
    Ok(text)
}

// Adds the label of the end, if it has one, and the lines of the global table.
fn push_globals(text: &mut Vec<u8>, source: &Source) -> Result<(), AllocError> {
    let end = source.code.end();
    if source.labels.is_wanted(end) {
        source.labels.push_label(text, end)?;
        push_sentence(text, &[Bytes(b":\n")])?;
    }
    let pairs = source.code.table.pairs.as_slice();
    for pair in pairs.iter().rev() {
        let number = Number(u64::from(pair.number));
        push_sentence(text, &[Bytes(b"GLOBAL "), number, Bytes(b" ")])?;
        source.labels.push_label(text, pair.place)?;
        push_sentence(text, &[Bytes(b"\n")])?;
    }
    Ok(())
}
