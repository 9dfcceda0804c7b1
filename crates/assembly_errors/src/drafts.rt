// All lines of a text, where some are in error.
ghost use Rattle.std.specs.Prelude.{◌≡◌, ◌==◌, ◌≤◌, ◌+◌, ◌<◌, ◌^◌, ◌++◌, ◌∷◌, [], length, IfOk, OnOk};
ghost use Rattle.std.specs.List.{position};
ghost use Rattle.assembly.specs.AssemblyText.Parts.{parts_of};
ghost use Rattle.module_text.specs.TextReader.Lines.{lines_of};
ghost use Rattle.assembly.specs.AssemblyText.Survey.{no_lines};
ghost use Rattle.assembly_errors.specs.Drafts.{definitions_with, draft_of, drafted, drafted_line, is_said, label_before_colon, leads_with, loose_label, no_draft, with_error, with_line, with_loose_label, with_read};
ghost use Rattle.assembly_errors.specs.Leads.{names_label};

use crate::leads::Lead;
use assembly::assembly_text::errors::LineError;
use assembly::assembly_text::labels::Label;
use assembly::assembly_text::parts::split_part;
use assembly::assembly_text::places::{FIRST_OFFSET, Place};
use assembly::assembly_text::read::read_line;
use assembly::assembly_text::statements::{Line, Statement};
use assembly::assembly_text::survey::{Surveyed, add, admit};
use assembly::assembly_text::tables::{define, look_up};
use module_text::split_line;
use std::alloc::{AllocError, Global};
use std::collections::BTreeMap;
use tool_texts::Lent;

/// A line in error.
#[derive(Drop)]
pub struct Finding<'a> {
    /// Its number, from 1.
    pub number: u32,
    /// The line.
    pub text: Lent<'a>,
    /// Where the bytes of the lines before it end.
    pub offset: u32,
    /// What is wrong with it.
    pub error: LineError,
}

/// A label, and where it is defined.
#[derive(Drop)]
pub struct Definition<'a> {
    /// The label.
    pub name: Lent<'a>,
    /// The number of the line.
    pub number: u32,
}

/// What is known of a text, or of its first lines.
#[derive(Drop)]
pub struct Draft<'a> {
    /// Where the lines that are right have their bytes, and what labels name.
    pub known: Surveyed<'a>,
    /// The lines that are wrong in themselves, or after those before them.
    pub found: Vec<Finding<'a>>,
    /// The lines that name a label and may still be wrong.
    pub leads: Vec<Lead<'a>>,
    /// The labels, each where it is defined first.
    pub definitions: Vec<Definition<'a>>,
}

/// All lines of a text.
pub fn read_draft(alloc: Global, text: &[u8]) -> Result<Draft<'_>, AllocError>
    requires { length text.now < 2 ^ 32 }
    ensures { IfOk result (λ d. draft_of d ≡ drafted 1 no_draft (lines_of text.now)) }
{
    let mut draft = Draft {
        known: Surveyed {
            offset: FIRST_OFFSET,
            pairs: 0,
            labels: BTreeMap::new(alloc),
        },
        found: Vec::new(alloc),
        leads: Vec::new(alloc),
        definitions: Vec::new(alloc),
    };
    let mut n = 0;
    let mut rest = text;
    while let Some((line, others)) = split_line(rest) {
        n += 1;
        draft_line(&mut draft, n, line)?;
        rest = others;
    }
    Ok(draft)
}

// Line n comes next.
fn draft_line<'a>(draft: &mut Draft<'a>, n: u32, text: &'a [u8]) -> Result<(), AllocError>
    requires low { draft.old.known.offset ≤ 262144 }
    requires few { draft.old.known.pairs ≤ 65536 }
    ensures value { OnOk result
        (draft_of draft.new ≡ drafted_line n (draft_of draft.old) text.now) }
    ensures low { OnOk result (draft.new.known.offset ≤ 262144) }
    ensures few { OnOk result (draft.new.known.pairs ≤ 65536) }
{
    match read_line(text) {
        Ok(line) => draft_read(draft, n, text, line),
        Err(error) => add_error(draft, n, text, error),
    }
}

// Line n, which says this, comes next.
fn draft_read<'a>(
    draft: &mut Draft<'a>,
    n: u32,
    text: &'a [u8],
    line: Line<'a>,
) -> Result<(), AllocError>
    requires low { draft.old.known.offset ≤ 262144 }
    requires few { draft.old.known.pairs ≤ 65536 }
    ensures value { OnOk result
        (draft_of draft.new ≡ with_read n (draft_of draft.old) text.now line.entry) }
    ensures low { OnOk result (draft.new.known.offset ≤ 262144) }
    ensures few { OnOk result (draft.new.known.pairs ≤ 65536) }
{
    match admit(&draft.known, &line) {
        Ok(()) => add_line(draft, n, text, line),
        Err(error) => add_error(draft, n, text, error),
    }
}

// Adds line n, which is right so far.
fn add_line<'a>(
    draft: &mut Draft<'a>,
    n: u32,
    text: &'a [u8],
    line: Line<'a>,
) -> Result<(), AllocError>
    requires low { draft.old.known.offset ≤ 262144 }
    requires few { draft.old.known.pairs ≤ 65536 }
    ensures value { OnOk result
        (draft_of draft.new ≡ with_line n (draft_of draft.old) text.now line.entry) }
{
    let offset = draft.known.offset;
    add(&mut draft.known, &line)?;
    let Line { label, statement } = line;
    add_definition(&mut draft.definitions, n, label)?;
    add_lead(&mut draft.leads, n, text, offset, statement)
}

// Adds the label of line n, if it has one.
fn add_definition<'a>(
    definitions: &mut Vec<Definition<'a>>,
    n: u32,
    label: Option<Label<'a>>,
) -> Result<(), AllocError>
    ensures { OnOk result
        (definitions.new.items ≡ definitions_with n definitions.old.items label.entry) }
{
    if let Some(label) = label {
        definitions.push(Definition {
            name: Lent::new(label.name()),
            number: n,
        })?;
    }
    Ok(())
}

// Adds line n, if it names a label.
fn add_lead<'a>(
    leads: &mut Vec<Lead<'a>>,
    n: u32,
    text: &'a [u8],
    offset: u32,
    statement: Statement<'a>,
) -> Result<(), AllocError>
    requires { offset ≤ 262144 }
    ensures { OnOk result
        (leads.new.items ≡ leads_with n leads.old.items text.now offset statement.entry) }
{
    if names_label(&statement) {
        leads.push(Lead::new(n, text, offset, statement))?;
    }
    Ok(())
}

fn names_label(statement: &Statement) -> bool
    ensures { result ≡ names_label statement.now }
{
    !matches!(statement, Statement::Fixed(_) | Statement::Align(_))
}

// Line n is wrong. Its label is defined all the same.
fn add_error<'a>(
    draft: &mut Draft<'a>,
    n: u32,
    text: &'a [u8],
    error: LineError,
) -> Result<(), AllocError>
    ensures value { OnOk result
        (draft_of draft.new ≡ with_error n (draft_of draft.old) text.now error) }
    ensures offset { draft.new.known.offset ≡ draft.old.known.offset }
    ensures pairs { draft.new.known.pairs ≡ draft.old.known.pairs }
{
    if is_said(error, draft.found.is_empty()) {
        draft.found.push(Finding {
            number: n,
            text: Lent::new(text),
            offset: draft.known.offset,
            error,
        })?;
    }
    add_loose_label(draft, n, text)
}

// The length of the hunk is known only where no line was wrong.
fn is_said(error: LineError, is_first: bool) -> bool
    ensures { result ≡ is_said error is_first }
{
    is_first || !matches!(error, LineError::HunkTooLong)
}

// Adds the label of line n, which is wrong, where no line before it has that label.
fn add_loose_label<'a>(draft: &mut Draft<'a>, n: u32, text: &'a [u8]) -> Result<(), AllocError>
    ensures value { OnOk result
        (draft_of draft.new ≡ with_loose_label n (draft_of draft.old) text.now) }
    ensures offset { draft.new.known.offset ≡ draft.old.known.offset }
    ensures pairs { draft.new.known.pairs ≡ draft.old.known.pairs }
{
    let Some(label) = loose_label(text) else {
        return Ok(());
    };
    if look_up(&draft.known.labels, label.name()).is_some() {
        return Ok(());
    }
    let place = Place {
        offset: draft.known.offset,
        is_reserve: false,
    };
    define(&mut draft.known.labels, label.name(), place)?;
    draft.definitions.push(Definition {
        name: Lent::new(label.name()),
        number: n,
    })?;
    Ok(())
}

// The label with which a line begins, whatever else it says.
fn loose_label(text: &[u8]) -> Option<Label<'_>>
    ensures { result ≡ loose_label (parts_of text.now) }
{
    match split_part(text) {
        None => None,
        Some((part, _)) => label_before_colon(part),
    }
}

// The label before the first colon of a part.
fn label_before_colon(part: &[u8]) -> Option<Label<'_>>
    ensures { result ≡ label_before_colon part.now }
{
    match first_colon(part) {
        None => None,
        Some(end) => Label::read(part.split_at(end).0),
    }
}

/// Where the first colon is.
pub fn first_colon(part: &[u8]) -> Option<usize>
    ensures { result ≡ position (λ c. c == 58) part.now }
{
    part.iter().position(|c| *c == b':')
}
