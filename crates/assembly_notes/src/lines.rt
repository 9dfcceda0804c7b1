// The lines of a text, one after the other.
ghost use Rattle.std.specs.Prelude.{◌≡◌, ◌++◌, ◌<◌, ◌^◌, length, map, None, IfOk, OnOk};
ghost use Rattle.module_text.specs.TextReader.Lines.{lines_of};
ghost use Rattle.assembly.specs.AssemblyText.KeptLabels.{table_of};
ghost use Rattle.tool_texts.specs.Reports.{report_of};
ghost use Rattle.assembly_notes.specs.Flows.{flow_of};
ghost use Rattle.assembly_notes.specs.Lines.{end_notes, flow_notes, line_notes, named_notes, notes_from, going_after, going_after_line};

use crate::flows::{Flow, flow_of};
use crate::named_texts::{NamedText, push_note};
use crate::word_labels::push_word_notes;
use assembly::assembly_text::parts::without_comment;
use assembly::assembly_text::places::Place;
use assembly_errors::name_words::{NamedLine, named_line};
use assembly_errors::parts::Part;
use module_text::split_line;
use std::alloc::{AllocError, Global};
use std::collections::BTreeMap;
use tool_texts::Said::{Bytes, Number};
use tool_texts::{Lent, Report};

/// Adds what is strange of the lines of a text whose labels are these.
pub fn push_notes<'a>(
    alloc: Global,
    labels: &BTreeMap<&[u8], Place>,
    text: &'a [u8],
    reports: &mut Vec<Report<'a>>,
) -> Result<(), AllocError>
    requires { length text.now < 2 ^ 32 }
    ensures { OnOk result (map report_of reports.new.items
        ≡ map report_of reports.old.items ++ notes_from (table_of labels.now) 1 None (lines_of text.now)) }
{
    let mut going = None;
    let mut n = 0;
    let mut rest = text;
    while let Some((line, others)) = split_line(rest) {
        n += 1;
        going = push_line_notes(alloc, labels, n, line, going, reports)?;
        rest = others;
    }
    push_end_notes(alloc, &going, reports)
}

// Adds what is strange of line n, after an instruction that goes on, if there is one. The answer is the instruction that goes on then.
fn push_line_notes<'a>(
    alloc: Global,
    labels: &BTreeMap<&[u8], Place>,
    n: u64,
    text: &'a [u8],
    going: Option<NamedText<'a>>,
    reports: &mut Vec<Report<'a>>,
) -> Result<Option<NamedText<'a>>, AllocError>
    ensures notes { OnOk result (map report_of reports.new.items
        ≡ map report_of reports.old.items ++ line_notes (table_of labels.now) n going.entry text.now) }
    ensures going { IfOk result (λ o. o ≡ going_after_line n going.entry text.now) }
{
    let NamedLine { name, operands, .. } = named_line(without_comment(text));
    match name {
        Some(name) => {
            let line = NamedText {
                number: n,
                text: Lent::new(text),
                name: name.text,
                column: name.column,
            };
            push_named_notes(alloc, labels, line, &operands.first, going, reports)
        }
        None => Ok(going),
    }
}

// The same for a line with a name and this after it.
fn push_named_notes<'a>(
    alloc: Global,
    labels: &BTreeMap<&[u8], Place>,
    line: NamedText<'a>,
    operand: &Option<Part<'a>>,
    going: Option<NamedText<'a>>,
    reports: &mut Vec<Report<'a>>,
) -> Result<Option<NamedText<'a>>, AllocError>
    ensures notes { OnOk result (map report_of reports.new.items
        ≡ map report_of reports.old.items
        ++ named_notes (table_of labels.now) line.entry operand.now going.entry) }
    ensures going { IfOk result (λ o. o ≡ going_after (flow_of line.entry.name) line.entry going.entry) }
{
    let flow = flow_of(line.name.bytes());
    push_flow_notes(alloc, flow, line.number, &going, reports)?;
    push_word_notes(alloc, labels, &line, operand, reports)?;
    Ok(going_after(flow, line, going))
}

// The instruction that goes on after a line, if there is one.
fn going_after<'a>(
    flow: Flow,
    line: NamedText<'a>,
    going: Option<NamedText<'a>>,
) -> Option<NamedText<'a>>
    ensures { result ≡ going_after flow line.entry going.entry }
{
    match flow {
        Flow::Nothing => going,
        Flow::Data | Flow::Ends => None,
        Flow::GoesOn => Some(line),
    }
}

// Adds that an instruction goes on into line n, where data is.
fn push_flow_notes<'a>(
    alloc: Global,
    flow: Flow,
    n: u64,
    going: &Option<NamedText<'a>>,
    reports: &mut Vec<Report<'a>>,
) -> Result<(), AllocError>
    ensures { OnOk result (map report_of reports.new.items
        ≡ map report_of reports.old.items ++ flow_notes flow n going.now) }
{
    match (flow, going) {
        (Flow::Data, Some(before)) => push_note(
            alloc,
            before,
            before.column,
            &[
                Bytes(b"after this instruction the run goes on in line "),
                Number(n),
                Bytes(b", where data is"),
            ],
            reports,
        ),
        _ => Ok(()),
    }
}

// Adds that an instruction goes on past the end of the text.
fn push_end_notes<'a>(
    alloc: Global,
    going: &Option<NamedText<'a>>,
    reports: &mut Vec<Report<'a>>,
) -> Result<(), AllocError>
    ensures { OnOk result (map report_of reports.new.items
        ≡ map report_of reports.old.items ++ end_notes going.now) }
{
    match going {
        Some(before) => push_note(
            alloc,
            before,
            before.column,
            &[Bytes(b"after this instruction the run goes on past the end of the program")],
            reports,
        ),
        None => Ok(()),
    }
}
