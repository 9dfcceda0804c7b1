// Labels at which an instruction takes a word.
ghost use Rattle.std.specs.Prelude.{◌≡◌, ◌++◌, ◌∷◌, [], map, OnOk};
ghost use Rattle.assembly.specs.AssemblyText.KeptLabels.{table_of};
ghost use Rattle.tool_texts.specs.Reports.{report_of};
ghost use Rattle.assembly_notes.specs.WordLabels.{byte_note, inner_byte, label_notes, takes_word, word_notes};

use crate::named_texts::{NamedText, push_note};
use assembly::assembly_text::places::Place;
use assembly::assembly_text::tables::look_up;
use assembly_errors::parts::Part;
use std::alloc::{AllocError, Global};
use std::collections::BTreeMap;
use tool_texts::Report;
use tool_texts::Said::{Bytes, Number};

/// Adds what is strange of the label of a line: where its instruction takes the word at the label, that is at a multiple of 4.
pub fn push_word_notes<'a>(
    alloc: Global,
    labels: &BTreeMap<&[u8], Place>,
    line: &NamedText<'a>,
    operand: &Option<Part<'a>>,
    reports: &mut Vec<Report<'a>>,
) -> Result<(), AllocError>
    ensures { OnOk result (map report_of reports.new.items
        ≡ map report_of reports.old.items ++ word_notes (table_of labels.now) line.now operand.now) }
{
    if !takes_word(line.name.bytes()) {
        return Ok(());
    }
    match operand {
        Some(label) => push_label_notes(alloc, labels, line, label, reports),
        None => Ok(()),
    }
}

// Whether an instruction of this name takes the word at its label, or its address. Those whose label is that of a `RES` are left out.
fn takes_word(name: &[u8]) -> bool
    ensures { result ≡ takes_word name.now }
{
    name == b"LLL".as_slice() || name == b"LL".as_slice() || name == b"SL".as_slice()
}

// The same for this label.
fn push_label_notes<'a>(
    alloc: Global,
    labels: &BTreeMap<&[u8], Place>,
    line: &NamedText<'a>,
    label: &Part<'a>,
    reports: &mut Vec<Report<'a>>,
) -> Result<(), AllocError>
    ensures { OnOk result (map report_of reports.new.items
        ≡ map report_of reports.old.items ++ label_notes (table_of labels.now) line.now label.now) }
{
    match inner_byte(labels, label.text.bytes()) {
        Some(byte) => push_byte_note(alloc, line, label, byte, reports),
        None => Ok(()),
    }
}

// The same for a label at this byte.
fn push_byte_note<'a>(
    alloc: Global,
    line: &NamedText<'a>,
    label: &Part<'a>,
    byte: u32,
    reports: &mut Vec<Report<'a>>,
) -> Result<(), AllocError>
    ensures { OnOk result (map report_of reports.new.items
        ≡ map report_of reports.old.items ++ byte_note line.now label.now byte ∷ []) }
{
    let word = line.name.bytes();
    let more = label.text.bytes();
    push_note(
        alloc,
        line,
        label.column,
        &[
            Bytes(word),
            Bytes(b" takes a whole word, and "),
            Bytes(more),
            Bytes(b" is at byte "),
            Number(u64::from(byte)),
            Bytes(b", which is no multiple of 4; ALIGN 4 before it makes it one"),
        ],
        reports,
    )
}

// The byte at which a label is, where that is no multiple of 4.
fn inner_byte(labels: &BTreeMap<&[u8], Place>, label: &[u8]) -> Option<u32>
    ensures { result ≡ inner_byte (table_of labels.now) label.now }
{
    let place = look_up(labels, label)?;
    (place.offset % 4 != 0).then_some(place.offset)
}
