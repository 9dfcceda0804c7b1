// What is said of labels: where they are defined, and whether they are within reach.
ghost use Rattle.std.specs.Prelude.{◌≡◌, IfOk};
ghost use Rattle.assembly.specs.AssemblyText.KeptLabels.{table_of};
ghost use Rattle.assembly_errors.specs.ReachWords.{address_remark, ahead_remark, back_remark, before_colon_remark, defined_remark, early_remark, far_remark, indirect_remark, length_remark, near_remark, placed_remark, reach_remark, repeated_remark, reserve_remark, target_remark, undefined_after, undefined_by, undefined_label, undefined_remark, unreserved_remark};
ghost use Rattle.assembly_errors.specs.Remarks.{kept_remark};

use crate::drafts::Definition;
use crate::hints::{definition_like, label_hint, push_label_hint};
use crate::likeness::Likeness;
use crate::name_words::NamedLine;
use crate::operand_words::no_form_remark;
use crate::parts::{Part, next_part};
use crate::remarks::{Remark, make_remark};
use crate::takes::{Takes, taken_after};
use assembly::assembly_text::places::Place;
use assembly::assembly_text::read::before_colon;
use assembly::assembly_text::tables::look_up;
use std::alloc::{AllocError, Global};
use std::collections::BTreeMap;
use tool_texts::Said::{Bytes, Number};

/// What is said of a line that names a label which is defined nowhere.
pub fn undefined_remark(
    alloc: Global,
    definitions: &[Definition],
    line: &NamedLine,
) -> Result<Remark, AllocError>
    ensures { IfOk result
        (λ r. kept_remark r ≡ undefined_remark definitions.now line.now) }
{
    match &line.name {
        None => no_form_remark(alloc),
        Some(name) => undefined_after(alloc, definitions, name, line),
    }
}

// The same, after this name.
fn undefined_after(
    alloc: Global,
    definitions: &[Definition],
    name: &Part,
    line: &NamedLine,
) -> Result<Remark, AllocError>
    ensures { IfOk result
        (λ r. kept_remark r ≡ undefined_after definitions.now name.now line.now) }
{
    if name.text.bytes() == b"GLOBAL".as_slice() {
        return undefined_by(alloc, definitions, &line.operands.second);
    }
    undefined_by(alloc, definitions, &line.operands.first)
}

// The same, where this is the label.
fn undefined_by(
    alloc: Global,
    definitions: &[Definition],
    target: &Option<Part>,
) -> Result<Remark, AllocError>
    ensures { IfOk result
        (λ r. kept_remark r ≡ undefined_by definitions.now target.now) }
{
    match target {
        None => no_form_remark(alloc),
        Some(target) => undefined_label(alloc, definitions, target),
    }
}

fn undefined_label(
    alloc: Global,
    definitions: &[Definition],
    target: &Part,
) -> Result<Remark, AllocError>
    ensures { IfOk result
        (λ r. kept_remark r ≡ undefined_label definitions.now target.now) }
{
    let mut remark = make_remark(
        alloc,
        target.column,
        &[
            Bytes(b"the label "),
            Bytes(target.text.bytes()),
            Bytes(b" is defined nowhere in this text"),
        ],
    )?;
    push_label_hint(
        &mut remark.words,
        &label_hint(definitions, target.text.bytes()),
    )?;
    Ok(remark)
}

/// What is said of a line that defines a label again; this is the line without its comment.
pub fn repeated_remark(
    alloc: Global,
    definitions: &[Definition],
    code: &[u8],
) -> Result<Remark, AllocError>
    ensures { IfOk result
        (λ r. kept_remark r ≡ repeated_remark definitions.now code.now) }
{
    match &next_part(code, code).part {
        None => no_form_remark(alloc),
        Some(part) => before_colon_remark(alloc, definitions, part),
    }
}

// The same, where the line begins with this part.
fn before_colon_remark(
    alloc: Global,
    definitions: &[Definition],
    part: &Part,
) -> Result<Remark, AllocError>
    ensures { IfOk result
        (λ r. kept_remark r ≡ before_colon_remark definitions.now part.now) }
{
    match before_colon(part.text.bytes()) {
        None => no_form_remark(alloc),
        Some(label) => defined_remark(alloc, definitions, part, label),
    }
}

// The same, of this label.
fn defined_remark(
    alloc: Global,
    definitions: &[Definition],
    part: &Part,
    label: &[u8],
) -> Result<Remark, AllocError>
    ensures { IfOk result
        (λ r. kept_remark r ≡ defined_remark definitions.now part.now label.now) }
{
    match definition_like(definitions, Likeness::Equal, label) {
        None => no_form_remark(alloc),
        Some(definition) => make_remark(
            alloc,
            part.column,
            &[
                Bytes(b"the label "),
                Bytes(label),
                Bytes(b" is defined on line "),
                Number(u64::from(definition.number)),
                Bytes(b" already"),
            ],
        ),
    }
}

/// What is said of a line that makes the hunk too long; this is the line without its comment.
pub fn length_remark(alloc: Global, code: &[u8]) -> Result<Remark, AllocError>
    ensures { IfOk result (λ r. kept_remark r ≡ length_remark code.now) }
{
    match &next_part(code, code).part {
        None => no_form_remark(alloc),
        Some(part) => make_remark(
            alloc,
            part.column,
            &[Bytes(b"with this line the hunk has more than the 65536 words that it may have")],
        ),
    }
}

/// What is said of a line that names a label out of its reach, where the bytes before it end at the offset.
pub fn reach_remark(
    alloc: Global,
    labels: &BTreeMap<&[u8], Place>,
    offset: u32,
    line: &NamedLine,
) -> Result<Remark, AllocError>
    ensures { IfOk result
        (λ r. kept_remark r ≡ reach_remark (table_of labels.now) offset line.now) }
{
    match &line.name {
        None => no_form_remark(alloc),
        Some(name) => match &line.operands.first {
            None => no_form_remark(alloc),
            Some(target) => target_remark(alloc, labels, offset, name, target),
        },
    }
}

// The same, of this name and this label.
fn target_remark<'a>(
    alloc: Global,
    labels: &BTreeMap<&[u8], Place>,
    offset: u32,
    name: &Part<'a>,
    target: &Part<'a>,
) -> Result<Remark, AllocError>
    ensures { IfOk result
        (λ r. kept_remark r ≡ target_remark (table_of labels.now) offset name.now target.now) }
{
    match look_up(labels, target.text.bytes()) {
        None => no_form_remark(alloc),
        Some(place) => match taken_after(name.text.bytes()) {
            None => no_form_remark(alloc),
            Some(takes) => placed_remark(alloc, takes, place, offset, name, target),
        },
    }
}

// The same, of a name that takes this and a label with this place.
fn placed_remark<'a>(
    alloc: Global,
    takes: Takes,
    place: Place,
    offset: u32,
    name: &Part<'a>,
    target: &Part<'a>,
) -> Result<Remark, AllocError>
    ensures { IfOk result
        (λ r. kept_remark r ≡ placed_remark takes place offset name.now target.now) }
{
    match takes {
        Takes::Near => near_remark(alloc, place, offset, name, target),
        Takes::Indirect => indirect_remark(alloc, place, offset, name, target),
        Takes::Reserve => reserve_remark(alloc, place, offset, target),
        Takes::Address => address_remark(alloc, place, target),
        _ => no_form_remark(alloc),
    }
}

// What is said of a label that is not near.
fn near_remark<'a>(
    alloc: Global,
    place: Place,
    offset: u32,
    name: &Part<'a>,
    target: &Part<'a>,
) -> Result<Remark, AllocError>
    ensures { IfOk result
        (λ r. kept_remark r ≡ near_remark place offset name.now target.now) }
{
    let from = u64::from(offset) + 1;
    let to = u64::from(place.offset);
    if to < from {
        return back_remark(alloc, from - to, name, target);
    }
    ahead_remark(alloc, to - from, name, target)
}

// What is said of a label so many bytes back.
fn back_remark<'a>(
    alloc: Global,
    distance: u64,
    name: &Part<'a>,
    target: &Part<'a>,
) -> Result<Remark, AllocError>
    ensures { IfOk result (λ r. kept_remark r ≡ back_remark distance name.now target.now) }
{
    let word = name.text.bytes();
    let label = target.text.bytes();
    make_remark(
        alloc,
        target.column,
        &[
            Bytes(b"the label "),
            Bytes(label),
            Bytes(b" is "),
            Number(distance),
            Bytes(b" bytes back, and "),
            Bytes(word),
            Bytes(b" reaches 128; "),
            Bytes(word),
            Bytes(b"$ reaches further, by a line RES "),
            Bytes(label),
        ],
    )
}

// What is said of a label so many bytes ahead.
fn ahead_remark<'a>(
    alloc: Global,
    distance: u64,
    name: &Part<'a>,
    target: &Part<'a>,
) -> Result<Remark, AllocError>
    ensures { IfOk result (λ r. kept_remark r ≡ ahead_remark distance name.now target.now) }
{
    let word = name.text.bytes();
    let label = target.text.bytes();
    make_remark(
        alloc,
        target.column,
        &[
            Bytes(b"the label "),
            Bytes(label),
            Bytes(b" is "),
            Number(distance),
            Bytes(b" bytes ahead, and "),
            Bytes(word),
            Bytes(b" reaches 127; "),
            Bytes(word),
            Bytes(b"$ reaches further, by a line RES "),
            Bytes(label),
        ],
    )
}

// What is said of a label to which no halfword leads that is near.
fn indirect_remark<'a>(
    alloc: Global,
    place: Place,
    offset: u32,
    name: &Part<'a>,
    target: &Part<'a>,
) -> Result<Remark, AllocError>
    ensures { IfOk result
        (λ r. kept_remark r ≡ indirect_remark place offset name.now target.now) }
{
    if !place.is_reserve {
        return unreserved_remark(alloc, name, target);
    }
    let from = (u64::from(offset) + 1) / 2 * 2;
    let to = u64::from(place.offset);
    if to < from {
        return early_remark(alloc, target);
    }
    far_remark(alloc, to - from, name, target)
}

// What is said of a label on no RES line.
fn unreserved_remark<'a>(
    alloc: Global,
    name: &Part<'a>,
    target: &Part<'a>,
) -> Result<Remark, AllocError>
    ensures { IfOk result (λ r. kept_remark r ≡ unreserved_remark name.now target.now) }
{
    let word = name.text.bytes();
    let label = target.text.bytes();
    make_remark(
        alloc,
        target.column,
        &[
            Bytes(b"the label "),
            Bytes(label),
            Bytes(b" is on no RES line, and "),
            Bytes(word),
            Bytes(b" leads on by one: a label of its own on a line RES "),
            Bytes(label),
        ],
    )
}

// What is said of a RES line before the one that names it.
fn early_remark(alloc: Global, target: &Part) -> Result<Remark, AllocError>
    ensures { IfOk result (λ r. kept_remark r ≡ early_remark target.now) }
{
    make_remark(
        alloc,
        target.column,
        &[
            Bytes(b"the RES line of "),
            Bytes(target.text.bytes()),
            Bytes(b" is before this line, and has to come after it"),
        ],
    )
}

// What is said of a RES line so many bytes ahead.
fn far_remark<'a>(
    alloc: Global,
    distance: u64,
    name: &Part<'a>,
    target: &Part<'a>,
) -> Result<Remark, AllocError>
    ensures { IfOk result (λ r. kept_remark r ≡ far_remark distance name.now target.now) }
{
    let word = name.text.bytes();
    let label = target.text.bytes();
    make_remark(
        alloc,
        target.column,
        &[
            Bytes(b"the RES line of "),
            Bytes(label),
            Bytes(b" is "),
            Number(distance),
            Bytes(b" bytes ahead, and "),
            Bytes(word),
            Bytes(b" reaches 510"),
        ],
    )
}

// What is said of a label to which no halfword can lead.
fn reserve_remark(
    alloc: Global,
    place: Place,
    offset: u32,
    target: &Part,
) -> Result<Remark, AllocError>
    ensures { IfOk result (λ r. kept_remark r ≡ reserve_remark place offset target.now) }
{
    let from = (u64::from(offset) + 1) / 2 * 2;
    let to = u64::from(place.offset);
    if to < from {
        return make_remark(
            alloc,
            target.column,
            &[
                Bytes(b"the label "),
                Bytes(target.text.bytes()),
                Bytes(b" is "),
                Number(from - to),
                Bytes(b" bytes back, and RES reaches 32768"),
            ],
        );
    }
    make_remark(
        alloc,
        target.column,
        &[
            Bytes(b"the label "),
            Bytes(target.text.bytes()),
            Bytes(b" is "),
            Number(to - from),
            Bytes(b" bytes ahead, and RES reaches 32767"),
        ],
    )
}

// What is said of a label that is at the begin of no word.
fn address_remark(alloc: Global, place: Place, target: &Part) -> Result<Remark, AllocError>
    ensures { IfOk result (λ r. kept_remark r ≡ address_remark place target.now) }
{
    make_remark(
        alloc,
        target.column,
        &[
            Bytes(b"the label "),
            Bytes(target.text.bytes()),
            Bytes(b" is at offset "),
            Number(u64::from(place.offset)),
            Bytes(b", which is no multiple of 4; ALIGN 4 before it makes it one"),
        ],
    )
}
