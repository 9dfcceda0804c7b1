// What is said of names that nothing has, and of numbers that are out of range.
ghost use Rattle.std.specs.Prelude.{◌≡◌, ◌++◌, IfOk, OnOk};
ghost use Rattle.assembly_errors.specs.NameWords.{begins_with_label, boundary_remark, family_of, first_name_remark, global_remark, holds_part, is_boundary, is_of_family, name_after, name_remark, named_line, number_remark, outside_remark, plain_name_remark, range_remark, ranged_remark, takes_no_number, taken_number_remark, taking_name_text, tells_width, unknown_name_remark, wider, wider_at, wider_data, wider_instruction, wider_name_text, wider_text, wider_than_text, without_last};
ghost use Rattle.assembly_errors.specs.Remarks.{kept_remark};

use crate::number_words::unsigned_part;
use crate::operand_words::{
    is_global, is_label_part, no_form_remark, takes_number, unknown_remark,
};
use crate::parts::{Part, ThreeParts, next_part, three_parts};
use crate::remarks::{Remark, make_remark};
use crate::takes::{Takes, taken_after, taken_by_form};
use assembly::assembly_text::numbers::{is_from_to, number};
use assembly::assembly_text::read::before_colon;
use instruction_set::row;
use std::alloc::{AllocError, Global};
use tool_texts::Said::Bytes;
use tool_texts::{Lent, push_sentence};

/// The name of a line, its operands, and whether a label is before it.
#[derive(Drop)]
pub struct NamedLine<'a> {
    /// The name, if there is one.
    pub name: Option<Part<'a>>,
    /// Its operands.
    pub operands: ThreeParts<'a>,
    /// Whether a label is before it.
    pub is_labelled: bool,
}

/// The name of a line and its operands; this is the line without its comment.
#[tactic(auto, unfolding(crate::specs::NameWords::named_line))]
pub fn named_line(code: &[u8]) -> NamedLine<'_>
    ensures { result ≡ named_line code.now }
{
    let next = next_part(code, code);
    if begins_with_label(&next.part) {
        return name_after(code, next.rest.bytes(), true);
    }
    name_after(code, code, false)
}

// Whether this part is a label.
fn begins_with_label(part: &Option<Part>) -> bool
    ensures { result ≡ begins_with_label part.now }
{
    match part {
        None => false,
        Some(part) => before_colon(part.text.bytes()).is_some(),
    }
}

// The name at the begin of what is left of a line.
fn name_after<'a>(code: &[u8], rest: &'a [u8], is_labelled: bool) -> NamedLine<'a>
    ensures { result ≡ name_after code.now rest.now is_labelled }
{
    let next = next_part(code, rest);
    let operands = three_parts(code, next.rest.bytes());
    NamedLine {
        name: next.part,
        operands,
        is_labelled,
    }
}

/// What is said of a line whose name nothing has.
pub fn name_remark(alloc: Global, line: &NamedLine) -> Result<Remark, AllocError>
    ensures { IfOk result (λ r. kept_remark r ≡ name_remark line.now) }
{
    match &line.name {
        None => no_form_remark(alloc),
        Some(name) => unknown_name_remark(alloc, name, line),
    }
}

// The same, of this name.
fn unknown_name_remark(alloc: Global, name: &Part, line: &NamedLine) -> Result<Remark, AllocError>
    ensures { IfOk result (λ r. kept_remark r ≡ unknown_name_remark name.now line.now) }
{
    match &line.operands.first {
        None => plain_name_remark(alloc, name),
        Some(first) => first_name_remark(alloc, name, first, line.is_labelled),
    }
}

fn plain_name_remark(alloc: Global, name: &Part) -> Result<Remark, AllocError>
    ensures { IfOk result (λ r. kept_remark r ≡ plain_name_remark name.now) }
{
    unknown_remark(
        alloc,
        name,
        &[
            Bytes(b"there is no instruction and no directive "),
            Bytes(name.text.bytes()),
        ],
    )
}

// The same, where this follows.
fn first_name_remark<'a>(
    alloc: Global,
    name: &Part<'a>,
    first: &Part<'a>,
    is_labelled: bool,
) -> Result<Remark, AllocError>
    ensures { IfOk result
        (λ r. kept_remark r ≡ first_name_remark name.now first.now is_labelled) }
{
    if !is_labelled && is_label_part(name.text.bytes()) && takes_no_number(first.text.bytes()) {
        return make_remark(
            alloc,
            name.column,
            &[
                Bytes(b"there is no instruction and no directive "),
                Bytes(name.text.bytes()),
                Bytes(b"; a label has a colon after it: "),
                Bytes(name.text.bytes()),
                Bytes(b": "),
                Bytes(first.text.bytes()),
            ],
        );
    }
    plain_name_remark(alloc, name)
}

// Whether this is a name after which comes no number.
fn takes_no_number(name: &[u8]) -> bool
    ensures { result ≡ takes_no_number name.now }
{
    match taken_after(name) {
        None => false,
        Some(takes) => !takes_number(takes),
    }
}

/// What is said of a line whose number is out of range.
pub fn range_remark(alloc: Global, line: &NamedLine) -> Result<Remark, AllocError>
    ensures { IfOk result (λ r. kept_remark r ≡ range_remark line.now) }
{
    match &line.name {
        None => no_form_remark(alloc),
        Some(name) => match &line.operands.first {
            None => no_form_remark(alloc),
            Some(first) => number_remark(alloc, name, first),
        },
    }
}

// The same, of this name and this number.
fn number_remark<'a>(alloc: Global, name: &Part<'a>, first: &Part<'a>) -> Result<Remark, AllocError>
    ensures { IfOk result (λ r. kept_remark r ≡ number_remark name.now first.now) }
{
    match taken_after(name.text.bytes()) {
        None => no_form_remark(alloc),
        Some(takes) => taken_number_remark(alloc, takes, name, first),
    }
}

// The same, of a name that takes this.
fn taken_number_remark<'a>(
    alloc: Global,
    takes: Takes,
    name: &Part<'a>,
    first: &Part<'a>,
) -> Result<Remark, AllocError>
    ensures { IfOk result (λ r. kept_remark r ≡ taken_number_remark takes name.now first.now) }
{
    if is_boundary(takes) {
        return boundary_remark(alloc, first);
    }
    if is_global(takes) {
        return global_remark(alloc, first);
    }
    ranged_remark(alloc, takes, name, first)
}

fn boundary_remark(alloc: Global, first: &Part) -> Result<Remark, AllocError>
    ensures { IfOk result (λ r. kept_remark r ≡ boundary_remark first.now) }
{
    let number = first.text.bytes();
    make_remark(
        alloc,
        first.column,
        &[
            Bytes(number),
            Bytes(b" is out of range: ALIGN has the number 2 or 4"),
        ],
    )
}

fn global_remark(alloc: Global, first: &Part) -> Result<Remark, AllocError>
    ensures { IfOk result (λ r. kept_remark r ≡ global_remark first.now) }
{
    let number = first.text.bytes();
    make_remark(
        alloc,
        first.column,
        &[
            Bytes(number),
            Bytes(b" is out of range: GLOBAL has a number from 1 to 1000"),
        ],
    )
}

fn is_boundary(takes: Takes) -> bool
    ensures { result ≡ is_boundary takes }
{
    matches!(takes, Takes::Boundary)
}

fn ranged_remark<'a>(
    alloc: Global,
    takes: Takes,
    name: &Part<'a>,
    first: &Part<'a>,
) -> Result<Remark, AllocError>
    ensures { IfOk result (λ r. kept_remark r ≡ ranged_remark takes name.now first.now) }
{
    let mut remark = outside_remark(alloc, takes, name, first)?;
    push_wider(
        &mut remark.words,
        takes,
        name.text.bytes(),
        first.text.bytes(),
    )?;
    Ok(remark)
}

// The same, without another name.
fn outside_remark<'a>(
    alloc: Global,
    takes: Takes,
    name: &Part<'a>,
    first: &Part<'a>,
) -> Result<Remark, AllocError>
    ensures { IfOk result (λ r. kept_remark r ≡ outside_remark takes name.now first.now) }
{
    let word = name.text.bytes();
    let number = first.text.bytes();
    make_remark(
        alloc,
        first.column,
        &[
            Bytes(number),
            Bytes(b" is out of range: "),
            Bytes(word),
            Bytes(b" has a number from "),
            Bytes(takes.range_text()),
        ],
    )
}

// Adds which name takes the number.
fn push_wider(words: &mut Vec<u8>, takes: Takes, name: &[u8], part: &[u8]) -> Result<(), AllocError>
    ensures { OnOk result
        (words.new.items ≡ words.old.items ++ wider_text takes name.now part.now) }
{
    match number(part) {
        None => push_sentence(words, &[]),
        Some(n) => push_wider_than(words, takes, name, part, n),
    }
}

// The same, of this number.
fn push_wider_than(
    words: &mut Vec<u8>,
    takes: Takes,
    name: &[u8],
    part: &[u8],
    n: i64,
) -> Result<(), AllocError>
    ensures { OnOk result
        (words.new.items ≡ words.old.items ++ wider_than_text takes name.now part.now n) }
{
    if name == b"L".as_slice() && is_from_to(-255, -1, n) {
        return push_sentence(
            words,
            &[
                Bytes(b"; LM "),
                Bytes(unsigned_part(part)),
                Bytes(b" loads "),
                Bytes(part),
            ],
        );
    }
    push_wider_name(words, &wider(takes, name, part))
}

// Adds a name that takes a number, if there is one.
fn push_wider_name(words: &mut Vec<u8>, wider: &Option<TakingName>) -> Result<(), AllocError>
    ensures { OnOk result (words.new.items ≡ words.old.items ++ wider_name_text wider.now) }
{
    match wider {
        None => push_sentence(words, &[]),
        Some(wider) => push_taking_name(words, wider),
    }
}

fn push_taking_name(words: &mut Vec<u8>, wider: &TakingName) -> Result<(), AllocError>
    ensures { OnOk result (words.new.items ≡ words.old.items ++ taking_name_text wider.now) }
{
    let word = wider.name.bytes();
    let range = wider.takes.range_text();
    push_sentence(
        words,
        &[
            Bytes(b"; "),
            Bytes(word),
            Bytes(b" has one from "),
            Bytes(range),
        ],
    )
}

/// A name, and what it takes.
#[derive(Drop)]
pub struct TakingName {
    /// The name.
    pub name: Lent<'static>,
    /// What it takes.
    pub takes: Takes,
}

// A name like this one that takes the number.
#[tactic(auto, unfolding(crate::specs::NameWords::wider))]
fn wider(takes: Takes, name: &[u8], part: &[u8]) -> Option<TakingName>
    ensures { result ≡ wider takes name.now part.now }
{
    match takes {
        Takes::DataByte | Takes::DataHalf => wider_data(part),
        _ => wider_instruction(family_of(takes, name), part),
    }
}

// A line of data that holds the number.
fn wider_data(part: &[u8]) -> Option<TakingName>
    ensures { result ≡ wider_data part.now }
{
    if holds_part(Takes::DataHalf, part) {
        return Some(TakingName {
            name: Lent::new(b"DH"),
            takes: Takes::DataHalf,
        });
    }
    if holds_part(Takes::Word, part) {
        return Some(TakingName {
            name: Lent::new(b"DW"),
            takes: Takes::Word,
        });
    }
    None
}

// Whether a part is a number within a range.
#[tactic(auto, unfolding(crate::specs::NameWords::holds_part))]
fn holds_part(takes: Takes, part: &[u8]) -> bool
    ensures { result ≡ holds_part takes part.now }
{
    match number(part) {
        None => false,
        Some(n) => takes.is_within(n),
    }
}

// What the names have in common that do the same as this one, which takes this.
fn family_of(takes: Takes, name: &[u8]) -> &[u8]
    ensures { result.now ≡ family_of takes name.now }
{
    match takes {
        Takes::BytePlus | Takes::Half => without_last(name),
        _ => name,
    }
}

// All but the last byte.
fn without_last(name: &[u8]) -> &[u8]
    ensures { result.now ≡ without_last name.now }
{
    name.split_at(name.len().saturating_sub(1)).0
}

// The first instruction of the family, by its byte, that takes the number.
#[tactic(auto, using(crate::proofs::WiderNames::wider_from_here, crate::proofs::WiderNames::wider_from_end))]
fn wider_instruction(family: &[u8], part: &[u8]) -> Option<TakingName>
    ensures { result ≡ wider_instruction family.now part.now }
{
    for byte in 0..256u32 {
        if let Some(wider) = wider_at(family, part, byte as u8) {
            return Some(wider);
        }
    }
    None
}

// The instruction with this byte, where it is of the family and takes the number.
#[tactic(auto, unfolding(crate::specs::NameWords::wider_at))]
fn wider_at(family: &[u8], part: &[u8], byte: u8) -> Option<TakingName>
    ensures { result ≡ wider_at family.now part.now byte }
{
    let row = row(byte)?;
    let name = row.name.as_bytes();
    let takes = taken_by_form(row.form);
    if is_of_family(family, name) && holds_part(takes, part) {
        return Some(TakingName {
            name: Lent::new(name),
            takes,
        });
    }
    None
}

// Whether a name is that of the family, and a letter that tells the width, or none.
fn is_of_family(family: &[u8], name: &[u8]) -> bool
    ensures { result ≡ is_of_family family.now name.now }
{
    name.starts_with(family) && tells_width(name.split_at(family.len().min(name.len())).1)
}

fn tells_width(letters: &[u8]) -> bool
    ensures { result ≡ tells_width letters.now }
{
    letters.is_empty()
        || letters == b"1".as_slice()
        || letters == b"H".as_slice()
        || letters == b"W".as_slice()
}
