// What is said of a name and its operands, where a line has none of the forms.
ghost use Rattle.std.specs.Prelude.{◌≡◌, ◌++◌, ◌<◌, IfOk};
ghost use Rattle.std.specs.List.{flat_map};
ghost use Rattle.tool_texts.specs.Sentences.{text_of};
ghost use Rattle.assembly_errors.specs.Hints.{name_hint, name_hint_text};
ghost use Rattle.assembly_errors.specs.NumberWords.{no_label_text, no_number_text};
ghost use Rattle.assembly_errors.specs.OperandWords.{global_label_remark, global_number_remark, global_order_remark, global_remark, is_global, is_label_part, missing_remark, more_remark, named_remark, no_form_remark, no_global_remark, no_name_remark, no_operand_remark, name_for_number_remark, number_due_remark, number_remark, given_remark, is_nothing, more_by, one_operand_remark, operand_remark, operands_remark, wrong_label_remark, statement_remark, takes_number, wrong_number_remark};
ghost use Rattle.assembly_errors.specs.Remarks.{kept_remark};

use crate::hints::{name_hint, push_name_hint};
use crate::number_words::{is_number_part, push_no_label, push_no_number};
use crate::parts::{Part, ThreeParts, next_part, three_parts};
use crate::remarks::{Remark, make_remark};
use crate::takes::{Takes, taken_after};
use assembly::assembly_text::labels::{Label, has_name_form};
use std::alloc::{AllocError, Global};
use tool_texts::Said;
use tool_texts::Said::Bytes;

/// What is said where nothing else is.
pub fn no_form_remark(alloc: Global) -> Result<Remark, AllocError>
    ensures { IfOk result (λ r. kept_remark r ≡ no_form_remark) }
{
    make_remark(
        alloc,
        1,
        &[Bytes(b"the line has none of the forms of assembly")],
    )
}

/// Whether a part is a label.
pub fn is_label_part(part: &[u8]) -> bool
    ensures { result ≡ is_label_part part.now }
{
    Label::read(part).is_some()
}

/// What is said of a part that is no label, after this.
pub fn no_label_remark(
    alloc: Global,
    column: usize,
    before: &[Said],
    part: &[u8],
) -> Result<Remark, AllocError>
    ensures { IfOk result (λ r. kept_remark r
        ≡ record { column = column; words = flat_map text_of before.now ++ no_label_text part.now }) }
{
    let mut remark = make_remark(alloc, column, before)?;
    push_no_label(&mut remark.words, part)?;
    Ok(remark)
}

// What is said of a part that is no number, after this.
fn no_number_remark(
    alloc: Global,
    column: usize,
    before: &[Said],
    part: &[u8],
) -> Result<Remark, AllocError>
    ensures { IfOk result (λ r. kept_remark r
        ≡ record { column = column; words = flat_map text_of before.now ++ no_number_text part.now }) }
{
    let mut remark = make_remark(alloc, column, before)?;
    push_no_number(&mut remark.words, part)?;
    Ok(remark)
}

/// What is said of a name that nothing has, after this.
pub fn unknown_remark(alloc: Global, name: &Part, before: &[Said]) -> Result<Remark, AllocError>
    ensures { IfOk result (λ r. kept_remark r
        ≡ record {
          column = name.now.column;
          words = flat_map text_of before.now ++ name_hint_text (name_hint name.now.text);
        }) }
{
    let mut remark = make_remark(alloc, name.column, before)?;
    push_name_hint(&mut remark.words, &name_hint(name.text.bytes()))?;
    Ok(remark)
}

/// What is said of the parts after a label, if there is one.
pub fn statement_remark(alloc: Global, code: &[u8], rest: &[u8]) -> Result<Remark, AllocError>
    ensures { IfOk result (λ r. kept_remark r ≡ statement_remark code.now rest.now) }
{
    let next = next_part(code, rest);
    match &next.part {
        None => no_form_remark(alloc),
        Some(name) => operands_remark(alloc, code, name, next.rest.bytes()),
    }
}

// What is said of a name and what follows it.
fn operands_remark<'a>(
    alloc: Global,
    code: &[u8],
    name: &Part<'a>,
    rest: &'a [u8],
) -> Result<Remark, AllocError>
    ensures { IfOk result
        (λ r. kept_remark r ≡ operands_remark code.now name.now rest.now) }
{
    named_remark(alloc, name, &three_parts(code, rest))
}

// What is said of a name and its operands.
fn named_remark(alloc: Global, name: &Part, operands: &ThreeParts) -> Result<Remark, AllocError>
    ensures { IfOk result (λ r. kept_remark r ≡ named_remark name.now operands.now) }
{
    if !has_name_form(name.text.bytes()) {
        return no_name_remark(alloc, name);
    }
    match taken_after(name.text.bytes()) {
        Some(takes) => operand_remark(alloc, takes, name, operands),
        None => unknown_remark(
            alloc,
            name,
            &[
                Bytes(b"there is no instruction and no directive "),
                Bytes(name.text.bytes()),
                Bytes(b", and no line with such operands"),
            ],
        ),
    }
}

// What is said of a part that has not the form of a name.
fn no_name_remark(alloc: Global, name: &Part) -> Result<Remark, AllocError>
    ensures { IfOk result (λ r. kept_remark r ≡ no_name_remark name.now) }
{
    if is_number_part(name.text.bytes()) {
        return make_remark(
            alloc,
            name.column,
            &[
                Bytes(b"the name of an instruction or a directive is due here, and "),
                Bytes(name.text.bytes()),
                Bytes(b" is a number"),
            ],
        );
    }
    make_remark(
        alloc,
        name.column,
        &[
            Bytes(b"the name of an instruction or a directive is due here, and "),
            Bytes(name.text.bytes()),
            Bytes(b" is none"),
        ],
    )
}

// What is said of the operands of a name that takes this.
fn operand_remark<'a>(
    alloc: Global,
    takes: Takes,
    name: &Part<'a>,
    operands: &ThreeParts<'a>,
) -> Result<Remark, AllocError>
    ensures { IfOk result
        (λ r. kept_remark r ≡ operand_remark takes name.now operands.now) }
{
    match &operands.first {
        None => missing_remark(alloc, takes, name),
        Some(first) => given_remark(alloc, takes, name, first, operands),
    }
}

// The same, where this is the first.
fn given_remark<'a>(
    alloc: Global,
    takes: Takes,
    name: &Part<'a>,
    first: &Part<'a>,
    operands: &ThreeParts<'a>,
) -> Result<Remark, AllocError>
    ensures { IfOk result
        (λ r. kept_remark r ≡ given_remark takes name.now first.now operands.now) }
{
    if is_nothing(takes) {
        return no_operand_remark(alloc, name, first);
    }
    if is_global(takes) {
        return global_remark(alloc, first, operands);
    }
    one_operand_remark(alloc, takes, name, first, operands)
}

/// Whether nothing is after a name that takes this.
pub fn is_nothing(takes: Takes) -> bool
    ensures { result ≡ is_nothing takes }
{
    matches!(takes, Takes::Nothing)
}

// What is said where no operand is after a name.
fn missing_remark(alloc: Global, takes: Takes, name: &Part) -> Result<Remark, AllocError>
    ensures { IfOk result (λ r. kept_remark r ≡ missing_remark takes name.now) }
{
    if is_global(takes) {
        return make_remark(
            alloc,
            name.end,
            &[Bytes(b"after GLOBAL a number from 1 to 1000 and a label are missing")],
        );
    }
    make_remark(
        alloc,
        name.end,
        &[
            Bytes(b"after "),
            Bytes(name.text.bytes()),
            Bytes(b" "),
            Bytes(takes.operand_text()),
            Bytes(b" is missing"),
        ],
    )
}

/// Whether a global and its label are after a name that takes this.
pub fn is_global(takes: Takes) -> bool
    ensures { result ≡ is_global takes }
{
    matches!(takes, Takes::Global)
}

// What is said of an operand where none may be.
fn no_operand_remark<'a>(
    alloc: Global,
    name: &Part<'a>,
    operand: &Part<'a>,
) -> Result<Remark, AllocError>
    ensures { IfOk result (λ r. kept_remark r ≡ no_operand_remark name.now operand.now) }
{
    let word = name.text.bytes();
    let more = operand.text.bytes();
    make_remark(
        alloc,
        operand.column,
        &[
            Bytes(word),
            Bytes(b" has no operand, and "),
            Bytes(more),
            Bytes(b" is after it"),
        ],
    )
}

// What is said of the operands of a name that takes one.
fn one_operand_remark<'a>(
    alloc: Global,
    takes: Takes,
    name: &Part<'a>,
    first: &Part<'a>,
    operands: &ThreeParts<'a>,
) -> Result<Remark, AllocError>
    ensures { IfOk result
        (λ r. kept_remark r ≡ one_operand_remark takes name.now first.now operands.now) }
{
    if takes_number(takes) {
        return number_remark(alloc, takes, name, first, operands);
    }
    if is_label_part(first.text.bytes()) {
        return second_remark(alloc, name, &operands.second);
    }
    wrong_label_remark(alloc, name, first)
}

// The same, where it is a number.
fn number_remark<'a>(
    alloc: Global,
    takes: Takes,
    name: &Part<'a>,
    first: &Part<'a>,
    operands: &ThreeParts<'a>,
) -> Result<Remark, AllocError>
    ensures { IfOk result
        (λ r. kept_remark r ≡ number_remark takes name.now first.now operands.now) }
{
    if is_number_part(first.text.bytes()) {
        return second_remark(alloc, name, &operands.second);
    }
    wrong_number_remark(alloc, takes, name, first)
}

// What is said of a second operand, if there is one, where one may be.
fn second_remark<'a>(
    alloc: Global,
    name: &Part<'a>,
    second: &Option<Part<'a>>,
) -> Result<Remark, AllocError>
    ensures { IfOk result (λ r. kept_remark r ≡ more_by name.now second.now) }
{
    match second {
        Some(second) => more_remark(alloc, name, second),
        None => no_form_remark(alloc),
    }
}

/// Whether a number is after a name that takes this.
pub fn takes_number(takes: Takes) -> bool
    ensures { result ≡ takes_number takes }
{
    takes.is_number() || matches!(takes, Takes::Boundary)
}

// What is said of an operand that is no number.
fn wrong_number_remark<'a>(
    alloc: Global,
    takes: Takes,
    name: &Part<'a>,
    operand: &Part<'a>,
) -> Result<Remark, AllocError>
    ensures { IfOk result
        (λ r. kept_remark r ≡ wrong_number_remark takes name.now operand.now) }
{
    if is_label_part(operand.text.bytes()) {
        return name_for_number_remark(alloc, takes, name, operand);
    }
    number_due_remark(alloc, takes, name, operand)
}

// What is said of a name where a number is due.
fn name_for_number_remark<'a>(
    alloc: Global,
    takes: Takes,
    name: &Part<'a>,
    operand: &Part<'a>,
) -> Result<Remark, AllocError>
    ensures { IfOk result
        (λ r. kept_remark r ≡ name_for_number_remark takes name.now operand.now) }
{
    let word = name.text.bytes();
    let more = operand.text.bytes();
    make_remark(
        alloc,
        operand.column,
        &[
            Bytes(b"after "),
            Bytes(word),
            Bytes(b" comes "),
            Bytes(takes.operand_text()),
            Bytes(b", and "),
            Bytes(more),
            Bytes(b" is a name; a .s text may have it, where SET gives it a number"),
        ],
    )
}

// What is said of another part where a number is due.
fn number_due_remark<'a>(
    alloc: Global,
    takes: Takes,
    name: &Part<'a>,
    operand: &Part<'a>,
) -> Result<Remark, AllocError>
    ensures { IfOk result
        (λ r. kept_remark r ≡ number_due_remark takes name.now operand.now) }
{
    let word = name.text.bytes();
    let more = operand.text.bytes();
    no_number_remark(
        alloc,
        operand.column,
        &[
            Bytes(b"after "),
            Bytes(word),
            Bytes(b" comes "),
            Bytes(takes.operand_text()),
            Bytes(b"; "),
        ],
        more,
    )
}

// What is said of another part where a label is due.
fn wrong_label_remark<'a>(
    alloc: Global,
    name: &Part<'a>,
    operand: &Part<'a>,
) -> Result<Remark, AllocError>
    ensures { IfOk result (λ r. kept_remark r ≡ wrong_label_remark name.now operand.now) }
{
    let word = name.text.bytes();
    let more = operand.text.bytes();
    no_label_remark(
        alloc,
        operand.column,
        &[Bytes(b"after "), Bytes(word), Bytes(b" comes a label; ")],
        more,
    )
}

// What is said of a second operand where one may be.
fn more_remark<'a>(alloc: Global, name: &Part<'a>, second: &Part<'a>) -> Result<Remark, AllocError>
    ensures { IfOk result (λ r. kept_remark r ≡ more_remark name.now second.now) }
{
    let word = name.text.bytes();
    let more = second.text.bytes();
    make_remark(
        alloc,
        second.column,
        &[
            Bytes(word),
            Bytes(b" has one operand, and "),
            Bytes(more),
            Bytes(b" is one too many"),
        ],
    )
}

// What is said of the operands of GLOBAL.
fn global_remark(alloc: Global, first: &Part, operands: &ThreeParts) -> Result<Remark, AllocError>
    ensures { IfOk result (λ r. kept_remark r ≡ global_remark first.now operands.now) }
{
    if !is_number_part(first.text.bytes()) {
        return global_number_remark(alloc, first, operands);
    }
    match &operands.second {
        None => make_remark(
            alloc,
            first.end,
            &[
                Bytes(b"after GLOBAL "),
                Bytes(first.text.bytes()),
                Bytes(b" a label is missing"),
            ],
        ),
        Some(second) => global_label_remark(alloc, first, second, operands),
    }
}

// What is said of the first operand of GLOBAL, which is no number.
fn global_number_remark(
    alloc: Global,
    first: &Part,
    operands: &ThreeParts,
) -> Result<Remark, AllocError>
    ensures { IfOk result (λ r. kept_remark r ≡ global_number_remark first.now operands.now) }
{
    match &operands.second {
        None => no_global_remark(alloc, first),
        Some(second) => global_order_remark(alloc, first, second),
    }
}

fn no_global_remark(alloc: Global, first: &Part) -> Result<Remark, AllocError>
    ensures { IfOk result (λ r. kept_remark r ≡ no_global_remark first.now) }
{
    no_number_remark(
        alloc,
        first.column,
        &[Bytes(b"after GLOBAL comes a number from 1 to 1000; ")],
        first.text.bytes(),
    )
}

// The same, where another operand follows.
fn global_order_remark<'a>(
    alloc: Global,
    first: &Part<'a>,
    second: &Part<'a>,
) -> Result<Remark, AllocError>
    ensures { IfOk result (λ r. kept_remark r ≡ global_order_remark first.now second.now) }
{
    if is_label_part(first.text.bytes()) && is_number_part(second.text.bytes()) {
        return make_remark(
            alloc,
            first.column,
            &[
                Bytes(b"after GLOBAL comes the number first, and then the label: GLOBAL "),
                Bytes(second.text.bytes()),
                Bytes(b" "),
                Bytes(first.text.bytes()),
            ],
        );
    }
    no_global_remark(alloc, first)
}

// What is said of the second operand of GLOBAL.
fn global_label_remark<'a>(
    alloc: Global,
    first: &Part<'a>,
    second: &Part<'a>,
    operands: &ThreeParts,
) -> Result<Remark, AllocError>
    ensures { IfOk result
        (λ r. kept_remark r ≡ global_label_remark first.now second.now operands.now) }
{
    if !is_label_part(second.text.bytes()) {
        return no_label_remark(
            alloc,
            second.column,
            &[
                Bytes(b"after GLOBAL "),
                Bytes(first.text.bytes()),
                Bytes(b" comes a label; "),
            ],
            second.text.bytes(),
        );
    }
    match &operands.third {
        Some(third) => make_remark(
            alloc,
            third.column,
            &[
                Bytes(b"GLOBAL has two operands, and "),
                Bytes(third.text.bytes()),
                Bytes(b" is one too many"),
            ],
        ),
        None => no_form_remark(alloc),
    }
}
