// What is said of a line that has none of the forms: of its bytes, of its label and of colons.
ghost use Rattle.std.specs.Prelude.{◌≡◌, ◌<◌, length, IfOk};
ghost use Rattle.assembly_errors.specs.FormWords.{apart_remark, begun_remark, colon_remark, ends_with_colon, form_remark, inner_colon_remark, label_remark, labelled_remark, later_colon_remark, line_remark, next_colon_remark, outer_colon_remark, second_label_remark, two_labels_remark, unlabelled_remark};
ghost use Rattle.assembly_errors.specs.OperandWords.{statement_remark};
ghost use Rattle.assembly_errors.specs.Remarks.{kept_remark};

use crate::byte_words::{byte_remark, strange_byte};
use crate::drafts::first_colon;
use crate::operand_words::{is_label_part, no_form_remark, no_label_remark, statement_remark};
use crate::parts::{Part, next_part};
use crate::remarks::{Remark, make_remark};
use assembly::assembly_text::read::before_colon;
use std::alloc::{AllocError, Global};
use tool_texts::Said::Bytes;

/// What is said of line n, which has none of the forms; this is the line without its comment.
#[tactic(auto, unfolding(crate::specs::FormWords::form_remark))]
pub fn form_remark(alloc: Global, n: u32, code: &[u8]) -> Result<Remark, AllocError>
    ensures { IfOk result (λ r. kept_remark r ≡ form_remark n code.now) }
{
    match strange_byte(code) {
        Some(place) => byte_remark(alloc, n, code, place),
        None => line_remark(alloc, code),
    }
}

// What is said of a line whose bytes lines may have.
fn line_remark(alloc: Global, code: &[u8]) -> Result<Remark, AllocError>
    ensures { IfOk result (λ r. kept_remark r ≡ line_remark code.now) }
{
    let next = next_part(code, code);
    match &next.part {
        None => no_form_remark(alloc),
        Some(part) => begun_remark(alloc, code, part, next.rest.bytes()),
    }
}

// What is said of a line that begins with this part.
fn begun_remark(alloc: Global, code: &[u8], part: &Part, rest: &[u8]) -> Result<Remark, AllocError>
    ensures { IfOk result (λ r. kept_remark r ≡ begun_remark code.now part.now rest.now) }
{
    match before_colon(part.text.bytes()) {
        Some(name) => label_remark(alloc, code, part, name, rest),
        None => unlabelled_remark(alloc, code, part, rest),
    }
}

// What is said of a line that begins with this before a colon.
fn label_remark(
    alloc: Global,
    code: &[u8],
    part: &Part,
    name: &[u8],
    rest: &[u8],
) -> Result<Remark, AllocError>
    ensures { IfOk result
        (λ r. kept_remark r ≡ label_remark code.now part.now name.now rest.now) }
{
    if name.is_empty() {
        return make_remark(
            alloc,
            part.column,
            &[Bytes(b"a label is missing before the colon")],
        );
    }
    match first_colon(name) {
        Some(place) => two_labels_remark(alloc, part, name.split_at(place).1),
        None => labelled_remark(alloc, code, part, name, rest),
    }
}

// What is said of a colon in a label, with which this end of the label begins.
fn two_labels_remark(alloc: Global, part: &Part, left: &[u8]) -> Result<Remark, AllocError>
    ensures { IfOk result (λ r. kept_remark r ≡ two_labels_remark part.now left.now) }
{
    make_remark(
        alloc,
        part.end.saturating_sub(left.len()),
        &[Bytes(b"a line has one label at most, and a space after its colon")],
    )
}

// What is said of a line that begins with this before its first colon.
fn labelled_remark(
    alloc: Global,
    code: &[u8],
    part: &Part,
    name: &[u8],
    rest: &[u8],
) -> Result<Remark, AllocError>
    ensures { IfOk result
        (λ r. kept_remark r ≡ labelled_remark code.now part.now name.now rest.now) }
{
    if !is_label_part(name) {
        return no_label_remark(alloc, part.column, &[], name);
    }
    match first_colon(rest) {
        Some(place) => later_colon_remark(alloc, code, rest, rest.split_at(place).1),
        None => statement_remark(alloc, code, rest),
    }
}

// What is said of a second colon, with which this end of a line begins, after a label that is followed by this.
fn later_colon_remark(
    alloc: Global,
    code: &[u8],
    rest: &[u8],
    left: &[u8],
) -> Result<Remark, AllocError>
    ensures { IfOk result
        (λ r. kept_remark r ≡ later_colon_remark code.now rest.now left.now) }
{
    match &next_part(code, rest).part {
        None => colon_remark(alloc, code, left),
        Some(part) => second_label_remark(alloc, code, part, left),
    }
}

// The same, where this part follows the label.
fn second_label_remark(
    alloc: Global,
    code: &[u8],
    part: &Part,
    left: &[u8],
) -> Result<Remark, AllocError>
    ensures { IfOk result
        (λ r. kept_remark r ≡ second_label_remark code.now part.now left.now) }
{
    if ends_with_colon(part.text.bytes()) {
        return make_remark(
            alloc,
            part.column,
            &[
                Bytes(b"a line has one label at most; "),
                Bytes(part.text.bytes()),
                Bytes(b" may be on a line of its own"),
            ],
        );
    }
    colon_remark(alloc, code, left)
}

fn ends_with_colon(part: &[u8]) -> bool
    ensures { result ≡ ends_with_colon part.now }
{
    before_colon(part).is_some()
}

// What is said of a colon that may not be there, with which this end of a line begins.
fn colon_remark(alloc: Global, code: &[u8], left: &[u8]) -> Result<Remark, AllocError>
    ensures { IfOk result (λ r. kept_remark r ≡ colon_remark code.now left.now) }
{
    make_remark(
        alloc,
        code.len().saturating_sub(left.len()) + 1,
        &[Bytes(b"a colon is after the label with which a line begins, and nowhere else")],
    )
}

// What is said of a line that begins with this part, which ends with no colon.
fn unlabelled_remark(
    alloc: Global,
    code: &[u8],
    part: &Part,
    rest: &[u8],
) -> Result<Remark, AllocError>
    ensures { IfOk result
        (λ r. kept_remark r ≡ unlabelled_remark code.now part.now rest.now) }
{
    match first_colon(part.text.bytes()) {
        Some(place) => inner_colon_remark(alloc, part, place),
        None => outer_colon_remark(alloc, code, part, rest),
    }
}

// What is said of a colon at this place of the first part.
fn inner_colon_remark(alloc: Global, part: &Part, place: usize) -> Result<Remark, AllocError>
    requires { place < length part.now.text }
    ensures { IfOk result (λ r. kept_remark r ≡ inner_colon_remark part.now place) }
{
    if place == 0 {
        return make_remark(
            alloc,
            part.column,
            &[Bytes(b"a colon is after the label with which a line begins, and nowhere else")],
        );
    }
    let (front, back) = part.text.bytes().split_at(place + 1);
    make_remark(
        alloc,
        part.end.saturating_sub(back.len()),
        &[
            Bytes(b"a space is missing after the colon: "),
            Bytes(front),
            Bytes(b" "),
            Bytes(back),
        ],
    )
}

// What is said of a line whose first part has no colon.
fn outer_colon_remark(
    alloc: Global,
    code: &[u8],
    part: &Part,
    rest: &[u8],
) -> Result<Remark, AllocError>
    ensures { IfOk result
        (λ r. kept_remark r ≡ outer_colon_remark code.now part.now rest.now) }
{
    match first_colon(rest) {
        Some(place) => apart_remark(alloc, code, part, rest, rest.split_at(place).1),
        None => statement_remark(alloc, code, code),
    }
}

// What is said of a colon after the first part, with which this end of a line begins.
fn apart_remark(
    alloc: Global,
    code: &[u8],
    part: &Part,
    rest: &[u8],
    left: &[u8],
) -> Result<Remark, AllocError>
    ensures { IfOk result
        (λ r. kept_remark r ≡ apart_remark code.now part.now rest.now left.now) }
{
    match &next_part(code, rest).part {
        None => colon_remark(alloc, code, left),
        Some(next) => next_colon_remark(alloc, code, part, next, left),
    }
}

// The same, where this part is the next.
fn next_colon_remark<'a>(
    alloc: Global,
    code: &[u8],
    part: &Part<'a>,
    next: &Part<'a>,
    left: &[u8],
) -> Result<Remark, AllocError>
    ensures { IfOk result
        (λ r. kept_remark r ≡ next_colon_remark code.now part.now next.now left.now) }
{
    if next.text.bytes() == b":".as_slice() && is_label_part(part.text.bytes()) {
        return make_remark(
            alloc,
            next.column,
            &[
                Bytes(b"the colon is directly after its label: "),
                Bytes(part.text.bytes()),
                Bytes(b":"),
            ],
        );
    }
    colon_remark(alloc, code, left)
}
