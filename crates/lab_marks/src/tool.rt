// What the tool gives of a bundle.

use crate::drafts::{Draft, push_said};
use crate::files::file_with_values;
use crate::known::{Known, set};
use crate::marks::{read_lets, read_marks, without_last_end};
use crate::plans::{PlanFile, push_piece};
use crate::requests::{Asked, Request, request_of};
use crate::stops::{Stop, refused_text};
use std::alloc::{AllocError, Global};
use std::collections::BTreeMap;
use tool_bundles::{BundleEnd, read_bundle};
use tool_texts::Said::{Bytes, Number};
use tool_texts::{ToolText, push_sentence};

/// What is asked of the marks of a lab by a bundle, or what is wrong.
pub fn marks_text(alloc: Global, bundle: &[u8]) -> Result<ToolText, AllocError> {
    let entries = match read_bundle(alloc, bundle) {
        Ok(entries) => entries,
        Err(BundleEnd::NoBundle) => return no_bundle(alloc),
        Err(BundleEnd::WantMemory) => return Err(AllocError),
    };
    let Some(request) = request_of(entries.as_slice()) else {
        return no_bundle(alloc);
    };
    match answer(alloc, &request) {
        Ok(bytes) => Ok(ToolText {
            is_wrong: false,
            bytes,
        }),
        Err(Stop::Refused(refusal)) => refused_text(alloc, &refusal),
        Err(Stop::WantMemory) => Err(AllocError),
    }
}

fn no_bundle(alloc: Global) -> Result<ToolText, AllocError> {
    let mut bytes = Vec::new(alloc);
    push_sentence(
        &mut bytes,
        &[Bytes(
            b"* 2\nmarks: the input is no bundle of what is asked for, a number and the marks of a lab\n",
        )],
    )?;
    Ok(ToolText {
        is_wrong: true,
        bytes,
    })
}

// What is asked for.
fn answer<'a>(alloc: Global, request: &Request<'a>) -> Result<Vec<u8>, Stop<'a>> {
    let path = request.marks.path.bytes();
    let marks = request.marks.bytes.bytes();
    match &request.asked {
        Asked::Told(lab) => {
            let known = first_values(alloc, request.worth, 0)?;
            let draft = read_marks(alloc, known, path, marks)?;
            Ok(told_text(alloc, lab.bytes(), request.number.bytes(), &draft)?)
        }
        Asked::Plan(handed) => {
            let known = first_values(alloc, request.worth, *handed)?;
            let draft = read_marks(alloc, known, path, marks)?;
            Ok(plan_text(alloc, draft)?)
        }
        Asked::File(asked) => {
            let known = first_values(alloc, request.worth, asked.handed)?;
            let known = read_lets(alloc, known, path, marks)?;
            let (path, bytes) = (asked.file.path.bytes(), asked.file.bytes.bytes());
            file_with_values(alloc, &known, asked.keeps_braces, path, bytes)
        }
    }
}

// The values of `n` and `handed`.
fn first_values<'a>(alloc: Global, number: i64, handed: i64) -> Result<Known<'a>, AllocError> {
    let mut known = BTreeMap::new(alloc);
    set(&mut known, b"n", number)?;
    set(&mut known, b"handed", handed)?;
    Ok(known)
}

// What is told of a lab: its title, the values of this number, and the marks.
fn told_text(
    alloc: Global,
    lab: &[u8],
    number: &[u8],
    draft: &Draft<'_>,
) -> Result<Vec<u8>, AllocError> {
    let mut text = Vec::new(alloc);
    push_lab(&mut text, lab, without_last_end(&draft.title), number)?;
    for line in draft.told.iter().chain(draft.marked.iter()) {
        push_sentence(&mut text, &[Bytes(line), Bytes(b"\n")])?;
    }
    Ok(text)
}

// Adds the line with the title.
fn push_lab<'t>(
    text: &mut Vec<u8>,
    lab: &'t [u8],
    title: &'t [u8],
    number: &'t [u8],
) -> Result<(), AllocError> {
    push_sentence(
        text,
        &[
            Bytes(lab),
            Bytes(b": "),
            Bytes(title),
            Bytes(b", number "),
            Bytes(number),
            Bytes(b"\n"),
        ],
    )
}

// The plan by which a lab is graded.
fn plan_text(alloc: Global, draft: Draft<'_>) -> Result<Vec<u8>, AllocError> {
    let mut draft = draft;
    let (count, total) = (Number(draft.count), Number(draft.total));
    push_said(
        alloc,
        &mut draft,
        PlanFile::Head,
        &[
            Bytes(b"count "),
            count,
            Bytes(b"\ntotal "),
            total,
            Bytes(b"\n"),
        ],
    )?;
    let Draft {
        mut plan,
        told,
        marked,
        ..
    } = draft;
    for line in told.iter().chain(marked.iter()) {
        push_tell(alloc, &mut plan, line)?;
    }
    Ok(plan)
}

fn push_tell(alloc: Global, plan: &mut Vec<u8>, told: &[u8]) -> Result<(), AllocError> {
    let mut line = Vec::new(alloc);
    push_sentence(&mut line, &[Bytes(b"tell "), Bytes(told), Bytes(b"\n")])?;
    push_piece(plan, PlanFile::Head, &line)
}
