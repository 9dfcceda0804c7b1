// The assembly of a module.
ghost use Rattle.std.specs.Prelude.{◌≡◌, ◌++◌, map, IfErr, IfOk, OnOk};
ghost use Rattle.std.specs.List.{AllByRecursion, flat_map};
ghost use Rattle.module_text.specs.Canonical.{IsPrintableHunk};
ghost use Rattle.module_code.specs.Made.{AreWritten, IsAfter, IsAssemblyOf, IsRight, hunk_in, last_line, module_bytes, numbers_from, part_bytes, reason_line};
ghost use Rattle.module_code.specs.ReadBack.{HasCause, IsRead, IsUnread, ReadsBack};
ghost use Rattle.tool_texts.specs.Told.{told_of};

use crate::global_tables::word_at;
use crate::hunk_assembly::form_of;
use crate::hunk_words::push_hunk;
use crate::known_names::{Names, names_in};
use crate::parts::{Form, Part};
use crate::requests::{NoAnswer, asked_of, module_of, told_end};
use module_text::Hunk;
use std::alloc::{AllocError, Global};
use tool_texts::Said::{Bytes, Number};
use tool_texts::{ToolText, push_sentence};

/// The assembly of the module that a bundle has, or what is wrong: the bundle has other words, or the text of the module is refused.
pub fn module_assembly(alloc: Global, bundle: &[u8]) -> Result<ToolText, AllocError>
    ensures { IfOk result (λ t. ReadsBack bundle.now (told_of t)) }
{
    match assembly_text(alloc, bundle) {
        Ok(bytes) => Ok(ToolText {
            is_wrong: false,
            bytes,
        }),
        Err(end) => told_end(alloc, b"unasm", end),
    }
}

// The assembly of the module of a bundle.
#[tactic(auto, using(crate::proofs::Causes::has_cause))]
fn assembly_text(alloc: Global, bundle: &[u8]) -> Result<Vec<u8>, NoAnswer>
    ensures value { IfOk result (λ v. IsRead bundle.now v.items) }
    ensures cause { IfErr result (HasCause bundle.now) }
{
    let asked = asked_of(alloc, bundle)?;
    written_text(alloc, asked.text.bytes(), asked.names.bytes())
}

// The assembly of the module of a text, where these lines are the names of globals.
fn written_text(alloc: Global, text: &[u8], names: &[u8]) -> Result<Vec<u8>, NoAnswer>
    ensures value { IfOk result (λ v. IsAssemblyOf text.now v.items) }
    ensures cause { IfErr result (IsUnread text.now) }
{
    let module = module_of(alloc, 0, text)?;
    let names = names_in(alloc, names)?;
    Ok(hunks_text(alloc, module.hunks.as_slice(), &names)?)
}

/// What is written of all hunks: of each one assembly that makes it again, but for its last word where a line says that, or its words.
pub fn hunks_text(alloc: Global, hunks: &[Hunk], names: &Names) -> Result<Vec<u8>, AllocError>
    requires { AllByRecursion IsPrintableHunk hunks.now }
    ensures { IfOk result (λ text. AreWritten hunks.now text.items) }
{
    let parts = parts_of(alloc, hunks, names)?;
    text_of(alloc, parts.as_slice())
}

// What is written of each hunk.
fn parts_of<'a>(
    alloc: Global,
    hunks: &'a [Hunk],
    names: &Names,
) -> Result<Vec<Part<'a>>, AllocError>
    requires { AllByRecursion IsPrintableHunk hunks.now }
    ensures hunks { IfOk result (λ parts. map hunk_in parts.items ≡ hunks.now) }
    ensures numbers { IfOk result
        (λ parts. map (λ part. part.number) parts.items ≡ numbers_from 1 hunks.now) }
    ensures right { IfOk result (λ parts. AllByRecursion IsRight parts.items) }
{
    let mut parts = Vec::new(alloc);
    for hunk in hunks {
        let number = parts.len() as u64 + 1;
        parts.push(part_of(alloc, number, hunk, names)?)?;
    }
    Ok(parts)
}

// What is written of a hunk with this number.
fn part_of<'a>(
    alloc: Global,
    number: u64,
    hunk: &'a Hunk,
    names: &Names,
) -> Result<Part<'a>, AllocError>
    requires { IsPrintableHunk hunk.now }
    ensures hunk { IfOk result (λ part. hunk_in part ≡ hunk.now) }
    ensures number { IfOk result (λ part. part.number ≡ number) }
    ensures right { IfOk result IsRight }
{
    let form = form_of(alloc, hunk, names)?;
    let mut text = Vec::new(alloc);
    push_sentence(&mut text, &[Bytes(b"; HUNK "), Number(number)])?;
    push_form(&mut text, hunk, &form)?;
    Ok(Part {
        number,
        hunk,
        form,
        text,
    })
}

// Adds what is written of a hunk in this form.
fn push_form(text: &mut Vec<u8>, hunk: &Hunk, form: &Form) -> Result<(), AllocError>
    ensures { OnOk result (IsAfter text.old.items hunk.now form.now text.new.items) }
{
    match form {
        Form::Whole(lines) => push_sentence(text, &[Bytes(b"\n"), Bytes(lines.as_slice())]),
        Form::WithLast(lines) => {
            push_sentence(text, &[Bytes(b"\n"), Bytes(lines.as_slice())])?;
            push_last(text, hunk)
        }
        Form::Words(why) => {
            push_reason(text, why.as_slice())?;
            push_hunk(text, hunk)
        }
    }
}

// Adds the reason why a hunk is written as words.
fn push_reason(text: &mut Vec<u8>, why: &[u8]) -> Result<(), AllocError>
    ensures { OnOk result (text.new.items ≡ text.old.items ++ reason_line why.now) }
{
    push_sentence(text, &[Bytes(b", as words: "), Bytes(why), Bytes(b"\n")])
}

// Adds the line with the last word of a hunk.
fn push_last(text: &mut Vec<u8>, hunk: &Hunk) -> Result<(), AllocError>
    ensures { OnOk result (text.new.items ≡ text.old.items ++ last_line hunk.now) }
{
    let words = hunk.words.as_slice();
    let last = word_at(words, words.len().saturating_sub(1));
    push_sentence(
        text,
        &[Bytes(b"; LAST "), Number(u64::from(last)), Bytes(b"\n")],
    )
}

// The parts, one after the other.
fn text_of(alloc: Global, parts: &[Part]) -> Result<Vec<u8>, AllocError>
    ensures { IfOk result (λ text. text.items ≡ module_bytes parts.now) }
{
    let mut text = Vec::new(alloc);
    if parts.is_empty() {
        push_sentence(&mut text, &[Bytes(b"; NO HUNKS\n")])?;
    } else {
        push_parts(&mut text, parts)?;
    }
    Ok(text)
}

fn push_parts(text: &mut Vec<u8>, parts: &[Part]) -> Result<(), AllocError>
    ensures { OnOk result (text.new.items ≡ text.old.items ++ flat_map part_bytes parts.now) }
{
    for part in parts {
        push_part(text, part)?;
    }
    Ok(())
}

fn push_part(text: &mut Vec<u8>, part: &Part) -> Result<(), AllocError>
    ensures { OnOk result (text.new.items ≡ text.old.items ++ part_bytes part.now) }
{
    push_sentence(text, &[Bytes(part.text.as_slice())])
}
