// The plan of the marks: bytes for files, of which each line has some. A line has the name of a file, a blank, and the bytes as printf writes
// them by its %b: a line end is `\n`, a backslash `\\`, and another byte that is not printable `\0` with three octal digits.
ghost use Rattle.std.specs.Prelude.{◌≡◌, ◌++◌, ◌/◌, ◌%◌, codes, decimal, OnOk};
ghost use Rattle.tool_texts.specs.declared.sentences.Said.TheVariants.{Number};
ghost use Rattle.std.specs.List.{flat_map};
ghost use Rattle.lab_marks.specs.Plans.{file_name, is_plain, piece, shown};

use std::alloc::AllocError;
use tool_texts::Said::{Bytes, Number};
use tool_texts::{Said, push_sentence};

/// A file of the plan.
#[derive(Clone, Copy)]
pub enum PlanFile {
    /// The names of the files that are handed in, and what is told.
    Head,
    /// The copies of files that are handed in.
    Copies,
    /// The points and the words of this mark.
    Mark(u64),
    /// The words of the session of this mark.
    Session(u64),
    /// The expectations of this mark.
    Checks(u64),
    /// The lines of the expectation with this number.
    Lines(u64),
}

/// Adds a line that adds these bytes to a file, which is made where it is not there.
pub fn push_piece(plan: &mut Vec<u8>, file: PlanFile, bytes: &[u8]) -> Result<(), AllocError>
    ensures { OnOk result (plan.new.items ≡ plan.old.items ++ piece file bytes.now) }
{
    push_name(plan, file)?;
    push_sentence(plan, &[Bytes(b" ")])?;
    push_shown(plan, bytes)?;
    push_sentence(plan, &[Bytes(b"\n")])
}

fn push_name(plan: &mut Vec<u8>, file: PlanFile) -> Result<(), AllocError>
    ensures { OnOk result (plan.new.items ≡ plan.old.items ++ file_name file) }
{
    match file {
        PlanFile::Head => push_sentence(plan, &[Bytes(b"head")]),
        PlanFile::Copies => push_sentence(plan, &[Bytes(b"copies")]),
        PlanFile::Mark(n) => push_sentence(plan, &[Bytes(b"mark."), Number(n)]),
        PlanFile::Session(n) => push_sentence(plan, &[Bytes(b"session."), Number(n)]),
        PlanFile::Checks(n) => push_sentence(plan, &[Bytes(b"checks."), Number(n)]),
        PlanFile::Lines(n) => push_sentence(plan, &[Number(n)]),
    }
}

fn push_shown(plan: &mut Vec<u8>, bytes: &[u8]) -> Result<(), AllocError>
    ensures { OnOk result (plan.new.items ≡ plan.old.items ++ flat_map shown bytes.now) }
{
    for byte in bytes {
        push_byte(plan, *byte)?;
    }
    Ok(())
}

// Adds a byte as printf reads it.
fn push_byte(plan: &mut Vec<u8>, byte: u8) -> Result<(), AllocError>
    ensures { OnOk result (plan.new.items ≡ plan.old.items ++ shown byte) }
{
    if byte == b'\n' {
        return push_sentence(plan, &[Bytes(b"\\n")]);
    }
    if byte == b'\\' {
        return push_sentence(plan, &[Bytes(b"\\\\")]);
    }
    if is_plain(byte) {
        plan.push(byte)?;
        return Ok(());
    }
    push_octal(plan, byte)
}

// Whether a byte is written as it is: one that can be printed, or no ASCII character.
fn is_plain(byte: u8) -> bool
    ensures { result ≡ is_plain byte }
{
    !byte.is_ascii_control()
}

fn push_octal(plan: &mut Vec<u8>, byte: u8) -> Result<(), AllocError>
    ensures { OnOk result (plan.new.items
        ≡ plan.old.items ++ codes "\\0" ++ decimal (byte / 64) ++ decimal (byte / 8 % 8) ++ decimal (byte % 8)) }
{
    push_sentence(
        plan,
        &[
            Bytes(b"\\0"),
            octal(byte / 64),
            octal(byte / 8 % 8),
            octal(byte % 8),
        ],
    )
}

fn octal(digit: u8) -> Said<'static>
    ensures { result ≡ Number digit }
{
    Number(u64::from(digit))
}
