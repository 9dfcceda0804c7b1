// Why a tool does not give what is asked for.
ghost use Rattle.std.specs.Prelude.{◌≡◌};
ghost use Rattle.lab_marks.specs.declared.stops.Stop.TheVariants.{WantMemory};

use crate::ends::Hindered;
use crate::wrongs::{Wrong, push_words};
use std::alloc::{AllocError, AllocFailed, Global};
use tool_texts::Said::{Bytes, Number};
use tool_texts::{Lent, ToolText, push_sentence};

/// Something that is wrong, and where.
#[derive(Drop)]
pub struct Refusal<'a> {
    /// The path of the file.
    pub path: Lent<'a>,
    /// The number of the line, from 1.
    pub line: u64,
    /// What is wrong in it.
    pub wrong: Wrong<'a>,
}

/// Why a tool does not give what is asked for.
#[derive(Drop)]
pub enum Stop<'a> {
    /// Something is wrong in a line.
    Refused(Refusal<'a>),
    /// Memory could not be had.
    WantMemory,
}

impl<'a, T: Drop> From<AllocFailed<T>> for Stop<'a> {
    ghost from_gives = { λ _ e. e ≡ WantMemory };

    fn from(_: AllocFailed<T>) -> Stop<'a> {
        Stop::WantMemory
    }
}

impl<'a> From<AllocError> for Stop<'a> {
    ghost from_gives = { λ _ e. e ≡ WantMemory };

    fn from(_: AllocError) -> Stop<'a> {
        Stop::WantMemory
    }
}

/// What stops a tool, where this hinders it at a line.
pub fn stop_at<'a>(path: &'a [u8], line: u64, hindered: Hindered<'a>) -> Stop<'a> {
    match hindered {
        Hindered::Refused(wrong) => Stop::Refused(Refusal {
            path: Lent::new(path),
            line,
            wrong,
        }),
        Hindered::WantMemory => Stop::WantMemory,
    }
}

/// What a tool gives where something is wrong: a line with a status, and one with the place and the words.
pub fn refused_text(alloc: Global, refusal: &Refusal) -> Result<ToolText, AllocError> {
    let mut bytes = Vec::new(alloc);
    push_sentence(
        &mut bytes,
        &[
            Bytes(b"* 2\n"),
            Bytes(refusal.path.bytes()),
            Bytes(b":"),
            Number(refusal.line),
            Bytes(b": "),
        ],
    )?;
    push_words(&mut bytes, &refusal.wrong)?;
    push_sentence(&mut bytes, &[Bytes(b"\n")])?;
    Ok(ToolText {
        is_wrong: true,
        bytes,
    })
}
