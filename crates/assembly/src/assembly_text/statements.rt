// What a line of assembly says.
ghost use Rattle.std.specs.Prelude.{◌≡◌, ◌≤◌, ◌+◌, ◌++◌, length};

use crate::assembly_text::labels::Label;
use arrayvec::ArrayVec;
use std::marker::Model;

/// At most eight bytes, seen as their list.
#[derive(Drop)]
pub struct LineBytes {
    /// The bytes.
    bytes: ArrayVec<u8, 8>,
}

impl Model for LineBytes {
    ghost use Rattle.std.specs.Prelude.{ℕ, List};

    ghost Value = { List ℕ };

    ghost view = { λ b. b.bytes.items };
}

impl LineBytes {
    /// These bytes, one list after the other.
    pub fn new(front: &[u8], back: &[u8]) -> LineBytes
        requires { length front.now + length back.now ≤ 8 }
        ensures { result ≡ front.now ++ back.now }
    {
        let mut bytes = ArrayVec::new();
        bytes.try_extend_from_slice(front).unwrap();
        bytes.try_extend_from_slice(back).unwrap();
        LineBytes { bytes }
    }

    /// How many bytes.
    pub fn len(&self) -> u32
        ensures count { result ≡ length self.now }
        ensures few { result ≤ 8 }
    {
        self.bytes.len() as u32
    }

    /// The bytes, lent.
    pub fn as_slice(&self) -> &[u8]
        ensures value { result.now ≡ self.now }
        ensures few { length result.now ≤ 8 }
    {
        self.bytes.as_slice()
    }
}

/// What an offset may have to be a multiple of.
#[derive(Clone, Copy)]
pub enum Boundary {
    /// 2 bytes.
    Half,
    /// 4 bytes.
    Word,
}

/// What a line says besides its label.
#[derive(Drop)]
pub enum Statement<'a> {
    /// Bytes that are the same wherever they are: none, an instruction, or the data of `DB`, `DH` and `DW`.
    Fixed(LineBytes),
    /// An instruction whose operand byte leads to the label itself.
    Relative { byte: u8, label: Label<'a> },
    /// An instruction whose operand byte leads to the halfword that leads to the label's line.
    Indirect { byte: u8, label: Label<'a> },
    /// `RES`: a halfword that leads to the label.
    Reserve(Label<'a>),
    /// `DA`: the label's place in words, to be relocated.
    Address(Label<'a>),
    /// `ALIGN`: zero bytes up to the next such offset.
    Align(Boundary),
    /// `GLOBAL`: the label's place in bytes is the value of this global.
    Global { number: u32, label: Label<'a> },
}

/// A line: the label that it defines, and what else it says.
#[derive(Drop)]
pub struct Line<'a> {
    /// The label that it defines.
    pub label: Option<Label<'a>>,
    /// What it says besides.
    pub statement: Statement<'a>,
}
