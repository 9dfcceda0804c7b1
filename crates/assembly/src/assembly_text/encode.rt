// What the lines give to the hunk.
ghost use Rattle.std.specs.Prelude.{◌≡◌, ◌<◌, ◌^◌, length, IsOk, OnOk};
ghost use Rattle.module_text.specs.TextReader.Lines.{lines_of};
ghost use Rattle.module_text.specs.TextReader.Answers.{Gives};
ghost use Rattle.assembly.specs.AssemblyText.Encoding.{code_of, encode, encode_line, joined};
ghost use Rattle.assembly.specs.AssemblyText.KeptCode.{kept_code};
ghost use Rattle.assembly.specs.AssemblyText.KeptLabels.{table_of};
ghost use Rattle.assembly.specs.AssemblyText.Survey.{no_lines, survey};

use crate::assembly_text::pieces::{Piece, piece_of};
use crate::assembly_text::places::{FIRST_OFFSET, Place};
use crate::assembly_text::read::read_line;
use crate::assembly_text::survey::refused;
use module_text::{TextEnd, split_line};
use std::alloc::{AllocError, Global};
use std::collections::BTreeMap;

/// What lines give to the hunk.
#[derive(Drop)]
pub struct Encoded {
    /// The bytes from the first offset on.
    pub bytes: Vec<u8>,
    /// The offsets, in words, of the words to be relocated.
    pub relocations: Vec<u32>,
    /// Numbers of globals, and their values.
    pub pairs: Vec<(u32, u32)>,
}

/// What the lines of a text give, which has been surveyed. Refused is the first line that names a label that is nowhere
/// defined, out of reach or not aligned.
pub fn encode(
    alloc: Global,
    text: &[u8],
    labels: &BTreeMap<&[u8], Place>,
) -> Result<Encoded, TextEnd>
    requires short { length text.now < 2 ^ 32 }
    requires surveyed { IsOk (survey 1 no_lines (lines_of text.now)) }
    ensures { Gives kept_code result (encode 1 (table_of labels.now) 4 (lines_of text.now)) }
{
    let mut code = Encoded {
        bytes: Vec::new(alloc),
        relocations: Vec::new(alloc),
        pairs: Vec::new(alloc),
    };
    let mut n = 0;
    let mut offset = FIRST_OFFSET;
    let mut rest = text;
    while let Some((line, others)) = split_line(rest) {
        n += 1;
        let piece = encode_line(labels, n, offset, line)?;
        add(&mut code, &piece)?;
        offset += piece.bytes.len();
        rest = others;
    }
    Ok(code)
}

// What line n gives at its offset.
fn encode_line(
    labels: &BTreeMap<&[u8], Place>,
    n: u32,
    offset: u32,
    text: &[u8],
) -> Result<Piece, TextEnd>
    requires { offset < 2 ^ 30 }
    ensures { Gives (λ p. p) result (encode_line n (table_of labels.now) offset text.now) }
{
    let line = read_line(text).map_err(|error| refused(n, error))?;
    piece_of(labels, offset, &line.statement).map_err(|error| refused(n, error))
}

// Adds what a line gives.
fn add(code: &mut Encoded, piece: &Piece) -> Result<(), AllocError>
    ensures { OnOk result (kept_code code.new ≡ joined (kept_code code.old) (code_of piece.now)) }
{
    code.bytes.extend_from_slice(piece.bytes.as_slice())?;
    if let Some(relocation) = piece.relocation {
        code.relocations.push(relocation)?;
    }
    if let Some(pair) = piece.pair {
        code.pairs.push(pair)?;
    }
    Ok(())
}
