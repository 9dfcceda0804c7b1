// Texts, printed piece by piece and without memory.
ghost use Rattle.std.specs.List.{flat_map};
ghost use Rattle.std.specs.Prelude.{◌≡◌};
ghost use Rattle.byte_streams.specs.Pieces.{hex_digits_of, text_of};
ghost use Rattle.byte_streams.specs.Sinks.{FailsBySink, GathersFor, PrintsTo};

use crate::{Output, Sink, SinkFault, gather, pass_on};
use itoa::Buffer;

/// A part of a printed text.
#[derive(Clone, Copy)]
pub enum Piece<'a> {
    /// Text as it is.
    Text(&'a [u8]),
    /// A number in decimal.
    Decimal(u64),
    /// A number in decimal, after a `-` where it is below 0.
    Signed(i64),
    /// A word as eight hex digits in lower case, the highest first.
    Word(u32),
}

/// Writes the pieces, one after the other. `SinkFault` comes only where the sink's count of faults rose; then a
/// prefix of their text is written.
pub fn write_pieces<K: Sink>(out: &mut K, pieces: &[Piece]) -> Result<(), SinkFault>
    ensures text { PrintsTo K.Sink out.old out.new (flat_map text_of pieces.now) result }
    ensures cause { FailsBySink K.Sink out.old out.new result }
{
    let mut pending = Output::new();
    gather_pieces(out, &mut pending, pieces)?;
    pass_on(out, &mut pending)
}

/// Adds the texts of the pieces, one after the other, to what is pending.
pub fn gather_pieces<K: Sink>(
    out: &mut K,
    pending: &mut Output,
    pieces: &[Piece],
) -> Result<(), SinkFault>
    ensures text { GathersFor K.Sink out.old out.new pending.old pending.new
        (flat_map text_of pieces.now) result }
    ensures cause { FailsBySink K.Sink out.old out.new result }
{
    for piece in pieces {
        gather_piece(out, pending, *piece)?;
    }
    Ok(())
}

fn gather_piece<K: Sink>(out: &mut K, pending: &mut Output, piece: Piece) -> Result<(), SinkFault>
    ensures text { GathersFor K.Sink out.old out.new pending.old pending.new
        (text_of piece.entry) result }
    ensures cause { FailsBySink K.Sink out.old out.new result }
{
    match piece {
        Piece::Text(text) => gather(out, pending, text),
        Piece::Decimal(n) => {
            let mut buffer = Buffer::new();
            gather(out, pending, buffer.format(n).as_bytes())
        }
        Piece::Signed(n) => {
            let mut buffer = Buffer::new();
            gather(out, pending, buffer.format(n).as_bytes())
        }
        Piece::Word(w) => gather(out, pending, &hex_digits(w)),
    }
}

fn hex_digits(w: u32) -> [u8; 8]
    ensures { result ≡ hex_digits_of w }
{
    let mut digits = [0u8; 8];
    hex::encode_to_slice(w.to_be_bytes(), &mut digits).unwrap();
    digits
}
