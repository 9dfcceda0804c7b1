// The line of one instruction.
ghost use Rattle.std.specs.Prelude.{◌≡◌, ◌≤◌, IfOk, IsSome};
ghost use Rattle.byte_streams.specs.Sinks.{FailsBySink, GathersFor, PrintsTo};
ghost use Rattle.assembly.specs.ModuleListing.Lines.{byte_line, instruction_line, number_line, plain_line, target_line};
ghost use Rattle.assembly.specs.ModuleListing.Listing.{listed};

use byte_streams::{Output, Piece, Sink, SinkFault, gather_pieces, pass_on};
use instruction_set::{Code, Form, Instr, Row, decode, row};
use word_store::signed;

/// Writes the line of the instruction at byte address a, and answers the number of bytes that it takes, 1 to 5. The line
/// is the address, the name and the operand, if the form has one; the target of a relative or an indirect form is
/// there as a signed number. Where no instruction can be decoded, the line is the address, `DB` and the byte, which is
/// one byte. `SinkFault` comes only where the sink's count of faults rose; then a prefix of the line is written.
pub fn line_at<X: Code, K: Sink>(code: &X, a: u32, out: &mut K) -> Result<u32, SinkFault>
    requires { IsSome (X.code_bytes code.now a) }
    ensures text { PrintsTo K.Sink out.old out.new
        (listed (X.code_bytes code.now) a).text result }
    ensures length { IfOk result (λ n. n ≡ (listed (X.code_bytes code.now) a).length) }
    ensures bounds { IfOk result (λ n. (1 ≤ n) × (n ≤ 5)) }
    ensures cause { FailsBySink K.Sink out.old out.new result }
{
    let mut pending = Output::new();
    let length = gather_line(code, a, out, &mut pending)?;
    pass_on(out, &mut pending)?;
    Ok(length)
}

/// The same, but the line is gathered.
pub fn gather_line<X: Code, K: Sink>(
    code: &X,
    a: u32,
    out: &mut K,
    pending: &mut Output,
) -> Result<u32, SinkFault>
    requires { IsSome (X.code_bytes code.now a) }
    ensures text { GathersFor K.Sink out.old out.new pending.old pending.new
        (listed (X.code_bytes code.now) a).text result }
    ensures length { IfOk result (λ n. n ≡ (listed (X.code_bytes code.now) a).length) }
    ensures bounds { IfOk result (λ n. (1 ≤ n) × (n ≤ 5)) }
    ensures cause { FailsBySink K.Sink out.old out.new result }
{
    let byte = code.byte(a).unwrap();
    let Ok(i) = decode(code, a) else {
        gather_byte(a, byte, out, pending)?;
        return Ok(1);
    };
    let row = row(byte).unwrap();
    gather_instruction(a, row, i, out, pending)?;
    Ok(i.length)
}

fn gather_instruction<K: Sink>(
    a: u32,
    row: Row,
    i: Instr,
    out: &mut K,
    pending: &mut Output,
) -> Result<(), SinkFault>
    ensures text { GathersFor K.Sink out.old out.new pending.old pending.new
        (instruction_line row.form a row.name.now i) result }
    ensures cause { FailsBySink K.Sink out.old out.new result }
{
    match row.form {
        Form::Plain(_) | Form::Switch => gather_plain(a, row.name, out, pending),
        Form::Byte | Form::BytePlus | Form::Half | Form::Word => gather_number(
            a, row.name, i.operand, out, pending,
        ),
        Form::Relative | Form::Indirect => gather_target(a, row.name, i.target, out, pending),
    }
}

fn gather_plain<K: Sink>(
    a: u32,
    name: &str,
    out: &mut K,
    pending: &mut Output,
) -> Result<(), SinkFault>
    ensures text { GathersFor K.Sink out.old out.new pending.old pending.new
        (plain_line a name.now) result }
    ensures cause { FailsBySink K.Sink out.old out.new result }
{
    gather_pieces(
        out,
        pending,
        &[
            Piece::Decimal(u64::from(a)),
            Piece::Text(b" "),
            Piece::Text(name.as_bytes()),
            Piece::Text(b"\n"),
        ],
    )
}

fn gather_number<K: Sink>(
    a: u32,
    name: &str,
    n: u32,
    out: &mut K,
    pending: &mut Output,
) -> Result<(), SinkFault>
    ensures text { GathersFor K.Sink out.old out.new pending.old pending.new
        (number_line a name.now n) result }
    ensures cause { FailsBySink K.Sink out.old out.new result }
{
    gather_pieces(
        out,
        pending,
        &[
            Piece::Decimal(u64::from(a)),
            Piece::Text(b" "),
            Piece::Text(name.as_bytes()),
            Piece::Text(b" "),
            Piece::Decimal(u64::from(n)),
            Piece::Text(b"\n"),
        ],
    )
}

fn gather_target<K: Sink>(
    a: u32,
    name: &str,
    t: u32,
    out: &mut K,
    pending: &mut Output,
) -> Result<(), SinkFault>
    ensures text { GathersFor K.Sink out.old out.new pending.old pending.new
        (target_line a name.now t) result }
    ensures cause { FailsBySink K.Sink out.old out.new result }
{
    gather_pieces(
        out,
        pending,
        &[
            Piece::Decimal(u64::from(a)),
            Piece::Text(b" "),
            Piece::Text(name.as_bytes()),
            Piece::Text(b" "),
            Piece::Signed(i64::from(signed(t))),
            Piece::Text(b"\n"),
        ],
    )
}

fn gather_byte<K: Sink>(
    a: u32,
    byte: u8,
    out: &mut K,
    pending: &mut Output,
) -> Result<(), SinkFault>
    ensures text { GathersFor K.Sink out.old out.new pending.old pending.new
        (byte_line a byte) result }
    ensures cause { FailsBySink K.Sink out.old out.new result }
{
    gather_pieces(
        out,
        pending,
        &[
            Piece::Decimal(u64::from(a)),
            Piece::Text(b" DB "),
            Piece::Decimal(u64::from(byte)),
            Piece::Text(b"\n"),
        ],
    )
}
