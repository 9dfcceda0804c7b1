// Printing the lines of a saved machine.
ghost use Rattle.std.specs.Prelude.{◌≡◌, ◌≤◌, ◌∷◌, ◌++◌, [], length, slice_range};
ghost use Rattle.hex.specs.Hex.{encode_lower};
ghost use Rattle.byte_streams.specs.Sinks.{FailsBySink, GathersFor};
ghost use Rattle.saved_text.specs.SavedLines.Canonical.{printed_console, printed_regs, printed_ring, printed_shell, statement_text};
ghost use Rattle.saved_text.specs.SavedLines.Statements.{Bytes, File, Go, Key, Pipe, Stream, Word};

use byte_streams::Piece::{Decimal, Text, Word};
use byte_streams::{Output, Sink, SinkFault, gather, gather_pieces};
use module_text::TextBytes;
use word_store::Regs;

/// Adds the line of the registers to what is pending. `SinkFault` comes only where the sink's count of faults rose; so it
/// is for all lines.
pub fn print_regs<K: Sink>(r: &Regs, out: &mut K, pending: &mut Output) -> Result<(), SinkFault>
    ensures text { GathersFor K.Sink out.old out.new pending.old pending.new
        (printed_regs r.now ++ 10 ∷ []) result }
    ensures cause { FailsBySink K.Sink out.old out.new result }
{
    gather_pieces(
        out,
        pending,
        &[
            Text(b"REGS "),
            Decimal(u64::from(r.a)),
            Text(b" "),
            Decimal(u64::from(r.b)),
            Text(b" "),
            Decimal(u64::from(r.c)),
            Text(b" "),
            Decimal(u64::from(r.p)),
            Text(b" "),
            Decimal(u64::from(r.g)),
            Text(b" "),
            Decimal(u64::from(r.pc)),
            Text(b"\n"),
        ],
    )
}

/// Adds the line of a file's name.
pub fn print_file<K: Sink>(name: &[u8], out: &mut K, pending: &mut Output) -> Result<(), SinkFault>
    ensures text { GathersFor K.Sink out.old out.new pending.old pending.new
        (statement_text (File name.now) ++ 10 ∷ []) result }
    ensures cause { FailsBySink K.Sink out.old out.new result }
{
    gather_pieces(out, pending, &[Text(b"FILE "), Text(name), Text(b"\n")])
}

/// Adds the line of a stream: its number, 1 where it writes, its position, and the name of its file.
pub fn print_stream<K: Sink>(
    k: u64,
    mode: u64,
    position: u64,
    name: &[u8],
    out: &mut K,
    pending: &mut Output,
) -> Result<(), SinkFault>
    ensures text { GathersFor K.Sink out.old out.new pending.old pending.new
        (statement_text (Stream k mode position name.now) ++ 10 ∷ []) result }
    ensures cause { FailsBySink K.Sink out.old out.new result }
{
    gather_pieces(
        out,
        pending,
        &[
            Text(b"STREAM "),
            Decimal(k),
            Text(b" "),
            Decimal(mode),
            Text(b" "),
            Decimal(position),
            Text(b" "),
            Text(name),
            Text(b"\n"),
        ],
    )
}

/// Adds the line of a word of the store, with its address.
pub fn print_word<K: Sink>(
    address: u64,
    word: u32,
    out: &mut K,
    pending: &mut Output,
) -> Result<(), SinkFault>
    ensures text { GathersFor K.Sink out.old out.new pending.old pending.new
        (statement_text (Word address word) ++ 10 ∷ []) result }
    ensures cause { FailsBySink K.Sink out.old out.new result }
{
    gather_pieces(
        out,
        pending,
        &[
            Text(b"W "),
            Decimal(address),
            Text(b" "),
            Word(word),
            Text(b"\n"),
        ],
    )
}

/// Adds the line of a key, with its step.
pub fn print_key<K: Sink>(
    step: u32,
    byte: u8,
    out: &mut K,
    pending: &mut Output,
) -> Result<(), SinkFault>
    ensures text { GathersFor K.Sink out.old out.new pending.old pending.new
        (statement_text (Key step byte) ++ 10 ∷ []) result }
    ensures cause { FailsBySink K.Sink out.old out.new result }
{
    gather_pieces(
        out,
        pending,
        &[
            Text(b"KEY "),
            Decimal(u64::from(step)),
            Text(b" "),
            Text(&hex_digits(byte)),
            Text(b"\n"),
        ],
    )
}

/// Adds the last line, with the steps to take.
pub fn print_go<K: Sink>(steps: u64, out: &mut K, pending: &mut Output) -> Result<(), SinkFault>
    ensures text { GathersFor K.Sink out.old out.new pending.old pending.new
        (statement_text (Go steps) ++ 10 ∷ []) result }
    ensures cause { FailsBySink K.Sink out.old out.new result }
{
    gather_pieces(out, pending, &[Text(b"GO "), Decimal(steps), Text(b"\n")])
}

/// Adds the line of the bytes from place `from` to before place `to` of a text.
pub fn print_bytes<X: TextBytes, K: Sink>(
    bytes: &X,
    from: u32,
    to: u32,
    out: &mut K,
    pending: &mut Output,
) -> Result<(), SinkFault>
    requires rises { from ≤ to }
    requires inside { to ≤ length (X.text bytes.now) }
    ensures text { GathersFor K.Sink out.old out.new pending.old pending.new
        (statement_text (Bytes (slice_range (X.text bytes.now) from to)) ++ 10 ∷ []) result }
    ensures cause { FailsBySink K.Sink out.old out.new result }
{
    gather(out, pending, b":")?;
    gather_hex_line(bytes, from, to, out, pending)
}

/// Adds the line of the type-ahead.
pub fn print_ring<X: TextBytes, K: Sink>(
    bytes: &X,
    out: &mut K,
    pending: &mut Output,
) -> Result<(), SinkFault>
    ensures text { GathersFor K.Sink out.old out.new pending.old pending.new
        (printed_ring (X.text bytes.now) ++ 10 ∷ []) result }
    ensures cause { FailsBySink K.Sink out.old out.new result }
{
    gather(out, pending, b"RING ")?;
    print_bytes(bytes, 0, bytes.len(), out, pending)
}

/// Adds the console's line: 1 where it is finished, and its bytes.
pub fn print_console<X: TextBytes, K: Sink>(
    d: u64,
    bytes: &X,
    out: &mut K,
    pending: &mut Output,
) -> Result<(), SinkFault>
    ensures text { GathersFor K.Sink out.old out.new pending.old pending.new
        (printed_console d (X.text bytes.now) ++ 10 ∷ []) result }
    ensures cause { FailsBySink K.Sink out.old out.new result }
{
    gather_pieces(out, pending, &[Text(b"CONSOLE "), Decimal(d), Text(b" ")])?;
    print_bytes(bytes, 0, bytes.len(), out, pending)
}

/// Adds the shell's line: the number of its mode, that of the task that it waits for, and its bytes.
pub fn print_shell<X: TextBytes, K: Sink>(
    m: u64,
    x: u64,
    bytes: &X,
    out: &mut K,
    pending: &mut Output,
) -> Result<(), SinkFault>
    ensures text { GathersFor K.Sink out.old out.new pending.old pending.new
        (printed_shell m x (X.text bytes.now) ++ 10 ∷ []) result }
    ensures cause { FailsBySink K.Sink out.old out.new result }
{
    gather_pieces(
        out,
        pending,
        &[
            Text(b"SHELL "),
            Decimal(m),
            Text(b" "),
            Decimal(x),
            Text(b" "),
        ],
    )?;
    print_bytes(bytes, 0, bytes.len(), out, pending)
}

/// Adds the line of a pipe: its number, 1 for each end that is open and where the writing end was ever opened, its name, and
/// the bytes that it holds.
pub fn print_pipe<X: TextBytes, K: Sink>(
    k: u64,
    ends: (u64, u64, u64),
    name: &[u8],
    bytes: &X,
    out: &mut K,
    pending: &mut Output,
) -> Result<(), SinkFault>
    ensures text { GathersFor K.Sink out.old out.new pending.old pending.new
        (statement_text (Pipe k ends.0 ends.1 ends.2 name.now (X.text bytes.now)) ++ 10 ∷ []) result }
    ensures cause { FailsBySink K.Sink out.old out.new result }
{
    gather_pieces(
        out,
        pending,
        &[
            Text(b"PIPE "),
            Decimal(k),
            Text(b" "),
            Decimal(ends.0),
            Text(b" "),
            Decimal(ends.1),
            Text(b" "),
            Decimal(ends.2),
            Text(b" "),
            Text(name),
            Text(b" "),
        ],
    )?;
    print_bytes(bytes, 0, bytes.len(), out, pending)
}

// ---- hex

// The bytes from place `from` to before place `to` in hex, with a LF.
fn gather_hex_line<X: TextBytes, K: Sink>(
    bytes: &X,
    from: u32,
    to: u32,
    out: &mut K,
    pending: &mut Output,
) -> Result<(), SinkFault>
    requires rises { from ≤ to }
    requires inside { to ≤ length (X.text bytes.now) }
    ensures text { GathersFor K.Sink out.old out.new pending.old pending.new
        (encode_lower (slice_range (X.text bytes.now) from to) ++ 10 ∷ []) result }
    ensures cause { FailsBySink K.Sink out.old out.new result }
{
    gather_hex(bytes, from, to, out, pending)?;
    gather(out, pending, b"\n")
}

// The bytes from place `from` to before place `to` in hex.
fn gather_hex<X: TextBytes, K: Sink>(
    bytes: &X,
    from: u32,
    to: u32,
    out: &mut K,
    pending: &mut Output,
) -> Result<(), SinkFault>
    requires rises { from ≤ to }
    requires inside { to ≤ length (X.text bytes.now) }
    ensures text { GathersFor K.Sink out.old out.new pending.old pending.new
        (encode_lower (slice_range (X.text bytes.now) from to)) result }
    ensures cause { FailsBySink K.Sink out.old out.new result }
{
    for i in from..to {
        gather_byte(bytes.at(i).unwrap(), out, pending)?;
    }
    Ok(())
}

fn gather_byte<K: Sink>(byte: u8, out: &mut K, pending: &mut Output) -> Result<(), SinkFault>
    ensures text { GathersFor K.Sink out.old out.new pending.old pending.new
        (encode_lower (byte ∷ [])) result }
    ensures cause { FailsBySink K.Sink out.old out.new result }
{
    gather(out, pending, &hex_digits(byte))
}

// A byte as two hex digits in lower case.
fn hex_digits(byte: u8) -> [u8; 2]
    ensures { result ≡ encode_lower (byte ∷ []) }
{
    let mut digits = [0u8; 2];
    hex::encode_to_slice([byte], &mut digits).unwrap();
    digits
}
