// Printing a session.
ghost use Rattle.std.specs.Prelude.{◌≡◌, [], ◌∷◌, ◌++◌, false, if◌then◌else◌, map};
ghost use Rattle.hex.specs.Hex.{encode_lower};
ghost use Rattle.byte_streams.specs.Sinks.{FailsBySink, PrintsTo};
ghost use Rattle.module_text.specs.TextReader.Lines.{lines_of, text_of_lines};
ghost use Rattle.session_text.specs.Canonical.{canonical, form_text, head_text, keys_text, lines_text, machine_text, statement_text};
ghost use Rattle.session_text.specs.Entries.{colon_line};
ghost use Rattle.session_text.specs.Statements.{File, Go, Key, Task, names_text};

use crate::{LineForm, Session, SessionLine};
use byte_streams::{Piece, Sink, SinkFault, write_pieces};
use module_text::split_line;
use ram_disc::Name;

/// Writes the canonical text of a session. It takes no memory. `SinkFault` comes only where the sink's count of faults
/// rose; then a prefix of the text is written.
pub fn print_session<K: Sink>(s: &Session, out: &mut K) -> Result<(), SinkFault>
    ensures text { PrintsTo K.Sink out.old out.new (canonical s.now) result }
    ensures cause { FailsBySink K.Sink out.old out.new result }
{
    print_head(s.version, s.store, out)?;
    print_machine(s.bare, s.period, s.resident, s.debug, out)?;
    print_lines(s.lines.as_slice(), out)?;
    print_keys(s.keys.as_slice(), out)?;
    print_go(s.go, out)
}

// Writes the first two lines.
fn print_head<K: Sink>(version: u32, store: u32, out: &mut K) -> Result<(), SinkFault>
    ensures text { let text = text_of_lines (head_text version store) in
        PrintsTo K.Sink out.old out.new text result }
    ensures cause { FailsBySink K.Sink out.old out.new result }
{
    write_pieces(
        out,
        &[
            Piece::Text(b"TRIPOS "),
            Piece::Decimal(u64::from(version)),
            Piece::Text(b"\nSTORE "),
            Piece::Decimal(u64::from(store)),
            Piece::Text(b"\n"),
        ],
    )
}

// Writes the lines that say which machine it is.
fn print_machine<K: Sink>(
    bare: bool,
    period: u32,
    resident: bool,
    debug: bool,
    out: &mut K,
) -> Result<(), SinkFault>
    ensures text { let text = text_of_lines (machine_text bare period resident debug) in
        PrintsTo K.Sink out.old out.new text result }
    ensures cause { FailsBySink K.Sink out.old out.new result }
{
    if bare {
        write_pieces(out, &[Piece::Text(b"BARE\n")])
    } else {
        print_clock(period, resident, debug, out)
    }
}

fn print_clock<K: Sink>(
    period: u32,
    resident: bool,
    debug: bool,
    out: &mut K,
) -> Result<(), SinkFault>
    ensures text { let text = text_of_lines (machine_text false period resident debug) in
        PrintsTo K.Sink out.old out.new text result }
    ensures cause { FailsBySink K.Sink out.old out.new result }
{
    write_pieces(
        out,
        &[
            Piece::Text(b"TICK "),
            Piece::Decimal(u64::from(period)),
            Piece::Text(b"\n"),
        ],
    )?;
    print_option(resident, b"RESIDENT\n", out)?;
    print_option(debug, b"DEBUG\n", out)
}

// Writes a line, where it is to be there.
fn print_option<K: Sink>(shown: bool, line: &[u8], out: &mut K) -> Result<(), SinkFault>
    ensures text { let text = if shown then line.now else [] in
        PrintsTo K.Sink out.old out.new text result }
    ensures cause { FailsBySink K.Sink out.old out.new result }
{
    if shown {
        write_pieces(out, &[Piece::Text(line)])
    } else {
        Ok(())
    }
}

// Writes the lines of code, or of files and tasks.
fn print_lines<K: Sink>(lines: &[SessionLine], out: &mut K) -> Result<(), SinkFault>
    ensures text { let text = text_of_lines (lines_text lines.now) in
        PrintsTo K.Sink out.old out.new text result }
    ensures cause { FailsBySink K.Sink out.old out.new result }
{
    for line in lines {
        print_form(&line.form, out)?;
    }
    Ok(())
}

// Writes the lines of code, of a file or of a task.
fn print_form<K: Sink>(form: &LineForm, out: &mut K) -> Result<(), SinkFault>
    ensures text { let text = text_of_lines (form_text form.now) in
        PrintsTo K.Sink out.old out.new text result }
    ensures cause { FailsBySink K.Sink out.old out.new result }
{
    match form {
        LineForm::Code(bytes) => print_code(bytes.as_slice(), out),
        LineForm::File { name, bytes } => print_file(name, bytes.as_slice(), out),
        LineForm::Task {
            id,
            pri,
            stack,
            names,
        } => print_task(*id, *pri, *stack, names.as_slice(), out),
    }
}

// Writes a line of code.
fn print_code<K: Sink>(bytes: &[u8], out: &mut K) -> Result<(), SinkFault>
    ensures text { let text = 58 ∷ (encode_lower bytes.now ++ 10 ∷ []) in
        PrintsTo K.Sink out.old out.new text result }
    ensures cause { FailsBySink K.Sink out.old out.new result }
{
    write_pieces(out, &[Piece::Text(b":")])?;
    print_hex(bytes, out)?;
    write_pieces(out, &[Piece::Text(b"\n")])
}

// Writes a file and its text.
fn print_file<K: Sink>(name: &Name, bytes: &[u8], out: &mut K) -> Result<(), SinkFault>
    ensures text { let lines = map colon_line (lines_of bytes.now) in
        let text = text_of_lines (statement_text (File name.now) ∷ lines) in
        PrintsTo K.Sink out.old out.new text result }
    ensures cause { FailsBySink K.Sink out.old out.new result }
{
    write_pieces(
        out,
        &[
            Piece::Text(b"FILE "),
            Piece::Text(name.bytes()),
            Piece::Text(b"\n"),
        ],
    )?;
    print_text(bytes, out)
}

// Writes the lines of a text, each after a colon.
fn print_text<K: Sink>(text: &[u8], out: &mut K) -> Result<(), SinkFault>
    ensures text { let text = text_of_lines (map colon_line (lines_of text.now)) in
        PrintsTo K.Sink out.old out.new text result }
    ensures cause { FailsBySink K.Sink out.old out.new result }
{
    let mut rest = text;
    while let Some((line, others)) = split_line(rest) {
        write_pieces(
            out,
            &[Piece::Text(b":"), Piece::Text(line), Piece::Text(b"\n")],
        )?;
        rest = others;
    }
    Ok(())
}

// Writes a task.
fn print_task<K: Sink>(
    id: u32,
    pri: u32,
    stack: u32,
    names: &[Name],
    out: &mut K,
) -> Result<(), SinkFault>
    ensures text { let text = text_of_lines (statement_text (Task id pri stack names.now) ∷ []) in
        PrintsTo K.Sink out.old out.new text result }
    ensures cause { FailsBySink K.Sink out.old out.new result }
{
    write_pieces(
        out,
        &[
            Piece::Text(b"TASK "),
            Piece::Decimal(u64::from(id)),
            Piece::Text(b" "),
            Piece::Decimal(u64::from(pri)),
            Piece::Text(b" "),
            Piece::Decimal(u64::from(stack)),
        ],
    )?;
    print_names(names, out)?;
    write_pieces(out, &[Piece::Text(b"\n")])
}

// Writes names, each after a blank.
fn print_names<K: Sink>(names: &[Name], out: &mut K) -> Result<(), SinkFault>
    ensures text { PrintsTo K.Sink out.old out.new (names_text names.now) result }
    ensures cause { FailsBySink K.Sink out.old out.new result }
{
    for name in names {
        write_pieces(out, &[Piece::Text(b" "), Piece::Text(name.bytes())])?;
    }
    Ok(())
}

// Writes a line for each key.
fn print_keys<K: Sink>(keys: &[(u32, u8)], out: &mut K) -> Result<(), SinkFault>
    ensures text { let text = text_of_lines (keys_text keys.now) in
        PrintsTo K.Sink out.old out.new text result }
    ensures cause { FailsBySink K.Sink out.old out.new result }
{
    for key in keys {
        print_key(key.0, key.1, out)?;
    }
    Ok(())
}

fn print_key<K: Sink>(step: u32, byte: u8, out: &mut K) -> Result<(), SinkFault>
    ensures text { let text = text_of_lines (statement_text (Key step byte) ∷ []) in
        PrintsTo K.Sink out.old out.new text result }
    ensures cause { FailsBySink K.Sink out.old out.new result }
{
    write_pieces(
        out,
        &[
            Piece::Text(b"KEY "),
            Piece::Decimal(u64::from(step)),
            Piece::Text(b" "),
            Piece::Text(&hex_digits(byte)),
            Piece::Text(b"\n"),
        ],
    )
}

// Writes the last line.
fn print_go<K: Sink>(go: u64, out: &mut K) -> Result<(), SinkFault>
    ensures text { let text = text_of_lines (statement_text (Go go) ∷ []) in
        PrintsTo K.Sink out.old out.new text result }
    ensures cause { FailsBySink K.Sink out.old out.new result }
{
    write_pieces(
        out,
        &[Piece::Text(b"GO "), Piece::Decimal(go), Piece::Text(b"\n")],
    )
}

// Writes bytes in hex, each as two digits.
#[tactic(auto, unfolding(hex::specs::Hex::encode_with))]
fn print_hex<K: Sink>(bytes: &[u8], out: &mut K) -> Result<(), SinkFault>
    ensures text { PrintsTo K.Sink out.old out.new (encode_lower bytes.now) result }
    ensures cause { FailsBySink K.Sink out.old out.new result }
{
    for byte in bytes {
        print_byte(*byte, out)?;
    }
    Ok(())
}

fn print_byte<K: Sink>(byte: u8, out: &mut K) -> Result<(), SinkFault>
    ensures text { PrintsTo K.Sink out.old out.new (encode_lower (byte ∷ [])) result }
    ensures cause { FailsBySink K.Sink out.old out.new result }
{
    write_pieces(out, &[Piece::Text(&hex_digits(byte))])
}

// A byte as two hex digits in lower case.
fn hex_digits(byte: u8) -> [u8; 2]
    ensures { result ≡ encode_lower (byte ∷ []) }
{
    let mut digits = [0u8; 2];
    hex::encode_to_slice([byte], &mut digits).unwrap();
    digits
}
