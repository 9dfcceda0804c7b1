// What the runs of an outcome wrote, as it is shown.
use log_words::bytes::hex_digits;
use std::alloc::AllocError;
use text_errors::numbers::push_count;
use tool_texts::Said::Bytes;
use tool_texts::push_sentence;

/// After so many characters a line is cut.
const WIDTH: usize = 100;

/// Adds what was written: how many bytes it is, the first lines of it, and how many lines more there are.
pub fn push_written(text: &mut Vec<u8>, bytes: &[u8], most_lines: u64) -> Result<(), AllocError> {
    if bytes.is_empty() {
        return push_sentence(text, &[Bytes(b"  it wrote nothing\n")]);
    }
    push_sentence(text, &[Bytes(b"  it wrote ")])?;
    push_count(text, bytes.len() as u64, b"byte")?;
    push_sentence(text, &[Bytes(b":\n")])?;
    push_lines(text, bytes.strip_suffix(b"\n").unwrap_or(bytes), most_lines)
}

// The first lines, and how many there are besides.
fn push_lines(text: &mut Vec<u8>, lines: &[u8], most_lines: u64) -> Result<(), AllocError> {
    let mut count = 0u64;
    for line in lines.split(|byte| *byte == b'\n') {
        if count < most_lines {
            push_line(text, line)?;
        }
        count = count.saturating_add(1);
    }
    if count <= most_lines {
        return Ok(());
    }
    push_sentence(text, &[Bytes(b"    and ")])?;
    push_count(text, count - most_lines, b"line")?;
    push_sentence(text, &[Bytes(b" more\n")])
}

// A line, as much of it as is shown.
fn push_line(text: &mut Vec<u8>, line: &[u8]) -> Result<(), AllocError> {
    push_sentence(text, &[Bytes(b"    | ")])?;
    let begin = text.len();
    for byte in line {
        if text.len().saturating_sub(begin) >= WIDTH {
            return push_sentence(text, &[Bytes(b"..\n")]);
        }
        push_byte(text, *byte)?;
    }
    push_sentence(text, &[Bytes(b"\n")])
}

// A byte that is no text as `\x07`.
fn push_byte(text: &mut Vec<u8>, byte: u8) -> Result<(), AllocError> {
    match byte {
        b' '..=b'~' => push_sentence(text, &[Bytes(&[byte])]),
        _ => push_sentence(text, &[Bytes(b"\\x"), Bytes(&hex_digits(byte))]),
    }
}
