// Lines of assembly, as they are in their files.

use module_text::{after_word, split_line};

/// The line with this number, from 1; nothing where there is none.
pub fn line_of(text: &[u8], number: u64) -> &[u8] {
    let mut left = number;
    let mut rest = text;
    while let Some((line, others)) = split_line(rest) {
        if left <= 1 {
            return line;
        }
        left -= 1;
        rest = others;
    }
    &[]
}

/// Whether a line of assembly gives data.
pub fn is_data(line: &[u8]) -> bool {
    let statement = without_label(line);
    after_word(b"RES ", statement).is_some() || is_data_word(statement)
}

// Whether a statement begins with `DA`, `DB`, `DH`, `DS` or `DW` and a blank.
fn is_data_word(statement: &[u8]) -> bool {
    matches!(
        statement,
        [b'D', b'A' | b'B' | b'H' | b'S' | b'W', b' ', ..]
    )
}

// What comes after a label, and the blanks after that; all where there is none.
fn without_label(line: &[u8]) -> &[u8] {
    let Some(end) = line.iter().position(|c| is_end_of_label(*c)) else {
        return line;
    };
    match line.split_at(end).1 {
        [b':', rest @ ..] => without_blanks(rest),
        _ => line,
    }
}

fn is_end_of_label(byte: u8) -> bool {
    byte == b':' || byte == b';' || byte == b' '
}

// A text without the blanks before it.
fn without_blanks(text: &[u8]) -> &[u8] {
    match text.iter().position(|c| *c != b' ') {
        Some(begin) => &text[begin..],
        None => &[],
    }
}
