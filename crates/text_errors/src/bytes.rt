// Which bytes a line may have.

use crate::reading::{NO_FORM, Reading};
use std::alloc::AllocError;
use tool_texts::Said::Bytes;

/// The bytes that some editors put before a text.
const ORDER_MARK: &[u8] = b"\xef\xbb\xbf";

/// Whether each byte of line n may be in one; the first that may not be is an error.
pub fn has_bytes(reading: &mut Reading, n: usize, line: &[u8]) -> Result<bool, AllocError> {
    let Some(index) = line.iter().position(|c| !is_text(*c)) else {
        return Ok(true);
    };
    let byte = line.get(index).copied().unwrap_or(0);
    if n == 1 && line.starts_with(ORDER_MARK) {
        reading.wrong(
            n,
            1,
            NO_FORM,
            &[Bytes(
                b"the text begins with a byte order mark, three bytes that an editor has put there; it has to begin with its first line",
            )],
        )?;
        return Ok(false);
    }
    wrong_byte(reading, n, index.saturating_add(1), byte)?;
    Ok(false)
}

/// Whether a byte is from the blank to `~`.
pub fn is_text(byte: u8) -> bool {
    matches!(byte, b' '..=b'~')
}

// This byte is not in a line.
fn wrong_byte(reading: &mut Reading, n: usize, column: usize, byte: u8) -> Result<(), AllocError> {
    match byte {
        b'\t' => reading.wrong(
            n,
            column,
            NO_FORM,
            &[Bytes(b"a tab is here, and a line has the bytes from the blank to ~")],
        ),
        b'\r' => reading.wrong(
            n,
            column,
            NO_FORM,
            &[Bytes(
                b"a carriage return is here, which may be at the end of a line alone, before its LF",
            )],
        ),
        _ => {
            let digits = hex_digits(byte);
            reading.wrong(
                n,
                column,
                NO_FORM,
                &[
                    Bytes(b"the byte "),
                    Bytes(digits.as_slice()),
                    Bytes(b" in hex is here, and a line has the bytes from the blank to ~"),
                ],
            )
        }
    }
}

/// The two hex digits of a byte.
pub fn hex_digits(byte: u8) -> [u8; 2] {
    let mut digits = [0u8; 2];
    hex::encode_to_slice([byte], &mut digits).unwrap();
    digits
}
