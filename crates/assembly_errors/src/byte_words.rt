// What is said of a byte that no part of a line has.
ghost use Rattle.std.specs.Prelude.{◌≡◌, ◌<◌, not, length, IfOk};
ghost use Rattle.std.specs.List.{position};
ghost use Rattle.assembly_errors.specs.ByteWords.{begins_with_mark, begins_with_quote, byte_remark, byte_then, first_byte_remark, hex_digit, is_line_byte, is_printable, other_remark, quote_remark, quoted_character, sign_remark, sign_words};
ghost use Rattle.assembly_errors.specs.Remarks.{kept_remark};

use crate::remarks::{Remark, make_remark};
use std::alloc::{AllocError, Global};
use tool_texts::Lent;
use tool_texts::Said::{Bytes, Number};

/// Where the first byte is that no part of a line has.
pub fn strange_byte(code: &[u8]) -> Option<usize>
    ensures { result ≡ position (λ c. not (is_line_byte c)) code.now }
{
    code.iter().position(|c| !is_line_byte(*c))
}

// Whether a part of a line may have the byte, or a space between parts.
fn is_line_byte(c: u8) -> bool
    ensures { result ≡ is_line_byte c }
{
    c.is_ascii_alphanumeric() || c == b'$' || c == b':' || c == b'-' || c == b' '
}

/// What is said of the byte at this place, in line n.
pub fn byte_remark(alloc: Global, n: u32, code: &[u8], place: usize) -> Result<Remark, AllocError>
    requires { place < length code.now }
    ensures { IfOk result (λ r. kept_remark r ≡ byte_remark n code.now place) }
{
    if begins_with_mark(n, code) {
        return make_remark(
            alloc,
            place + 1,
            &[
                Bytes(
                    b"the text begins with a byte order mark, three bytes that an editor has put there; ",
                ),
                Bytes(b"it has to begin with its first line"),
            ],
        );
    }
    first_byte_remark(alloc, place + 1, code.split_at(place).1)
}

// Whether a text begins so whose first line this is.
fn begins_with_mark(n: u32, code: &[u8]) -> bool
    ensures { result ≡ begins_with_mark n code.now }
{
    n == 1 && code.starts_with(b"\xef\xbb\xbf")
}

// What is said of the first of these bytes.
fn first_byte_remark(alloc: Global, column: usize, bytes: &[u8]) -> Result<Remark, AllocError>
    ensures { IfOk result (λ r. kept_remark r ≡ first_byte_remark column bytes.now) }
{
    match bytes.split_first() {
        None => make_remark(alloc, column, &[]),
        Some((byte, rest)) => byte_then(alloc, column, *byte, rest),
    }
}

// What is said of a byte, before these.
fn byte_then(alloc: Global, column: usize, byte: u8, rest: &[u8]) -> Result<Remark, AllocError>
    ensures { IfOk result (λ r. kept_remark r ≡ byte_then column byte rest.now) }
{
    if byte == b'\'' {
        return quote_remark(alloc, column, quoted_character(rest));
    }
    if byte == b'/' && rest.starts_with(b"/") {
        return make_remark(
            alloc,
            column,
            &[Bytes(b"a comment begins with ; and not with //")],
        );
    }
    if byte == 0xc2 && rest.starts_with(b"\xa0") {
        return make_remark(
            alloc,
            column,
            &[Bytes(
                b"a no-break space is here, and only plain spaces may be between the parts of a line",
            )],
        );
    }
    if byte == 0xe2 && begins_with_quote(rest) {
        return make_remark(
            alloc,
            column,
            &[Bytes(b"a typographic quote is here, and no part of a line has one")],
        );
    }
    sign_remark(alloc, column, byte)
}

// Whether these are the second and third byte of a typographic quote.
fn begins_with_quote(rest: &[u8]) -> bool
    ensures { result ≡ begins_with_quote rest.now }
{
    rest.starts_with(b"\x80\x98")
        || rest.starts_with(b"\x80\x99")
        || rest.starts_with(b"\x80\x9a")
        || rest.starts_with(b"\x80\x9b")
        || rest.starts_with(b"\x80\x9c")
        || rest.starts_with(b"\x80\x9d")
}

// The character after a quote, where another comes after it.
fn quoted_character(rest: &[u8]) -> Option<u8>
    ensures { result ≡ quoted_character rest.now }
{
    match rest.split_first() {
        None => None,
        Some((c, end)) => {
            if is_printable(*c) && end.starts_with(b"'") {
                return Some(*c);
            }
            None
        }
    }
}

fn is_printable(c: u8) -> bool
    ensures { result ≡ is_printable c }
{
    b' ' <= c && c <= b'~'
}

// What is said of a quote, and the character between it and another.
fn quote_remark(alloc: Global, column: usize, character: Option<u8>) -> Result<Remark, AllocError>
    ensures { IfOk result (λ r. kept_remark r ≡ quote_remark column character) }
{
    match character {
        Some(c) => make_remark(
            alloc,
            column,
            &[
                Bytes(b"a character is no number: '"),
                Bytes(&[c]),
                Bytes(b"' is "),
                Number(u64::from(c)),
                Bytes(b"; a .s text may have it"),
            ],
        ),
        None => make_remark(
            alloc,
            column,
            &[Bytes(b"a quote is here; a character is written as its number, from 0 to 255")],
        ),
    }
}

// What is said of a sign that means nothing here.
fn sign_remark(alloc: Global, column: usize, byte: u8) -> Result<Remark, AllocError>
    ensures { IfOk result (λ r. kept_remark r ≡ sign_remark column byte) }
{
    match sign_words(byte) {
        Some(words) => make_remark(alloc, column, &[Bytes(words.bytes())]),
        None => other_remark(alloc, column, byte),
    }
}

// What is said of a sign that other texts have.
fn sign_words(byte: u8) -> Option<Lent<'static>>
    ensures { result ≡ sign_words byte }
{
    if byte == b'\t' {
        return Some(Lent::new(
            b"a tab is here, and only spaces may be between the parts of a line; a .s text may have it",
        ));
    }
    if byte == b'\r' {
        return Some(Lent::new(
            b"a carriage return is here, which may be at the end of a line alone, before its LF",
        ));
    }
    if byte == b'#' {
        return Some(Lent::new(
            b"# begins no number and no comment: a number is decimal digits, and a comment begins with ;",
        ));
    }
    if byte == b'"' {
        return Some(Lent::new(
            b"a quote is here; a text is written byte by byte, by lines DB n; a .s text may have DS",
        ));
    }
    if byte == b'_' {
        return Some(Lent::new(b"a label has letters and digits alone, and no _"));
    }
    if byte == b',' {
        return Some(Lent::new(b"operands have spaces between them, and no comma"));
    }
    if byte == b'+' {
        return Some(Lent::new(b"a number has no +, and there are no sums"));
    }
    None
}

// What is said of any other byte.
fn other_remark(alloc: Global, column: usize, byte: u8) -> Result<Remark, AllocError>
    ensures { IfOk result (λ r. kept_remark r ≡ other_remark column byte) }
{
    if is_printable(byte) {
        return make_remark(
            alloc,
            column,
            &[Bytes(b"no part of a line has a "), Bytes(&[byte])],
        );
    }
    make_remark(
        alloc,
        column,
        &[
            Bytes(b"no part of a line has the byte "),
            Bytes(&[hex_digit(byte / 16), hex_digit(byte % 16)]),
            Bytes(b" in hex"),
        ],
    )
}

// A digit in hex.
fn hex_digit(digit: u8) -> u8
    requires { digit < 16 }
    ensures { result ≡ hex_digit digit }
{
    if digit < 10 {
        b'0' + digit
    } else {
        b'a' - 10 + digit
    }
}
