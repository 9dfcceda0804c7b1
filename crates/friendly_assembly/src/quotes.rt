// What is in quotes.
ghost use Rattle.std.specs.Prelude.{◌≡◌, ◌+◌, ◌<◌, ◌≤◌, ◌∷◌, [], drop, length, IfSome, MatchOption};
ghost use Rattle.friendly_assembly.specs.Quotes.{bytes_read, codes_in, flaw_by, is_backslash, is_character, pair_step, quote_flaw, quoted, starred};

use crate::flaws::{Flaw, Wrong};

/// What a star and the byte after it stand for; `None` exactly where it stands for nothing.
pub fn starred(byte: u8) -> Option<u8>
    ensures { result ≡ starred byte }
{
    match byte {
        b'n' => Some(b'\n'),
        b't' => Some(b'\t'),
        b's' => Some(b' '),
        b'"' | b'\'' | b'*' => Some(byte),
        _ => None,
    }
}

// Whether a byte may be quoted: from the blank to `~`.
fn is_character(byte: u8) -> bool
    ensures { result ≡ is_character byte }
{
    b' ' <= byte && byte <= b'~'
}

// Whether this is a backslash before the n or the t of another language.
fn is_backslash(byte: u8, next: u8) -> bool
    ensures { result ≡ is_backslash byte next }
{
    byte == b'\\' && (next == b'n' || next == b't')
}

/// What reading a quote comes to, after its next bytes.
#[derive(Drop)]
pub enum QuoteStep<'a> {
    /// It is whole, or this is wrong.
    Ends(Option<Flaw<'a>>),
    /// One byte of it was read.
    OneByte,
    /// Two bytes of it were read.
    TwoBytes,
}

/// What is wrong in what comes after a quote that is at this column.
pub fn quote_flaw(quote: u8, column: usize, text: &[u8]) -> Option<Flaw<'_>>
    ensures { result ≡ quote_flaw quote column 1 text.now }
{
    let mut after = 1;
    let mut rest = text;
    loop {
        match quote_step(quote, column, after, rest) {
            QuoteStep::Ends(flaw) => return flaw,
            QuoteStep::OneByte => {
                after += 1;
                rest = rest.split_at(1).1;
            }
            QuoteStep::TwoBytes => {
                after += 2;
                rest = rest.split_at(2).1;
            }
        }
    }
}

// The next one or two bytes of a quote, so many bytes after it.
fn quote_step<'a>(quote: u8, column: usize, after: usize, text: &[u8]) -> QuoteStep<'a>
    requires { after < usize.MAX }
    ensures flaw { let one = quote_flaw quote column (after + 1) (drop 1 text.now) in
        let two = quote_flaw quote column (after + 2) (drop 2 text.now) in
        quote_flaw quote column after text.now ≡ flaw_by result one two }
    ensures inside { bytes_read result ≤ length text.now }
{
    match text {
        [] => QuoteStep::Ends(Some(Flaw::new(column, Wrong::NotClosed))),
        [last] => QuoteStep::Ends(last_flaw(quote, column, *last)),
        [byte, next, others @ ..] => {
            pair_step(quote, column, after, *byte, *next, others.is_empty())
        }
    }
}

// The last byte: it has to be the quote.
fn last_flaw<'a>(quote: u8, column: usize, last: u8) -> Option<Flaw<'a>>
    ensures { result ≡ quote_flaw quote column 0 (last ∷ []) }
{
    if last == quote {
        None
    } else {
        Some(Flaw::new(column, Wrong::NotClosed))
    }
}

// A byte that another one comes after, which is the last where nothing comes after it.
fn pair_step<'a>(
    quote: u8,
    column: usize,
    after: usize,
    byte: u8,
    next: u8,
    is_last: bool,
) -> QuoteStep<'a>
    requires { after < usize.MAX }
    ensures { result ≡ pair_step quote column after byte next is_last }
{
    if byte == quote {
        return QuoteStep::Ends(Some(Flaw::after(column, after + 1, Wrong::GoesOn)));
    }
    if !is_character(byte) {
        return QuoteStep::Ends(Some(Flaw::after(column, after, Wrong::NoCharacter)));
    }
    if is_backslash(byte, next) {
        return QuoteStep::Ends(Some(Flaw::after(column, after, Wrong::Backslash)));
    }
    if byte != b'*' {
        return QuoteStep::OneByte;
    }
    if is_last || starred(next).is_none() {
        return QuoteStep::Ends(Some(Flaw::after(column, after, Wrong::UnknownStar)));
    }
    QuoteStep::TwoBytes
}

/// What is in the quotes of a part.
pub fn quoted(part: &[u8]) -> &[u8]
    ensures { result.now ≡ quoted part.now }
{
    let (_, rest) = part.split_at(part.len().min(1));
    rest.split_at(rest.len().min(part.len().saturating_sub(2)))
        .0
}

/// The first character that a quoted text stands for, and what comes after it; `None` exactly where it is empty.
pub fn split_code(text: &[u8]) -> Option<(u8, &[u8])>
    ensures cases { let codes = codes_in text.now in
        MatchOption result (codes ≡ []) (λ x. codes ≡ x.0 ∷ codes_in x.1.now) }
    ensures goes_on { IfSome result (λ x. length x.1.now < length text.now) }
{
    match text {
        [] => None,
        [b'*', next, others @ ..] => Some((starred(*next).unwrap_or(*next), others)),
        [byte, others @ ..] => Some((*byte, others)),
    }
}

/// How many characters a quoted text stands for.
pub fn code_count(text: &[u8]) -> usize
    ensures { result ≡ length (codes_in text.now) }
{
    let mut count = 0;
    let mut rest = text;
    while let Some((_, others)) = split_code(rest) {
        count += 1;
        rest = others;
    }
    count
}
