// How the bytes of a line are read: outside of quotes, or in them.
ghost use Rattle.std.specs.Prelude.{◌≡◌, ◌≤◌, length};
ghost use Rattle.std.specs.Str.Lines.{strip_carriage_return};
ghost use Rattle.friendly_assembly.specs.Readings.{bytes_before, code_length, ends_at, is_blank, reading_after};

/// How a byte is read.
#[derive(Clone, Copy)]
pub enum Reading {
    /// Outside of quotes.
    Outside,
    /// In quotes, which end with this byte.
    Within(u8),
    /// In such quotes, right after a star.
    AfterStar(u8),
}

/// What ends the bytes before it.
#[derive(Clone, Copy)]
pub enum Stop {
    /// A blank or a tab.
    AtBlank,
    /// The semicolon of a comment.
    AtComment,
}

/// How many bytes of a line come before its comment, or before the CR of its end.
#[tactic(auto, unfolding(crate::specs::Readings::code_length))]
pub fn code_length(line: &[u8]) -> usize
    ensures value { result ≡ code_length line.now }
    ensures within { result ≤ length line.now }
{
    let line = without_carriage_return(line);
    bytes_before(Stop::AtComment, line)
}

// A line without the CR at its end.
fn without_carriage_return(line: &[u8]) -> &[u8]
    ensures value { result.now ≡ strip_carriage_return line.now }
    ensures shorter { length result.now ≤ length line.now }
{
    line.strip_suffix(b"\r").unwrap_or(line)
}

/// How many bytes come before the first one outside of quotes that ends them.
pub fn bytes_before(stop: Stop, text: &[u8]) -> usize
    ensures value { result ≡ bytes_before stop Reading.Outside text.now }
    ensures within { result ≤ length text.now }
{
    let mut reading = Reading::Outside;
    for (i, byte) in text.iter().enumerate() {
        if ends_at(stop, reading, *byte) {
            return i;
        }
        reading = reading_after(reading, *byte);
    }
    text.len()
}

// Whether a byte that is read so ends what comes before it.
fn ends_at(stop: Stop, reading: Reading, byte: u8) -> bool
    ensures { result ≡ ends_at stop reading byte }
{
    match (stop, reading) {
        (Stop::AtBlank, Reading::Outside) => is_blank(byte),
        (Stop::AtComment, Reading::Outside) => byte == b';',
        _ => false,
    }
}

// How the byte after this one is read.
fn reading_after(reading: Reading, byte: u8) -> Reading
    ensures { result ≡ reading_after reading byte }
{
    match reading {
        Reading::Outside => reading_after_outside(byte),
        Reading::Within(quote) => reading_after_within(quote, byte),
        Reading::AfterStar(quote) => Reading::Within(quote),
    }
}

fn reading_after_outside(byte: u8) -> Reading
    ensures { result ≡ reading_after Reading.Outside byte }
{
    if byte == b'"' || byte == b'\'' {
        Reading::Within(byte)
    } else {
        Reading::Outside
    }
}

fn reading_after_within(quote: u8, byte: u8) -> Reading
    ensures { result ≡ reading_after (Reading.Within quote) byte }
{
    if byte == b'*' {
        Reading::AfterStar(quote)
    } else if byte == quote {
        Reading::Outside
    } else {
        Reading::Within(quote)
    }
}

/// Whether a byte is a blank or a tab.
pub fn is_blank(byte: u8) -> bool
    ensures { result ≡ is_blank byte }
{
    byte == b' ' || byte == b'\t'
}
