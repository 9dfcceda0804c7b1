// Texts that a session may have.
ghost use Rattle.std.specs.Prelude.{◌≡◌, ◌+◌, ◌-◌, ◌<◌, ◌≤◌, ◌^◌, length, not, IfSome, ◌==◌, ◌||◌};
ghost use Rattle.std.specs.Char.{is_ascii_graphic};
ghost use Rattle.std.specs.List.{position};
ghost use Rattle.session_making.specs.Texts.{after_byte, bad_byte, bad_place, first_spot, is_fine, is_shown};

/// A place in a text.
#[derive(Clone, Copy)]
pub struct Spot {
    /// The number of the line, from 1.
    pub line: u64,
    /// The number of the byte in its line, from 1.
    pub column: u64,
}

/// A byte at a place of a text.
#[derive(Clone, Copy)]
pub struct ByteAt {
    /// The place.
    pub spot: Spot,
    /// The byte.
    pub byte: u8,
}

/// Where the first byte is that is none from the blank to `~`.
pub fn bad_byte(text: &[u8]) -> Option<usize>
    ensures value { result ≡ bad_byte text.now }
    ensures inside { IfSome result (λ i. i < length text.now) }
{
    text.iter().position(|c| !is_shown(*c))
}

/// Whether a byte is one from the blank to `~`.
pub fn is_shown(byte: u8) -> bool
    ensures { result ≡ is_shown byte }
{
    byte.is_ascii_graphic() || byte == b' '
}

/// The first byte of a file that is none from the blank to `~`, and no line end.
pub fn bad_place(text: &[u8]) -> Option<ByteAt>
    ensures { result ≡ bad_place first_spot text.now }
{
    let mut spot = Spot { line: 1, column: 1 };
    for byte in text {
        if !is_fine(*byte) {
            return Some(ByteAt { spot, byte: *byte });
        }
        spot = after_byte(spot, *byte);
    }
    None
}

// Whether a file may have a byte.
fn is_fine(byte: u8) -> bool
    ensures { result ≡ is_fine byte }
{
    byte == b'\n' || is_shown(byte)
}

// The place after a byte.
fn after_byte(spot: Spot, byte: u8) -> Spot
    requires some { 1 ≤ spot.column }
    requires fits { spot.line + spot.column < 2 ^ 64 - 1 }
    ensures value { result ≡ after_byte spot byte }
    ensures some { 1 ≤ result.column }
    ensures small { result.line + result.column ≤ spot.line + spot.column + 1 }
{
    if byte == b'\n' {
        return Spot {
            line: spot.line + 1,
            column: 1,
        };
    }
    Spot {
        line: spot.line,
        column: spot.column + 1,
    }
}
