// Where texts are cut.
ghost use Rattle.std.specs.Prelude.{◌≡◌, ◌==◌, ◌≤◌, length, not};
ghost use Rattle.std.specs.List.{position, position_or_len};

/// How many bytes are before the first byte that is this one, all of them where none is.
#[tactic(auto, using(crate::proofs::ArgumentTemplates::Chains::places))]
pub fn length_before(byte: u8, text: &[u8]) -> usize
    ensures value { result ≡ position_or_len (λ c. c == byte) text.now }
    ensures inside { result ≤ length text.now }
{
    place_of(byte, text).unwrap_or(text.len())
}

/// How many spaces are before the first other byte.
#[tactic(auto, using(crate::proofs::ArgumentTemplates::Chains::places))]
pub fn length_of_spaces(text: &[u8]) -> usize
    ensures value { result ≡ position_or_len (λ c. not (c == 32)) text.now }
    ensures inside { result ≤ length text.now }
{
    place_of_no_space(text).unwrap_or(text.len())
}

fn place_of(byte: u8, text: &[u8]) -> Option<usize>
    ensures { result ≡ position (λ c. c == byte) text.now }
{
    text.iter().position(|c| *c == byte)
}

fn place_of_no_space(text: &[u8]) -> Option<usize>
    ensures { result ≡ position (λ c. not (c == 32)) text.now }
{
    text.iter().position(|c| *c != b' ')
}
