// The parts of a line.
ghost use Rattle.std.specs.Prelude.{◌≡◌, ◌==◌, ◌≤◌, ◌∷◌, [], length, MatchOption, not};
ghost use Rattle.std.specs.List.{position, position_or_len};
ghost use Rattle.assembly.specs.AssemblyText.Parts.{parts_of, without_comment};

/// The line without its comment, which begins with a semicolon.
pub fn without_comment(line: &[u8]) -> &[u8]
    ensures { result.now ≡ without_comment line.now }
{
    match semicolon(line) {
        Some(start) => &line[..start],
        None => line,
    }
}

// Where the first semicolon is.
fn semicolon(line: &[u8]) -> Option<usize>
    ensures { result ≡ position (λ c. c == 59) line.now }
{
    line.iter().position(|c| *c == b';')
}

/// The first part of a line, and what follows it; `None` exactly where the line has no part.
pub fn split_part(line: &[u8]) -> Option<(&[u8], &[u8])>
    ensures { let parts = parts_of line.now in
        MatchOption result (parts ≡ []) (λ x. parts ≡ x.0.now ∷ parts_of x.1.now) }
{
    let start = first_byte(line)?;
    let (_, line) = line.split_at(start);
    let end = first_end(line);
    Some(line.split_at(end))
}

// Where the first byte is that is no space.
fn first_byte(line: &[u8]) -> Option<usize>
    ensures { result ≡ position (λ c. not (c == 32)) line.now }
{
    line.iter().position(|c| *c != b' ')
}

// Where the first space is, or the line's end where there is none.
#[tactic(auto, using(crate::proofs::AssemblyText::PartLemmas::first_or_end))]
fn first_end(line: &[u8]) -> usize
    ensures place { result ≡ position_or_len (λ c. c == 32) line.now }
    ensures within { result ≤ length line.now }
{
    first_space(line).unwrap_or(line.len())
}

// Where the first space is.
fn first_space(line: &[u8]) -> Option<usize>
    ensures { result ≡ position (λ c. c == 32) line.now }
{
    line.iter().position(|c| *c == b' ')
}
