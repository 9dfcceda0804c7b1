// The parts of a line, each with its columns.
ghost use Rattle.std.specs.Prelude.{◌≡◌, ◌==◌, ◌≤◌, length, not};
ghost use Rattle.std.specs.List.{position, position_or_len};
ghost use Rattle.assembly_errors.specs.Parts.{next_part, part_from, parts_from};

use tool_texts::Lent;

/// A part of a line.
#[derive(Drop)]
pub struct Part<'a> {
    /// Its bytes.
    pub text: Lent<'a>,
    /// Its first column, from 1.
    pub column: usize,
    /// The column after it.
    pub end: usize,
}

/// The first part of what is left of a line, and what follows it.
#[derive(Drop)]
pub struct NextPart<'a> {
    /// The part, if there is one.
    pub part: Option<Part<'a>>,
    /// What follows it.
    pub rest: Lent<'a>,
}

/// The first part of what is left of a line.
pub fn next_part<'a>(line: &[u8], left: &'a [u8]) -> NextPart<'a>
    ensures { result ≡ next_part line.now left.now }
{
    match first_byte(left) {
        None => NextPart {
            part: None,
            rest: Lent::new(&[]),
        },
        Some(start) => part_from(line, left.split_at(start).1),
    }
}

// The part with which this begins.
fn part_from<'a>(line: &[u8], left: &'a [u8]) -> NextPart<'a>
    ensures { result ≡ part_from line.now left.now }
{
    let (bytes, rest) = left.split_at(first_space(left));
    NextPart {
        part: Some(Part {
            text: Lent::new(bytes),
            column: line.len().saturating_sub(left.len()) + 1,
            end: line.len().saturating_sub(rest.len()) + 1,
        }),
        rest: Lent::new(rest),
    }
}

// Where the first byte is that is no space.
fn first_byte(left: &[u8]) -> Option<usize>
    ensures { result ≡ position (λ c. not (c == 32)) left.now }
{
    left.iter().position(|c| *c != b' ')
}

// Where the first space is, or the end.
#[tactic(auto, using(assembly::proofs::AssemblyText::PartLemmas::first_or_end))]
fn first_space(left: &[u8]) -> usize
    ensures place { result ≡ position_or_len (λ c. c == 32) left.now }
    ensures within { result ≤ length left.now }
{
    space(left).unwrap_or(left.len())
}

// Where the first space is.
fn space(left: &[u8]) -> Option<usize>
    ensures { result ≡ position (λ c. c == 32) left.now }
{
    left.iter().position(|c| *c == b' ')
}

/// The first three parts of what is left of a line.
#[derive(Drop)]
pub struct ThreeParts<'a> {
    /// The first.
    pub first: Option<Part<'a>>,
    /// The second.
    pub second: Option<Part<'a>>,
    /// The third.
    pub third: Option<Part<'a>>,
}

/// The first three parts of what is left of a line.
pub fn three_parts<'a>(line: &[u8], left: &'a [u8]) -> ThreeParts<'a>
    ensures { result ≡ parts_from line.now left.now }
{
    let first = next_part(line, left);
    let second = next_part(line, first.rest.bytes());
    let third = next_part(line, second.rest.bytes());
    ThreeParts {
        first: first.part,
        second: second.part,
        third: third.part,
    }
}
