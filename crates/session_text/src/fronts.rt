// Reading a session that other lines follow.
ghost use Rattle.std.specs.Prelude.{◌≡◌, ◌==◌, ◌-◌, ◌^◌, ◌<◌, ◌≤◌, if◌then◌else◌, length, IfOk};
ghost use Rattle.module_text.specs.TextReader.Answers.{Gives};
ghost use Rattle.module_text.specs.TextReader.Lines.{lines_of};
ghost use Rattle.session_text.specs.Canonical.{IsLawful};
ghost use Rattle.session_text.specs.Front.{front_count, front_end, front_lines, place_after};
ghost use Rattle.session_text.specs.SessionOfText.{session_lines};

use crate::{Session, read_session};
use module_text::{TextEnd, split_line};
use std::alloc::Global;

/// A session, and where the lines after it begin.
#[derive(Drop)]
pub struct Front {
    /// The session.
    pub session: Session,
    /// The place after the session's lines.
    pub end: u32,
    /// How many these lines are.
    pub lines: u32,
}

/// The session of the lines up to the first that begins with `GO `, that one included, or of all lines where there is none,
/// with the place after these lines and their number. `Bad` comes exactly where these lines alone are refused, with their
/// line and code, and `WantMemory` only where memory could not be had.
pub fn read_front(alloc: Global, text: &[u8]) -> Result<Front, TextEnd>
    requires { length text.now < 2 ^ 32 }
    ensures lawful { IfOk result (λ f. IsLawful f.session) }
    ensures session { Gives (λ f. f.session) result (session_lines (front_lines text.now)) }
    ensures end { IfOk result (λ f. f.end ≡ front_end text.now) }
    ensures lines { IfOk result (λ f. f.lines ≡ length (front_lines text.now)) }
    ensures few { IfOk result (λ f. f.lines ≤ length text.now) }
{
    let lines = front_count(text);
    let end = place_after(lines, text);
    let session = read_session(alloc, &text[..end])?;
    Ok(Front {
        session,
        end: end as u32,
        lines,
    })
}

// How many lines there are up to the first that begins with `GO `.
fn front_count(text: &[u8]) -> u32
    requires { length text.now < 2 ^ 32 }
    ensures count { result ≡ front_count (lines_of text.now) }
    ensures few { result ≤ length text.now }
{
    let mut count = 0;
    let mut rest = text;
    while let Some((line, others)) = split_line(rest) {
        count += 1;
        if line.starts_with(b"GO ") {
            break;
        }
        rest = others;
    }
    count
}

// The place after so many lines.
fn place_after(lines: u32, text: &[u8]) -> usize
    ensures place { result ≡ place_after lines text.now }
    ensures within { result ≤ length text.now }
{
    let mut left = lines;
    for (i, c) in text.iter().enumerate() {
        if left == 0 {
            return i;
        }
        left = lines_left(left, *c);
    }
    text.len()
}

// The lines that are left after a byte.
fn lines_left(left: u32, c: u8) -> u32
    requires { 0 < left }
    ensures { result ≡ (if c == 10 then left - 1 else left) }
{
    if c == b'\n' { left - 1 } else { left }
}
