// The sessions of the two machines of a ring.
ghost use Rattle.std.specs.Prelude.{◌≡◌, ◌<◌, ◌+◌, ◌≤◌, ◌-◌, ◌^◌, false, length, drop, slice_get, IfErr, IfOk};
ghost use Rattle.std.specs.Option.{option_copied, option_map_or};
ghost use Rattle.module_text.specs.TextReader.Answers.{Gives};
ghost use Rattle.module_text.specs.TextReader.Lines.{lines_of};
ghost use Rattle.session_text.specs.Canonical.{IsLawful};
ghost use Rattle.session_text.specs.Front.{front_count};
ghost use Rattle.machine_ring.specs.RingLink.Machines.{IsUpTo, bare_end, end_behind, has_bare, kernel_lines, left_lines};

use module_text::{TextEnd, split_line};
use session_text::{Session, read_front, read_session};
use std::alloc::Global;

/// The session of the left machine at the front of a text, the text after it, and how many lines the session has.
pub fn read_left(alloc: Global, text: &[u8]) -> Result<(Session, &[u8], u32), TextEnd>
    requires { length text.now < 2 ^ 32 }
    ensures value { Gives (λ x. (x.0, (lines_of x.1.now, x.2))) result
        (left_lines (lines_of text.now)) }
    ensures shorter { IfOk result (λ x. x.2 + length x.1.now ≤ length text.now) }
    ensures within { IfErr result (λ end. IsUpTo (length text.now + 1) end) }
{
    let front = read_front(alloc, text)?;
    let rest = text_behind(front.end as usize, text);
    Ok((front.session, rest, front.lines))
}

// The text after a place.
fn text_behind(place: usize, text: &[u8]) -> &[u8]
    requires { place ≤ length text.now }
    ensures { result.now ≡ drop place text.now }
{
    &text[place..]
}

/// The session of the right machine, which has a kernel: `BARE` is refused with code 1, unless a line before it is refused.
pub fn read_right(alloc: Global, text: &[u8]) -> Result<Session, TextEnd>
    requires { length text.now < 2 ^ 32 }
    ensures value { Gives (λ s. s) result (kernel_lines (lines_of text.now)) }
    ensures within { IfErr result (λ end. IsUpTo (length text.now + 1) end) }
{
    let read = read_session(alloc, text);
    if has_bare(text) {
        return Err(bare_end(read));
    }
    read
}

// Why a session whose third line is `BARE` is refused.
fn bare_end(read: Result<Session, TextEnd>) -> TextEnd
    ensures { result ≡ bare_end read }
{
    match read {
        Err(TextEnd::Bad { line, code }) if line < 3 => TextEnd::Bad { line, code },
        Err(TextEnd::WantMemory) => TextEnd::WantMemory,
        _ => TextEnd::Bad { line: 3, code: 1 },
    }
}

// Whether the third line is `BARE`.
fn has_bare(text: &[u8]) -> bool
    ensures { result ≡ has_bare (lines_of text.now) }
{
    match third_line(text) {
        Some(line) => line == b"BARE".as_slice(),
        None => false,
    }
}

fn third_line(text: &[u8]) -> Option<&[u8]>
    ensures { option_copied result ≡ slice_get (lines_of text.now) 2 }
{
    let (_, rest) = split_line(text)?;
    let (_, rest) = split_line(rest)?;
    let (line, _) = split_line(rest)?;
    Some(line)
}

/// Why a text after so many lines is refused, with the line in the whole.
pub fn end_behind(before: u32, end: TextEnd) -> TextEnd
    requires { IsUpTo (2 ^ 32 - 1 - before) end }
    ensures { result ≡ end_behind before end }
{
    match end {
        TextEnd::Bad { line, code } => TextEnd::Bad {
            line: before + line,
            code,
        },
        TextEnd::WantMemory => TextEnd::WantMemory,
    }
}
