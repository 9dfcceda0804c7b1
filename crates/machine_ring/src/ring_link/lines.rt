// The lines of a ring's text, one after another.
ghost use Rattle.std.specs.Prelude.{◌≡◌, ◌<◌, ◌+◌, ◌≤◌, length, IfOk};
ghost use Rattle.module_text.specs.TextReader.Answers.{Gives};
ghost use Rattle.module_text.specs.TextReader.Lines.{lines_of};
ghost use Rattle.machine_ring.specs.RingLink.NextLines.{line_after, next_line};

use module_text::{TextEnd, split_line};

/// The first line of a text, which is line n of the whole, and the text after it. Code 3 comes where there is none.
pub fn first_line(n: u32, text: &[u8]) -> Result<(&[u8], &[u8]), TextEnd>
    ensures value { Gives (λ x. (x.0.now, lines_of x.1.now)) result
        (next_line n (lines_of text.now)) }
    ensures shorter { IfOk result (λ x. length x.0.now + length x.1.now ≤ length text.now) }
    ensures goes_on { IfOk result (λ x. length x.1.now < length text.now) }
{
    match split_line(text) {
        Some(parts) => Ok(parts),
        None => Err(TextEnd::Bad { line: n, code: 3 }),
    }
}

/// The text after its first line, which is this word, and line n of the whole.
pub fn rest_after<'a>(word: &[u8], n: u32, text: &'a [u8]) -> Result<&'a [u8], TextEnd>
    ensures value { Gives (λ x. lines_of x.now) result
        (line_after word.now n (lines_of text.now)) }
    ensures shorter { IfOk result (λ x. length word.now + length x.now ≤ length text.now) }
{
    let (line, rest) = first_line(n, text)?;
    if line != word {
        return Err(TextEnd::Bad { line: n, code: 1 });
    }
    Ok(rest)
}
