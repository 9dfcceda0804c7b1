// A line's first word, and what follows it.
ghost use Rattle.std.specs.Prelude.{◌≡◌, ◌≤◌, length};
ghost use Rattle.command_lines.specs.Words.{after_spaces, first_word, rest_of};

use crate::argument_templates::cuts::{length_before, length_of_spaces};

/// The bytes after leading spaces up to the next space or the line's end. A quote is a byte as others.
pub fn first_word(line: &[u8]) -> &[u8]
    ensures { result.now ≡ first_word line.now }
{
    let begun = after_spaces(line);
    &begun[..length_before(b' ', begun)]
}

/// What comes after the first word.
pub fn rest_of(line: &[u8]) -> &[u8]
    ensures value { result.now ≡ rest_of line.now }
    ensures short { length result.now ≤ length line.now }
{
    let begun = after_spaces(line);
    &begun[length_before(b' ', begun)..]
}

fn after_spaces(line: &[u8]) -> &[u8]
    ensures value { result.now ≡ after_spaces line.now }
    ensures short { length result.now ≤ length line.now }
{
    &line[length_of_spaces(line)..]
}
