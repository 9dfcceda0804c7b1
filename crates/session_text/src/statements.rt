// What a line of a machine with a clock states.
ghost use Rattle.std.specs.Prelude.{◌≡◌, ◌≤◌, option_map, IfSome};
ghost use Rattle.hex.specs.Hex.{decode_of};
ghost use Rattle.session_text.specs.Ranges.{most_names};
ghost use Rattle.session_text.specs.Seen.{seen};
ghost use Rattle.session_text.specs.Statements.{HasFewNames, at_of, file_of, go_of, key_of, one_byte, statement_of, task_of};

use crate::fields::{are_fields, is_field, is_text, number_field};
use module_text::{after_word, number};

/// What a line states, with its numbers and names as they are there.
#[derive(Clone, Copy)]
pub enum Statement<'a> {
    /// A file of this name.
    File(&'a [u8]),
    /// A task, with the names of the files that its program is loaded from.
    Task {
        /// Its number.
        id: u64,
        /// Its priority.
        pri: u64,
        /// The highest index of its stack, in words.
        stack: u64,
        /// The names, as they are in the line.
        names: &'a [u8],
    },
    /// Text that is typed at a step.
    At {
        /// The step of the first key.
        step: u64,
        /// The text, as it is in the line.
        text: &'a [u8],
    },
    /// A key that is typed at a step.
    Key {
        /// The step.
        step: u64,
        /// The key.
        byte: u8,
    },
    /// The most steps.
    Go(u64),
}

/// The statement of a line; `None` exactly where it is none.
#[tactic(auto, unfolding(crate::specs::Statements::statement_of))]
pub fn statement_of(version: u32, line: &[u8]) -> Option<Statement<'_>>
    ensures value { option_map seen result ≡ statement_of version line.now }
    ensures few { IfSome result (λ s. HasFewNames (seen s)) }
{
    if let Some(name) = after_word(b"FILE ", line) {
        return file_of(name);
    }
    if let Some(rest) = after_word(b"TASK ", line) {
        return task_of(most_names(version), rest);
    }
    if let Some(rest) = after_word(b"AT ", line) {
        return at_of(rest);
    }
    if let Some(rest) = after_word(b"KEY ", line) {
        return key_of(rest);
    }
    go_of(after_word(b"GO ", line)?)
}

// The most files that a task's program is loaded from.
fn most_names(version: u32) -> usize
    ensures value { result ≡ most_names version }
    ensures few { result ≤ 8 }
{
    if version == 1 { 1 } else { 8 }
}

fn file_of(name: &[u8]) -> Option<Statement<'_>>
    ensures value { option_map seen result ≡ file_of name.now }
    ensures few { IfSome result (λ s. HasFewNames (seen s)) }
{
    is_field(name).then_some(Statement::File(name))
}

fn task_of(most: usize, text: &[u8]) -> Option<Statement<'_>>
    requires { most ≤ 8 }
    ensures value { option_map seen result ≡ task_of most text.now }
    ensures few { IfSome result (λ s. HasFewNames (seen s)) }
{
    let (id, rest) = number_field(text)?;
    let (pri, rest) = number_field(rest)?;
    let (stack, names) = number_field(rest)?;
    are_fields(most, names).then_some(Statement::Task {
        id,
        pri,
        stack,
        names,
    })
}

fn at_of(text: &[u8]) -> Option<Statement<'_>>
    ensures value { option_map seen result ≡ at_of text.now }
    ensures few { IfSome result (λ s. HasFewNames (seen s)) }
{
    let (step, rest) = number_field(text)?;
    let text = after_word(b":", rest)?;
    is_text(text).then_some(Statement::At { step, text })
}

fn key_of(text: &[u8]) -> Option<Statement<'_>>
    ensures value { option_map seen result ≡ key_of text.now }
    ensures few { IfSome result (λ s. HasFewNames (seen s)) }
{
    let (step, digits) = number_field(text)?;
    let byte = one_byte(digits)?;
    Some(Statement::Key { step, byte })
}

// The byte that two hex digits are.
fn one_byte(digits: &[u8]) -> Option<u8>
    ensures { result ≡ one_byte (decode_of digits.now) }
{
    let mut bytes = [0u8; 1];
    match hex::decode_to_slice(digits, &mut bytes) {
        Ok(()) => Some(bytes[0]),
        Err(_) => None,
    }
}

fn go_of(digits: &[u8]) -> Option<Statement<'_>>
    ensures value { option_map seen result ≡ go_of digits.now }
    ensures few { IfSome result (λ s. HasFewNames (seen s)) }
{
    Some(Statement::Go(number(digits)?))
}
