// The four lines before the sessions of a ring.
ghost use Rattle.std.specs.Prelude.{◌≡◌, ◌<◌, ◌+◌, ◌≤◌, length, option_map, IfOk};
ghost use Rattle.std.specs.List.{list_all};
ghost use Rattle.module_text.specs.TextReader.Answers.{Gives};
ghost use Rattle.module_text.specs.TextReader.Lines.{lines_of};
ghost use Rattle.machine_ring.specs.RingLink.Heads.{head_lines, is_letter, is_letter_count, is_round_count, is_wait, letters, letters_after, letters_line, numbers, numbers_line};
ghost use Rattle.machine_ring.specs.RingLink.TwoNumbers.{two_numbers};

use crate::ring_link::inputs::{MOST_LETTERS, MOST_ROUNDS, MOST_WAIT};
use crate::ring_link::lines::{first_line, rest_after};
use module_text::{TextEnd, after_word, number};
use session_text::{Bytes, number_field};
use std::alloc::Global;

/// What these lines say.
#[derive(Drop)]
pub struct Head {
    /// The most rounds.
    pub rounds: u64,
    /// The rounds after which a byte is sent again.
    pub wait: u32,
    /// What happens to data.
    pub link: Bytes,
    /// What happens to acknowledgements.
    pub acks: Bytes,
}

/// Reads them: what they say, and the text after them.
pub fn read_head(alloc: Global, text: &[u8]) -> Result<(Head, &[u8]), TextEnd>
    ensures value { Gives (λ x. (x.0, lines_of x.1.now)) result (head_lines (lines_of text.now)) }
    ensures shorter { IfOk result (λ x. length x.1.now + 7 ≤ length text.now) }
{
    let (rounds, wait, rest) = read_numbers(text)?;
    let (link, rest) = read_letters(alloc, b"LINK :", 2, rest)?;
    let (acks, rest) = read_letters(alloc, b"ACKS :", 3, rest)?;
    let rest = rest_after(b"LEFT", 4, rest)?;
    let head = Head {
        rounds,
        wait,
        link,
        acks,
    };
    Ok((head, rest))
}

// The rounds and the wait that the first line says, and the text after it.
fn read_numbers(text: &[u8]) -> Result<(u64, u32, &[u8]), TextEnd>
    ensures value { Gives (λ x. ((x.0, x.1), lines_of x.2.now)) result
        (numbers_line (lines_of text.now)) }
    ensures shorter { IfOk result (λ x. length x.2.now < length text.now) }
{
    let (line, rest) = first_line(1, text)?;
    let (rounds, wait) = numbers_of(line)?;
    Ok((rounds, wait, rest))
}

fn numbers_of(line: &[u8]) -> Result<(u64, u32), TextEnd>
    ensures { Gives (λ x. x) result (numbers line.now) }
{
    let Some((rounds, wait)) = two_numbers(line) else {
        return Err(TextEnd::Bad { line: 1, code: 1 });
    };
    if !is_round_count(rounds) || !is_wait(wait) {
        return Err(TextEnd::Bad { line: 1, code: 2 });
    }
    Ok((rounds, wait as u32))
}

fn two_numbers(line: &[u8]) -> Option<(u64, u64)>
    ensures { result ≡ two_numbers line.now }
{
    let text = after_word(b"RING ", line)?;
    let (rounds, rest) = number_field(text)?;
    let wait = number(rest)?;
    Some((rounds, wait))
}

fn is_round_count(n: u64) -> bool
    ensures { result ≡ is_round_count n }
{
    n <= MOST_ROUNDS
}

fn is_wait(n: u64) -> bool
    ensures { result ≡ is_wait n }
{
    1 <= n && n <= MOST_WAIT
}

// The letters of a direction, whose line n of the whole is the first of a text, and the text after it.
fn read_letters<'a>(
    alloc: Global,
    word: &[u8],
    n: u32,
    text: &'a [u8],
) -> Result<(Bytes, &'a [u8]), TextEnd>
    ensures value { Gives (λ x. (x.0, lines_of x.1.now)) result
        (letters_line word.now n (lines_of text.now)) }
    ensures shorter { IfOk result (λ x. length x.1.now < length text.now) }
{
    let (line, rest) = first_line(n, text)?;
    let letters = letters_after(alloc, word, n, line)?;
    Ok((letters, rest))
}

fn letters_after(alloc: Global, word: &[u8], n: u32, line: &[u8]) -> Result<Bytes, TextEnd>
    ensures { Gives (λ b. b) result (letters_after word.now n line.now) }
{
    match after_word(word, line) {
        Some(text) => letters_of(alloc, n, text),
        None => Err(TextEnd::Bad { line: n, code: 1 }),
    }
}

fn letters_of(alloc: Global, n: u32, text: &[u8]) -> Result<Bytes, TextEnd>
    ensures { Gives (λ b. b) result (letters n text.now) }
{
    if !are_letters(text) {
        return Err(TextEnd::Bad { line: n, code: 1 });
    }
    if !is_letter_count(text.len()) {
        return Err(TextEnd::Bad { line: n, code: 2 });
    }
    Ok(Bytes::new(Vec::from_slice(alloc, text)?))
}

fn are_letters(text: &[u8]) -> bool
    ensures { result ≡ list_all is_letter text.now }
{
    text.iter().all(|c| is_letter(*c))
}

fn is_letter(c: u8) -> bool
    ensures { result ≡ is_letter c }
{
    c == b'D' || c == b'X' || c == b'R' || c == b'O' || c == b'.'
}

fn is_letter_count(n: usize) -> bool
    ensures { result ≡ is_letter_count n }
{
    1 <= n && n <= MOST_LETTERS
}
