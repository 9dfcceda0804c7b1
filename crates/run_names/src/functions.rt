// The names of functions, which a BCPL compiler leaves in the words before them.
ghost use Rattle.std.specs.Prelude.{◌≡◌, ◌++◌, ◌+◌, ◌≤◌, length, take};
ghost use Rattle.std.specs.Int.{w32, to_le_bytes};
ghost use Rattle.std.specs.List.{list_all};
ghost use Rattle.run_names.specs.Functions.{function_in, is_letter, marked_name, name_after, name_in, name_of, named, shown, shown_length, string_bytes};

use arrayvec::ArrayVec;
use std::marker::Model;

/// The word before a name.
const MARK: u32 = 0xdfdf;

/// The name of a function, of 1 to 11 letters, seen as its bytes.
#[derive(Drop)]
pub struct FunctionName {
    /// The letters, each a byte from the blank to `~`.
    letters: ArrayVec<u8, 12>,
}

impl Model for FunctionName {
    ghost use Rattle.std.specs.Prelude.{ℕ, List};

    ghost Value = { List ℕ };

    ghost view = { λ n. n.letters.items };
}

impl FunctionName {
    /// The letters, lent.
    pub fn letters(&self) -> &[u8]
        ensures { result.now ≡ self.now }
    {
        self.letters.as_slice()
    }
}

/// The name of the function that the last of these words is in, where they begin with the hunk: that of the last mark that has a name after it,
/// at least three words before it. `None` exactly where there is no such mark.
pub fn function_in(words: &[u32]) -> Option<FunctionName>
    ensures { result ≡ function_in words.now }
{
    let mut found = None;
    let mut rest = words;
    while let Some((_, others)) = rest.split_first() {
        found = name_after(rest).or(found);
        rest = others;
    }
    found
}

// The name that these words begin with, if they do: a mark, and a string in three words.
fn name_after(words: &[u32]) -> Option<FunctionName>
    ensures { result ≡ name_after words.now }
{
    match words {
        [mark, first, second, third, ..] => marked_name(*mark, *first, *second, *third),
        _ => None,
    }
}

// The name in three words, where the one before them is a mark.
fn marked_name(mark: u32, first: u32, second: u32, third: u32) -> Option<FunctionName>
    ensures { result ≡ marked_name mark first second third }
{
    if mark != MARK {
        return None;
    }
    name_of(string_bytes(first, second, third).as_slice())
}

// The bytes of three words.
#[tactic(auto, unfolding(crate::specs::Functions::string_bytes))]
fn string_bytes(first: u32, second: u32, third: u32) -> ArrayVec<u8, 12>
    ensures { result.items ≡ string_bytes first second third }
{
    let mut bytes = ArrayVec::new();
    append(&mut bytes, first);
    append(&mut bytes, second);
    append(&mut bytes, third);
    bytes
}

// Adds the bytes of a word, the lowest first.
fn append(bytes: &mut ArrayVec<u8, 12>, word: u32)
    requires { length bytes.old.items + 4 ≤ 12 }
    ensures { bytes.new.items ≡ bytes.old.items ++ to_le_bytes w32 word }
{
    match bytes.try_extend_from_slice(&word.to_le_bytes()) {
        Ok(()) => {}
        Err(_) => unreachable!(),
    }
}

// The name in a string: a byte with the number of its letters, and the letters.
fn name_of(string: &[u8]) -> Option<FunctionName>
    ensures { result ≡ name_of string.now }
{
    let (count, rest) = string.split_first()?;
    match count {
        7 | 11 => name_in(letters(rest, *count as usize)),
        _ => None,
    }
}

// So many of the bytes, or all where there are fewer.
fn letters(bytes: &[u8], count: usize) -> &[u8]
    ensures value { result.now ≡ take count bytes.now }
    ensures short { length result.now ≤ count }
{
    bytes.split_at(count.min(bytes.len())).0
}

// The name that these letters are without the blanks at their end, where each is a byte from the blank to `~`, and not all are blanks.
fn name_in(letters: &[u8]) -> Option<FunctionName>
    requires { length letters.now ≤ 12 }
    ensures { result ≡ name_in letters.now }
{
    if !are_letters(letters) {
        return None;
    }
    named(shown(letters))
}

// Whether each is a byte from the blank to `~`.
fn are_letters(bytes: &[u8]) -> bool
    ensures { result ≡ list_all is_letter bytes.now }
{
    bytes.iter().all(|c| matches!(*c, b' '..=b'~'))
}

// The letters without the blanks at their end.
fn shown(letters: &[u8]) -> &[u8]
    ensures value { result.now ≡ shown letters.now }
    ensures short { length result.now ≤ length letters.now }
{
    letters.split_at(shown_length(letters)).0
}

// The name that these letters are; there is none without a letter.
fn named(letters: &[u8]) -> Option<FunctionName>
    requires { length letters.now ≤ 12 }
    ensures { result ≡ named letters.now }
{
    if letters.is_empty() {
        return None;
    }
    let mut name = ArrayVec::new();
    match name.try_extend_from_slice(letters) {
        Ok(()) => Some(FunctionName { letters: name }),
        Err(_) => unreachable!(),
    }
}

// How many letters there are up to the last that is no blank.
fn shown_length(letters: &[u8]) -> usize
    ensures value { result ≡ shown_length 0 0 letters.now }
    ensures inside { result ≤ length letters.now }
{
    let mut end = 0;
    for (i, c) in letters.iter().enumerate() {
        if *c != b' ' {
            end = i + 1;
        }
    }
    end
}
