// The global tables of hunks, and the code before them.
ghost use Rattle.std.specs.Prelude.{◌≡◌, ◌++◌, ◌∷◌, [], ◌+◌, ◌<◌, ◌≤◌, ◌^◌, List, length, MatchOption, IfOk, IfSome, OnOk, ◌==◌};
ghost use Rattle.std.specs.Int.{w32, to_le_bytes};
ghost use Rattle.std.specs.List.{flat_map, list_any};
ghost use Rattle.session_making.specs.Tables.{add_number, add_numbers, code_count, code_words, hunk_code, hunk_numbers, numbers_back, pairs_back, relocated, relocated_once, table_numbers, table_words};

use module_text::{Hunk, WordList};
use std::alloc::{AllocError, Global};

/// The numbers of the globals that hunks set, each once.
pub fn global_numbers(alloc: Global, hunks: &[Hunk]) -> Result<WordList, AllocError>
    ensures { IfOk result (λ v. v ≡ hunk_numbers [] hunks.now) }
{
    let mut numbers = Vec::new(alloc);
    for hunk in hunks {
        let pairs = table_numbers(alloc, hunk.words.as_slice())?;
        add_numbers(&mut numbers, pairs.as_slice())?;
    }
    Ok(WordList::new(numbers))
}

// Adds the numbers that set globals, each once.
fn add_numbers(numbers: &mut Vec<u32>, more: &[u32]) -> Result<(), AllocError>
    ensures { OnOk result (numbers.new.items ≡ add_numbers numbers.old.items more.now) }
{
    for number in more {
        add_number(numbers, *number)?;
    }
    Ok(())
}

fn add_number(numbers: &mut Vec<u32>, number: u32) -> Result<(), AllocError>
    ensures { OnOk result (numbers.new.items ≡ add_number numbers.old.items number) }
{
    if number < 1 || number > 1000 || is_in(numbers.as_slice(), number) {
        return Ok(());
    }
    numbers.push(number)?;
    Ok(())
}

/// Whether a number is in a list.
pub fn is_in(numbers: &[u32], number: u32) -> bool
    ensures { result ≡ list_any (λ n. n == number) numbers.now }
{
    numbers.iter().any(|n| *n == number)
}

// The numbers in the global table with which these words end, in its order.
fn table_numbers(alloc: Global, words: &[u32]) -> Result<Vec<u32>, AllocError>
    ensures { IfOk result (λ v. v.items ≡ table_numbers words.now) }
{
    let mut back = Vec::from_slice(alloc, words)?;
    back.reverse();
    let mut numbers = numbers_back(alloc, back.as_slice())?;
    numbers.reverse();
    Ok(numbers)
}

// The numbers in a global table, of words from the last one back.
fn numbers_back(alloc: Global, back: &[u32]) -> Result<Vec<u32>, AllocError>
    ensures { IfOk result (λ v. v.items ≡ numbers_back back.now) }
{
    match back.split_first() {
        Some((highest, rest)) => {
            if *highest == 0 {
                return Ok(Vec::new(alloc));
            }
            all_pairs(alloc, rest)
        }
        None => Ok(Vec::new(alloc)),
    }
}

// The numbers of pairs, from the last pair back.
fn all_pairs(alloc: Global, back: &[u32]) -> Result<Vec<u32>, AllocError>
    ensures { IfOk result (λ v. v.items ≡ pairs_back back.now) }
{
    let mut numbers = Vec::new(alloc);
    let mut rest = back;
    while let Some((number, others)) = next_pair(rest) {
        numbers.push(number)?;
        rest = others;
    }
    Ok(numbers)
}

// The number of a pair, and the words before the pair.
fn next_pair(back: &[u32]) -> Option<(u32, &[u32])>
    ensures cases { let all = pairs_back back.now in
        MatchOption result (all ≡ []) (λ x. all ≡ x.0 ∷ pairs_back x.1.now) }
    ensures shorter { IfSome result (λ x. length x.1.now < length back.now) }
{
    let (offset, rest) = back.split_first()?;
    let (number, others) = rest.split_first()?;
    if *offset == 0 {
        return None;
    }
    Some((*number, others))
}

/// The bytes of a hunk's code, with the addresses that it has where its word 0 is at this word of the store.
pub fn hunk_code(alloc: Global, base: u64, hunk: &Hunk) -> Result<Vec<u8>, AllocError>
    requires { base < 2 ^ 63 }
    ensures { IfOk result (λ v. v.items ≡ hunk_code base hunk.now) }
{
    let words = hunk.words.as_slice();
    let count = code_count(alloc, words)?;
    let own = relocated(alloc, base, words, hunk.relocations.as_slice())?;
    code_bytes(alloc, code_words(own.as_slice(), count))
}

// How many words of code a hunk has, after the word of its length.
fn code_count(alloc: Global, words: &[u32]) -> Result<usize, AllocError>
    ensures { IfOk result (λ n. n ≡ code_count words.now) }
{
    let mut back = Vec::from_slice(alloc, words)?;
    back.reverse();
    let table = table_words(alloc, back.as_slice())?;
    Ok(words.len().saturating_sub(1).saturating_sub(table))
}

// How many words the global table has, of words from the last one back.
fn table_words(alloc: Global, back: &[u32]) -> Result<usize, AllocError>
    ensures { IfOk result (λ n. n ≡ table_words back.now) }
{
    let Some((highest, rest)) = back.split_first() else {
        return Ok(0);
    };
    if *highest == 0 {
        return Ok(1);
    }
    let pairs = all_pairs(alloc, rest)?;
    Ok(2 + 2 * pairs.len())
}

// The words after the first, so many.
fn code_words(words: &[u32], count: usize) -> &[u32]
    ensures { result.now ≡ code_words count words.now }
{
    match words.split_first() {
        Some((_, others)) => others.split_at(count.min(others.len())).0,
        None => &[],
    }
}

// The words of a hunk with the addresses that they have in the store.
fn relocated(
    alloc: Global,
    base: u64,
    words: &[u32],
    offsets: &[u32],
) -> Result<Vec<u32>, AllocError>
    requires { base < 2 ^ 63 }
    ensures { IfOk result (λ v. v.items ≡ relocated base words.now offsets.now) }
{
    let mut own = Vec::from_slice(alloc, words)?;
    for offset in offsets {
        relocate(&mut own, base, *offset);
    }
    Ok(own)
}

// Adds the base to the word at an offset.
fn relocate(words: &mut Vec<u32>, base: u64, offset: u32)
    requires { base < 2 ^ 63 }
    ensures { words.new.items ≡ relocated_once base words.old.items offset }
{
    let i = offset as usize;
    if i < words.len() {
        words[i] = ((u64::from(words[i]) + base) % (1 << 32)) as u32;
    }
}

// The bytes of words, the lowest first.
fn code_bytes(alloc: Global, words: &[u32]) -> Result<Vec<u8>, AllocError>
    ensures { IfOk result (λ v. v.items ≡ flat_map (to_le_bytes w32) words.now) }
{
    let mut bytes = Vec::new(alloc);
    for word in words {
        bytes.extend_from_slice(&word.to_le_bytes())?;
    }
    Ok(bytes)
}
