// Addresses that are moved: one of A is always the same one of B.

use module_text::{after_word, number};
use run_pictures::texts::{next_field, split_once, without_blanks};
use std::alloc::{AllocError, Global};
use std::collections::BTreeMap;

/// What a number of a line is the address of.
#[derive(Clone, Copy, PartialEq, Eq)]
enum Place {
    /// A word: of a packet or a block.
    Word,
    /// A byte of code.
    Byte,
}

/// Addresses of A, and which of B they are.
#[derive(Drop)]
struct Moves {
    /// That of B, by that of A.
    there: BTreeMap<u64, u64>,
    /// That of A, by that of B.
    back: BTreeMap<u64, u64>,
}

impl Moves {
    fn new(alloc: Global) -> Moves {
        Moves {
            there: BTreeMap::new(alloc),
            back: BTreeMap::new(alloc),
        }
    }

    // Whether an address of A is this one of B. Two of which nothing is known are from then on.
    fn has(&mut self, a: u64, b: u64) -> Result<bool, AllocError> {
        let there = self.there.get(&a).copied();
        let back = self.back.get(&b).copied();
        if there.is_none() && back.is_none() {
            self.there.insert(a, b)?;
            self.back.insert(b, a)?;
            return Ok(true);
        }
        Ok(there == Some(b) && back == Some(a))
    }

    // Forgets what was known of both, since they are taken anew.
    fn forget(&mut self, a: u64, b: u64) {
        self.there.remove(&a);
        self.back.remove(&b);
    }
}

/// The addresses that are known to be moved.
#[derive(Drop)]
pub struct MovedAddresses {
    /// Whether the machines differ before their first step, so that code may be elsewhere too.
    has_other_code: bool,
    /// Those of words.
    words: Moves,
    /// Those of bytes of code.
    bytes: Moves,
}

impl MovedAddresses {
    /// None yet. Code may be elsewhere exactly where the machines differ.
    pub fn new(alloc: Global, has_other_code: bool) -> MovedAddresses {
        MovedAddresses {
            has_other_code,
            words: Moves::new(alloc),
            bytes: Moves::new(alloc),
        }
    }

    /// Whether what a run of A does and what one of B does are alike: the same words, but for addresses that are moved.
    pub fn are_alike(&mut self, a: &[u8], b: &[u8]) -> Result<bool, AllocError> {
        if a == b {
            return Ok(true);
        }
        if !has_same_shape(a, b) {
            return Ok(false);
        }
        self.are_moved(a, b)
    }

    // The same, where they differ in numbers alone.
    fn are_moved(&mut self, a: &[u8], b: &[u8]) -> Result<bool, AllocError> {
        let mut own = a;
        let mut other = b;
        for index in 0..a.len() {
            let (Some(x), Some(y)) = (next_number(own), next_number(other)) else {
                return Ok(true);
            };
            if x.digits != y.digits && !self.is_moved(a, index, x, y)? {
                return Ok(false);
            }
            own = x.rest;
            other = y.rest;
        }
        Ok(true)
    }

    // Whether the number with this index, from 0, is an address that is moved.
    fn is_moved(
        &mut self,
        words: &[u8],
        index: usize,
        a: FoundNumber,
        b: FoundNumber,
    ) -> Result<bool, AllocError> {
        let Some(place) = self.place_of(words, index, a) else {
            return Ok(false);
        };
        let (Some(a), Some(b)) = (number(a.digits), number(b.digits)) else {
            return Ok(false);
        };
        let moves = match place {
            Place::Word => &mut self.words,
            Place::Byte => &mut self.bytes,
        };
        if is_new(words) {
            moves.forget(a, b);
        }
        moves.has(a, b)
    }

    // What the number with this index is the address of; `None` where it is no address, or none that may be moved.
    fn place_of(&self, words: &[u8], index: usize, found: FoundNumber) -> Option<Place> {
        if found.before.ends_with(b"packet ") {
            return Some(Place::Word);
        }
        if let Some(step) = after_word(b"step ", words) {
            let is_code = index == 0 || next_number(found.rest).is_none() && leads_elsewhere(step);
            return (self.has_other_code && is_code).then_some(Place::Byte);
        }
        if found.before.ends_with(b" at ") {
            return self.has_other_code.then_some(Place::Byte);
        }
        let name = call_name(words)?;
        is_address(name, index).then_some(Place::Word)
    }
}

/// The next number in words.
#[derive(Clone, Copy)]
struct FoundNumber<'a> {
    /// What is before it.
    before: &'a [u8],
    /// Its digits.
    digits: &'a [u8],
    /// What comes after it.
    rest: &'a [u8],
}

// The next number; `None` where there are no digits.
fn next_number(words: &[u8]) -> Option<FoundNumber<'_>> {
    let start = words.iter().position(|c| c.is_ascii_digit())?;
    let (before, rest) = words.split_at(start.min(words.len()));
    let end = rest.iter().position(|c| !c.is_ascii_digit());
    let (digits, rest) = rest.split_at(end.unwrap_or(rest.len()).min(rest.len()));
    Some(FoundNumber {
        before,
        digits,
        rest,
    })
}

// Whether words differ in their numbers alone.
fn has_same_shape(a: &[u8], b: &[u8]) -> bool {
    let mut own = a;
    let mut other = b;
    for _ in 0..a.len() {
        let (Some(x), Some(y)) = (next_number(own), next_number(other)) else {
            return own == other;
        };
        if x.before != y.before {
            return false;
        }
        own = x.rest;
        other = y.rest;
    }
    own == other
}

// Whether an instruction leads elsewhere, or takes the address of code, by the words after `step`.
fn leads_elsewhere(step: &[u8]) -> bool {
    let Some((_, rest)) = next_field(step) else {
        return false;
    };
    let Some((_, rest)) = next_field(rest) else {
        return false;
    };
    let name = without_blanks(rest);
    if name.starts_with(b"LLP") || name.starts_with(b"LLG") {
        return false;
    }
    name.starts_with(b"J")
        || name.starts_with(b"LF")
        || name.starts_with(b"LL")
        || name.starts_with(b"SL")
}

// The name of the call that was made or refused; `None` where the words tell none.
fn call_name(words: &[u8]) -> Option<&[u8]> {
    let rest = match after_word(b"call", words) {
        Some(rest) => rest,
        None => after_word(b"refused", words)?,
    };
    let rest = after_word(b":", rest).unwrap_or(rest);
    let (name, _) = split_once(b"(", after_word(b" ", rest)?)?;
    let is_name = !name.is_empty() && name.iter().all(|c| c.is_ascii_lowercase());
    is_name.then_some(name)
}

// Whether a call has taken what it gives anew, so that what was known of its address is over.
fn is_new(words: &[u8]) -> bool {
    words.starts_with(b"call") && matches!(call_name(words), Some(b"getvec" | b"createco"))
}

// Whether the number with this index, from 0, in the words of a call is the address of a packet or a block.
fn is_address(call: &[u8], index: usize) -> bool {
    match call {
        b"qpkt"
        | b"dqpkt"
        | b"freevec"
        | b"createtask"
        | b"unload"
        | b"deleteco"
        | b"callco"
        | b"resumeco"
        | b"taskwait" => index == 0,
        b"getvec" | b"addmodule" => index == 1,
        b"createco" => index == 0 || index == 2,
        _ => false,
    }
}
