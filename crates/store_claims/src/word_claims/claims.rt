// Which words may be claimed.
ghost use Rattle.std.specs.Prelude.{◌≡◌, ◌↔◌, ◌+◌, false, true, IfOk, IsTrue, replicate};
ghost use Rattle.std.specs.Bool.{OnFalse, OnTrue};
ghost use Rattle.store_claims.specs.WordClaims.Marks.{AreOpen, IsSet, is_open};

use byte_streams::WantMemory;
use std::alloc::Global;
use std::marker::Model;

/// A mark for each word of a store: whether the word is open, and so may be claimed. Seen as their list.
#[derive(Drop)]
pub struct Claims {
    marks: Vec<bool>,
}

impl Model for Claims {
    ghost use Rattle.std.specs.Prelude.{Bool, List};

    ghost Value = { List Bool };

    ghost view = { λ c. c.marks.items };
}

impl Claims {
    /// Marks for so many words, of which none is open. `WantMemory` comes only where memory could not be had.
    pub fn new(alloc: Global, words: u32) -> Result<Claims, WantMemory>
        ensures { IfOk result (λ c. c ≡ replicate words false) }
    {
        match vec![in alloc; false; words as usize] {
            Ok(marks) => Ok(Claims { marks }),
            Err(_) => Err(WantMemory),
        }
    }

    /// Whether the word at address a is open.
    pub fn is_open(&self, a: u32) -> bool
        ensures { result ≡ is_open self.now a }
    {
        self.marks.get(a as usize).copied().unwrap_or(false)
    }

    /// Opens the n words from a on, as far as there are any.
    pub fn open(&mut self, a: u32, n: u64)
        ensures { IsSet self.old self.new a n true }
    {
        self.set(a, n, true);
    }

    /// Claims the n words from a on, which are not open then. The answer is false, and nothing changes, exactly where one of them
    /// is not open.
    pub fn claim(&mut self, a: u32, n: u64) -> bool
        ensures answer { IsTrue result ↔ AreOpen self.old a n }
        ensures claimed { OnTrue result (IsSet self.old self.new a n false) }
        ensures unchanged { OnFalse result (self.new ≡ self.old) }
    {
        if !self.are_open(a, n) {
            return false;
        }
        self.set(a, n, false);
        true
    }

    // Whether the n words from a on are open.
    fn are_open(&self, a: u32, n: u64) -> bool
        ensures { IsTrue result ↔ AreOpen self.now a n }
    {
        for i in 0..n {
            if !self.is_open_at(a, i) {
                return false;
            }
        }
        true
    }

    // Whether word i from a on is open. No list of marks is as long as 2^64.
    fn is_open_at(&self, a: u32, i: u64) -> bool
        ensures { IsTrue result ↔ (is_open self.now (a + i) ≡ true) }
    {
        match u64::from(a).checked_add(i) {
            Some(b) => self.marks.get(b as usize).copied().unwrap_or(false),
            None => false,
        }
    }

    // Sets the marks of the n words from `first` on, as far as there are any.
    fn set(&mut self, first: u32, n: u64, value: bool)
        ensures { IsSet self.old self.new first n value }
    {
        let len = self.marks.len();
        let start = len.min(first as usize);
        let end = start + n.min((len - start) as u64) as usize;
        for a in start..end {
            self.marks[a] = value;
        }
    }
}
