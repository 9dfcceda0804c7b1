// The lists in a module. Each is made from a vector and lent as a slice, and takes no memory then.
ghost use Rattle.std.specs.Prelude.{◌≡◌, [], ◌∷◌, ◌++◌, IfErr, OnErr, OnOk};

use crate::Hunk;
use std::alloc::AllocFailed;
use std::marker::Model;

/// Words of 32 bits, seen as their list.
#[derive(Drop)]
pub struct WordList {
    /// The words.
    list: Vec<u32>,
}

impl Model for WordList {
    ghost use Rattle.std.specs.Prelude.{ℕ, List};

    ghost Value = { List ℕ };

    ghost view = { λ w. w.list.items };
}

impl WordList {
    /// These words.
    pub fn new(words: Vec<u32>) -> WordList
        ensures { result ≡ words.items }
    {
        WordList { list: words }
    }

    /// Adds a word at the end. Where memory cannot be had, the list stays as it was, and the word is given back.
    pub fn push(&mut self, word: u32) -> Result<(), AllocFailed<u32>>
        ensures ok { OnOk result (self.new ≡ self.old ++ word ∷ []) }
        ensures err { OnErr result (self.new ≡ self.old) }
        ensures value_returned { IfErr result (λ e. e.value ≡ word) }
    {
        self.list.push(word)
    }

    /// The words, lent.
    pub fn as_slice(&self) -> &[u32]
        ensures { result.now ≡ self.now }
    {
        self.list.as_slice()
    }

    /// The words, without taking memory.
    pub fn into_vec(self) -> Vec<u32>
        ensures { result.items ≡ self }
    {
        self.list
    }
}

/// Hunks, seen as their list.
#[derive(Drop)]
pub struct Hunks {
    /// The hunks.
    list: Vec<Hunk>,
}

impl Model for Hunks {
    ghost use Rattle.std.specs.Prelude.{List};
    ghost use Rattle.module_text.specs.declared.modules.Hunk.{Hunk};

    ghost Value = { List Hunk };

    ghost view = { λ h. h.list.items };
}

impl Hunks {
    /// These hunks.
    pub fn new(hunks: Vec<Hunk>) -> Hunks
        ensures { result ≡ hunks.items }
    {
        Hunks { list: hunks }
    }

    /// The hunks, lent.
    pub fn as_slice(&self) -> &[Hunk]
        ensures { result.now ≡ self.now }
    {
        self.list.as_slice()
    }

    /// The hunks, without taking memory.
    pub fn into_vec(self) -> Vec<Hunk>
        ensures { result.items ≡ self }
    {
        self.list
    }
}
