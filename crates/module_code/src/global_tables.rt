// The global table at the end of a hunk.
ghost use Rattle.std.specs.Prelude.{◌≡◌, get_or};

use std::alloc::{AllocError, Global};

/// The highest number of a global that a table can set.
const LAST_GLOBAL: u32 = 1000;

/// A pair of a global table.
#[derive(Clone, Copy)]
pub struct GlobalPair {
    /// The number of a global.
    pub number: u32,
    /// The offset in bytes to which it is set.
    pub place: u32,
}

/// A global table.
#[derive(Drop)]
pub struct GlobalTable {
    /// Its pairs, the last one first.
    pub pairs: Vec<GlobalPair>,
    /// The word of the hunk at which it begins.
    pub begin: usize,
}

impl GlobalPair {
    /// Whether it sets a global.
    pub fn sets(self) -> bool {
        1 <= self.number && self.number <= LAST_GLOBAL
    }
}

/// The global table of a hunk with these words, read from its end.
pub fn read_table(alloc: Global, words: &[u32]) -> Result<GlobalTable, AllocError> {
    let last = words.len().saturating_sub(1);
    let mut table = GlobalTable {
        pairs: Vec::new(alloc),
        begin: last,
    };
    if word_at(words, last) == 0 {
        return Ok(table);
    }
    table.begin = last.saturating_sub(1);
    for turn in 0..words.len() {
        let at = table.begin;
        let place = word_at(words, at);
        if at == 0 || place == 0 {
            return Ok(table);
        }
        let number = word_at(words, at.saturating_sub(1));
        table.pairs.push(GlobalPair { number, place })?;
        table.begin = at.saturating_sub(2);
    }
    Ok(table)
}

/// A word of a hunk; 0 where it has none.
pub fn word_at(words: &[u32], at: usize) -> u32
    ensures { result ≡ get_or words.now at 0 }
{
    words.get(at).copied().unwrap_or(0)
}
