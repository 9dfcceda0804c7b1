// The hunks of a store's modules.
use crate::modules::NamedModule;
use std::alloc::{AllocError, Global};
use word_store::{Store, word_at};

/// A hunk that is loaded, with its name.
#[derive(Clone, Copy)]
pub struct NamedHunk<'a> {
    /// The address of its first word.
    pub from: u64,
    /// How many words it has.
    pub words: u64,
    /// The name of its module.
    pub module: &'a [u8],
    /// Its number in the module, from 1, where that has several hunks.
    pub number: Option<u32>,
}

/// The hunks of these modules, one module after the other.
pub fn hunks_of<'a>(
    alloc: Global,
    store: &Store,
    modules: &[NamedModule<'a>],
) -> Result<Vec<NamedHunk<'a>>, AllocError> {
    let mut hunks = Vec::new(alloc);
    for module in modules {
        push_hunks(&mut hunks, store, *module)?;
    }
    Ok(hunks)
}

// Adds the hunks of a module. Its words are those of a link, of their count, and of their lengths, and then come the hunks.
fn push_hunks<'a>(
    hunks: &mut Vec<NamedHunk<'a>>,
    store: &Store,
    module: NamedModule<'a>,
) -> Result<(), AllocError> {
    let count = word_at(store, module.at, 1).min(store.size());
    let mut from = u64::from(module.at) + 2 + u64::from(count);
    for i in 0..count {
        let words = u64::from(word_at(store, module.at, i.saturating_add(2)));
        hunks.push(NamedHunk {
            from,
            words,
            module: module.name,
            number: (count > 1).then_some(i.saturating_add(1)),
        })?;
        from = from.saturating_add(words);
    }
    Ok(())
}
