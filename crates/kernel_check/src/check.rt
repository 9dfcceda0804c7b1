// All passes, in their order.
ghost use Rattle.std.specs.Prelude.{◌↔◌, IfOk, IsTrue};
ghost use Rattle.kernel_model.specs.KernelRecord.HoldsLists.{HoldsLists};
ghost use Rattle.kernel_model.specs.KernelRecord.Recovered.{lists_in};
ghost use Rattle.kernel_check.specs.ListPasses.ClaimedStore.{IsClaimed};

use crate::list_passes::{
    are_valid_coroutines, are_valid_modules, are_valid_tasks, has_resident_block,
    holds_resident_words, holds_table, holds_words_of_tasks, is_valid_root, is_valid_running,
    open_modules, open_starts,
};
use crate::queue_pass::are_valid_queues;
use byte_streams::WantMemory;
use std::alloc::Global;
use store_claims::{Claims, are_tiled, claim_lists, open_blocks};
use word_store::Store;

/// Whether the lists that are read off the store are valid, and the store holds their words: exactly where some valid lists' words
/// are in it. It takes some looks at each word that a list may have, and has memory for a mark for each word, four times.
/// `WantMemory` comes only where that could not be had.
pub fn holds_lists(alloc: Global, store: &Store) -> Result<bool, WantMemory>
    ensures { IfOk result (λ b. IsTrue b ↔ HoldsLists store.now (lists_in store.now)) }
{
    if !is_valid_root(store) {
        return Ok(false);
    }
    if !are_tiled(store) {
        return Ok(false);
    }
    let mut words = Claims::new(alloc, store.size())?;
    open_blocks(store, &mut words);
    if !claim_lists(store, &mut words) {
        return Ok(false);
    }
    holds_claimed(alloc, store)
}

// The same of a store whose words were claimed.
fn holds_claimed(alloc: Global, store: &Store) -> Result<bool, WantMemory>
    requires { IsClaimed store.now }
    ensures { IfOk result (λ b. IsTrue b ↔ HoldsLists store.now (lists_in store.now)) }
{
    let mut starts = Claims::new(alloc, store.size())?;
    open_starts(store, &mut starts);
    let mut modules = Claims::new(alloc, store.size())?;
    open_modules(store, &mut modules);
    let mut own = Claims::new(alloc, store.size())?;
    if !are_valid_modules(store, &starts) {
        return Ok(false);
    }
    if !are_valid_tasks(store, &starts, &modules) {
        return Ok(false);
    }
    if !holds_table(store) {
        return Ok(false);
    }
    if !is_valid_running(store) {
        return Ok(false);
    }
    if !are_valid_coroutines(store, &starts, &mut own) {
        return Ok(false);
    }
    if !holds_words_of_tasks(store) {
        return Ok(false);
    }
    if !has_resident_block(store, &starts) {
        return Ok(false);
    }
    if !are_valid_queues(store) {
        return Ok(false);
    }
    Ok(holds_resident_words(store))
}
