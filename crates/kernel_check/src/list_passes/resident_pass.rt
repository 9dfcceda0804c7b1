// The resident block, and the words in it that are no task's.
ghost use Rattle.std.specs.Prelude.{◌≡◌, ◌↔◌, ◌≤◌, IsTrue, true};
ghost use Rattle.kernel_model.specs.KernelRecord.Lists.{has_task};
ghost use Rattle.kernel_lists.specs.OwnedWords.Owned.{Holds};
ghost use Rattle.kernel_model.specs.KernelRecord.Recovered.{lists_in};
ghost use Rattle.kernel_model.specs.KernelRecord.Residents.{fault_packet_words, key_arguments, key_words, resident_words};
ghost use Rattle.kernel_model.specs.KernelRecord.ValidBlocks.{HasBlock, last_resident_word};
ghost use Rattle.kernel_check.specs.ListPasses.ClaimedStore.{IsClaimed};
ghost use Rattle.kernel_check.specs.ListPasses.StartMarks.{OpensStarts};
ghost use Rattle.kernel_check.specs.ListPasses.Private.FreePackets.{HasFaultWords, HasKeyWords};

use crate::list_passes::starts::has_block;
use kernel_lists::{NO_QUEUE, RootField, root};
use kernel_model::numbers::{
    FAULT_PACKET, FIRST, KEY_PACKET, KEYBOARD, KIND, REPORTER, RES1, RES2, RESIDENT_DATA, SECOND,
    SENDER, THIRD,
};
use store_claims::Claims;
use word_store::{Store, word, word_at};

/// Whether the residents, where there are any, have their block.
pub fn has_resident_block(store: &Store, starts: &Claims) -> bool
    requires claimed { IsClaimed store.now }
    requires starts { OpensStarts store.now starts.now }
    ensures { IsTrue result ↔ ((lists_in store.now).residents ≡ true
        → HasBlock (lists_in store.now).blocks 201 (last_resident_word (lists_in store.now))) }
{
    if !has_residents(store) {
        return true;
    }
    has_block(store, starts, RESIDENT_DATA, last_word(store))
}

// The last data word of the resident block.
fn last_word(store: &Store) -> u64
    requires claimed { IsClaimed store.now }
    ensures value { result ≡ last_resident_word (lists_in store.now) }
    ensures most { result ≤ 114 }
{
    if has_task(store, REPORTER) { 114 } else { 86 }
}

/// Whether there are residents.
pub fn has_residents(store: &Store) -> bool
    ensures { result ≡ (lists_in store.now).residents }
{
    root(store, RootField::Residents) != 0
}

/// Whether there is a task with the number.
pub(crate) fn has_task(store: &Store, id: u32) -> bool
    requires claimed { IsClaimed store.now }
    ensures { result ≡ has_task id (lists_in store.now).tasks }
{
    store_claims::has_task(store, id)
}

/// Whether the words of the residents that are no task's are right: those of the key packet and of the fault packet, where they are on
/// no queue, and the arguments of the key packet.
pub fn holds_resident_words(store: &Store) -> bool
    requires claimed { IsClaimed store.now }
    ensures { IsTrue result ↔ Holds store.now (resident_words (lists_in store.now)) }
{
    if !has_residents(store) {
        return true;
    }
    if !holds_key_packet(store) {
        return false;
    }
    if !holds_key_arguments(store) {
        return false;
    }
    holds_fault_packet(store)
}

// Whether the words of the key packet are right, where it is on no queue.
fn holds_key_packet(store: &Store) -> bool
    requires residents { (lists_in store.now).residents ≡ true }
    ensures { IsTrue result ↔ Holds store.now (key_words (lists_in store.now).key) }
{
    if word(store, KEY_PACKET) != NO_QUEUE {
        return true;
    }
    has_key_words(store)
}

// Whether it is the keyboard's, with type and second result 0.
fn has_key_words(store: &Store) -> bool
    ensures { IsTrue result ↔ HasKeyWords store.now }
{
    word_at(store, KEY_PACKET, SENDER) == KEYBOARD
        && word_at(store, KEY_PACKET, KIND) == 0
        && word_at(store, KEY_PACKET, RES2) == 0
}

// Whether its arguments are right.
fn holds_key_arguments(store: &Store) -> bool
    ensures { IsTrue result ↔ Holds store.now key_arguments }
{
    word_at(store, KEY_PACKET, FIRST) == 0
        && word_at(store, KEY_PACKET, SECOND) == 0
        && word_at(store, KEY_PACKET, THIRD) == 0
}

// Whether the words of the fault packet are right, where it is there and on no queue.
fn holds_fault_packet(store: &Store) -> bool
    requires claimed { IsClaimed store.now }
    requires residents { (lists_in store.now).residents ≡ true }
    ensures { IsTrue result ↔
        Holds store.now (fault_packet_words (lists_in store.now).fault_packet_free) }
{
    if !has_task(store, REPORTER) {
        return true;
    }
    if word(store, FAULT_PACKET) != NO_QUEUE {
        return true;
    }
    has_fault_words(store)
}

// Whether they are 0.
fn has_fault_words(store: &Store) -> bool
    ensures { IsTrue result ↔ HasFaultWords store.now }
{
    word_at(store, FAULT_PACKET, SENDER) == 0
        && word_at(store, FAULT_PACKET, KIND) == 0
        && word_at(store, FAULT_PACKET, RES1) == 0
        && word_at(store, FAULT_PACKET, RES2) == 0
}
