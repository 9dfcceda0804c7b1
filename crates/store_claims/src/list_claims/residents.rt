// The words of residents: the reads that wait for a line, and the two packets that residents have for themselves.
ghost use Rattle.std.specs.Prelude.{◌≡◌, ◌↔◌, ◌≤◌, IsTrue, length, true};
ghost use Rattle.std.specs.List.{range_with_len};
ghost use Rattle.std.specs.Bool.{OnTrue};
ghost use Rattle.kernel_lists.specs.LinkedList.Walk.{CanWalk};
ghost use Rattle.kernel_lists.specs.TaskBlock.RootWords.{first_task};
ghost use Rattle.kernel_lists.specs.TaskBlock.TaskChain.{task_link};
ghost use Rattle.store_claims.specs.WordClaims.Marks.{AreClaimed};
ghost use Rattle.store_claims.specs.ListClaims.ListEnds.{ConsoleAll, ConsoleEnds, ConsoleQueueEnds, PacketsEnd};
ghost use Rattle.store_claims.specs.ListClaims.ListWords.{Can, argument_rest, console_rest, console_words, fault_words_in, free_packet, packet_rest, resident_words_in};

use crate::list_claims::lists::claim_queue;
use crate::list_claims::search::has_task;
use crate::word_claims::Claims;
use kernel_lists::{NO_QUEUE, RootField, root};
use kernel_model::numbers::{
    FAULT_PACKET, FIRST, KEY_PACKET, PACKET_WORDS, PENDING_HEAD, REPORTER,
};
use word_store::{Store, word};

/// How many arguments the key packet has.
const KEY_ARGUMENTS: u64 = 3;

/// Claims the words of residents, where there are any.
pub(crate) fn claim_residents(store: &Store, words: &mut Claims) -> bool
    requires room { length words.old ≤ length store.now }
    requires walk { CanWalk store.now task_link first_task }
    ensures { IsTrue result ↔ Can (ConsoleEnds store.now) words.old (resident_words_in store.now) }
{
    if root(store, RootField::Residents) == 0 {
        return true;
    }
    claim_console(store, words)
}

// The head of the reads that wait for a line, and all after it.
fn claim_console(store: &Store, words: &mut Claims) -> bool
    requires room { length words.old ≤ length store.now }
    requires walk { CanWalk store.now task_link first_task }
    ensures { IsTrue result ↔ Can (ConsoleAll store.now) words.old (console_words store.now) }
{
    if !claim_range(words, PENDING_HEAD, 1) {
        return false;
    }
    claim_console_queue(store, words)
}

// These reads, and all after them.
fn claim_console_queue(store: &Store, words: &mut Claims) -> bool
    requires room { length words.old ≤ length store.now }
    requires walk { CanWalk store.now task_link first_task }
    ensures { IsTrue result ↔ Can (ConsoleQueueEnds store.now) words.old (console_rest store.now) }
{
    if !claim_queue(store, words, PENDING_HEAD) {
        return false;
    }
    claim_packets(store, words)
}

// The key packet, where it is on no queue, and all after it.
fn claim_packets(store: &Store, words: &mut Claims) -> bool
    requires { CanWalk store.now task_link first_task }
    ensures { IsTrue result ↔ Can PacketsEnd words.old (packet_rest store.now) }
{
    if !claim_free(store, words, true, KEY_PACKET) {
        return false;
    }
    claim_arguments(store, words)
}

// The arguments of the key packet, and the fault packet.
fn claim_arguments(store: &Store, words: &mut Claims) -> bool
    requires { CanWalk store.now task_link first_task }
    ensures { IsTrue result ↔ Can (Unit {0} × Unit {0}) words.old (argument_rest store.now) }
{
    if !claim_range(words, KEY_PACKET + FIRST, KEY_ARGUMENTS) {
        return false;
    }
    claim_fault_packet(store, words)
}

// The fault packet, where it is there and on no queue.
fn claim_fault_packet(store: &Store, words: &mut Claims) -> bool
    requires { CanWalk store.now task_link first_task }
    ensures { IsTrue result ↔ Can (Unit {0}) words.old (fault_words_in store.now) }
{
    claim_free(store, words, has_task(store, REPORTER), FAULT_PACKET)
}

// The packet of residents at p, where it is there and on no queue.
fn claim_free(store: &Store, words: &mut Claims, there: bool, p: u32) -> bool
    ensures answer { IsTrue result ↔ Can (Unit {0}) words.old (free_packet there store.now p) }
    ensures claimed { OnTrue result
        (AreClaimed words.old words.new (free_packet there store.now p)) }
    ensures size { length words.new ≡ length words.old }
{
    if !there || word(store, p) != NO_QUEUE {
        return true;
    }
    claim_range(words, p, u64::from(PACKET_WORDS))
}

// The n words from a on.
fn claim_range(words: &mut Claims, a: u32, n: u64) -> bool
    ensures answer { IsTrue result ↔ Can (Unit {0}) words.old (range_with_len a n) }
    ensures claimed { OnTrue result (AreClaimed words.old words.new (range_with_len a n)) }
    ensures size { length words.new ≡ length words.old }
{
    words.claim(a, n)
}
