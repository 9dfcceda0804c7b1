// A task is deleted.
ghost use Rattle.std.specs.Prelude.{◌≡◌, ℕ, Ok, false};
ghost use Rattle.kernel_model.specs.KernelRecord.Lists.{Lists};
ghost use Rattle.kernel_calls.specs.CallAnswers.Guests.{GuestAt};
ghost use Rattle.kernel_calls.specs.CallAnswers.CallChange.{IsMade, done, minus_one, plain_answer};
ghost use Rattle.kernel_calls.specs.CallAnswers.Refusals.{answer_of, first_refusal};
ghost use Rattle.kernel_calls.specs.TaskCalls.DeleteTask.{HasEnded, delete_task, deletion_tests, without_task};
ghost use Rattle.kernel_model.specs.KernelRecord.Running.{RunsAlive};
ghost use Rattle.kernel_calls.specs.BlockCalls.Freevec.{has_packet_in};
ghost use Rattle.kernel_model.specs.KernelRecord.ChangedStore.{HasKeeper};

use crate::call_answers::codes::{
    HAS_COROUTINES, NOT_DEAD, PACKET_INSIDE, PACKET_OUT, QUEUE_NOT_EMPTY,
};
use crate::call_answers::guest;
use crate::task_calls::packets_out::has_packet_out;
use kernel_lists::{TcbField, block_of, field, give, head_words, unlink};
use kernel_model::numbers::DEAD;
use kernel_model::{KindKeeper, are_unowned};
use word_store::Store;

/// Deletes the dead task with the number, and gives its block back; the words of the block stay. Refused where there is no
/// such task (2), where it is a resident (14), where it is not dead (11), where its work queue is not empty (12), where a
/// device or a resident has a packet from it, or one of its reads waits for a line (13), where it has coroutines (25), and
/// where a queued packet lies in its block (7).
pub fn delete_task<Q: KindKeeper>(store: &mut Store, kinds: &mut Q, id: u32) -> Result<(), u32>
    requires { (l : Lists)
        × HasKeeper store.old (Q.tells kinds.old) (Q.room kinds.old) l × RunsAlive l }
    ensures made { (l : Lists)
        → HasKeeper store.old (Q.tells kinds.old) (Q.room kinds.old) l → RunsAlive l
        → IsMade store.old store.new (Q.tells kinds.new) (plain_answer result) (delete_task l id) }
    ensures room { Q.room kinds.new ≡ Q.room kinds.old }
{
    let task = guest(store, id)?;
    check_deletion(store, kinds, task, id)?;
    remove_task(store, kinds, task);
    Ok(())
}

// Refused where the guest with the number, whose task block is at `task`, may not be deleted.
fn check_deletion<Q: KindKeeper>(store: &Store, kinds: &Q, task: u32, id: u32) -> Result<(), u32>
    requires { (l : Lists) × HasKeeper store.now (Q.tells kinds.now) (Q.room kinds.now) l
        × RunsAlive l × GuestAt l id task }
    ensures { (l : Lists) → HasKeeper store.now (Q.tells kinds.now) (Q.room kinds.now) l
        → RunsAlive l → GuestAt l id task
        → result ≡ answer_of (first_refusal (deletion_tests l id)) }
{
    if field(store, task, TcbField::State) < DEAD {
        return Err(NOT_DEAD);
    }
    if field(store, task, TcbField::Queue) != 0 {
        return Err(QUEUE_NOT_EMPTY);
    }
    if has_packet_out(store, id) {
        return Err(PACKET_OUT);
    }
    if field(store, task, TcbField::FirstCo) != 0 {
        return Err(HAS_COROUTINES);
    }
    if has_packet_inside(store, kinds, task) {
        return Err(PACKET_INSIDE);
    }
    Ok(())
}

// Whether a queued packet lies in the block of the task, which has no packets and no coroutines of its own.
fn has_packet_inside<Q: KindKeeper>(store: &Store, kinds: &Q, task: u32) -> bool
    requires { (l : Lists) × (id : ℕ)
        × HasKeeper store.now (Q.tells kinds.now) (Q.room kinds.now) l × HasEnded l id task }
    ensures { (l : Lists) (id : ℕ)
        → HasKeeper store.now (Q.tells kinds.now) (Q.room kinds.now) l → HasEnded l id task
        → result ≡ has_packet_in l task }
{
    let head = head_words(store);
    let block = block_of(store, task).unwrap();
    !are_unowned(store, kinds, task + head, block.size - 1 - head)
}

// Takes the task out of the chain, tells the keeper, and gives the block back.
fn remove_task<Q: KindKeeper>(store: &mut Store, kinds: &mut Q, task: u32)
    requires { (l : Lists) × (id : ℕ)
        × HasKeeper store.old (Q.tells kinds.old) (Q.room kinds.old) l
        × HasEnded l id task × (has_packet_in l task ≡ false) }
    ensures made { (l : Lists) (id : ℕ)
        → HasKeeper store.old (Q.tells kinds.old) (Q.room kinds.old) l
        → HasEnded l id task → has_packet_in l task ≡ false
        → IsMade store.old store.new (Q.tells kinds.new) (Ok minus_one)
        (done (without_task l id)) }
    ensures room { Q.room kinds.new ≡ Q.room kinds.old }
{
    let head = head_words(store);
    unlink(store, task);
    kinds.release(task, head);
    give(store, task).unwrap();
}
