// A resident takes a request.
ghost use Rattle.std.specs.Prelude.{◌≡◌};
ghost use Rattle.kernel_model.specs.KernelRecord.HoldsLists.{HoldsLists};
ghost use Rattle.kernel_model.specs.KernelRecord.Lists.{Lists};
ghost use Rattle.kernel_calls.specs.PacketCalls.TaskWait.{first_of_queue};
ghost use Rattle.resident_tasks.specs.ResidentRequests.Requests.{IsTaken, RunsResident, TakesRequest, request_at, taken, work};
ghost use Rattle.kernel_model.specs.KernelRecord.LoggedEvents.{LogsAll};
ghost use Rattle.kernel_model.specs.KernelRecord.ChangedStore.{HasKeeper};

use kernel_calls::{Queue, taken, unqueue};
use kernel_lists::{EventLog, RootField, TcbField, field, root};
use kernel_model::KindKeeper;
use kernel_model::numbers::{FIRST, KIND, PACKET_WORDS, SECOND, SENDER, THIRD};
use word_store::{Store, word_at};

/// The code with which a handler refuses a request of a type that it does not know.
pub const UNKNOWN_TYPE: u32 = 31;

/// A request that was taken: the address of its packet, the task that sent it, its type, and its arguments, the words 5, 6 and 7
/// of the packet. An argument outside the store is 0.
#[derive(Clone, Copy)]
pub struct Request {
    /// The address of its packet, in words.
    pub packet: u32,
    /// The number of the task that sent it.
    pub sender: u32,
    /// Its type.
    pub kind: u32,
    /// Its first argument, the word 5 of the packet.
    pub first: u32,
    /// Its second argument, the word 6.
    pub second: u32,
    /// Its third argument, the word 7.
    pub third: u32,
}

/// The resident that runs takes its first packet, which is then on no queue, with the link -1; its words are plain, and the
/// keeper is told. `None` exactly where it has no packets; then nothing changes. The packet must be none of the residents' own.
pub fn take_request<Q: KindKeeper, L: EventLog>(
    store: &mut Store,
    kinds: &mut Q,
    log: &mut L,
) -> Option<Request>
    requires { (l : Lists) × HasKeeper store.old (Q.tells kinds.old) (Q.room kinds.old) l
        × TakesRequest l }
    ensures taken { (l : Lists) → HasKeeper store.old (Q.tells kinds.old) (Q.room kinds.old) l
        → TakesRequest l → IsTaken store.old store.new (Q.tells kinds.new) l result }
    ensures notes { (l : Lists) → HasKeeper store.old (Q.tells kinds.old) (Q.room kinds.old) l
        → TakesRequest l → LogsAll L.EventLog log.old log.new (taken l).events }
    ensures room { Q.room kinds.new ≡ Q.room kinds.old }
{
    let task = root(store, RootField::Running);
    let p = field(store, task, TcbField::Queue);
    if p == 0 {
        return None;
    }
    let id = field(store, task, TcbField::Id);
    unqueue(store, Queue::Work(task), p);
    kinds.release(p, PACKET_WORDS);
    log.note(taken(id, p, word_at(store, p, SENDER)));
    Some(request_at(store, p))
}

/// The address of the first packet of the resident that runs, or `None` exactly where it has none.
pub fn first_packet(store: &Store) -> Option<u32>
    requires { (l : Lists) × HoldsLists store.now l × RunsResident l }
    ensures { (l : Lists) → HoldsLists store.now l → RunsResident l
        → result ≡ first_of_queue (work l) }
{
    let task = root(store, RootField::Running);
    let p = field(store, task, TcbField::Queue);
    if p == 0 {
        return None;
    }
    Some(p)
}

/// The request of the packet at p.
pub fn request_at(store: &Store, p: u32) -> Request
    ensures { result ≡ request_at store.now p }
{
    Request {
        packet: p,
        sender: word_at(store, p, SENDER),
        kind: word_at(store, p, KIND),
        first: word_at(store, p, FIRST),
        second: word_at(store, p, SECOND),
        third: word_at(store, p, THIRD),
    }
}
