// A task goes on.
ghost use Rattle.std.specs.Prelude.{◌≡◌, Some, false};
ghost use Rattle.word_store.specs.Arithmetic.{signed};
ghost use Rattle.kernel_model.specs.KernelRecord.Lists.{Lists};
ghost use Rattle.kernel_model.specs.KernelRecord.Task.{Task};
ghost use Rattle.kernel_model.specs.KernelDispatch.Dispatch.{CanDispatch, goes_on};
ghost use Rattle.kernel_model.specs.KernelDispatch.Private.DispatchWords.{takes_packet_by};
ghost use Rattle.kernel_model.specs.KernelDispatch.Turn.{HasTaken, IsDispatched, IsNext};
ghost use Rattle.kernel_model.specs.KernelRecord.ChangedStore.{HasKeeper};

use crate::kernel_dispatch::registers::next_regs;
use crate::kernel_dispatch::saving::{start, suspend, take_work};
use crate::kernel_record::numbers::PACKET_WORDS;
use crate::word_kinds::KindKeeper;
use kernel_lists::{EventLog, FIRST_GUEST, KernelEvent, TcbField, field};
use word_store::{Regs, Store, signed, word_at};

/// The task at t goes on, with its packet where it takes one.
pub(crate) fn resume<Q: KindKeeper, L: EventLog>(
    store: &mut Store,
    regs: &mut Regs,
    kinds: &mut Q,
    t: u32,
    log: &mut L,
)
    requires { (l : Lists) × (w : Task)
        × HasKeeper store.old (Q.tells kinds.old) (Q.room kinds.old) l × IsNext l w t }
    ensures dispatched { (l : Lists) (w : Task)
        → HasKeeper store.old (Q.tells kinds.old) (Q.room kinds.old) l → IsNext l w t
        → CanDispatch l regs.old → goes_on l (Some w) ≡ false
        → IsDispatched store.old store.new l regs.old regs.new (Q.tells kinds.new)
        (L.noted log.old) (L.noted log.new) (L.has_failed log.old) (L.has_failed log.new) }
    ensures room { Q.room kinds.new ≡ Q.room kinds.old }
{
    let packet = take_due(store, kinds, t, log);
    let next = next_regs(store, regs, t, packet);
    let id = field(store, t, TcbField::Id);
    suspend(store, regs);
    start(store, t);
    *regs = next;
    log.note(KernelEvent::Runs { task: id });
}

// The task at t takes the packet that it goes on with, where it takes one; where not, the answer is 0.
fn take_due<Q: KindKeeper, L: EventLog>(
    store: &mut Store,
    kinds: &mut Q,
    t: u32,
    log: &mut L,
) -> u32
    requires { (l : Lists) × (w : Task)
        × HasKeeper store.old (Q.tells kinds.old) (Q.room kinds.old) l × IsNext l w t }
    ensures taken { (l : Lists) (w : Task)
        → HasKeeper store.old (Q.tells kinds.old) (Q.room kinds.old) l → IsNext l w t
        → HasTaken store.old store.new l w result (Q.tells kinds.new)
        (L.noted log.old) (L.noted log.new) (L.has_failed log.old) (L.has_failed log.new) }
    ensures room { Q.room kinds.new ≡ Q.room kinds.old }
{
    let id = field(store, t, TcbField::Id);
    if !takes_packet(id, field(store, t, TcbField::State)) {
        return 0;
    }
    let Some(packet) = take_work(store, t) else {
        return 0;
    };
    kinds.release(packet, PACKET_WORDS);
    log.note(taken(id, packet, word_at(store, packet, 1)));
    packet
}

// Whether a task that goes on takes its first packet.
fn takes_packet(id: u32, state: u32) -> bool
    ensures { result ≡ takes_packet_by id state }
{
    id >= FIRST_GUEST && state % 8 >= 4
}

// The event that a task took a packet, which has a sender.
fn taken(id: u32, packet: u32, sender: u32) -> KernelEvent
    ensures { result ≡ KernelEvent.Taken (signed id) packet (signed sender) }
{
    KernelEvent::Taken {
        queue: signed(id),
        packet,
        sender: signed(sender),
    }
}
