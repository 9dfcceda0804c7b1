// A turn of the task that reports faults.
ghost use Rattle.std.specs.Prelude.{◌≡◌, ◌+◌, ◌++◌, [], ◌∷◌};
ghost use Rattle.word_store.specs.Arithmetic.{signed};
ghost use Rattle.kernel_lists.specs.declared.packet_queue.events.KernelEvent.TheVariants.{Taken};
ghost use Rattle.kernel_model.specs.KernelRecord.HoldsLists.{HoldsLists};
ghost use Rattle.kernel_model.specs.KernelRecord.Lists.{Lists};
ghost use Rattle.kernel_calls.specs.CallAnswers.Outside.{outside};
ghost use Rattle.resident_tasks.specs.ResidentRequests.Answers.{finished};
ghost use Rattle.resident_tasks.specs.ResidentRequests.Requests.{RunsResident, work};
ghost use Rattle.resident_tasks.specs.ResidentRequests.Turns.{IsResidentTurn};
ghost use Rattle.resident_tasks.specs.FaultReporter.FaultTurns.{CanReport, IsFaultFirst, all_reported, fault_turn, is_fault_first, sender_of, fault_taken_from};
ghost use Rattle.resident_tasks.specs.FaultReporter.Recorded.{OwnsSame};
ghost use Rattle.resident_tasks.specs.FaultReporter.Texts.{reports};
ghost use Rattle.kernel_model.specs.KernelRecord.LoggedEvents.{LogsAll};
ghost use Rattle.kernel_model.specs.KernelRecord.ChangedStore.{HasKeeper};

use crate::fault_reporter::packet::take_packet;
use crate::fault_reporter::reports::{mark_reports, print_reports};
use crate::resident_requests::requests::UNKNOWN_TYPE;
use crate::resident_requests::{finish_turn, first_packet, serve_request, take_request};
use byte_streams::Output;
use kernel_lists::EventLog;
use kernel_model::KindKeeper;
use kernel_model::numbers::{FAULT_PACKET, REPORTER};
use word_store::Store;

/// The task that reports faults, which runs, takes its first packet, or waits where it has none. Where that is the fault packet,
/// which is then on no queue, each fault that was not reported yet adds a line to the console's bytes, in the order of the chain,
/// and is marked. Any other packet is refused (31). The bytes must have room for 3,008 more.
pub fn fault_turn<Q: KindKeeper, L: EventLog>(
    store: &mut Store,
    kinds: &mut Q,
    bytes: &mut Output,
    log: &mut L,
)
    requires { (l : Lists) × HasKeeper store.old (Q.tells kinds.old) (Q.room kinds.old) l
        × CanReport bytes.old l }
    ensures turn { (l : Lists) → HasKeeper store.old (Q.tells kinds.old) (Q.room kinds.old) l
        → CanReport bytes.old l → IsResidentTurn store.new (Q.tells kinds.new)
        (outside bytes.old (L.noted log.old) (L.has_failed log.old))
        (outside bytes.new (L.noted log.new) (L.has_failed log.new)) (fault_turn store.old l) }
    ensures room { Q.room kinds.new ≡ Q.room kinds.old }
{
    if is_fault_first(store) {
        report_faults(store, bytes, log);
        return;
    }
    match take_request(store, kinds, log) {
        Some(request) => {
            serve_request(
                store,
                kinds,
                request,
                REPORTER as i32,
                Err(UNKNOWN_TYPE),
                0,
                &[],
                log,
            );
        }
        None => finish_turn(store),
    }
}

// Whether the first packet of the resident that runs is the fault packet.
fn is_fault_first(store: &Store) -> bool
    requires { (l : Lists) × HoldsLists store.now l × RunsResident l }
    ensures { (l : Lists) → HoldsLists store.now l → RunsResident l
        → result ≡ is_fault_first (work l) }
{
    match first_packet(store) {
        Some(packet) => packet == FAULT_PACKET,
        None => false,
    }
}

// The fault packet is taken, and all faults are reported.
fn report_faults<L: EventLog>(store: &mut Store, bytes: &mut Output, log: &mut L)
    requires { (l : Lists) × HoldsLists store.old l × CanReport bytes.old l
        × IsFaultFirst (work l) }
    ensures lists { (l : Lists) → HoldsLists store.old l → CanReport bytes.old l
        → IsFaultFirst (work l)
        → OwnsSame store.old store.new l (finished (all_reported (fault_taken_from (work l) l))) }
    ensures bytes { (l : Lists) → HoldsLists store.old l → CanReport bytes.old l
        → IsFaultFirst (work l) → bytes.new ≡ bytes.old ++ reports l }
    ensures notes { (l : Lists) → HoldsLists store.old l → CanReport bytes.old l
        → IsFaultFirst (work l) → LogsAll L.EventLog log.old log.new
        (Taken (signed REPORTER) FAULT_PACKET (signed (sender_of (work l))) ∷ []) }
{
    take_packet(store, log);
    print_reports(store, bytes);
    mark_reports(store);
    finish_turn(store);
}
