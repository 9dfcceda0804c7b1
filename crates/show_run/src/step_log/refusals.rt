// Why a call is refused.
ghost use Rattle.std.specs.Prelude.{◌≡◌, None, Some, MatchOption};
ghost use Rattle.byte_streams.specs.Pending.{Gathers};
ghost use Rattle.byte_streams.specs.Sinks.{FailsBySink, GathersFor};
ghost use Rattle.show_run.specs.StepLog.Refusals.{refusal, refusal_lines};

use crate::step_log::moments::{Moment, gather_line};
use byte_streams::Piece::{Decimal, Text};
use byte_streams::{Output, Sink, SinkFault};

/// Gathers the line of a code that says why a call is refused; none where no call answers it.
pub(crate) fn gather_refusal<K: Sink>(
    m: Moment,
    code: u32,
    out: &mut K,
    pending: &mut Output,
) -> Result<(), SinkFault>
    ensures text { GathersFor K.Sink out.old out.new pending.old pending.new
        (refusal_lines m code) result }
    ensures cause { FailsBySink K.Sink out.old out.new result }
{
    let Some(text) = refusal(code) else {
        return Ok(());
    };
    gather_line(
        m,
        &[
            Text(b"refused code "),
            Decimal(u64::from(code)),
            Text(b": "),
            Text(text),
        ],
        out,
        pending,
    )
}

// What a code means.
#[tactic(auto, unfolding(crate::specs::StepLog::Refusals::refusal))]
fn refusal(code: u32) -> Option<&'static [u8]>
    ensures { MatchOption result (refusal code ≡ None) (λ text. refusal code ≡ Some text.now) }
{
    let text: &[u8] = match code {
        1 => b"no run of free blocks is large enough",
        2 => b"there is no such task",
        3 => b"the link of the packet is not -1, so it is on a queue, or was never prepared",
        4 => b"this is the number of no task and no device",
        5 =>
            b"the packet does not lie in one block that is in use, or one of its five words is the kernel's",
        6 => b"this is no block that was taken by getvec",
        7 => b"a queued packet lies in the block, or in the globals",
        8 => b"a task has this priority",
        9 => b"a priority is from 1 to 10,000",
        10 => b"tasks have all numbers",
        11 => b"the task is not dead",
        12 => b"packets wait for the task",
        13 => b"a packet that the task sent is still with a device or a resident",
        14 => b"the task is a resident; the packet is a resident's",
        15 => b"the task is not held",
        16 => b"the task is held already",
        17 => b"no module has this address",
        18 => b"a hunk of the module has more globals than there are: its last word is above 1000",
        19 => b"the packet is on none of the queues that are searched",
        20 => b"no run of free blocks is large enough for the coroutine",
        21 => b"the caller has no such coroutine",
        22 => b"the coroutine has a parent",
        23 => b"the call is made in the root, which has no parent",
        24 => b"a queued packet lies in the coroutine's block",
        25 => b"the task has coroutines",
        26 => b"a task has the module",
        27 => b"a task has this number",
        28 => b"the task has eight modules",
        _ => return None,
    };
    Some(text)
}
