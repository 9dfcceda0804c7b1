// What a run of a ring comes to.
ghost use Rattle.std.specs.Prelude.{◌≡◌, ◌+◌, ◌≤◌, length};

use crate::left::LeftEnd;
use crate::links::LinkParts;
use kernel_model::Stop;

/// What a run of a ring comes to.
#[derive(Clone, Copy)]
pub struct RingOutcome {
    /// The rounds.
    pub rounds: u64,
    /// The console bytes of the left machine.
    pub sent: u64,
    /// How many of them were typed at the right machine.
    pub delivered: u64,
    /// How many of these were acknowledged.
    pub acknowledged: u64,
    /// Why the right machine has stopped; `Steps` exactly where it has not.
    pub end: Stop,
}

/// What it comes to where the rounds left this, and the right machine has ended so. What was sent is acknowledged or waits.
pub(crate) fn outcome_after(left: &LeftEnd, link: &LinkParts, end: Stop) -> RingOutcome
    requires { link.now.sender.acknowledged ≤ link.now.received }
    ensures rounds { result.rounds ≡ link.now.rounds }
    ensures sent { result.sent ≡ link.now.sender.acknowledged + length left.now.waiting }
    ensures delivered { result.delivered ≡ link.now.received }
    ensures acknowledged { result.acknowledged ≡ link.now.sender.acknowledged }
    ensures end { result.end ≡ end }
{
    let delivered = link.received();
    let acknowledged = link.acknowledged();
    RingOutcome {
        rounds: link.rounds(),
        sent: acknowledged + left.waiting() as u64,
        delivered,
        acknowledged,
        end,
    }
}
