// The machines of a ring are booted.
ghost use Rattle.std.specs.Prelude.{◌≡◌, IfOk};
ghost use Rattle.machine_ring.specs.RingLink.LawfulRing.{FitBehind, IsLawfulRing};
ghost use Rattle.machine_ring.specs.RingLink.Machines.{behind};
ghost use Rattle.session_text.specs.Canonical.{IsLawful};
ghost use Rattle.tripos_machine.specs.Boot.{boot};
ghost use Rattle.tripos_machine.specs.Machine.{BootsAs};
ghost use Rattle.machine_ring.specs.Boot.{BootsRing, FitsBehind, booted_ring, end_behind};
ghost use Rattle.machine_ring.specs.Links.{new_link};
ghost use Rattle.machine_ring.specs.Rings.{terms_of};

use crate::Ring;
use crate::left::{LeftEnd, waiting_room};
use crate::links::LinkParts;
use crate::ring_link::RingInput;
use crate::terms::Terms;
use byte_streams::WantMemory;
use session_text::{BootEnd, Bytes, Session};
use std::alloc::Global;
use tripos_machine::{Machine, boot};

impl Ring {
    /// The ring of an input before its first round. The left machine boots first, and then the right one. `Line` comes exactly where a
    /// line of a session is refused, with its number in the whole input and the code of `boot`. All memory is taken here; `WantMemory`
    /// comes only where it could not be had.
    #[tactic(auto, unfolding(crate::specs::Boot::booted_ring))]
    pub fn new(alloc: Global, input: &RingInput) -> Result<Ring, BootEnd>
        requires { IsLawfulRing input.now }
        ensures { BootsRing result (booted_ring input.now) }
    {
        let Ok(link) = link_of(alloc, input) else {
            return Err(BootEnd::WantMemory);
        };
        let Ok(room) = waiting_room(alloc) else {
            return Err(BootEnd::WantMemory);
        };
        let left = boot_behind(alloc, input.left_line, &input.left)?;
        let right = boot_behind(alloc, input.right_line, &input.right)?;
        let left = LeftEnd::new(left, room);
        Ok(Ring { left, link, right })
    }
}

// The link of an input before the first round.
fn link_of(alloc: Global, input: &RingInput) -> Result<LinkParts, WantMemory>
    requires { IsLawfulRing input.now }
    ensures { IfOk result (λ link. link ≡ new_link (terms_of input.now)) }
{
    let terms = terms_of(alloc, input)?;
    LinkParts::new(alloc, terms)
}

// The machine of a session whose lines come after so many others.
fn boot_behind(alloc: Global, before: u32, session: &Session) -> Result<Machine, BootEnd>
    requires lawful { IsLawful session.now }
    requires fit { FitBehind before session.now.lines }
    ensures { BootsAs result (behind before (boot session.now)) }
{
    match boot(alloc, session) {
        Ok(machine) => Ok(machine),
        Err(end) => Err(end_behind(before, end)),
    }
}

// Why a session does not boot, with the line in the whole.
fn end_behind(before: u32, end: BootEnd) -> BootEnd
    requires { FitsBehind before end }
    ensures { result ≡ end_behind before end }
{
    match end {
        BootEnd::Line { line, code } => BootEnd::Line {
            line: before + line,
            code,
        },
        BootEnd::WantMemory => BootEnd::WantMemory,
    }
}

// What is set for the ring of an input.
fn terms_of(alloc: Global, input: &RingInput) -> Result<Terms, WantMemory>
    ensures { IfOk result (λ terms. terms ≡ terms_of input.now) }
{
    Ok(Terms {
        rounds: input.rounds,
        wait: input.wait,
        link: copy_of(alloc, &input.link)?,
        acks: copy_of(alloc, &input.acks)?,
        left_steps: input.left.go,
        right_steps: input.right.go,
    })
}

fn copy_of(alloc: Global, letters: &Bytes) -> Result<Bytes, WantMemory>
    ensures { IfOk result (λ copy. copy ≡ letters.now) }
{
    match Vec::from_slice(alloc, letters.as_slice()) {
        Ok(copy) => Ok(Bytes::new(copy)),
        Err(_) => Err(WantMemory),
    }
}
