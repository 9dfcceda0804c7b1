// How a machine of either kind begins.
ghost use Rattle.session_text.specs.Canonical.{IsLawful};
ghost use Rattle.tripos_machine.specs.Boot.{boot};
ghost use Rattle.tripos_machine.specs.Machine.{BootsAs};

use crate::Machine;
use crate::kinds::Kind;
use bare_machine::boot::boot as boot_bare;
use kernel_machine::Machine as FullMachine;
use kernel_machine::machine_boot::boot as boot_kernel;
use session_text::{BootEnd, Session};
use std::alloc::Global;

/// The machine of a session before its first step. On a bare machine its code is in the store from byte 800 on, and the first
/// line whose bytes pass the store's end is refused with code 1. A machine with a kernel has the files and the tasks of the lines,
/// and the first line that is refused is the answer, with the code that `machine_boot` gives it. `WantMemory` comes only where
/// memory could not be had.
pub fn boot(alloc: Global, session: &Session) -> Result<Machine, BootEnd>
    requires { IsLawful session.now }
    ensures { BootsAs result (boot session.now) }
{
    if session.bare {
        let machine = boot_bare(alloc, session)?;
        return Ok(Machine {
            kind: Kind::Bare(machine),
        });
    }
    let machine = FullMachine::from_parts(boot_kernel(alloc, session)?);
    Ok(Machine {
        kind: Kind::Full(machine),
    })
}
