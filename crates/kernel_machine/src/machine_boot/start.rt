// The machine of a session.
ghost use Rattle.std.specs.Prelude.{◌≡◌, [], IfOk, MatchResult, replicate};
ghost use Rattle.kernel_model.specs.KernelRecord.ChangedStore.{IsChanged};
ghost use Rattle.kernel_model.specs.KernelRecord.Kernel.{Kernel};
ghost use Rattle.kernel_model.specs.KernelDispatch.Dispatch.{CanDispatch};
ghost use Rattle.kernel_boot.specs.BootFiles.{HasNoStreams};
ghost use Rattle.kernel_machine.specs.KernelSteps.Step.{dispatch};
ghost use Rattle.kernel_machine.specs.RunningMachine.RepresentedKernels.{RepresentsKernel};
ghost use Rattle.kernel_machine.specs.MachineBoot.Boot.{HasKernel, boot, first_kernel, first_lists, with_files, with_lines, with_tasks};
ghost use Rattle.kernel_machine.specs.MachineBoot.Booted.{BootsAs, CanStart, CanLoad, IsReached};

use crate::running_machine::{Parts, Script};
use arrayvec::ArrayVec;
use byte_streams::WantMemory;
use kernel_boot::{BootRefusal, load_files, make_kernel, make_resident_kernel, start_tasks};
use kernel_devices::Tty;
use kernel_lists::NoLog;
use kernel_model::ByteKinds;
use kernel_model::kernel_dispatch::switch;
use ram_disc::Disc;
use resident_tasks::Pipes;
use resident_tasks::console_handler::ConsoleState;
use session_text::{BootEnd, Session, SessionLine};
use shell::ShellState;
use std::alloc::Global;
use word_store::{Regs, Store};

/// The registers where nobody runs.
const NO_REGS: Regs = Regs {
    a: 0,
    b: 0,
    c: 0,
    p: 0,
    g: 0,
    pc: 0,
};

/// The machine of a session before its first step: the files of all lines are on its disc, the tasks of all lines have been
/// started, the first ready task runs, and the session's keys are to come. The residents are there if the session has them. The
/// first line that is refused is the answer, with its code. First come the files: a file has the name already (42), there are 64 files (44), or the disc has no
/// room (43). Then come the tasks: a task has the number already (27); for each of its names in turn, no file has it (41), its
/// text is no module (61 to 66), or no run of free blocks is large enough for the module (1); a task has the priority already
/// (8), a module has a number of a global above 1,000 (18), or no run of free blocks is large enough for the task (1).
/// `WantMemory` comes only where memory could not be had.
pub fn boot(alloc: Global, session: &Session) -> Result<Parts, BootEnd>
    requires { HasKernel session.now }
    ensures boots { BootsAs result (boot session.now) }

    // No key of the session has come.
    ensures keys { IfOk result (λ p. p.keys.come ≡ 0) }
{
    let mut parts = empty_machine(alloc, session)?;
    if let Err(refusal) = put_lines(&mut parts, session.lines.as_slice()) {
        return Err(BootEnd::Line {
            line: refusal.line,
            code: refusal.code,
        });
    }
    dispatch(&mut parts);
    Ok(parts)
}

// The end where memory could not be had.
fn want_memory(_: WantMemory) -> BootEnd
    ensures { result ≡ BootEnd.WantMemory }
{
    BootEnd::WantMemory
}

// The machine before the lines.
fn empty_machine(alloc: Global, session: &Session) -> Result<Parts, BootEnd>
    requires { HasKernel session.now }
    ensures represents { MatchResult result (λ p. RepresentsKernel p (first_kernel session.now))
        (λ e. e ≡ BootEnd.WantMemory) }
    ensures keys { IfOk result (λ p. p.keys.come ≡ 0) }
{
    let mut store = Store::new(alloc, session.store)?;
    make_lists(&mut store, session);
    let kinds = ByteKinds::of_store(alloc, &store).map_err(want_memory)?;
    Ok(Parts {
        store,
        regs: NO_REGS,
        kinds,
        tty: Tty::new(alloc).map_err(want_memory)?,
        disc: Disc::new(alloc).map_err(want_memory)?,
        bytes: ArrayVec::new(),
        console: ConsoleState::new(ArrayVec::new(), false),
        shell: ShellState::begin(),
        pipes: Pipes::new(alloc).map_err(want_memory)?,
        keys: Script::new(alloc, session.keys.as_slice()).map_err(want_memory)?,
        step: 0,
        period: session.period,
    })
}

// Makes the lists before the lines, in a store of zeros.
fn make_lists(store: &mut Store, session: &Session)
    requires session { HasKernel session.now }
    requires zeros { store.old ≡ replicate session.now.store 0 }
    ensures { IsChanged store.old store.new (first_lists session.now) [] }
{
    if session.resident {
        make_resident_kernel(store, session.version, session.period, session.debug);
    } else {
        make_kernel(store, session.version, session.period);
    }
}

// Puts the files of all lines on the disc, and then starts the tasks of all lines.
fn put_lines(parts: &mut Parts, lines: &[SessionLine]) -> Result<(), BootRefusal>
    requires { (k : Kernel) × RepresentsKernel parts.old k × CanLoad lines.now k }
    ensures reached { (k : Kernel) → RepresentsKernel parts.old k → CanLoad lines.now k
        → IsReached parts.new result (with_lines lines.now k) }
    ensures keys { parts.new.keys ≡ parts.old.keys }
{
    put_files(parts, lines)?;
    put_tasks(parts, lines)
}

// Puts the files of the lines on the disc.
fn put_files(parts: &mut Parts, lines: &[SessionLine]) -> Result<(), BootRefusal>
    requires { HasNoStreams parts.old.disc }
    ensures reached { (k : Kernel) → RepresentsKernel parts.old k
        → IsReached parts.new result (with_files lines.now k) }
    ensures keys { parts.new.keys ≡ parts.old.keys }
{
    load_files(&mut parts.disc, lines)
}

// Starts the tasks of the lines.
fn put_tasks(parts: &mut Parts, lines: &[SessionLine]) -> Result<(), BootRefusal>
    requires { (k : Kernel) × RepresentsKernel parts.old k × CanStart lines.now k }
    ensures reached { (k : Kernel) → RepresentsKernel parts.old k → CanStart lines.now k
        → IsReached parts.new result (with_tasks lines.now k) }
    ensures keys { parts.new.keys ≡ parts.old.keys }
{
    start_tasks(&mut parts.store, &mut parts.kinds, &parts.disc, lines)
}

// Lets the first ready task run.
fn dispatch(parts: &mut Parts)
    requires { (k : Kernel) × RepresentsKernel parts.old k × CanDispatch k.lists k.regs }
    ensures represents { (k : Kernel) → RepresentsKernel parts.old k → CanDispatch k.lists k.regs
        → RepresentsKernel parts.new (dispatch k).kernel }
    ensures keys { parts.new.keys ≡ parts.old.keys }
{
    switch(
        &mut parts.store,
        &mut parts.regs,
        &mut parts.kinds,
        &mut NoLog,
    );
}
