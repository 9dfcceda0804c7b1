// A machine at one moment, without what a history keeps elsewhere.
ghost use Rattle.std.specs.Prelude.{◌≡◌, ◌≤◌, length};
ghost use Rattle.debugger.specs.MachineHistory.Moments.{IsMomentOf, IsTakenFrom, with_moment};

use arrayvec::ArrayVec;
use bare_machine::BareParts;
use kernel_machine::Parts as KernelParts;
use resident_tasks::console_handler::ConsoleState;
use shell::ShellState;
use tripos_machine::Machine;
use word_store::Regs;

/// A machine at one moment, but for the words of its store, its files and its pipes.
#[derive(Drop)]
pub(crate) enum Moment {
    /// A machine without a kernel.
    Bare(BareMoment),
    /// A machine with a kernel.
    Full(KernelMoment),
}

/// What a machine without a kernel has beside its words.
#[derive(Drop)]
pub(crate) struct BareMoment {
    /// The registers.
    pub(crate) regs: Regs,
    /// The steps taken so far.
    pub(crate) step: u64,
}

/// What a machine with a kernel has beside its words, files and pipes.
#[derive(Drop)]
pub(crate) struct KernelMoment {
    /// The registers of the running task.
    pub(crate) regs: Regs,
    /// The steps taken so far.
    pub(crate) step: u64,
    /// The bytes that are typed ahead.
    pub(crate) type_ahead: ArrayVec<u8, 128>,
    /// The console's line.
    pub(crate) console: ConsoleState,
    /// What the shell does next, and its line.
    pub(crate) shell: ShellState,
    /// How many keys have come.
    pub(crate) come: usize,
    /// The steps from one tick to the next.
    pub(crate) period: u32,
}

/// What a machine that has not stopped has at this moment.
pub(crate) fn moment_of(machine: &Machine) -> Moment
    ensures { IsMomentOf machine.now.keys result machine.now.state }
{
    match machine.kernel_parts() {
        None => Moment::Bare(BareMoment {
            regs: machine.regs(),
            step: machine.steps(),
        }),
        Some(parts) => Moment::Full(kernel_moment(parts)),
    }
}

fn kernel_moment(parts: &KernelParts) -> KernelMoment
    ensures { IsTakenFrom parts.now result }
{
    KernelMoment {
        regs: parts.regs,
        step: parts.step,
        type_ahead: parts.tty.bytes(),
        console: parts.console.copy(),
        shell: parts.shell.copy(),
        come: parts.keys.come(),
        period: parts.period,
    }
}

impl BareMoment {
    /// Makes a machine what it was at this moment, in all but its words.
    pub(crate) fn restore(self, parts: &mut BareParts)
        ensures { parts.new ≡ record parts.old { regs = self.regs; step = self.step } }
    {
        parts.regs = self.regs;
        parts.step = self.step;
    }
}

impl KernelMoment {
    /// Makes a machine what it was at this moment, in all but its words, files and pipes.
    pub(crate) fn restore(self, parts: &mut KernelParts)
        requires { self.come ≤ length parts.old.keys.keys }
        ensures { parts.new ≡ with_moment self parts.old }
    {
        parts.regs = self.regs;
        parts.step = self.step;
        parts.tty.set(self.type_ahead.as_slice());
        parts.console = self.console;
        parts.shell = self.shell;
        parts.keys.set_come(self.come);
        parts.period = self.period;
    }
}
