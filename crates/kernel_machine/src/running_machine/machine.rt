// A machine with a kernel.
ghost use Rattle.std.specs.Prelude.{◌≡◌, ◌<◌, ◌+◌, ◌≤◌, [], Some, None, false};
ghost use Rattle.instruction_set.specs.Writes.{list_of};
ghost use Rattle.kernel_model.specs.KernelRecord.Ranges.{most_steps};
ghost use Rattle.kernel_model.specs.KernelRecord.HoldsLists.{HoldsLists};
ghost use Rattle.kernel_model.specs.KernelRecord.Kernel.{Kernel};
ghost use Rattle.kernel_model.specs.KernelRecord.Lists.{Lists};
ghost use Rattle.kernel_model.specs.KernelRecord.ValidKernel.{IsValid};
ghost use Rattle.guest_turns.specs.Guarded.{is_owned};
ghost use Rattle.kernel_machine.specs.RunningMachine.RepresentedKernels.{RepresentsKernel};
ghost use Rattle.kernel_machine.specs.KernelSteps.GuestWrites.{guest_writes};
ghost use Rattle.kernel_machine.specs.KernelSteps.Step.{boot_events, first_events, run_events, step};
ghost use Rattle.kernel_machine.specs.RunningMachine.Machine.{kernel_of, with_byte_typed};
ghost use Rattle.kernel_model.specs.KernelRecord.LoggedEvents.{LogsAll};

use crate::running_machine::Parts;
use crate::running_machine::steps::step_or_stay;
use crate::running_machine::turns::running;
use byte_streams::Output;
use guest_turns::{guest_writes, is_kernel_word};
use instruction_set::Writes;
use kernel_lists::{EventLog, FIRST_GUEST, KernelEvent, RootField, root};
use kernel_model::Stop;
use kernel_model::numbers::{CONSOLE, KEY_PACKET, SHELL, SHELL_PACKET, SIGNED_KEYBOARD};
use std::marker::Model;
use word_store::Store;

/// A machine with a kernel. Contracts see it as the one valid kernel that its parts represent, all keys of its script, and the
/// bytes of its last step.
#[derive(Drop)]
pub struct Machine {
    /// The kernel and what it keeps.
    pub(crate) parts: Parts,
    /// Why it has stopped, if it has.
    pub(crate) stop: Option<Stop>,
    /// The bytes that went to the console in the last step.
    pub(crate) output: Output,
}

impl Model for Machine {
    ghost use Rattle.kernel_machine.specs.RunningMachine.Machine.{IsWhole, MachineView, kernel_of};

    ghost Value = { MachineView };

    ghost view = { λ m. record { kernel = kernel_of m.parts m.stop; keys = m.parts.keys.keys; output = m.output } };

    ghost invariant = { λ m. IsWhole m.parts m.stop };
}

impl Machine {
    /// The machine with these parts, which has not stopped, and has no output. Its keys are all those of the script.
    pub fn from_parts(parts: Parts) -> Machine
        requires { (k : Kernel) × RepresentsKernel parts k × IsValid k × (k.stop ≡ None) }
        ensures kernel { (k : Kernel) → RepresentsKernel parts k → IsValid k → k.stop ≡ None
            → result.kernel ≡ k }
        ensures keys { result.keys ≡ parts.keys.keys }
        ensures output { result.output ≡ [] }
    {
        Machine {
            parts,
            stop: None,
            output: Output::new(),
        }
    }

    /// Its parts, which represent its kernel, a valid one. The script has all its keys.
    pub fn into_parts(self) -> Parts
        ensures represents { RepresentsKernel result self.kernel }
        ensures valid { IsValid self.kernel }
        ensures keys { result.keys.keys ≡ self.keys }
    {
        self.parts
    }

    /// Its parts, lent. They represent its kernel, a valid one. The script has all its keys.
    pub fn parts(&self) -> &Parts
        ensures represents { RepresentsKernel result.now self.now.kernel }
        ensures valid { IsValid self.now.kernel }
        ensures keys { result.now.keys.keys ≡ self.now.keys }
    {
        &self.parts
    }

    /// The number of the task that runs, or 0.
    pub fn running(&self) -> u32
        ensures { result ≡ self.now.kernel.lists.running }
    {
        running(&self.parts.store)
    }

    /// What the running guest's next instruction writes: nothing where it is a call or a fault, and where no guest runs.
    pub fn next_writes(&self) -> Writes
        ensures { list_of result ≡ guest_writes self.now.kernel }
    {
        if self.running() < FIRST_GUEST {
            return Writes::Nothing;
        }
        guest_writes(&self.parts.store, self.parts.regs, &self.parts.kinds)
    }

    /// Whether the word at the address is the kernel's: one that its lists own.
    pub fn is_kernel_word(&self, a: u32) -> bool
        ensures { result ≡ is_owned self.now.kernel.lists a }
    {
        is_kernel_word(&self.parts.store, a, &self.parts.kinds)
    }

    /// Why it has stopped, if it has.
    pub fn stop(&self) -> Option<Stop>
        ensures { result ≡ self.now.kernel.stop }
    {
        self.stop
    }

    /// The console bytes of the last step, lent; none before the first step.
    pub fn output(&self) -> &[u8]
        ensures { result.now ≡ self.now.output }
    {
        self.output.bytes()
    }

    /// Notes the events of the boot of a machine that has taken no step: where there are residents, that the console has sent its key
    /// packet and that the shell's packet has come to it; and then that its running task runs, where there is one.
    pub fn note_boot<L: EventLog>(&self, log: &mut L)
        ensures { LogsAll L.EventLog log.old log.new (boot_events self.now.kernel) }
    {
        note_residents(&self.parts.store, log);
        note_running(&self.parts.store, log);
    }

    /// Types a byte ahead. Where 128 bytes are typed ahead it is dropped. Nothing else changes.
    pub fn type_byte(&mut self, byte: u8)
        ensures kernel { self.new.kernel ≡ with_byte_typed byte self.old.kernel }
        ensures output { self.new.output ≡ self.old.output }
        ensures keys { self.new.keys ≡ self.old.keys }
    {
        self.parts.tty.enter(byte);
    }

    /// Takes one step, and answers why the machine has stopped, if it has. A machine that has stopped before stays as it is,
    /// but for its output, which is empty then. The list of its keys stays.
    pub fn step<L: EventLog>(&mut self, log: &mut L) -> Option<Stop>
        requires { self.old.kernel.steps < most_steps }
        ensures kernel { self.new.kernel ≡ (step self.old.kernel).kernel }
        ensures output { self.new.output ≡ (step self.old.kernel).bytes }
        ensures events { LogsAll L.EventLog log.old log.new (step self.old.kernel).events }
        ensures stop { result ≡ self.new.kernel.stop }
        ensures keys { self.new.keys ≡ self.old.keys }
    {
        self.output.clear();
        self.stop = step_or_stay(&mut self.parts, self.stop, &mut self.output, log);
        self.stop
    }
}

// Where there are residents, the console has sent its key packet, and the shell's packet has come to it.
fn note_residents<L: EventLog>(store: &Store, log: &mut L)
    requires { (l : Lists) × HoldsLists store.now l }
    ensures { (l : Lists) → HoldsLists store.now l
        → LogsAll L.EventLog log.old log.new (first_events l.residents) }
{
    if root(store, RootField::Residents) == 0 {
        return;
    }
    log.note(KernelEvent::Accepted {
        queue: SIGNED_KEYBOARD,
        packet: KEY_PACKET,
        sender: CONSOLE as i32,
    });
    log.note(KernelEvent::Accepted {
        queue: SHELL as i32,
        packet: SHELL_PACKET,
        sender: SHELL as i32,
    });
}

// The running task runs, where there is one.
fn note_running<L: EventLog>(store: &Store, log: &mut L)
    requires { (l : Lists) × HoldsLists store.now l }
    ensures { (l : Lists) → HoldsLists store.now l
        → LogsAll L.EventLog log.old log.new (run_events l.running) }
{
    let task = running(store);
    if task != 0 {
        log.note(KernelEvent::Runs { task });
    }
}
