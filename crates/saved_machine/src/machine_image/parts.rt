// The parts of a machine with a kernel, from what was saved.
ghost use Rattle.std.specs.Prelude.{◌≡◌, ◌≤◌, IfOk, length};
ghost use Rattle.shell.specs.Modes.{mode_of as kernel_mode};
ghost use Rattle.store_claims.specs.AdoptionLaw.Adoption.{IsAdopted};
ghost use Rattle.saved_machine.specs.MachineImage.Machines.{AreKept, AreMade, AreParts};
ghost use Rattle.saved_machine.specs.MachineImage.Parts.{console_of, mode_of, others_of, shell_of};

use arrayvec::ArrayVec;
use byte_streams::WantMemory;
use kernel_devices::Tty;
use kernel_machine::{Parts as KernelParts, Script};
use kernel_model::ByteKinds;
use ram_disc::Disc;
use resident_tasks::Pipes;
use resident_tasks::console_handler::ConsoleState;
use saved_text::{Image, Mode as SavedMode};
use shell::{Mode, ShellState};
use std::alloc::Global;

/// What the file handler keeps.
#[derive(Drop)]
pub(crate) struct KeptParts {
    /// The files, and the streams that are open on them.
    pub(crate) disc: Disc,
    /// The pipes.
    pub(crate) pipes: Pipes,
}

/// What takes memory besides the store and what the file handler keeps.
#[derive(Drop)]
pub(crate) struct MadeParts {
    /// Whose each word of the store is.
    pub(crate) kinds: ByteKinds,
    /// The bytes that are typed ahead.
    pub(crate) tty: Tty,
    /// The keys of the script.
    pub(crate) keys: Script,
}

/// What takes memory besides the store and what is kept. `WantMemory` comes only where memory could not be had.
pub(crate) fn made_parts(alloc: Global, image: &Image) -> Result<MadeParts, WantMemory>
    requires { IsAdopted image.now.store (others_of image.now) }
    ensures { IfOk result (AreMade image.now) }
{
    let kinds = ByteKinds::of_store(alloc, &image.store)?;
    let tty = type_ahead_of(alloc, image.ring.as_slice())?;
    let keys = Script::new(alloc, image.keys.as_slice())?;
    Ok(MadeParts { kinds, tty, keys })
}

/// The parts of the machine, of which these are kept by the file handler, and these made.
pub(crate) fn parts_of(image: Image, kept: KeptParts, made: MadeParts) -> KernelParts
    requires kept { AreKept image kept }
    requires made { AreMade image made }
    ensures { AreParts image result }
{
    let console = console_in(&image);
    let shell = shell_in(&image);
    KernelParts {
        store: image.store,
        regs: image.regs,
        kinds: made.kinds,
        tty: made.tty,
        disc: kept.disc,
        bytes: ArrayVec::new(),
        console,
        shell,
        pipes: kept.pipes,
        keys: made.keys,
        step: image.step,
        period: image.period,
    }
}

// The type-ahead with these bytes.
fn type_ahead_of(alloc: Global, bytes: &[u8]) -> Result<Tty, WantMemory>
    requires { length bytes.now ≤ 128 }
    ensures { IfOk result (λ tty. tty ≡ bytes.now) }
{
    let mut tty = Tty::new(alloc)?;
    tty.set(bytes);
    Ok(tty)
}

// The console's line.
fn console_in(image: &Image) -> ConsoleState
    requires { length image.now.line ≤ 120 }
    ensures { result ≡ console_of image.now }
{
    ConsoleState::new(line_of(image.line.as_slice()), image.finished)
}

// What the shell does next, and its line.
fn shell_in(image: &Image) -> ShellState
    requires { length image.now.command ≤ 120 }
    ensures { result ≡ shell_of image.now }
{
    ShellState::new(mode_of(image.mode), line_of(image.command.as_slice()))
}

// What the shell does next.
fn mode_of(mode: SavedMode) -> Mode
    ensures { kernel_mode result ≡ mode_of mode }
{
    match mode {
        SavedMode::Prompt => Mode::Prompt,
        SavedMode::Reading => Mode::Reading,
        SavedMode::Waiting(id) => Mode::Waiting(id),
        SavedMode::Typing => Mode::Typing,
    }
}

// The bytes, as a line.
fn line_of(bytes: &[u8]) -> ArrayVec<u8, 120>
    requires { length bytes.now ≤ 120 }
    ensures { result.items ≡ bytes.now }
{
    let mut line = ArrayVec::new();
    match line.try_extend_from_slice(bytes) {
        Ok(()) => line,
        Err(_) => unreachable!(),
    }
}
