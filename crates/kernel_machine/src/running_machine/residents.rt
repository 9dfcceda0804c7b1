// The turns of the residents.
ghost use Rattle.std.specs.Prelude.{◌≡◌, ◌<◌, ◌^◌, ℕ, [], length, slice_index};
ghost use Rattle.ram_disc.specs.Disc.{IsDisc};
ghost use Rattle.kernel_model.specs.KernelRecord.HoldsLists.{HoldsLists};
ghost use Rattle.kernel_model.specs.KernelRecord.Kernel.{Kernel};
ghost use Rattle.kernel_model.specs.KernelRecord.Lists.{Lists};
ghost use Rattle.kernel_calls.specs.CallAnswers.Outside.{outside};
ghost use Rattle.resident_tasks.specs.ResidentRequests.Requests.{RunsResident};
ghost use Rattle.kernel_machine.specs.RunningMachine.RepresentedKernels.{RepresentsKernel};
ghost use Rattle.kernel_machine.specs.KernelSteps.ResidentSteps.{console_step, handler_step, reporter_step, resident_step, serves_pipes, shell_step};
ghost use Rattle.kernel_machine.specs.RunningMachine.Private.Leaves.{Leaves, RunsNumber, RunsNoGuest};

use crate::running_machine::Parts;
use byte_streams::Output;
use kernel_lists::{EventLog, RootField, root};
use kernel_model::Stop;
use kernel_model::numbers::{CONSOLE, FILE_HANDLER, KIND, REPORTER, SHELL};
use ram_disc::Disc;
use resident_tasks::console_handler::console_turn;
use resident_tasks::{fault_turn, file_turn, first_packet, pipe_turn};
use shell::shell_turn;
use word_store::{Store, word_at};

/// The turn of the resident with the number, which runs; nothing where that is 0, and nobody runs. The answer is why the machine
/// stops, if it does.
pub(crate) fn resident<L: EventLog>(
    parts: &mut Parts,
    task: u32,
    bytes: &mut Output,
    log: &mut L,
) -> Option<Stop>
    requires represents { (k : Kernel) × RepresentsKernel parts.old k × RunsNoGuest task k }
    requires empty { bytes.old ≡ [] }
    ensures turned { (k : Kernel) → RepresentsKernel parts.old k → RunsNoGuest task k
        → Leaves parts.new
        (outside bytes.old (L.noted log.old) (L.has_failed log.old))
        (outside bytes.new (L.noted log.new) (L.has_failed log.new)) (resident_step task k) }
    ensures stop { (k : Kernel) → RepresentsKernel parts.old k → RunsNoGuest task k
        → result ≡ (resident_step task k).kernel.stop }
    ensures keys { parts.new.keys.keys ≡ parts.old.keys.keys }
    ensures disc { IsDisc parts.new.disc }
    ensures room { length bytes.new < 8192 }
{
    match task {
        SHELL => return shell(parts, bytes, log),
        REPORTER => report(parts, bytes, log),
        CONSOLE => console(parts, bytes, log),
        FILE_HANDLER => {
            handle(parts, bytes, log);
            know_disc(&parts.disc);
        }
        _ => {}
    }
    None
}

// The shell's turn, which may be the last.
fn shell<L: EventLog>(parts: &mut Parts, bytes: &mut Output, log: &mut L) -> Option<Stop>
    requires represents { (k : Kernel) × RepresentsKernel parts.old k × RunsNumber 1 k }
    requires empty { bytes.old ≡ [] }
    ensures turned { (k : Kernel) → RepresentsKernel parts.old k → RunsNumber 1 k
        → Leaves parts.new
        (outside bytes.old (L.noted log.old) (L.has_failed log.old))
        (outside bytes.new (L.noted log.new) (L.has_failed log.new)) (shell_step k) }
    ensures stop { (k : Kernel) → RepresentsKernel parts.old k → RunsNumber 1 k
        → result ≡ (shell_step k).kernel.stop }
    ensures keys { parts.new.keys.keys ≡ parts.old.keys.keys }
    ensures disc { IsDisc parts.new.disc }
    ensures room { length bytes.new < 8192 }
{
    let finished = shell_turn(
        &mut parts.shell,
        &mut parts.disc,
        &mut parts.store,
        &mut parts.kinds,
        bytes,
        log,
    );
    know_disc(&parts.disc);
    if finished { Some(Stop::Finish) } else { None }
}

// The task that reports faults.
fn report<L: EventLog>(parts: &mut Parts, bytes: &mut Output, log: &mut L)
    requires represents { (k : Kernel) × RepresentsKernel parts.old k × RunsNumber 2 k }
    requires empty { bytes.old ≡ [] }
    ensures turned { (k : Kernel) → RepresentsKernel parts.old k → RunsNumber 2 k
        → Leaves parts.new
        (outside bytes.old (L.noted log.old) (L.has_failed log.old))
        (outside bytes.new (L.noted log.new) (L.has_failed log.new)) (reporter_step k) }
    ensures keys { parts.new.keys.keys ≡ parts.old.keys.keys }
    ensures room { length bytes.new < 8192 }
{
    know_words(&parts.store);
    fault_turn(&mut parts.store, &mut parts.kinds, bytes, log);
}

// Tells what words are: numbers below 2^32.
fn know_words(store: &Store)
    ensures { (a : ℕ) → slice_index store.now a < 2 ^ 32 }
{
    let Some(words) = store.words(0, store.size()) else {
        unreachable!()
    };
    know_numbers(words);
}

fn know_numbers(words: &[u32])
    ensures { (a : ℕ) → slice_index words.now a < 2 ^ 32 }
{}

// The console.
fn console<L: EventLog>(parts: &mut Parts, bytes: &mut Output, log: &mut L)
    requires represents { (k : Kernel) × RepresentsKernel parts.old k × RunsNumber 3 k }
    requires empty { bytes.old ≡ [] }
    ensures turned { (k : Kernel) → RepresentsKernel parts.old k → RunsNumber 3 k
        → Leaves parts.new
        (outside bytes.old (L.noted log.old) (L.has_failed log.old))
        (outside bytes.new (L.noted log.new) (L.has_failed log.new)) (console_step k) }
    ensures keys { parts.new.keys.keys ≡ parts.old.keys.keys }
{
    let awaited = parts.shell.awaited();
    let mut line = parts.shell.take_line();
    console_turn(
        &mut parts.console,
        &mut line,
        awaited,
        &mut parts.store,
        &mut parts.kinds,
        bytes,
        log,
    );
    parts.shell.put_line(line);
}

// The file handler, which in version 2 serves requests for pipes too.
fn handle<L: EventLog>(parts: &mut Parts, bytes: &Output, log: &mut L)
    requires { (k : Kernel) × RepresentsKernel parts.old k × RunsNumber 4 k }
    ensures turned { (k : Kernel) → RepresentsKernel parts.old k → RunsNumber 4 k
        → Leaves parts.new
        (outside bytes.now (L.noted log.old) (L.has_failed log.old))
        (outside bytes.now (L.noted log.new) (L.has_failed log.new)) (handler_step k) }
    ensures keys { parts.new.keys.keys ≡ parts.old.keys.keys }
{
    if serves_pipes(&parts.store) {
        pipe_turn(&mut parts.pipes, &mut parts.store, &mut parts.kinds, log);
        return;
    }
    file_turn(
        &mut parts.disc,
        &mut parts.store,
        &mut parts.kinds,
        &mut parts.bytes,
        log,
    );
}

// Tells what the disc is: a disc.
fn know_disc(disc: &Disc)
    ensures { IsDisc disc.now }
{
    let _stream = disc.stream(1);
}

/// The version in which there are pipes.
const SECOND_VERSION: u32 = 2;

/// The types of requests for pipes.
const FIRST_PIPE_KIND: u32 = 20;

const LAST_PIPE_KIND: u32 = 23;

// Whether the first request is one for a pipe, and there are pipes.
fn serves_pipes(store: &Store) -> bool
    requires { (l : Lists) × HoldsLists store.now l × RunsResident l }
    ensures { (l : Lists) → HoldsLists store.now l → RunsResident l
        → result ≡ serves_pipes l }
{
    if root(store, RootField::Version) != SECOND_VERSION {
        return false;
    }
    let Some(p) = first_packet(store) else {
        return false;
    };
    let kind = word_at(store, p, KIND);
    FIRST_PIPE_KIND <= kind && kind <= LAST_PIPE_KIND
}
