// Printing a machine.
ghost use Rattle.saved_text.specs.Canonical.{IsLawful, canonical};
ghost use Rattle.ram_disc.specs.Disc.{IsDisc};
ghost use Rattle.byte_streams.specs.Sinks.{FailsBySink, GathersFor};
ghost use Rattle.kernel_model.specs.KernelRecord.Kernel.{Kernel};
ghost use Rattle.kernel_model.specs.KernelRecord.ValidKernel.{IsValid};
ghost use Rattle.kernel_machine.specs.RunningMachine.RepresentedKernels.{RepresentsKernel};
ghost use Rattle.tripos_machine.specs.State.{IsBare, IsSound};
ghost use Rattle.saved_machine.specs.ImagePrint.Numbers.{HasWordsAndBytes, IsSized, MayTake};
ghost use Rattle.saved_machine.specs.ImagePrint.SavedImage.{saved_image, saved_kernel};
ghost use Rattle.saved_machine.specs.ImagePrint.Private.Texts.{disc_text, entries_text, front_text};

use crate::image_print::files::print_files;
use crate::image_print::heads::{print_bare_head, print_kernel_head};
use crate::image_print::keys::print_coming_keys;
use crate::image_print::numbers::know_numbers;
use crate::image_print::pipes::print_pipes;
use crate::image_print::residents::print_residents;
use crate::image_print::streams::print_streams;
use crate::image_print::words::print_end;
use byte_streams::{Output, Sink, SinkFault};
use kernel_lists::{RootField, root};
use kernel_machine::Parts as KernelParts;
use ram_disc::Disc;
use tripos_machine::Machine;

/// Adds the text of a machine that is to take `go` more steps to what is pending. A machine without a kernel has the version
/// that is told; one with a kernel knows its own. It takes no memory. `SinkFault` comes only where the sink's count of faults
/// rose; then a prefix of what was pending, and of the text after it, has gone to the sink.
#[tactic(auto, using(crate::proofs::ImagePrint::LawfulImages::saved_lawful))]
pub fn print_image<K: Sink>(
    machine: &Machine,
    version: u32,
    go: u64,
    out: &mut K,
    pending: &mut Output,
) -> Result<(), SinkFault>
    ensures text { GathersFor K.Sink out.old out.new pending.old pending.new
        (canonical (saved_image version machine.now.state go)) result }
    ensures cause { FailsBySink K.Sink out.old out.new result }

    // The machine is one between steps, its words are words, and its bytes bytes.
    ensures sound { IsSound machine.now.state }
    ensures numbers { HasWordsAndBytes machine.now.state }

    // What is printed can be read, where the machine may take the steps, and its store is one that the version may have.
    ensures lawful { IsSized version machine.now.state → MayTake machine.now.state go
        → IsLawful (saved_image version machine.now.state go) }
{
    know_numbers(machine);
    match machine.kernel_parts() {
        Some(parts) => print_kernel(parts, go, out, pending),
        None => print_bare(machine, version, go, out, pending),
    }
}

// A machine without a kernel.
fn print_bare<K: Sink>(
    machine: &Machine,
    version: u32,
    go: u64,
    out: &mut K,
    pending: &mut Output,
) -> Result<(), SinkFault>
    requires { IsBare machine.now.state }
    ensures text { GathersFor K.Sink out.old out.new pending.old pending.new
        (canonical (saved_image version machine.now.state go)) result }
    ensures cause { FailsBySink K.Sink out.old out.new result }
{
    let store = machine.store();
    let (step, regs) = (machine.steps(), machine.regs());
    print_bare_head(version, store.size(), step, &regs, out, pending)?;
    print_end(store, go, out, pending)
}

// A machine with a kernel.
fn print_kernel<K: Sink>(
    parts: &KernelParts,
    go: u64,
    out: &mut K,
    pending: &mut Output,
) -> Result<(), SinkFault>
    requires { (k : Kernel) × RepresentsKernel parts.now k × IsValid k }
    ensures text { (k : Kernel) → RepresentsKernel parts.now k → IsValid k
        → GathersFor K.Sink out.old out.new pending.old pending.new
        (canonical (saved_kernel k go)) result }
    ensures cause { FailsBySink K.Sink out.old out.new result }
{
    print_front(parts, out, pending)?;
    print_entries(parts, out, pending)?;
    print_end(&parts.store, go, out, pending)
}

// The lines before the files.
fn print_front<K: Sink>(
    parts: &KernelParts,
    out: &mut K,
    pending: &mut Output,
) -> Result<(), SinkFault>
    requires { (k : Kernel) × RepresentsKernel parts.now k × IsValid k }
    ensures text { (k : Kernel) → RepresentsKernel parts.now k → IsValid k
        → GathersFor K.Sink out.old out.new pending.old pending.new
        (front_text k) result }
    ensures cause { FailsBySink K.Sink out.old out.new result }
{
    let store = &parts.store;
    let version = root(store, RootField::Version);
    print_kernel_head(
        version,
        store.size(),
        parts.period,
        parts.step,
        &parts.regs,
        out,
        pending,
    )?;
    print_residents(parts, out, pending)
}

// The files, the streams, the pipes and the keys.
fn print_entries<K: Sink>(
    parts: &KernelParts,
    out: &mut K,
    pending: &mut Output,
) -> Result<(), SinkFault>
    requires { (k : Kernel) × RepresentsKernel parts.now k × IsValid k }
    ensures text { (k : Kernel) → RepresentsKernel parts.now k → IsValid k
        → GathersFor K.Sink out.old out.new pending.old pending.new
        (entries_text k) result }
    ensures cause { FailsBySink K.Sink out.old out.new result }
{
    print_disc(&parts.disc, out, pending)?;
    print_pipes(&parts.pipes, out, pending)?;
    print_coming_keys(parts, out, pending)
}

// The files and the streams.
fn print_disc<K: Sink>(disc: &Disc, out: &mut K, pending: &mut Output) -> Result<(), SinkFault>
    requires { IsDisc disc.now }
    ensures text { GathersFor K.Sink out.old out.new pending.old pending.new
        (disc_text disc.now) result }
    ensures cause { FailsBySink K.Sink out.old out.new result }
{
    print_files(disc, out, pending)?;
    print_streams(disc, out, pending)
}
