// How large the numbers of a machine are: its words are words, and its bytes bytes. The functions do nothing but tell it.
ghost use Rattle.std.specs.Prelude.{◌-◌, ◌<◌, ◌^◌, ℕ, slice_get, slice_index};
ghost use Rattle.std.specs.List.{AllByRecursion};
ghost use Rattle.std.specs.Option.{option_to_list};
ghost use Rattle.hex.specs.Hex.{IsBytes};
ghost use Rattle.ram_disc.specs.Disc.{IsDisc, file_named};
ghost use Rattle.kernel_model.specs.KernelRecord.Kernel.{Kernel};
ghost use Rattle.kernel_model.specs.KernelRecord.Pipes.{ArePipes};
ghost use Rattle.kernel_model.specs.KernelRecord.ValidKernel.{IsValid};
ghost use Rattle.kernel_machine.specs.RunningMachine.RepresentedKernels.{RepresentsKernel};
ghost use Rattle.resident_tasks.specs.PipeHandler.PipeCalls.{pipe_numbered};
ghost use Rattle.saved_machine.specs.ImagePrint.Numbers.{AreWords, HasWordsAndBytes, HoldsBytes, KeepsBytes};

use crate::image_print::pipes::held_by;
use crate::image_print::words::all_words;
use arrayvec::ArrayVec;
use kernel_machine::Parts as KernelParts;
use kernel_model::numbers::END_OF_PIPES;
use module_text::TextBytes;
use ram_disc::{Disc, END_OF_FILES, Name};
use resident_tasks::Pipes;
use tripos_machine::Machine;
use word_store::Regs;

/// Tells that the words of a machine are words, and its bytes bytes.
pub(crate) fn know_numbers(machine: &Machine)
    ensures { HasWordsAndBytes machine.now.state }
{
    know_words(all_words(machine.store()));
    know_regs(machine.regs());
    if let Some(parts) = machine.kernel_parts() {
        know_parts(parts);
    }
}

// What a kernel keeps outside the store are bytes.
fn know_parts(parts: &KernelParts)
    requires { (k : Kernel) × RepresentsKernel parts.now k × IsValid k }
    ensures { (k : Kernel) → RepresentsKernel parts.now k → IsValid k → KeepsBytes k }
{
    know_bytes(parts.tty.bytes().as_slice());
    know_bytes(parts.console.line());
    know_bytes(parts.shell.line());
    know_files(&parts.disc);
    know_pipes(&parts.pipes);
    know_keys(parts.keys.rest());
}

// ---- words, registers, bytes, keys

fn know_words(words: &[u32])
    ensures { (a : ℕ) → slice_index words.now a < 2 ^ 32 }
{}

fn know_regs(regs: Regs)
    ensures { AreWords regs }
{}

fn know_bytes(bytes: &[u8])
    ensures { IsBytes bytes.now }
{}

fn know_keys(keys: &[(u32, u8)])
    ensures { AllByRecursion (λ key. key.1 < 256) keys.now }
{
    for key in keys {
        know_value(key.1);
    }
}

fn know_value(byte: u8)
    ensures { byte < 256 }
{}

// ---- files

fn know_files(disc: &Disc)
    requires { IsDisc disc.now }
    ensures { AllByRecursion (λ f. IsBytes f.bytes) disc.now.files }
{
    for k in 1..END_OF_FILES {
        know_nth_file(disc, k);
    }
}

fn know_nth_file(disc: &Disc, k: u32)
    requires valid { IsDisc disc.now }
    requires from_one { 0 < k }
    ensures { AllByRecursion (λ f. IsBytes f.bytes)
        (option_to_list (slice_get disc.now.files (k - 1))) }
{
    let Some((name, _size)) = disc.nth(k) else {
        return;
    };
    know_named_file(disc, &name);
}

fn know_named_file(disc: &Disc, name: &Name)
    ensures { AllByRecursion (λ f. IsBytes f.bytes)
        (option_to_list (file_named disc.now name.now)) }
{
    let mut sectors = ArrayVec::new();
    let Some(bytes) = disc.file(name, &mut sectors) else {
        return;
    };
    know_text(&bytes);
}

fn know_text<X: TextBytes>(text: &X)
    ensures { IsBytes (X.text text.now) }
{
    for i in 0..text.len() {
        know_byte(text, i);
    }
}

fn know_byte<X: TextBytes>(text: &X, i: u32)
    ensures { slice_index (X.text text.now) i < 256 }
{
    if let Some(byte) = text.at(i) {
        know_value(byte);
    }
}

// ---- pipes

fn know_pipes(pipes: &Pipes)
    requires { ArePipes pipes.now }
    ensures { AllByRecursion HoldsBytes pipes.now }
{
    for k in 1..END_OF_PIPES {
        know_pipe(pipes, k);
    }
}

fn know_pipe(pipes: &Pipes, k: u32)
    requires { ArePipes pipes.now }
    ensures { HoldsBytes (pipe_numbered pipes.now k) }
{
    let held = held_by(pipes, k);
    know_bytes(held.as_slice());
}
