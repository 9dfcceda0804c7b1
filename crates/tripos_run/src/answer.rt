// The answer to a text that was read.
ghost use Rattle.std.specs.Prelude.{◌<◌, ◌^◌, length};
ghost use Rattle.module_text.specs.ModuleOfText.{module_of};
ghost use Rattle.assembly.specs.AssemblyText.Assembly.{assembled};
ghost use Rattle.program_answers.specs.Answer.{Answers};
ghost use Rattle.program_answers.specs.Answered.{Answered};
ghost use Rattle.program_answers.specs.Cause.{HasFaultCause};
ghost use Rattle.program_answers.specs.Input.{IsTextEnd};
ghost use Rattle.tripos_run.specs.Answer.{listed, made_answer};
ghost use Rattle.tripos_run.specs.InputAnswers.{IsTextAnswer};

use crate::commands::Command;
use crate::debugging::answer_debugging;
use crate::reports::Report;
use crate::resuming::answer_resuming;
use crate::rings::answer_ring;
use crate::saving::answer_saving;
use crate::session::answer_session_text;
use assembly::{assemble, disassemble_module};
use byte_streams::{Sink, write_text};
use module_text::{TextEnd, read_module};
use program_answers::{Status, TextAnswers, status_after, write_refused};
use std::alloc::Global;

impl TextAnswers for Command {
    ghost is_answer = { IsTextAnswer };

    fn answer<K: Sink>(&self, alloc: Global, text: &[u8], out: &mut K) -> Status {
        answer_text(alloc, *self, text, out)
    }
}

// Answers a text.
fn answer_text<K: Sink>(alloc: Global, command: Command, text: &[u8], out: &mut K) -> Status
    requires { length text.now < 2 ^ 30 }
    ensures answer { Answered (IsTextAnswer command text.now)
        (K.holds out.old) (K.holds out.new) result }
    ensures ends { IsTextEnd result }
    ensures cause { HasFaultCause Status.WriteFault (K.faults out.old) (K.faults out.new) result }
{
    match command {
        Command::Run => answer_session_text(alloc, Report::Console, text, out),
        Command::Dump => answer_session_text(alloc, Report::Words, text, out),
        Command::Trace => answer_session_text(alloc, Report::Events, text, out),
        Command::Asm => answer_assembly(alloc, text, out),
        Command::Disasm => answer_module(alloc, text, out),
        Command::Debug => answer_debugging(alloc, text, out),
        Command::Save => answer_saving(alloc, text, out),
        Command::Resume => answer_resuming(alloc, text, out),
        Command::Ring => answer_ring(alloc, text, out),
    }
}

// Writes the module of an assembly text.
fn answer_assembly<K: Sink>(alloc: Global, text: &[u8], out: &mut K) -> Status
    requires { length text.now < 2 ^ 32 }
    ensures answer { Answers (made_answer (assembled text.now))
        (K.holds out.old) (K.holds out.new) result }
    ensures ends { IsTextEnd result }
    ensures cause { HasFaultCause Status.WriteFault (K.faults out.old) (K.faults out.new) result }
{
    match assemble(alloc, text) {
        Ok(module) => status_after(write_text(out, &module), Status::Done),
        Err(TextEnd::Bad { line, code }) => status_after(
            write_refused(out, line, code),
            Status::Refused,
        ),
        Err(TextEnd::WantMemory) => Status::WantMemory,
    }
}

// Lists a module.
fn answer_module<K: Sink>(alloc: Global, text: &[u8], out: &mut K) -> Status
    requires { length text.now < 2 ^ 30 }
    ensures answer { Answers (made_answer (listed (module_of text.now)))
        (K.holds out.old) (K.holds out.new) result }
    ensures ends { IsTextEnd result }
    ensures cause { HasFaultCause Status.WriteFault (K.faults out.old) (K.faults out.new) result }
{
    match read_module(alloc, text) {
        Ok(module) => status_after(disassemble_module(&module, out), Status::Done),
        Err(TextEnd::Bad { line, code }) => status_after(
            write_refused(out, line, code),
            Status::Refused,
        ),
        Err(TextEnd::WantMemory) => Status::WantMemory,
    }
}
