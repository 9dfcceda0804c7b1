// The answer of a tool to a text.
ghost use Rattle.std.specs.Prelude.{◌<◌, ◌^◌, length, IfOk};
ghost use Rattle.program_answers.specs.Answered.{Answered};
ghost use Rattle.program_answers.specs.Cause.{HasFaultCause};
ghost use Rattle.program_answers.specs.Input.{IsTextEnd};
ghost use Rattle.tool_texts.specs.Told.{told_of};
ghost use Rattle.tools_run.specs.ToolAnswers.{IsToolAnswer, Tells};

use crate::commands::{Asked, Tool};
use assembly_errors::assembly_errors;
use assembly_notes::assembly_notes;
use assembly_places::assembly_places;
use byte_streams::Sink;
use friendly_assembly::friendly_text;
use lab_marks::marks_text;
use module_code::{global_needs, module_assembly};
use program_answers::{Status, TextAnswers};
use run_partings::run_partings;
use run_pictures::run_picture;
use session_making::make_session;
use std::alloc::{AllocError, Global};
use told_answers::write_told;
use tool_texts::ToolText;

impl TextAnswers for Asked<'_> {
    ghost is_answer = { IsToolAnswer };

    fn answer<K: Sink>(&self, alloc: Global, text: &[u8], out: &mut K) -> Status {
        answer_text(alloc, self, text, out)
    }
}

// A tool gives its answer to a text.
fn answer_text<K: Sink>(alloc: Global, asked: &Asked, text: &[u8], out: &mut K) -> Status
    requires { length text.now < 2 ^ 30 }
    ensures answer { Answered (IsToolAnswer asked.now text.now) (K.holds out.old) (K.holds out.new) result }
    ensures ends { IsTextEnd result }
    ensures cause { HasFaultCause Status.WriteFault (K.faults out.old) (K.faults out.new) result }
{
    match tell(alloc, asked.tool, asked.name.bytes(), text) {
        Ok(told) => write_told(&told, out),
        Err(AllocError) => Status::WantMemory,
    }
}

// What the tool gives of a text with this name, which its definition says, where it has one.
fn tell(alloc: Global, tool: Tool, name: &[u8], text: &[u8]) -> Result<ToolText, AllocError>
    requires { length text.now < 2 ^ 30 }
    ensures { IfOk result (λ t. Tells tool name.now text.now (told_of t)) }
{
    match tool {
        Tool::Asm => friendly_text(alloc, name, text),
        Tool::AsmErrors => assembly_errors(alloc, name, text),
        Tool::AsmNotes => assembly_notes(alloc, name, text),
        Tool::AsmPlaces => assembly_places(alloc, name, text),
        Tool::Session => make_session(alloc, text),
        Tool::Picture => run_picture(alloc, text),
        Tool::Marks => marks_text(alloc, text),
        Tool::Unasm => module_assembly(alloc, text),
        Tool::Needs => global_needs(alloc, text),
        Tool::Partings => run_partings(alloc, text),
    }
}
