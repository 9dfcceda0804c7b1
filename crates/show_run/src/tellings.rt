// What is told of a bundle, in words.
ghost use Rattle.std.specs.Prelude.{◌≡◌, ◌<◌, ◌^◌, length, map, string_bytes, IfOk};
ghost use Rattle.program_answers.specs.Answered.{Answered};
ghost use Rattle.program_answers.specs.Cause.{HasFaultCause};
ghost use Rattle.program_answers.specs.Input.{IsTextEnd};
ghost use Rattle.tool_texts.specs.Told.{told_of};
ghost use Rattle.show_run.specs.Tellings.{IsTold, Tells, telling_named, telling_of};

use crate::places::places_text;
use crate::refused_texts::errors_text;
use crate::told_tries::{outcomes_text, variant_text};
use crate::typed_words::debugged_words;
use crate::worded_log::worded_log;
use crate::worded_moment::worded_moment;
use byte_streams::Sink;
use program_answers::{Status, TextAnswers};
use std::alloc::{AllocError, Global};
use told_answers::write_told;
use tool_texts::ToolText;

/// What is told of a bundle.
#[derive(Clone, Copy)]
pub enum Telling {
    /// The lines of addresses in a machine, and the addresses of lines.
    Places,
    /// What the debugger's short words show.
    Words,
    /// What happened in the steps of a run.
    Events,
    /// The state of a machine at a moment, or its lists.
    Moment,
    /// What is wrong in a text that the first program refuses.
    Errors,
    /// What the runs of a session come to with each of many values of one number.
    Outcomes,
    /// A session with another value of one number.
    Variant,
}

/// What the words ask for, or `None` exactly where they are not `places`, `words`, `events`, `moment`, `errors`, `outcomes` or `variant` alone.
pub fn telling_of(words: &[String]) -> Option<Telling>
    ensures { result ≡ telling_of (map string_bytes words.now) }
{
    match words {
        [word] => telling_named(word.as_str()),
        _ => None,
    }
}

fn telling_named(word: &str) -> Option<Telling>
    ensures { result ≡ telling_named word.now }
{
    match word {
        "places" => Some(Telling::Places),
        "words" => Some(Telling::Words),
        "events" => Some(Telling::Events),
        "moment" => Some(Telling::Moment),
        "errors" => Some(Telling::Errors),
        "outcomes" => Some(Telling::Outcomes),
        "variant" => Some(Telling::Variant),
        _ => None,
    }
}

impl TextAnswers for Telling {
    ghost is_answer = { IsTold };

    fn answer<K: Sink>(&self, alloc: Global, text: &[u8], out: &mut K) -> Status {
        answer_text(alloc, *self, text, out)
    }
}

// What is asked for is told of a bundle.
fn answer_text<K: Sink>(alloc: Global, asked: Telling, text: &[u8], out: &mut K) -> Status
    requires { length text.now < 2 ^ 30 }
    ensures answer { Answered (IsTold asked text.now) (K.holds out.old) (K.holds out.new) result }
    ensures ends { IsTextEnd result }
    ensures cause { HasFaultCause Status.WriteFault (K.faults out.old) (K.faults out.new) result }
{
    match tell(alloc, asked, text) {
        Ok(told) => write_told(&told, out),
        Err(AllocError) => Status::WantMemory,
    }
}

// What is told of a bundle, which a definition describes, where it has one.
fn tell(alloc: Global, asked: Telling, text: &[u8]) -> Result<ToolText, AllocError>
    requires { length text.now < 2 ^ 30 }
    ensures { IfOk result (λ t. Tells asked text.now (told_of t)) }
{
    match asked {
        Telling::Places => places_text(alloc, text),
        Telling::Words => debugged_words(alloc, text),
        Telling::Events => worded_log(alloc, text),
        Telling::Moment => worded_moment(alloc, text),
        Telling::Errors => errors_text(alloc, text),
        Telling::Outcomes => outcomes_text(alloc, text),
        Telling::Variant => variant_text(alloc, text),
    }
}
