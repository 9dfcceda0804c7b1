// What the lines of one step say.
use crate::bytes::{signed_number, split_at_blank, split_at_text};
use crate::events::Event;
use module_text::{after_word, number, split_line};
use session_text::number_field;
use std::alloc::{AllocError, Global};

/// When and where a step is taken.
#[derive(Clone, Copy)]
pub struct Moment {
    /// Its number.
    pub step: u64,
    /// The tick: after a tick of the step, that one.
    pub tick: u64,
    /// The number of the task that runs, 0 where nobody does.
    pub task: u32,
    /// The byte address of the instruction.
    pub pc: u32,
}

/// A word that is written.
#[derive(Clone, Copy)]
pub struct Written {
    /// Its address.
    pub address: u64,
    /// What it was.
    pub old: i64,
    /// What it is.
    pub new: i64,
}

/// The words of a packet that say what it asks for, or how it was answered.
#[derive(Clone, Copy)]
pub struct PacketWords {
    /// Its type.
    pub kind: i64,
    /// Its first result.
    pub first_result: i64,
    /// Its second result.
    pub second_result: i64,
    /// Its first argument.
    pub argument: i64,
}

/// A fault.
#[derive(Clone, Copy)]
pub struct Fault {
    /// Its code.
    pub code: u32,
    /// The address that it names.
    pub address: u32,
}

/// What is said once of a step. The texts are lent by its lines.
#[derive(Clone, Copy)]
pub struct StepText<'t> {
    /// When and where it is taken.
    pub moment: Moment,
    /// The instruction, without its address.
    pub instruction: Option<&'t [u8]>,
    /// The address and the text of the instruction, where it is in the store.
    pub done: Option<&'t [u8]>,
    /// Whether PC is 0.
    pub dies: bool,
    /// The call.
    pub call: Option<&'t [u8]>,
    /// What the call answers: registers A and B.
    pub answer: Option<(i64, i64)>,
    /// Why the call is refused.
    pub refusal: Option<&'t [u8]>,
    /// The fault of the task.
    pub fault: Option<Fault>,
    /// What is written to the console, between quotes.
    pub console: Option<&'t [u8]>,
    /// Whether the clock ticks.
    pub has_tick: bool,
    /// The key that comes in.
    pub key: Option<u8>,
    /// Why the machine stops.
    pub stop: Option<&'t [u8]>,
}

/// What is said of a step any number of times. It is used again for each step.
#[derive(Drop)]
pub struct StepLists {
    /// The events.
    pub events: Vec<Event>,
    /// The packets of the first events that accept one, in their order.
    pub packets: Vec<PacketWords>,
    /// The words that the instruction writes.
    pub own_writes: Vec<Written>,
    /// The other words that change.
    pub other_writes: Vec<Written>,
}

impl StepLists {
    /// Nothing was said.
    pub fn new(alloc: Global) -> StepLists {
        StepLists {
            events: Vec::new(alloc),
            packets: Vec::new(alloc),
            own_writes: Vec::new(alloc),
            other_writes: Vec::new(alloc),
        }
    }

    // Forgets what was said.
    fn clear(&mut self) {
        self.events.clear();
        self.packets.clear();
        self.own_writes.clear();
        self.other_writes.clear();
    }
}

/// Reads the lines of one step; `None` where there is none.
pub fn read_step<'t>(
    text: &'t [u8],
    lists: &mut StepLists,
) -> Result<Option<StepText<'t>>, AllocError> {
    lists.clear();
    let mut step = None;
    let mut rest = text;
    while let Some((line, others)) = split_line(rest) {
        step = with_line(step, line, lists)?;
        rest = others;
    }
    Ok(step)
}

// The step with one line more.
fn with_line<'t>(
    step: Option<StepText<'t>>,
    line: &'t [u8],
    lists: &mut StepLists,
) -> Result<Option<StepText<'t>>, AllocError> {
    let Some((moment, rest)) = moment_of(line) else {
        return Ok(step);
    };
    let step = step.unwrap_or(nothing_at(moment));
    Ok(Some(with_words(step, rest, lists)?))
}

// The moment with which a line begins, and what comes after it.
fn moment_of(line: &[u8]) -> Option<(Moment, &[u8])> {
    let (step, rest) = number_field(line)?;
    let (tick, rest) = number_field(rest)?;
    let (task, rest) = number_field(rest)?;
    let (pc, rest) = number_field(rest)?;
    let moment = Moment {
        step,
        tick,
        task: u32::try_from(task).ok()?,
        pc: u32::try_from(pc).ok()?,
    };
    Some((moment, rest))
}

// A step of which nothing is said yet.
fn nothing_at<'t>(moment: Moment) -> StepText<'t> {
    StepText {
        moment,
        instruction: None,
        done: None,
        dies: false,
        call: None,
        answer: None,
        refusal: None,
        fault: None,
        console: None,
        has_tick: false,
        key: None,
        stop: None,
    }
}

// The step with what one line says after its moment.
fn with_words<'t>(
    step: StepText<'t>,
    words: &'t [u8],
    lists: &mut StepLists,
) -> Result<StepText<'t>, AllocError> {
    let Some((kind, rest)) = split_at_blank(words) else {
        return Ok(step);
    };
    if kind == b"step".as_slice() {
        return Ok(with_instruction(step, rest));
    }
    if kind == b"write".as_slice() {
        push_written(&step, rest, lists)?;
        return Ok(step);
    }
    if kind == b"packet".as_slice() {
        if let Some(packet) = packet_words(rest) {
            lists.packets.push(packet)?;
        }
        return Ok(step);
    }
    if let Some(event) = Event::read(words) {
        lists.events.push(event)?;
        return Ok(step);
    }
    Ok(with_fact(step, kind, rest))
}

// The step with its instruction.
fn with_instruction<'t>(step: StepText<'t>, rest: &'t [u8]) -> StepText<'t> {
    let mut step = step;
    match number_field(rest) {
        Some((_, instruction)) => {
            step.done = Some(rest);
            step.instruction = Some(instruction);
        }
        None => step.instruction = Some(rest),
    }
    step
}

// A word that is written: by the instruction, before a call and all events.
fn push_written(step: &StepText, rest: &[u8], lists: &mut StepLists) -> Result<(), AllocError> {
    let Some(written) = written_of(rest) else {
        return Ok(());
    };
    if step.call.is_none() && lists.events.is_empty() {
        lists.own_writes.push(written)?;
    } else {
        lists.other_writes.push(written)?;
    }
    Ok(())
}

// An address, and a word before and after.
fn written_of(text: &[u8]) -> Option<Written> {
    let (address, rest) = number_field(text)?;
    let (old, new) = split_at_text(rest, b" -> ")?;
    Some(Written {
        address,
        old: signed_number(old)?,
        new: signed_number(new)?,
    })
}

// The words of a packet, after its address.
fn packet_words(text: &[u8]) -> Option<PacketWords> {
    let (_, rest) = split_at_text(text, b" type ")?;
    let (kind, rest) = split_at_text(rest, b", results ")?;
    let (first, rest) = split_at_text(rest, b" and ")?;
    let (second, argument) = split_at_text(rest, b", argument ")?;
    Some(PacketWords {
        kind: signed_number(kind)?,
        first_result: signed_number(first)?,
        second_result: signed_number(second)?,
        argument: signed_number(argument)?,
    })
}

// The step with something that is said once.
fn with_fact<'t>(step: StepText<'t>, kind: &[u8], rest: &'t [u8]) -> StepText<'t> {
    let mut step = step;
    if kind == b"die".as_slice() {
        step.dies = true;
    } else if kind == b"call".as_slice() {
        step.call = Some(rest);
    } else if kind == b"answer".as_slice() {
        step.answer = answer_of(rest);
    } else if kind == b"refused".as_slice() {
        step.refusal = Some(rest);
    } else if kind == b"fault".as_slice() {
        step.fault = fault_of(rest);
    } else if kind == b"console".as_slice() {
        step.console = Some(rest);
    } else if kind == b"tick".as_slice() {
        step.has_tick = true;
        step.moment.tick = number(rest).unwrap_or(step.moment.tick);
    } else if kind == b"key".as_slice() {
        step.key = byte_of(rest);
    } else if kind == b"stop".as_slice() {
        step.stop = Some(rest);
    }
    step
}

// The registers A and B that a call answers.
fn answer_of(text: &[u8]) -> Option<(i64, i64)> {
    let (first, second) = split_at_text(after_word(b"= ", text)?, b", second ")?;
    Some((signed_number(first)?, signed_number(second)?))
}

/// A fault with its code, and with its address up to the end or a blank; `None` where the text says none.
pub fn fault_of(text: &[u8]) -> Option<Fault> {
    let (code, rest) = number_field(text)?;
    let rest = after_word(b"at ", rest)?;
    let digits = match split_at_blank(rest) {
        Some((digits, _)) => digits,
        None => rest,
    };
    Some(Fault {
        code: u32::try_from(code).ok()?,
        address: u32::try_from(number(digits)?).ok()?,
    })
}

// A byte by its number.
fn byte_of(text: &[u8]) -> Option<u8> {
    u8::try_from(number(text)?).ok()
}
