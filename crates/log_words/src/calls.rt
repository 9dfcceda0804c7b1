// Calls, faults and the end of a task, in words.
use crate::bytes::{push_shown_byte, push_signed, signed_number, split_at_text};
use crate::kinds::Kind;
use crate::packets::low_byte;
use crate::step_texts::{Fault, Moment, StepText};
use crate::tellers::Teller;
use run_names::{fault_meaning, push_what_led_to_0};
use session_text::number_field;
use std::alloc::AllocError;
use tool_texts::Said::{Bytes, Number};
use tool_texts::push_sentence;
use word_store::{Store, signed, word};

impl Teller<'_> {
    /// Tells the call of a step, with its answer; `waits` says whether a `taskwait` is given its packet only now.
    pub fn tell_call(
        &mut self,
        step: &StepText,
        call: &[u8],
        waits: bool,
        store: &Store,
    ) -> Result<(), AllocError> {
        if let Some(refusal) = step.refusal {
            return self.tell_refused(step, call, refusal, store);
        }
        if !self.wants(Kind::Call, step.moment, &[]) {
            return Ok(());
        }
        let mut words = Vec::new(self.alloc);
        push_answered(&mut words, step, call, waits)?;
        self.push_here(&mut words, Kind::Call, step.moment, store)?;
        self.push_line(Kind::Call, step.moment, &[], words.as_slice())
    }

    // A call that is refused.
    fn tell_refused(
        &mut self,
        step: &StepText,
        call: &[u8],
        refusal: &[u8],
        store: &Store,
    ) -> Result<(), AllocError> {
        if !self.wants(Kind::Refused, step.moment, &[]) {
            return Ok(());
        }
        let mut words = Vec::new(self.alloc);
        push_sentence(&mut words, &[Bytes(call)])?;
        self.push_here(&mut words, Kind::Refused, step.moment, store)?;
        push_sentence(&mut words, &[Bytes(b": ")])?;
        push_refusal(&mut words, call, refusal, store)?;
        self.push_line(Kind::Refused, step.moment, &[], words.as_slice())
    }

    /// Tells a fault. The address of some faults is another one than that of the instruction.
    pub fn tell_fault(
        &mut self,
        moment: Moment,
        fault: Fault,
        end: &[u8],
        store: &Store,
    ) -> Result<(), AllocError> {
        if !self.wants(Kind::Fault, moment, &[]) {
            return Ok(());
        }
        let is_here = fault.address == moment.pc;
        let mut words = Vec::new(self.alloc);
        push_sentence(
            &mut words,
            &[
                Bytes(b"code "),
                Number(u64::from(fault.code)),
                Bytes(b" at "),
                Number(u64::from(fault.address)),
            ],
        )?;
        if is_here {
            self.push_here(&mut words, Kind::Fault, moment, store)?;
        }
        push_sentence(
            &mut words,
            &[
                Bytes(b": "),
                Bytes(fault_meaning(fault.code)),
                Bytes(b"; "),
                Bytes(end),
            ],
        )?;
        if !is_here {
            self.push_here(&mut words, Kind::Fault, moment, store)?;
        }
        self.push_line(Kind::Fault, moment, &[], words.as_slice())
    }

    /// Tells that PC is 0. What begins as this task next may be another program.
    pub fn tell_death(&mut self, moment: Moment, store: &Store) -> Result<(), AllocError> {
        if self.wants(Kind::Die, moment, &[]) {
            let mut words = Vec::new(self.alloc);
            push_sentence(&mut words, &[Bytes(b"PC is 0")])?;
            self.push_last_done(&mut words, moment.task, store)?;
            self.push_end(&mut words, moment.task)?;
            self.push_line(Kind::Die, moment, &[], words.as_slice())?;
        }
        if let Some(task) = self.tasks.task_mut(moment.task) {
            task.is_known = false;
        }
        Ok(())
    }

    // How its last instruction led there, where one is known.
    fn push_last_done(
        &self,
        words: &mut Vec<u8>,
        id: u32,
        store: &Store,
    ) -> Result<(), AllocError> {
        let Some(task) = self.tasks.task(id) else {
            return Ok(());
        };
        let Some((address, instruction)) = number_field(task.last_done.as_slice()) else {
            return Ok(());
        };
        let Ok(address) = u32::try_from(address) else {
            return Ok(());
        };
        push_sentence(words, &[Bytes(b": ")])?;
        push_what_led_to_0(
            words,
            self.is_bare,
            address,
            instruction,
            store,
            self.hunks.as_slice(),
        )
    }

    // What comes of it.
    fn push_end(&self, words: &mut Vec<u8>, id: u32) -> Result<(), AllocError> {
        if self.is_bare {
            return push_sentence(words, &[Bytes(b"; the machine stops")]);
        }
        push_sentence(
            words,
            &[Bytes(b"; task "), Number(u64::from(id)), Bytes(b" is dead")],
        )
    }
}

// A call that is not refused, and its answer.
fn push_answered(
    words: &mut Vec<u8>,
    step: &StepText,
    call: &[u8],
    waits: bool,
) -> Result<(), AllocError> {
    let (name, arguments) = parts_of(call);
    push_sentence(words, &[Bytes(call)])?;
    if step.stop.is_some() {
        return push_sentence(words, &[Bytes(b" stops the machine")]);
    }
    if name == b"taskwait".as_slice() && (waits || step.answer.is_none()) {
        return push_sentence(words, &[Bytes(b" waits")]);
    }
    if hands_on(name) {
        return push_sentence(
            words,
            &[Bytes(b" hands "), Bytes(last_of(arguments)), Bytes(b" on")],
        );
    }
    if name == b"wrch".as_slice() {
        push_sentence(words, &[Bytes(b", of \"")])?;
        push_shown_byte(
            words,
            low_byte(signed_number(first_of(arguments)).unwrap_or(0)),
        )?;
        push_sentence(words, &[Bytes(b"\",")])?;
    }
    push_sentence(words, &[Bytes(b" = ")])?;
    let Some((first, second)) = step.answer else {
        return Ok(());
    };
    push_signed(words, first)?;
    if name == b"muldiv".as_slice() {
        push_sentence(words, &[Bytes(b", remainder ")])?;
        push_signed(words, second)?;
    }
    Ok(())
}

// Whether a call of this name hands a value on to another coroutine.
fn hands_on(name: &[u8]) -> bool {
    name == b"callco".as_slice() || name == b"resumeco".as_slice() || name == b"cowait".as_slice()
}

// Why a call is refused. Of a packet with a bad destination that is told too.
fn push_refusal(
    words: &mut Vec<u8>,
    call: &[u8],
    refusal: &[u8],
    store: &Store,
) -> Result<(), AllocError> {
    let Some((code, meaning)) = split_at_text(refusal, b":") else {
        return push_sentence(words, &[Bytes(refusal)]);
    };
    push_sentence(words, &[Bytes(code), Bytes(b","), Bytes(meaning)])?;
    let (name, arguments) = parts_of(call);
    if name != b"qpkt".as_slice() || code != b"code 4".as_slice() {
        return Ok(());
    }
    let destination = signed_number(first_of(arguments))
        .and_then(|packet| u32::try_from(packet.saturating_add(1)).ok())
        .map_or(0, |at| word(store, at));
    push_sentence(words, &[Bytes(b"; its word 1 is ")])?;
    push_signed(words, i64::from(signed(destination)))
}

// The name of a call, and its arguments with commas between them.
fn parts_of(call: &[u8]) -> (&[u8], &[u8]) {
    match split_at_text(call, b"(") {
        Some((name, rest)) => (name, rest.strip_suffix(b")").unwrap_or(rest)),
        None => (call, &[]),
    }
}

// The first of some arguments.
fn first_of(arguments: &[u8]) -> &[u8] {
    match split_at_text(arguments, b", ") {
        Some((first, _)) => first,
        None => arguments,
    }
}

// The last of at most three arguments.
fn last_of(arguments: &[u8]) -> &[u8] {
    let mut last = arguments;
    for _ in 0..2 {
        if let Some((_, rest)) = split_at_text(last, b", ") {
            last = rest;
        }
    }
    last
}
