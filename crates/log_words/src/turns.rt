// A step in words: what the task did, with its call and its fault; the tick, and what the clock sends back; the key, and what the keyboard
// and the output send back; and who goes on.
use crate::events::Event;
use crate::kinds::Kind;
use crate::packets::{Accepted, words_of};
use crate::step_lines::push_written;
use crate::step_texts::{Moment, PacketWords, StepLists, StepText, Written, fault_of};
use crate::tellers::Teller;
use kernel_lists::FIRST_GUEST;
use module_text::after_word;
use run_names::{Party, push_party};
use std::alloc::AllocError;
use tool_texts::Said::{Bytes, Number};
use tool_texts::push_sentence;
use word_store::Store;

/// Where the events of a step begin that say who goes on.
#[derive(Clone, Copy)]
struct TurnEnd {
    /// How many events come before them.
    before: usize,
    /// Whether the task of the step itself goes on, with a packet for which it has waited.
    is_given: bool,
}

/// The packets of a step's events that are still to be told.
#[derive(Drop)]
struct Packets<'s> {
    /// Those that the log tells.
    told: &'s [PacketWords],
}

impl Packets<'_> {
    // The words of the next packet: those that the log tells, or those of the store.
    fn next(&mut self, store: &Store, packet: u32) -> PacketWords {
        match self.told.split_first() {
            Some((first, others)) => {
                self.told = others;
                *first
            }
            None => words_of(store, packet),
        }
    }
}

impl Teller<'_> {
    /// Tells a step, after which the store is this one.
    pub fn tell_step(
        &mut self,
        step: &StepText,
        lists: &StepLists,
        store: &Store,
    ) -> Result<(), AllocError> {
        if let Some(done) = step.done {
            self.tasks.note_done(step.moment.task, done)?;
        }
        let end = turn_end(step.moment.task, lists.events.as_slice());
        self.tell_own(step, lists, end, store)?;
        self.tell_events(step, lists, end, store)?;
        self.tell_stop(step, store)
    }

    // What the task does: its instruction, what that writes, and its call.
    fn tell_own(
        &mut self,
        step: &StepText,
        lists: &StepLists,
        end: TurnEnd,
        store: &Store,
    ) -> Result<(), AllocError> {
        if step.dies {
            self.tell_death(step.moment, store)?;
        } else if let Some(instruction) = step.instruction {
            self.push_line(Kind::Step, step.moment, &[], instruction)?;
        }
        self.tell_writes(step.moment, lists.own_writes.as_slice())?;
        match step.call {
            Some(call) => self.tell_call(step, call, end.is_given, store),
            None => Ok(()),
        }
    }

    // The events, and what happens between them.
    fn tell_events(
        &mut self,
        step: &StepText,
        lists: &StepLists,
        end: TurnEnd,
        store: &Store,
    ) -> Result<(), AllocError> {
        let moment = step.moment;
        let mut packets = Packets {
            told: lists.packets.as_slice(),
        };
        let (events, last) = split_events(lists.events.as_slice(), end.before);
        let (first, devices) = before_devices(events);
        self.tell_all(moment, first, &mut packets, store)?;
        if let Some(fault) = step.fault {
            self.tell_fault(moment, fault, b"the task is held", store)?;
        }
        let is_late = matches!(devices.first(), Some(event) if event.is_taken_by_output());
        if !is_late {
            self.tell_console(step)?;
        }
        self.tell_tick(step)?;
        let (clock, others) = clock_first(devices);
        self.tell_all(moment, clock, &mut packets, store)?;
        self.tell_key(step)?;
        self.tell_all(moment, others, &mut packets, store)?;
        if is_late {
            self.tell_console(step)?;
        }
        self.tell_writes(moment, lists.other_writes.as_slice())?;
        self.tell_all(moment, last, &mut packets, store)
    }

    // Words that are written.
    fn tell_writes(&mut self, moment: Moment, writes: &[Written]) -> Result<(), AllocError> {
        if !self.wants(Kind::Write, moment, &[]) {
            return Ok(());
        }
        for written in writes {
            let mut words = Vec::new(self.alloc);
            push_written(&mut words, *written)?;
            self.push_line(Kind::Write, moment, &[], words.as_slice())?;
        }
        Ok(())
    }

    // What is written to the console.
    fn tell_console(&mut self, step: &StepText) -> Result<(), AllocError> {
        match step.console {
            Some(console) => self.push_line(Kind::Console, step.moment, &[], console),
            None => Ok(()),
        }
    }

    // The tick of the clock.
    fn tell_tick(&mut self, step: &StepText) -> Result<(), AllocError> {
        if !step.has_tick || !self.wants(Kind::Tick, step.moment, &[]) {
            return Ok(());
        }
        let mut words = Vec::new(self.alloc);
        push_sentence(&mut words, &[Bytes(b"tick "), Number(step.moment.tick)])?;
        self.push_line(Kind::Tick, step.moment, &[], words.as_slice())
    }

    // Events, one after the other.
    fn tell_all(
        &mut self,
        moment: Moment,
        events: &[Event],
        packets: &mut Packets,
        store: &Store,
    ) -> Result<(), AllocError> {
        for event in events {
            self.tell_event(moment, *event, packets, store)?;
        }
        Ok(())
    }

    // An event. That a device takes a packet is not told.
    fn tell_event(
        &mut self,
        moment: Moment,
        event: Event,
        packets: &mut Packets,
        store: &Store,
    ) -> Result<(), AllocError> {
        match event {
            Event::Accepted { to, packet, from } => {
                let told = packets.next(store, packet);
                self.tell_accepted(moment, Accepted { packet, from, to }, told)
            }
            Event::Taken {
                by: Party::Task(task),
                packet,
                from,
            } => self.tell_taken(moment, task, packet, from),
            Event::Taken { .. } => Ok(()),
            Event::Dequeued { from, packet } => {
                self.out.forget(packet);
                self.tell_dequeued(moment, packet, from)
            }
            Event::Runs { task } => self.tell_runs(moment, task, store),
        }
    }

    // A task takes a packet.
    fn tell_taken(
        &mut self,
        moment: Moment,
        task: u32,
        packet: u32,
        from: Party,
    ) -> Result<(), AllocError> {
        let by = Party::Task(task);
        if !self.wants(Kind::Take, moment, &[by, from]) {
            return Ok(());
        }
        let mut words = Vec::new(self.alloc);
        push_party(&mut words, by)?;
        push_sentence(
            &mut words,
            &[
                Bytes(b" takes packet "),
                Number(u64::from(packet)),
                Bytes(b" of "),
            ],
        )?;
        push_party(&mut words, from)?;
        self.push_line(Kind::Take, moment, &[by, from], words.as_slice())
    }

    // A packet is taken back.
    fn tell_dequeued(
        &mut self,
        moment: Moment,
        packet: u32,
        from: Party,
    ) -> Result<(), AllocError> {
        if !self.wants(Kind::Dequeue, moment, &[from]) {
            return Ok(());
        }
        let mut words = Vec::new(self.alloc);
        push_sentence(
            &mut words,
            &[
                Bytes(b"packet "),
                Number(u64::from(packet)),
                Bytes(b" is taken back from "),
            ],
        )?;
        push_party(&mut words, from)?;
        self.push_line(Kind::Dequeue, moment, &[from], words.as_slice())
    }

    // A task goes on, or nobody does.
    fn tell_runs(&mut self, moment: Moment, task: u32, store: &Store) -> Result<(), AllocError> {
        self.find_program(store, task)?;
        let about = Party::Task(task);
        if !self.wants(Kind::Run, moment, &[about]) {
            return Ok(());
        }
        let mut words = Vec::new(self.alloc);
        self.push_runs(&mut words, task)?;
        self.push_line(Kind::Run, moment, &[about], words.as_slice())
    }

    // Who goes on, with the programs.
    fn push_runs(&self, words: &mut Vec<u8>, id: u32) -> Result<(), AllocError> {
        if id == 0 {
            return push_sentence(words, &[Bytes(b"nobody runs")]);
        }
        push_party(words, Party::Task(id))?;
        match self.tasks.task(id) {
            Some(task) if !task.program.is_empty() => {
                let program = task.program.as_slice();
                push_sentence(words, &[Bytes(b" ("), Bytes(program), Bytes(b") runs")])
            }
            _ => push_sentence(words, &[Bytes(b" runs")]),
        }
    }

    // Why the machine stops, in the step in which it does.
    fn tell_stop(&mut self, step: &StepText, store: &Store) -> Result<(), AllocError> {
        let Some(stop) = step.stop else {
            return Ok(());
        };
        if stop == b"steps".as_slice() {
            return Ok(());
        }
        if let Some(fault) = after_word(b"fault ", stop).and_then(fault_of) {
            self.tell_fault(step.moment, fault, b"the machine stops", store)?;
        }
        if !self.wants(Kind::End, step.moment, &[]) {
            return Ok(());
        }
        push_sentence(
            &mut self.text,
            &[
                Bytes(b"the machine stopped after "),
                Number(step.moment.step),
                Bytes(b" steps: "),
                Bytes(stop),
                Bytes(b"\n"),
            ],
        )
    }
}

// Where the events begin that say who goes on: the last, and the one before it where the task that goes on has waited for that packet. A
// resident begins its turn with its packet.
fn turn_end(task: u32, events: &[Event]) -> TurnEnd {
    let Some((Event::Runs { task: next }, others)) = events.split_last() else {
        return TurnEnd {
            before: events.len(),
            is_given: false,
        };
    };
    let is_own = *next == task;
    if is_own && task < FIRST_GUEST || !is_taken_by(others.last(), *next) {
        return TurnEnd {
            before: others.len(),
            is_given: false,
        };
    }
    TurnEnd {
        before: others.len().saturating_sub(1),
        is_given: is_own,
    }
}

// Whether an event is that a task takes a packet.
fn is_taken_by(event: Option<&Event>, id: u32) -> bool {
    match event {
        Some(
            Event::Taken {
                by: Party::Task(task),
                ..
            },
        ) => *task == id,
        _ => false,
    }
}

// So many events, and the others.
fn split_events(events: &[Event], count: usize) -> (&[Event], &[Event]) {
    events.split_at(count.min(events.len()))
}

// The events before the first that a device takes, and the others.
fn before_devices(events: &[Event]) -> (&[Event], &[Event]) {
    match events.iter().position(|event| event.is_taken_by_device()) {
        Some(count) => split_events(events, count),
        None => (events, &[]),
    }
}

// The events of the clock with which these begin, and the others.
fn clock_first(events: &[Event]) -> (&[Event], &[Event]) {
    match events.iter().position(|event| !event.is_of_clock()) {
        Some(count) => split_events(events, count),
        None => (events, &[]),
    }
}
