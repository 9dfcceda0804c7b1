// What happened, as rows and as the states of lanes.

use crate::calls::{Asked, asked_of, begins_to_wait, is_drawn_by_others, without_done};
use crate::lanes::Lanes;
use crate::log_lines::{Event, Kind};
use crate::logs::Log;
use crate::packets::{Move, Taken, move_of, taken_of};
use crate::parties::{Party, REPORTER, leading_party, push_party};
use crate::rows::{Arrow, Change, Drawn, Mark, NewPriority, Row, Saying};
use crate::states::State;
use crate::texts::{contains, split_last, up_to};
use module_text::after_word;
use std::alloc::{AllocError, Global};
use tool_texts::Said::{Bytes, Number};
use tool_texts::push_sentence;

/// The story of a run.
#[derive(Drop)]
pub struct Story {
    /// The lanes.
    pub lanes: Lanes,
    /// The rows, in the order of their steps.
    pub rows: Vec<Row>,
}

/// What is known between two events.
#[derive(Drop)]
struct Telling {
    /// Where memory comes from.
    alloc: Global,
    /// The lanes, in the states of now.
    lanes: Lanes,
    /// The task that runs, if one does.
    running: Option<Party>,
    /// The state that this task gets when it does not go on, where that is known.
    leaving: Option<Change>,
}

/// The story that a log tells.
pub fn story_of(alloc: Global, log: &Log) -> Result<Story, AllocError> {
    let lanes = Lanes::new(alloc, log.tasks.as_slice())?;
    let running = log.tasks.iter().find(|task| task.state == State::Runs);
    let mut telling = Telling {
        alloc,
        lanes,
        running: running.map(|task| Party::Task(task.number)),
        leaving: None,
    };
    let mut rows: Vec<Row> = Vec::new(alloc);
    for event in log.events.iter().filter(|event| event.kind != Kind::Other) {
        if rows.last().is_none_or(|row| row.step != event.step) {
            rows.push(Row::new(alloc, event.step, event.tick))?;
        }
        if let Some(row) = rows.last_mut() {
            telling.tell(row, event)?;
        }
    }
    Ok(Story {
        lanes: telling.lanes,
        rows,
    })
}

impl Telling {
    // Puts an event into its row.
    fn tell(&mut self, row: &mut Row, event: &Event) -> Result<(), AllocError> {
        let words = event.words;
        match event.kind {
            Kind::Send => self.tell_move(row, Arrow::Sent, words),
            Kind::Return => self.tell_move(row, Arrow::Returned, words),
            Kind::Refused => self.tell_refused(row, event),
            Kind::Take => self.tell_take(row, words),
            Kind::Dequeue => self.tell_done(row, event.task, words),
            Kind::Call => self.tell_call(row, event),
            Kind::Console => self.tell_console(row, event),
            Kind::Key => self.tell_key(row, words),
            Kind::Fault => self.tell_fault(row, event),
            Kind::Die => self.tell_death(row, event),
            Kind::Run => self.tell_run(row, words),
            Kind::Other => Ok(()),
        }
    }

    fn draw_arrow(
        &mut self,
        row: &mut Row,
        from: Party,
        to: Party,
        look: Arrow,
    ) -> Result<(), AllocError> {
        self.lanes.touch(self.alloc, from)?;
        self.lanes.touch(self.alloc, to)?;
        if from != to {
            row.drawn.push(Drawn::Arrow { from, to, look })?;
        }
        Ok(())
    }

    fn draw_mark(
        &mut self,
        row: &mut Row,
        on: Option<Party>,
        look: Mark,
    ) -> Result<(), AllocError> {
        if let Some(on) = on {
            self.lanes.touch(self.alloc, on)?;
            row.drawn.push(Drawn::Mark { on, look })?;
        }
        Ok(())
    }

    // A task gets a state. A device has none.
    fn set_state(&mut self, row: &mut Row, party: Party, state: State) -> Result<(), AllocError> {
        if !party.is_task() {
            return Ok(());
        }
        self.lanes.touch(self.alloc, party)?;
        row.changes.push(Change { party, state })?;
        if let Some(lane) = self.lanes.find(party) {
            lane.state = state;
        }
        Ok(())
    }

    // A task is held.
    fn hold(&mut self, row: &mut Row, party: Party) -> Result<(), AllocError> {
        let from = self.lanes.state_of(party).after_hold();
        self.set_state(row, party, State::Held)?;
        self.keep_for_release(party, from);
        Ok(())
    }

    // A task that is held is not held any more.
    fn release(&mut self, row: &mut Row, party: Party) -> Result<(), AllocError> {
        let from = self.lanes.find(party).and_then(|lane| lane.held_from);
        self.set_state(row, party, from.unwrap_or(State::Ready))
    }

    fn keep_for_release(&mut self, party: Party, state: State) {
        if let Some(lane) = self.lanes.find(party) {
            lane.held_from = Some(state);
        }
    }

    // A packet comes to a party: a task that waits is ready then.
    fn wake(&mut self, row: &mut Row, party: Party) -> Result<(), AllocError> {
        match self.lanes.state_of(party) {
            State::Held => self.keep_for_release(party, State::Ready),
            State::Waits | State::Dead => self.set_state(row, party, State::Ready)?,
            State::Ready | State::Runs => {}
        }
        Ok(())
    }

    // A packet comes into a queue. What residents and devices send one another is drawn, and not said.
    fn tell_move(&mut self, row: &mut Row, look: Arrow, words: &[u8]) -> Result<(), AllocError> {
        match move_of(words) {
            Some(Move::Fault(party)) => self.tell_report(row, party),
            Some(
                Move::Packet {
                    packet,
                    from,
                    to,
                    more,
                },
            ) if from != to => {
                self.move_packet(row, look, packet, from, to)?;
                let is_said = from.is_guest() || to.is_guest();
                if is_said && from != Party::Output && to != Party::Output {
                    let before: &[u8] = if look == Arrow::Returned {
                        b" back to "
                    } else {
                        b" to "
                    };
                    let comma: &[u8] = if more.is_empty() { b"" } else { b", " };
                    self.say_move(row, false, packet, before, to, comma, more)?;
                }
                Ok(())
            }
            _ => Ok(()),
        }
    }

    fn move_packet(
        &mut self,
        row: &mut Row,
        look: Arrow,
        packet: u64,
        from: Party,
        to: Party,
    ) -> Result<(), AllocError> {
        self.draw_arrow(row, from, to, look)?;
        row.packets.push(packet)?;
        self.wake(row, to)
    }

    // Says that a packet comes to a party, and what else is said of it.
    fn say_move<'t>(
        &mut self,
        row: &mut Row,
        is_bad: bool,
        packet: u64,
        before: &'t [u8],
        to: Party,
        between: &'t [u8],
        more: &'t [u8],
    ) -> Result<(), AllocError> {
        let mut text = Vec::new(self.alloc);
        push_sentence(&mut text, &[Number(packet), Bytes(before)])?;
        push_party(&mut text, to)?;
        push_sentence(&mut text, &[Bytes(between), Bytes(more)])?;
        row.sayings.push(Saying { text, is_bad })?;
        Ok(())
    }

    // The fault of a task comes to the reporter of faults.
    fn tell_report(&mut self, row: &mut Row, party: Party) -> Result<(), AllocError> {
        let reporter = Party::Task(REPORTER);
        self.draw_arrow(row, party, reporter, Arrow::Sent)?;
        self.set_state(row, party, State::Held)?;
        self.wake(row, reporter)
    }

    // A request comes back refused, or a call is refused.
    fn tell_refused(&mut self, row: &mut Row, event: &Event) -> Result<(), AllocError> {
        match move_of(event.words) {
            Some(
                Move::Packet {
                    packet,
                    from,
                    to,
                    more,
                },
            ) => {
                if from == to {
                    return Ok(());
                }
                self.move_packet(row, Arrow::Returned, packet, from, to)?;
                self.say_move(row, true, packet, b" back to ", to, b": ", more)?;
                self.draw_mark(row, Some(to), Mark::Cross)
            }
            _ => {
                row.say(self.alloc, true, &[Bytes(event.words)])?;
                self.draw_mark(row, event.task, Mark::Cross)
            }
        }
    }

    // A task takes a packet. It is said of a guest, where the packet did not come in the same step.
    fn tell_take(&mut self, row: &mut Row, words: &[u8]) -> Result<(), AllocError> {
        let Some(
            Taken {
                taker,
                packet,
                from,
            },
        ) = taken_of(words)
        else {
            return Ok(());
        };
        if !taker.is_guest() || row.packets.contains(&packet) {
            return Ok(());
        }
        let mut text = Vec::new(self.alloc);
        push_party(&mut text, taker)?;
        push_sentence(
            &mut text,
            &[Bytes(b" takes "), Number(packet), Bytes(b" of ")],
        )?;
        push_party(&mut text, from)?;
        row.sayings.push(Saying {
            text,
            is_bad: false,
        })?;
        self.draw_mark(row, Some(taker), Mark::Dot)
    }

    // Something is done that is said as the log says it.
    fn tell_done(
        &mut self,
        row: &mut Row,
        task: Option<Party>,
        words: &[u8],
    ) -> Result<(), AllocError> {
        row.say(self.alloc, false, &[Bytes(words)])?;
        self.draw_mark(row, task, Mark::Dot)
    }

    // A call.
    fn tell_call(&mut self, row: &mut Row, event: &Event) -> Result<(), AllocError> {
        if begins_to_wait(event.words) {
            self.leave(event.task, State::Waits);
            return Ok(());
        }
        if !is_drawn_by_others(event.words) {
            let (call, place) = without_done(event.words);
            let between: &[u8] = if place.is_empty() { b"" } else { b", in " };
            row.say(
                self.alloc,
                false,
                &[Bytes(call), Bytes(between), Bytes(place)],
            )?;
            self.draw_mark(row, event.task, Mark::Dot)?;
        }
        match asked_of(event.words) {
            Some(Asked::Hold(party)) => self.hold(row, party),
            Some(Asked::Release(party)) => self.release(row, party),
            Some(Asked::Delete(party)) => self.set_state(row, party, State::Dead),
            Some(Asked::Priority(party, priority)) => {
                self.lanes.touch(self.alloc, party)?;
                row.priority = Some(NewPriority { party, priority });
                Ok(())
            }
            None => Ok(()),
        }
    }

    // The task that runs gets this state when it does not go on.
    fn leave(&mut self, task: Option<Party>, state: State) {
        self.leaving = task.map(|party| Change { party, state });
    }

    // Bytes are written.
    fn tell_console(&mut self, row: &mut Row, event: &Event) -> Result<(), AllocError> {
        row.say(self.alloc, false, &[Bytes(b"writes "), Bytes(event.words)])?;
        match event.task {
            Some(task) if !row.has_arrow_to(Party::Output) => {
                self.draw_arrow(row, task, Party::Output, Arrow::Written)
            }
            _ => Ok(()),
        }
    }

    // A key comes in.
    fn tell_key(&mut self, row: &mut Row, words: &[u8]) -> Result<(), AllocError> {
        let key = words
            .strip_suffix(b" comes in")
            .and_then(|key| after_word(b"the ", key));
        row.say(self.alloc, false, &[Bytes(key.unwrap_or(words))])?;
        self.draw_mark(row, Some(Party::Keyboard), Mark::Key)
    }

    // A fault.
    fn tell_fault(&mut self, row: &mut Row, event: &Event) -> Result<(), AllocError> {
        row.say(self.alloc, true, &[Bytes(b"fault: "), Bytes(event.words)])?;
        self.leave(event.task, State::Held);
        self.draw_mark(row, event.task, Mark::Cross)
    }

    // A task ends.
    fn tell_death(&mut self, row: &mut Row, event: &Event) -> Result<(), AllocError> {
        let is_bad = !contains(b"start has returned", event.words);
        row.say(self.alloc, is_bad, &[Bytes(event.words)])?;
        self.leave(event.task, State::Dead);
        self.draw_mark(row, event.task, Mark::End)
    }

    // Somebody goes on, or nobody.
    fn tell_run(&mut self, row: &mut Row, words: &[u8]) -> Result<(), AllocError> {
        let next = leading_party(words).map(|(party, _)| party);
        if let Some(before) = self.running {
            if next != Some(before) {
                self.stop(row, before)?;
            }
        }
        if let Some(party) = next {
            self.set_state(row, party, State::Runs)?;
            self.name(party, words)?;
        }
        self.running = next;
        self.leaving = None;
        Ok(())
    }

    // A task does not go on. A resident stops only to wait.
    fn stop(&mut self, row: &mut Row, party: Party) -> Result<(), AllocError> {
        let leaving = self.leaving;
        if let Some(change) = leaving {
            if change.party == party {
                return self.set_state(row, party, change.state);
            }
        }
        if self.lanes.state_of(party) == State::Held {
            return Ok(());
        }
        if party.is_guest() {
            return self.set_state(row, party, State::Ready);
        }
        self.set_state(row, party, State::Waits)
    }

    // A task has the name in brackets, if there is one.
    fn name(&mut self, party: Party, words: &[u8]) -> Result<(), AllocError> {
        let Some((_, name)) = split_last(b"(", words) else {
            return Ok(());
        };
        match self.lanes.find(party) {
            Some(lane) => lane.add_name(up_to(b")", name)),
            None => Ok(()),
        }
    }
}
