// What a task does and waits for, in words.
use crate::lists::SeenTask;
use crate::queue_words::push_sender;
use crate::scenes::Scene;
use crate::ways::Death;
use kernel_lists::{FIRST_GUEST, TcbField, field};
use kernel_model::numbers::{
    CONSOLE, FAULT_ADDRESS, FAULT_WORD, INTERRUPTED, KEY_PACKET, REPORTED, SHELL, SHELL_PACKET,
};
use kernel_model::{field_of_state, is_held_state};
use log_words::heads::{is_dead, state_words};
use run_names::{Party, fault_meaning, push_flags, push_party, push_what_led_to_0};
use std::alloc::AllocError;
use tool_texts::Said::{Bytes, Number};
use tool_texts::push_sentence;

impl Scene<'_> {
    /// Adds the tasks, in the order of the chain, with what each does and waits for.
    pub fn push_tasks(&self, text: &mut Vec<u8>) -> Result<(), AllocError> {
        push_sentence(text, &[Bytes(b"tasks\n")])?;
        for task in self.lists.tasks.as_slice() {
            self.push_task_line(text, task)?;
            self.push_arrived(text, task)?;
            self.push_doing(text, task)?;
            self.push_kept(text, task)?;
            self.push_flags_of(text, task)?;
            if task.has_fault(self.view.store) {
                self.push_task_fault(text, task)?;
            }
        }
        Ok(())
    }

    // Adds its number, its programs, its priority and its state.
    fn push_task_line(&self, text: &mut Vec<u8>, task: &SeenTask) -> Result<(), AllocError> {
        push_sentence(text, &[Bytes(b"  "), Number(u64::from(task.id))])?;
        if !task.program.is_empty() {
            push_sentence(text, &[Bytes(b" "), Bytes(task.program.as_slice())])?;
        }
        let priority = field(self.view.store, task.block, TcbField::Pri);
        push_sentence(
            text,
            &[
                Bytes(b", priority "),
                Number(u64::from(priority)),
                Bytes(b", "),
            ],
        )?;
        self.push_state_of(text, task)?;
        push_sentence(text, &[Bytes(b"\n")])
    }

    /// Adds what a task does, that it is held, and that it has packets on its queue.
    pub fn push_state_of(&self, text: &mut Vec<u8>, task: &SeenTask) -> Result<(), AllocError> {
        push_sentence(text, &[Bytes(state_words(task.state))])?;
        if is_held_state(task.state) {
            push_sentence(text, &[Bytes(b", and is held")])?;
        }
        if self.lists.has_queued(Party::Task(task.id)) {
            push_sentence(text, &[Bytes(b", and has packets")])?;
        }
        Ok(())
    }

    // Adds the packets on its queue.
    fn push_arrived(&self, text: &mut Vec<u8>, task: &SeenTask) -> Result<(), AllocError> {
        for packet in self.lists.queued.as_slice() {
            if packet.place == Party::Task(task.id) {
                push_sentence(text, &[Bytes(b"    on its queue: packet ")])?;
                push_sender(text, *packet)?;
                push_sentence(text, &[Bytes(b"\n")])?;
            }
        }
        Ok(())
    }

    // Adds how it died, where it goes on, or what it waits for.
    fn push_doing(&self, text: &mut Vec<u8>, task: &SeenTask) -> Result<(), AllocError> {
        if is_dead(task.state) {
            return self.push_death(text, task);
        }
        if field_of_state(task.state) == INTERRUPTED {
            push_sentence(text, &[Bytes(b"    it goes on at ")])?;
            self.push_place(text, field(self.view.store, task.block, TcbField::SavedPc))?;
            return push_sentence(text, &[Bytes(b"\n")]);
        }
        if !task.waits() {
            return Ok(());
        }
        if task.id < FIRST_GUEST {
            return self.push_resident(text, task);
        }
        if self.lists.has_queued(Party::Task(task.id)) {
            return Ok(());
        }
        self.push_sent(text, task)
    }

    // Adds when it died, and how PC became 0.
    fn push_death(&self, text: &mut Vec<u8>, task: &SeenTask) -> Result<(), AllocError> {
        let trail = self.trails.trail(task.id);
        let Some(death) = trail.and_then(|trail| trail.death.as_ref()) else {
            return self.push_not_begun(text);
        };
        push_sentence(
            text,
            &[Bytes(b"    since step "), Number(death.step), Bytes(b": ")],
        )?;
        if !self.push_what_led(text, death)? {
            push_sentence(text, &[Bytes(b"PC is 0")])?;
        }
        push_sentence(text, &[Bytes(b"; ")])?;
        push_party(text, Party::Task(task.id))?;
        push_sentence(text, &[Bytes(b" is dead\n")])
    }

    // Adds that no step of it was seen in which it died.
    fn push_not_begun(&self, text: &mut Vec<u8>) -> Result<(), AllocError> {
        push_sentence(text, &[Bytes(b"    it has not begun")])?;
        if self.first_seen > 1 {
            push_sentence(
                text,
                &[Bytes(b", or ended before step "), Number(self.first_seen)],
            )?;
        }
        push_sentence(text, &[Bytes(b"\n")])
    }

    // Adds how the last instruction made PC 0; the answer is whether one is known.
    fn push_what_led(&self, text: &mut Vec<u8>, death: &Death) -> Result<bool, AllocError> {
        let Some(done) = &death.done else {
            return Ok(false);
        };
        push_what_led_to_0(
            text,
            self.view.session.bare,
            done.pc,
            done.instruction.as_slice(),
            self.view.store,
            self.lists.hunks.as_slice(),
        )?;
        Ok(true)
    }

    /// Adds of a bare machine when and how PC became 0, where it did.
    pub fn push_bare_death(&self, text: &mut Vec<u8>) -> Result<(), AllocError> {
        let trail = self.trails.trail(0);
        let Some(death) = trail.and_then(|trail| trail.death.as_ref()) else {
            return Ok(());
        };
        push_sentence(text, &[Bytes(b"PC is 0 since step "), Number(death.step)])?;
        if death.done.is_some() {
            push_sentence(text, &[Bytes(b": ")])?;
        }
        self.push_what_led(text, death)?;
        push_sentence(text, &[Bytes(b"; the machine stops\n")])
    }

    // Adds what a resident waits for.
    fn push_resident(&self, text: &mut Vec<u8>, task: &SeenTask) -> Result<(), AllocError> {
        if task.id == SHELL {
            if !self.is_queued(SHELL_PACKET) {
                return self.push_sent(text, task);
            }
            return push_sentence(
                text,
                &[
                    Bytes(b"    it waits for a line at the console, by its packet "),
                    Number(u64::from(SHELL_PACKET)),
                    Bytes(b"\n"),
                ],
            );
        }
        push_sentence(text, &[Bytes(b"    it waits for requests")])?;
        if task.id == CONSOLE && self.is_queued(KEY_PACKET) {
            push_sentence(
                text,
                &[
                    Bytes(b", and for keys by its packet "),
                    Number(u64::from(KEY_PACKET)),
                ],
            )?;
        }
        push_sentence(text, &[Bytes(b"\n")])
    }

    // Whether a packet is on a queue.
    fn is_queued(&self, packet: u32) -> bool {
        self.lists.queued.as_slice().iter().any(|p| p.at == packet)
    }

    // Adds its flags, if it has some.
    fn push_flags_of(&self, text: &mut Vec<u8>, task: &SeenTask) -> Result<(), AllocError> {
        let flags = field(self.view.store, task.block, TcbField::Flags);
        if flags == 0 {
            return Ok(());
        }
        push_sentence(text, &[Bytes(b"    its flags are ")])?;
        push_flags(text, flags)?;
        push_sentence(text, &[Bytes(b"\n")])
    }

    // Adds the fault that it has met, how PC came there, and what there is to say of the word that it names.
    fn push_task_fault(&self, text: &mut Vec<u8>, task: &SeenTask) -> Result<(), AllocError> {
        let store = self.view.store;
        let fault = field(store, task.block, FAULT_WORD);
        let code = fault % REPORTED;
        let address = field(store, task.block, FAULT_ADDRESS);
        let report: &[u8] = if fault < REPORTED {
            b"; it is not reported yet\n"
        } else {
            b"; it was reported\n"
        };
        push_sentence(
            text,
            &[
                Bytes(b"    fault "),
                Number(u64::from(code)),
                Bytes(b" at "),
                Number(u64::from(address)),
                Bytes(b": "),
                Bytes(fault_meaning(code)),
                Bytes(report),
            ],
        )?;
        if field_of_state(task.state) == INTERRUPTED {
            let pc = field(store, task.block, TcbField::SavedPc);
            self.push_way(text, b"    ", task.id, pc, code)?;
        }
        let p = field(store, task.block, TcbField::SavedP);
        self.push_fault_word(text, b"    ", task.id, code, address, p)
    }
}
