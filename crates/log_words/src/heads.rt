// The head of the log: which steps it tells, and the tasks before the first.
use crate::tellers::Teller;
use kernel_lists::{FIRST_GUEST, TcbField, field};
use kernel_model::numbers::{INTERRUPTED, RUNS, WAITS};
use kernel_model::{field_of_state, is_held_state};
use run_names::task_blocks;
use std::alloc::AllocError;
use tool_texts::Said::{Bytes, Number};
use tool_texts::push_sentence;
use word_store::Store;

impl Teller<'_> {
    /// Adds a line for each task before the first step that is told. Those that began before are named by the words of their modules.
    pub fn push_tasks(
        &mut self,
        text: &mut Vec<u8>,
        store: &Store,
        first: u64,
    ) -> Result<(), AllocError> {
        if self.is_bare {
            return Ok(());
        }
        let blocks = task_blocks(self.alloc, store)?;
        for t in blocks.as_slice() {
            if first > 1 {
                self.name_before(store, *t)?;
            }
            self.push_task(text, store, *t)?;
        }
        Ok(())
    }

    // Names a guest that the session does not name, and that was there before the first step.
    fn name_before(&mut self, store: &Store, t: u32) -> Result<(), AllocError> {
        let id = field(store, t, TcbField::Id);
        let Some(task) = self.tasks.task_mut(id) else {
            return Ok(());
        };
        if id < FIRST_GUEST || task.is_of_session {
            return Ok(());
        }
        task.is_known = !is_dead(field(store, t, TcbField::State));
        self.name_task(store, id)
    }

    // The line of the task at t.
    fn push_task(&self, text: &mut Vec<u8>, store: &Store, t: u32) -> Result<(), AllocError> {
        let id = field(store, t, TcbField::Id);
        let state = field(store, t, TcbField::State);
        push_sentence(text, &[Bytes(b"task "), Number(u64::from(id))])?;
        match self.tasks.task(id) {
            Some(task) if !task.program.is_empty() => {
                push_sentence(text, &[Bytes(b", "), Bytes(task.program.as_slice())])?;
            }
            _ => {}
        }
        push_sentence(
            text,
            &[
                Bytes(b", priority "),
                Number(u64::from(field(store, t, TcbField::Pri))),
                Bytes(b", "),
                Bytes(state_words(state)),
                Bytes(held_words(state)),
                Bytes(b"\n"),
            ],
        )
    }
}

/// What a task does, by its state.
pub fn state_words(state: u32) -> &'static [u8] {
    match field_of_state(state) {
        RUNS => b"runs",
        WAITS => b"waits",
        INTERRUPTED => b"was interrupted",
        _ => b"is dead",
    }
}

/// Whether a task is dead, by its state.
pub fn is_dead(state: u32) -> bool {
    !matches!(field_of_state(state), RUNS | WAITS | INTERRUPTED)
}

// That it is held, where it is.
fn held_words(state: u32) -> &'static [u8] {
    if is_held_state(state) { b", held" } else { b"" }
}
