// The chain of tasks, in words.
use crate::lists::SeenTask;
use crate::scenes::Scene;
use kernel_lists::{RootField, TcbField, field, root};
use run_names::{Party, push_flags};
use std::alloc::AllocError;
use tool_texts::Said::{Bytes, Number};
use tool_texts::push_sentence;

impl Scene<'_> {
    /// Adds the chain of tasks.
    pub fn push_chain(&self, text: &mut Vec<u8>) -> Result<(), AllocError> {
        push_sentence(text, &[Bytes(b"chain\n")])?;
        if self.lists.tasks.is_empty() {
            return push_sentence(text, &[Bytes(b"  no tasks\n")]);
        }
        let mut before: &[u8] = b"  101 -> ";
        for task in self.lists.tasks.as_slice() {
            push_sentence(text, &[Bytes(before)])?;
            self.push_link(text, task)?;
            before = b"      -> ";
        }
        Ok(())
    }

    // Adds a task of the chain.
    fn push_link(&self, text: &mut Vec<u8>, task: &SeenTask) -> Result<(), AllocError> {
        let store = self.view.store;
        push_sentence(text, &[Number(u64::from(task.block)), Bytes(b": ")])?;
        self.push_name(text, Party::Task(task.id))?;
        push_sentence(
            text,
            &[
                Bytes(b", priority "),
                Number(u64::from(field(store, task.block, TcbField::Pri))),
                Bytes(b", state "),
                Number(u64::from(task.state)),
                Bytes(b", "),
            ],
        )?;
        self.push_state_of(text, task)?;
        let flags = field(store, task.block, TcbField::Flags);
        if flags != 0 {
            push_sentence(text, &[Bytes(b", flags ")])?;
            push_flags(text, flags)?;
        }
        if root(store, RootField::Running) == task.block {
            push_sentence(text, &[Bytes(b"  <- 102, the running task")])?;
        }
        push_sentence(text, &[Bytes(b"\n")])
    }
}
