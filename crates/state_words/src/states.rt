// The state of a machine, and its lists, in words.
use crate::scenes::Scene;
use std::alloc::AllocError;
use tool_texts::Said::Bytes;
use tool_texts::push_sentence;

impl Scene<'_> {
    /// Adds the state: where the machine is and why, what each task does and waits for, and what is in the store.
    pub fn push_state(&self, text: &mut Vec<u8>) -> Result<(), AllocError> {
        self.push_head(text)?;
        self.push_why(text)?;
        self.push_where(text)?;
        self.push_what_word(text)?;
        self.push_all_beyond(text)?;
        self.push_stuck(text)?;
        push_sentence(text, &[Bytes(self.plain.registers), Bytes(b"\n")])?;
        if self.view.session.bare {
            return self.push_bare_death(text);
        }
        self.push_tasks(text)?;
        self.push_queues(text)?;
        self.push_blocks(text, false)?;
        self.push_modules(text)?;
        self.push_coroutines(text)
    }

    /// Adds the lists of the kernel, with the blocks drawn by their sizes.
    pub fn push_lists(&self, text: &mut Vec<u8>) -> Result<(), AllocError> {
        self.push_head(text)?;
        if self.view.session.bare {
            return push_sentence(text, &[Bytes(b"a bare machine has no lists\n")]);
        }
        self.push_chain(text)?;
        self.push_queues(text)?;
        self.push_blocks(text, true)?;
        self.push_coroutines(text)
    }
}
