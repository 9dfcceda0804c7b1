// The coroutines of tasks, in words.
use crate::lists::SeenCoroutine;
use crate::scenes::Scene;
use kernel_lists::{TcbField, field};
use run_names::Party;
use std::alloc::AllocError;
use tool_texts::Said::{Bytes, Number};
use tool_texts::push_sentence;
use word_store::word_at;

/// The word of a coroutine that has the one that has called it, or the block of its task for the root; 0 where it is not active.
const CALLER: u32 = 1;

/// The word of a coroutine that has its function.
const FUNCTION: u32 = 3;

impl Scene<'_> {
    /// Adds the coroutines of the tasks, if there are any.
    pub fn push_coroutines(&self, text: &mut Vec<u8>) -> Result<(), AllocError> {
        if self.lists.coroutines.is_empty() {
            return Ok(());
        }
        push_sentence(text, &[Bytes(b"coroutines\n")])?;
        for coroutine in self.lists.coroutines.as_slice() {
            self.push_coroutine(text, *coroutine)?;
        }
        Ok(())
    }

    // Adds a coroutine: its function, what it does, and who has called it.
    fn push_coroutine(
        &self,
        text: &mut Vec<u8>,
        coroutine: SeenCoroutine,
    ) -> Result<(), AllocError> {
        let store = self.view.store;
        let block = self.lists.task(coroutine.task).map_or(0, |task| task.block);
        let caller = word_at(store, coroutine.at, CALLER);
        let runs = field(store, block, TcbField::CurrentCo) == coroutine.at;
        push_sentence(
            text,
            &[
                Bytes(b"  "),
                Number(u64::from(coroutine.at)),
                Bytes(b" of "),
            ],
        )?;
        self.push_name(text, Party::Task(coroutine.task))?;
        push_sentence(text, &[Bytes(b", its function at ")])?;
        self.push_place(text, word_at(store, coroutine.at, FUNCTION))?;
        push_sentence(text, &[Bytes(b": "), Bytes(what_it_does(runs, caller))])?;
        if caller == 0 {
            return push_sentence(text, &[Bytes(b"\n")]);
        }
        if caller == block {
            return push_sentence(text, &[Bytes(b", called by the root\n")]);
        }
        push_sentence(
            text,
            &[
                Bytes(b", called by "),
                Number(u64::from(caller)),
                Bytes(b"\n"),
            ],
        )
    }
}

// What a coroutine does, by whether it runs, and by who has called it.
fn what_it_does(runs: bool, caller: u32) -> &'static [u8] {
    if runs {
        b"runs"
    } else if caller == 0 {
        b"is not active"
    } else {
        b"has called another"
    }
}
