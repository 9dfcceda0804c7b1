// The word that a fault names, and stacks that are too small.
use crate::programs::PROGRAM;
use crate::scenes::Scene;
use crate::ways::Beyond;
use kernel_lists::{FIRST_GUEST, TcbField, field};
use kernel_model::Stop;
use run_names::Party;
use std::alloc::AllocError;
use tool_texts::Said::{Bytes, Number};
use tool_texts::push_sentence;
use word_store::word_at;

/// The code of the fault of a write outside the store.
const WRITE_OUTSIDE: u32 = 4;

/// The code of the fault of a write into a word of the kernel.
const KERNEL_WORD: u32 = 6;

/// How many words after its frame a function writes at most, for which the end of its stack is told.
const MOST_AFTER: u64 = 300;

/// How many words beyond its stack a frame is where a recursion does not end.
const MANY_BEYOND: u64 = 1000;

/// The word of a coroutine that has the highest index of its stack.
const COROUTINE_TOP: u32 = 4;

/// A stack, and the frame in it.
#[derive(Clone, Copy)]
struct Stack {
    /// The number of the task.
    task: u32,
    /// The coroutine whose stack it is, or 0 where it is that of the root.
    coroutine: u32,
    /// Its first word.
    from: u64,
    /// Its last word.
    end: u64,
}

impl Scene<'_> {
    /// Adds what there is to say besides of the fault that stopped the machine, or of the stack of the guest that runs.
    pub fn push_what_word(&self, text: &mut Vec<u8>) -> Result<(), AllocError> {
        let p = self.view.regs.p;
        match self.view.stop {
            Some(Stop::Fault { code, address, .. }) => {
                self.push_fault_word(text, b"", self.view.running, code, address, p)
            }
            _ if self.view.running >= FIRST_GUEST => {
                self.push_stack(text, b"", self.view.running, p, None)
            }
            _ => Ok(()),
        }
    }

    /// Adds what the word is that a fault of a task names, and where its stack ends, each in a line that begins with these blanks.
    pub fn push_fault_word(
        &self,
        text: &mut Vec<u8>,
        blanks: &[u8],
        id: u32,
        code: u32,
        address: u32,
        p: u32,
    ) -> Result<(), AllocError> {
        if code == KERNEL_WORD {
            push_sentence(
                text,
                &[
                    Bytes(blanks),
                    Bytes(b"word "),
                    Number(u64::from(address)),
                    Bytes(b" is "),
                ],
            )?;
            self.push_kernel_word(text, address)?;
            push_sentence(text, &[Bytes(b"\n")])?;
        }
        if self.view.session.bare {
            return self.push_run_in(text, p);
        }
        let is_write = code == WRITE_OUTSIDE || code == KERNEL_WORD;
        self.push_stack(text, blanks, id, p, is_write.then_some(address))
    }

    // Adds that the stack of a bare machine has run into its program, where it has.
    fn push_run_in(&self, text: &mut Vec<u8>, p: u32) -> Result<(), AllocError> {
        let end = self.end_of_code(PROGRAM).unwrap_or(0);
        let is_in = p >= PROGRAM / 4 && u64::from(p).saturating_mul(4) < end;
        if !is_in || !self.is_begin_over() {
            return Ok(());
        }
        push_sentence(
            text,
            &[
                Bytes(b"P is "),
                Number(u64::from(p)),
                Bytes(b", and the program begins at word 200: the stack has run into it\n"),
            ],
        )
    }

    // Adds a line that begins with these blanks and says where the stack of a task ends, if the frame at p is after its end, or the word that
    // was to be written is.
    fn push_stack(
        &self,
        text: &mut Vec<u8>,
        blanks: &[u8],
        id: u32,
        p: u32,
        written: Option<u32>,
    ) -> Result<(), AllocError> {
        let stack = self.stack_of(id);
        let p = u64::from(p);
        let is_outside = p < stack.from || p >= u64::from(self.view.session.store);
        if is_outside || !is_too_small(stack, p, written) {
            return Ok(());
        }
        push_sentence(text, &[Bytes(blanks), Bytes(b"the stack of ")])?;
        self.push_owner(text, stack.coroutine, stack.task)?;
        push_sentence(
            text,
            &[
                Bytes(b" ends at word "),
                Number(stack.end),
                Bytes(b", and P is "),
                Number(p),
                Bytes(b": its stack is too small"),
            ],
        )?;
        if p > stack.end.saturating_add(MANY_BEYOND) {
            push_sentence(text, &[Bytes(b", or a recursion does not end")])?;
        }
        push_sentence(text, &[Bytes(b"\n")])
    }

    // The stack in which a task runs.
    fn stack_of(&self, id: u32) -> Stack {
        let store = self.view.store;
        let block = self.lists.task(id).map_or(0, |task| task.block);
        let coroutine = field(store, block, TcbField::CurrentCo);
        let (from, top) = if coroutine == 0 {
            let from = field(store, block, TcbField::Stack);
            (from, field(store, block, TcbField::StackTop))
        } else {
            (coroutine, word_at(store, coroutine, COROUTINE_TOP))
        };
        Stack {
            task: id,
            coroutine,
            from: u64::from(from),
            end: u64::from(from) + u64::from(top),
        }
    }

    // Adds whose a stack is.
    fn push_owner(&self, text: &mut Vec<u8>, coroutine: u32, id: u32) -> Result<(), AllocError> {
        if coroutine != 0 {
            push_sentence(
                text,
                &[
                    Bytes(b"coroutine "),
                    Number(u64::from(coroutine)),
                    Bytes(b" of "),
                ],
            )?;
        }
        self.push_name(text, Party::Task(id))
    }

    /// Adds of each task the first frame that it wrote beyond its stack into another block.
    pub fn push_all_beyond(&self, text: &mut Vec<u8>) -> Result<(), AllocError> {
        for task in self.lists.tasks.as_slice() {
            let trail = self.trails.trail(task.id);
            if let Some(beyond) = trail.and_then(|trail| trail.beyond.as_ref()) {
                self.push_beyond(text, task.id, beyond)?;
            }
        }
        Ok(())
    }

    // Adds that a task wrote a frame beyond its stack.
    fn push_beyond(&self, text: &mut Vec<u8>, id: u32, beyond: &Beyond) -> Result<(), AllocError> {
        let data = u32::try_from(beyond.stack.saturating_add(1)).unwrap_or(0);
        let coroutine = self.lists.task_of_coroutine(data).map_or(0, |_| data);
        push_sentence(text, &[Bytes(b"the stack of ")])?;
        self.push_owner(text, coroutine, id)?;
        push_sentence(
            text,
            &[
                Bytes(b" is too small: in step "),
                Number(beyond.step),
                Bytes(b", "),
                Bytes(beyond.by.as_slice()),
                Bytes(b" at "),
            ],
        )?;
        self.push_place(text, beyond.pc)?;
        push_sentence(text, &[Bytes(b", wrote ")])?;
        if beyond.first == beyond.last {
            push_sentence(text, &[Bytes(b"word "), Number(beyond.first)])?;
        } else {
            push_sentence(
                text,
                &[
                    Bytes(b"words "),
                    Number(beyond.first),
                    Bytes(b" to "),
                    Number(beyond.last),
                ],
            )?;
        }
        push_sentence(text, &[Bytes(b" beyond it, in ")])?;
        self.push_block_with(text, beyond.first)?;
        push_sentence(text, &[Bytes(b"\n")])
    }
}

// Whether a stack has no room for the frame at p, or for the word that was to be written, where that is not far after the frame.
fn is_too_small(stack: Stack, p: u64, written: Option<u32>) -> bool {
    if p > stack.end {
        return true;
    }
    match written {
        Some(at) => {
            let at = u64::from(at);
            stack.end < at && at <= p.saturating_add(MOST_AFTER)
        }
        None => false,
    }
}
