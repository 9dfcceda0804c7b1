// The blocks of a store, in words.
use crate::plain_states::SeenBlock;
use crate::scenes::Scene;
use kernel_model::Use;
use log_words::bytes::push_padded;
use run_names::modules::name_at;
use run_names::{Party, push_party};
use std::alloc::AllocError;
use tool_texts::Said::{Bytes, Number};
use tool_texts::{push_blanks, push_sentence};

/// How many letters the store is long, where the blocks are drawn.
const LETTERS: u64 = 40;

/// The words of the store that are in no block.
const NO_BLOCK: u64 = 202;

impl Scene<'_> {
    /// Adds the blocks, each in a line. Where they are drawn, each has letters by its size.
    pub fn push_blocks(&self, text: &mut Vec<u8>, are_drawn: bool) -> Result<(), AllocError> {
        push_sentence(text, &[Bytes(b"blocks")])?;
        if are_drawn {
            push_sentence(
                text,
                &[
                    Bytes(b", a letter for each "),
                    Number(self.block_words() / LETTERS),
                    Bytes(b" words"),
                ],
            )?;
        }
        push_sentence(text, &[Bytes(b"\n")])?;
        let most = if are_drawn { self.most_letters() } else { 0 };
        for block in self.plain.blocks.as_slice() {
            self.push_block_line(text, *block, most)?;
        }
        Ok(())
    }

    // How many words the blocks have.
    fn block_words(&self) -> u64 {
        u64::from(self.view.session.store).saturating_sub(NO_BLOCK)
    }

    // The letters of the longest block.
    fn most_letters(&self) -> usize {
        let mut most = 0;
        for block in self.plain.blocks.as_slice() {
            most = self.letters(*block).max(most);
        }
        most
    }

    // How many letters a block has, rounded, and one at least.
    fn letters(&self, block: SeenBlock) -> usize {
        let all = self.block_words();
        let doubled = (2 * LETTERS).saturating_mul(u64::from(block.size));
        let letters = doubled
            .saturating_add(all)
            .checked_div(all.saturating_mul(2))
            .unwrap_or(0);
        letters.clamp(1, LETTERS) as usize
    }

    // Adds the line of a block; it is drawn where some letters are the most.
    fn push_block_line(
        &self,
        text: &mut Vec<u8>,
        block: SeenBlock,
        most: usize,
    ) -> Result<(), AllocError> {
        push_sentence(text, &[Bytes(b"  ")])?;
        push_padded(text, u64::from(block.start), 6)?;
        push_sentence(text, &[Bytes(b" to ")])?;
        push_padded(text, block.end().saturating_sub(1), 6)?;
        push_sentence(text, &[Bytes(b" ")])?;
        push_padded(text, u64::from(block.size), 7)?;
        push_sentence(text, &[Bytes(b" words  ")])?;
        if most > 0 {
            let letters = self.letters(block);
            push_letters(text, letters, block.used)?;
            push_blanks(text, most.saturating_add(1).saturating_sub(letters))?;
        }
        self.push_use(text, block)?;
        push_sentence(text, &[Bytes(b"\n")])
    }

    /// Adds the words of a block, and what it is used for.
    pub fn push_block(&self, text: &mut Vec<u8>, block: SeenBlock) -> Result<(), AllocError> {
        push_sentence(
            text,
            &[
                Bytes(b"the block from "),
                Number(u64::from(block.start)),
                Bytes(b" to "),
                Number(block.end().saturating_sub(1)),
                Bytes(b": "),
            ],
        )?;
        self.push_use(text, block)
    }

    /// Adds the block that has a word.
    pub fn push_block_with(&self, text: &mut Vec<u8>, at: u64) -> Result<(), AllocError> {
        for block in self.plain.blocks.as_slice() {
            if u64::from(block.start) <= at && at < block.end() {
                return self.push_block(text, *block);
            }
        }
        push_sentence(text, &[Bytes(b"no block")])
    }

    // Adds what a block is used for. What it has begins after its size word.
    fn push_use(&self, text: &mut Vec<u8>, block: SeenBlock) -> Result<(), AllocError> {
        let at = block.start.saturating_add(1);
        match block.used {
            Use::Free => push_sentence(text, &[Bytes(b"free")]),
            Use::User => push_sentence(text, &[Bytes(b"taken by getvec")]),
            Use::OfResidents => push_sentence(text, &[Bytes(b"the residents")]),
            Use::OfModule => {
                let name = name_at(self.lists.modules.as_slice(), at).unwrap_or(b"module");
                push_sentence(text, &[Bytes(b"module "), Bytes(name)])
            }
            Use::OfTask => {
                let tasks = self.lists.tasks.as_slice();
                let id = tasks
                    .iter()
                    .find(|task| task.block == at)
                    .map_or(0, |task| task.id);
                self.push_name(text, Party::Task(id))?;
                push_sentence(text, &[Bytes(b", its globals and stack")])
            }
            Use::OfCoroutine => {
                let id = self.lists.task_of_coroutine(at).unwrap_or(0);
                push_sentence(
                    text,
                    &[Bytes(b"coroutine "), Number(u64::from(at)), Bytes(b" of ")],
                )?;
                push_party(text, Party::Task(id))
            }
        }
    }
}

// Adds the letters of a block.
fn push_letters(text: &mut Vec<u8>, count: usize, used: Use) -> Result<(), AllocError> {
    let letter: &[u8] = match used {
        Use::Free => b".",
        _ => b"#",
    };
    for _ in 0..count {
        push_sentence(text, &[Bytes(letter)])?;
    }
    Ok(())
}
