// The programs whose code is in a store: where each ends, and whether it was written over.
use crate::scenes::Scene;
use run_names::hunk_with;
use session_text::{LineForm, Session};
use std::alloc::{AllocError, Global};
use word_store::word;

/// The first byte of a bare machine's program.
pub const PROGRAM: u32 = 800;

/// The bytes of a word.
const WORD_BYTES: u64 = 4;

/// The bytes of a bare machine's program, as a session gives them; none where it gives none.
pub fn program_bytes(alloc: Global, session: &Session) -> Result<Vec<u8>, AllocError> {
    let mut program = Vec::new(alloc);
    for line in session.lines.as_slice() {
        if let LineForm::Code(bytes) = &line.form {
            program.extend_from_slice(bytes.as_slice())?;
        }
    }
    Ok(program)
}

impl Scene<'_> {
    /// The byte after the code that has this byte: that of a bare machine's program, or that of a hunk, after which come its globals. `None`
    /// where no program has the byte.
    pub fn end_of_code(&self, byte: u32) -> Option<u64> {
        if self.view.session.bare {
            return self.end_of_program(u64::from(byte));
        }
        let hunk = hunk_with(self.lists.hunks.as_slice(), byte)?;
        let end = hunk.from.saturating_add(hunk.words);
        Some(self.globals_of(hunk.from, end).saturating_mul(WORD_BYTES))
    }

    // The byte after a bare machine's program, where it has this byte.
    fn end_of_program(&self, byte: u64) -> Option<u64> {
        let first = u64::from(PROGRAM);
        let end = first.saturating_add(self.program.len() as u64);
        (first <= byte && byte < end).then_some(end)
    }

    // The word at which the globals of a hunk begin, which are its end. Its last word has the highest global that is there. Where that is not
    // 0, pairs of words come before it, and a 0 before these.
    fn globals_of(&self, from: u64, end: u64) -> u64 {
        let last = end.saturating_sub(1);
        if self.word(last) == 0 {
            return last;
        }
        let mut at = last.saturating_sub(1);
        for _ in from..end {
            if at <= from || self.word(at) == 0 {
                return at;
            }
            at = at.saturating_sub(2);
        }
        at
    }

    /// The byte at an address: on a bare machine that of the program as it was at first, and else that of the store; 0 where there is none.
    pub fn byte_at(&self, byte: u64) -> u8 {
        if self.view.session.bare {
            return self.program_byte(byte);
        }
        match u32::try_from(byte) {
            Ok(byte) => self.view.store.get_byte(byte).unwrap_or(0),
            Err(_) => 0,
        }
    }

    // The byte of a bare machine's program at an address, as it was at first; 0 where there is none.
    fn program_byte(&self, byte: u64) -> u8 {
        let found = byte
            .checked_sub(u64::from(PROGRAM))
            .and_then(|offset| self.program.get(offset as usize).copied());
        found.unwrap_or(0)
    }

    /// Whether the code that has this byte has none from it on that is not 0; so too where no code has it.
    pub fn is_past_code(&self, byte: u32) -> bool {
        let end = self.end_of_code(byte).unwrap_or(0);
        for at in u64::from(byte)..end {
            if self.byte_at(at) != 0 {
                return false;
            }
        }
        true
    }

    /// Whether the word with a byte of a bare machine's program is another one than at first.
    pub fn is_over(&self, byte: u32) -> bool {
        if !self.view.session.bare || self.end_of_code(byte).is_none() {
            return false;
        }
        let first = u64::from(byte - byte % 4);
        let loaded = u32::from_le_bytes([
            self.program_byte(first),
            self.program_byte(first + 1),
            self.program_byte(first + 2),
            self.program_byte(first + 3),
        ]);
        loaded != word(self.view.store, byte / 4)
    }

    /// Whether one of the first four words of a bare machine's program was written over. A program may have its stack in itself.
    pub fn is_begin_over(&self) -> bool {
        for i in 0..4 {
            if self.is_over(PROGRAM + 4 * i) {
                return true;
            }
        }
        false
    }
}
