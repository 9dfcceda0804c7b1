// The lines of a hunk's assembly.
use crate::global_uses::use_of;
use crate::hunk_code::{HunkCode, Known};
use crate::known_names::Names;
use crate::labels::{Labels, Target, address_in, target_at};
use crate::names::push_name;
use crate::units::{FIRST, Place, Unit};
use instruction_set::instruction_table::{Effect, Form};
use std::alloc::{AllocError, Global};
use tool_texts::Said::{self, Bytes, Number};
use tool_texts::{push_blanks, push_sentence};

/// The column at which what is after a label begins.
const LABEL_WIDTH: usize = 8;
/// The column before which a note does not begin.
const NOTE_COLUMN: usize = 31;

/// What the lines of a hunk are made of.
#[derive(Drop)]
pub struct Source<'a> {
    /// Its bytes, with what they are.
    pub code: HunkCode<'a>,
    /// Its labels.
    pub labels: Labels,
    /// For each offset, whether an instruction takes the address of a string there.
    pub strings: Vec<bool>,
}

impl<'a> Source<'a> {
    /// What the lines are made of.
    pub fn new(
        alloc: Global,
        code: HunkCode<'a>,
        labels: Labels,
    ) -> Result<Source<'a>, AllocError> {
        let mut source = Source {
            code,
            labels,
            strings: Vec::new(alloc),
        };
        for at in 0..source.code.places.len() {
            source.strings.push(false)?;
        }
        for at in FIRST..source.code.end() {
            source.note_string(at);
        }
        Ok(source)
    }

    // Notes the place of which an instruction takes the address.
    fn note_string(&mut self, at: u32) {
        let Some(to) = self.string_place(at) else {
            return;
        };
        if let Some(is_string) = self.strings.get_mut(to as usize) {
            *is_string = true;
        }
    }

    // The place whose word address an instruction takes, if one is here that does.
    fn string_place(&self, at: u32) -> Option<u32> {
        let known = self.code.code_at(at)?;
        match (known.row.effect, target_at(&self.code, at)?) {
            (Effect::LoadTargetWord, Target::Lead(lead)) => Some(self.code.lead(lead)),
            (Effect::LoadTargetWord, Target::Offset(to)) => Some(to),
            _ => None,
        }
    }

    /// Adds the lines of all bytes before the global table.
    pub fn push_lines(
        &self,
        alloc: Global,
        names: &Names,
        text: &mut Vec<u8>,
    ) -> Result<(), AllocError> {
        let mut at = FIRST;
        for turn in 0..self.code.places.len() {
            if at >= self.code.end() {
                return Ok(());
            }
            at = at.saturating_add(self.push_unit(alloc, names, text, at)?);
        }
        Ok(())
    }

    // Adds the lines of what begins at an offset; how many bytes that has.
    fn push_unit(
        &self,
        alloc: Global,
        names: &Names,
        text: &mut Vec<u8>,
        at: u32,
    ) -> Result<u32, AllocError> {
        let place = self.code.place(at).unwrap_or(Place::new());
        match place.unit {
            Unit::Nothing => return self.push_data(alloc, text, at),
            Unit::Code => self.push_code(alloc, names, text, at)?,
            Unit::Lead => {
                let label = self.label(alloc, self.code.lead(at))?;
                self.push_line(text, at, &[Bytes(b"RES "), Bytes(label.as_slice())], b"")?;
            }
            Unit::Address => {
                let label = self.label(alloc, address_in(&self.code, at))?;
                self.push_line(text, at, &[Bytes(b"DA "), Bytes(label.as_slice())], b"")?;
            }
            Unit::Number => {
                let number = u64::from(self.code.half(at));
                self.push_line(text, at, &[Bytes(b"DH "), Number(number)], b"")?;
            }
            Unit::FunctionName => self.push_mark(alloc, text, at, place.length, b"the function ")?,
            Unit::SectionName => self.push_mark(alloc, text, at, place.length, b"the section ")?,
        }
        Ok(place.length)
    }

    // The label of an offset.
    fn label(&self, alloc: Global, at: u32) -> Result<Vec<u8>, AllocError> {
        let mut label = Vec::new(alloc);
        self.labels.push_label(&mut label, at)?;
        Ok(label)
    }

    // Adds an instruction.
    fn push_code(
        &self,
        alloc: Global,
        names: &Names,
        text: &mut Vec<u8>,
        at: u32,
    ) -> Result<(), AllocError> {
        let Some(known) = self.code.code_at(at) else {
            return Ok(());
        };
        let name = Bytes(known.row.name.as_bytes());
        match target_at(&self.code, at) {
            Some(Target::Lead(to) | Target::Offset(to)) => {
                let label = self.label(alloc, to)?;
                let note = self.string_note(alloc, at)?;
                let words = [name, Bytes(b" "), Bytes(label.as_slice())];
                self.push_line(text, at, &words, note.as_slice())
            }
            None if has_operand(known.row.form) => {
                let operand = known.instr.operand;
                let note = global_note(names, known);
                let words = [name, Bytes(b" "), Number(u64::from(operand))];
                self.push_line(text, at, &words, note)
            }
            None => self.push_line(text, at, &[name], b""),
        }
    }

    // The string whose address an instruction takes, or nothing.
    fn string_note(&self, alloc: Global, at: u32) -> Result<Vec<u8>, AllocError> {
        match self.string_place(at) {
            Some(to) => Ok(self.string_at(alloc, to)?.unwrap_or(Vec::new(alloc))),
            None => Ok(Vec::new(alloc)),
        }
    }

    // Adds the words of a name that a compiler has left.
    fn push_mark(
        &self,
        alloc: Global,
        text: &mut Vec<u8>,
        at: u32,
        count: u32,
        what: &[u8],
    ) -> Result<(), AllocError> {
        let mut note = Vec::new(alloc);
        push_sentence(&mut note, &[Bytes(what)])?;
        push_name(&mut note, &self.code, at.saturating_add(4))?;
        let mark = Number(u64::from(self.code.word(at)));
        self.push_line(text, at, &[Bytes(b"DW "), mark], note.as_slice())?;
        for i in 1..count / 4 {
            self.push_word(text, at.saturating_add(4 * i))?;
        }
        Ok(())
    }

    // Adds a word of data.
    fn push_word(&self, text: &mut Vec<u8>, at: u32) -> Result<(), AllocError> {
        let word = self.code.word(at).cast_signed();
        let minus: &[u8] = if word < 0 { b"-" } else { b"" };
        let number = u64::from(word.unsigned_abs());
        self.push_line(
            text,
            at,
            &[Bytes(b"DW "), Bytes(minus), Number(number)],
            b"",
        )
    }

    // Adds data: a string, a word or a byte; how many bytes that has.
    fn push_data(&self, alloc: Global, text: &mut Vec<u8>, at: u32) -> Result<u32, AllocError> {
        if self.is_string(at) {
            if let Some(string) = self.string_at(alloc, at)? {
                return self.push_string(text, at, string.as_slice());
            }
        }
        if at % 4 == 0 && self.is_data(at, 4) {
            self.push_word(text, at)?;
            return Ok(4);
        }
        self.push_byte(text, at, b"")?;
        Ok(1)
    }

    fn is_string(&self, at: u32) -> bool {
        self.strings
            .as_slice()
            .get(at as usize)
            .copied()
            .unwrap_or(false)
    }

    fn push_byte(&self, text: &mut Vec<u8>, at: u32, note: &[u8]) -> Result<(), AllocError> {
        let byte = u64::from(self.code.byte(at));
        self.push_line(text, at, &[Bytes(b"DB "), Number(byte)], note)
    }

    // Adds the bytes of a string, the first of which is how many come after it.
    fn push_string(&self, text: &mut Vec<u8>, at: u32, string: &[u8]) -> Result<u32, AllocError> {
        let count = u32::from(self.code.byte(at));
        self.push_byte(text, at, string)?;
        for i in 1..count + 1 {
            self.push_byte(text, at.saturating_add(i), b"")?;
        }
        Ok(count + 1)
    }

    // Whether so many bytes are data, and none but the first has a label.
    fn is_data(&self, at: u32, count: u32) -> bool {
        let end = at.saturating_add(count);
        if end > self.code.end() {
            return false;
        }
        for i in at..end {
            let is_open = self
                .code
                .place(i)
                .is_some_and(|place| place.within.is_none());
            if !is_open || i > at && self.labels.is_wanted(i) {
                return false;
            }
        }
        true
    }

    // The string at an offset, as BCPL writes it.
    fn string_at(&self, alloc: Global, at: u32) -> Result<Option<Vec<u8>>, AllocError> {
        let count = u32::from(self.code.byte(at));
        if at % 4 != 0 || count == 0 || !self.is_data(at, count + 1) {
            return Ok(None);
        }
        let mut string = Vec::new(alloc);
        string.push(b'"')?;
        for i in 1..count + 1 {
            let byte = self.code.byte(at.saturating_add(i));
            match byte {
                b'\n' => push_sentence(&mut string, &[Bytes(b"*n")])?,
                b'\t' => push_sentence(&mut string, &[Bytes(b"*t")])?,
                b'"' | b'*' => push_sentence(&mut string, &[Bytes(b"*"), Bytes(&[byte])])?,
                b' '..=b'~' => string.push(byte)?,
                _ => return Ok(None),
            }
        }
        string.push(b'"')?;
        Ok(Some(string))
    }

    // Adds a line: the label of its offset, if it has one, the words, and a note, if there is one.
    fn push_line(
        &self,
        text: &mut Vec<u8>,
        at: u32,
        words: &[Said],
        note: &[u8],
    ) -> Result<(), AllocError> {
        let begin = text.len();
        if self.labels.is_wanted(at) {
            self.labels.push_label(text, at)?;
            text.push(b':')?;
            if text.len().saturating_sub(begin) >= LABEL_WIDTH {
                text.push(b' ')?;
            }
        }
        push_blanks_to(text, begin, LABEL_WIDTH)?;
        push_sentence(text, words)?;
        if !note.is_empty() {
            push_blanks_to(text, begin, NOTE_COLUMN)?;
            push_sentence(text, &[Bytes(b" ; "), Bytes(note)])?;
        }
        text.push(b'\n')?;
        Ok(())
    }
}

// Adds blanks up to a column of the line that begins there.
fn push_blanks_to(text: &mut Vec<u8>, begin: usize, column: usize) -> Result<(), AllocError> {
    let width = text.len().saturating_sub(begin);
    push_blanks(text, column.saturating_sub(width))
}

// Whether an instruction of a form has a number after its name.
fn has_operand(form: Form) -> bool {
    matches!(form, Form::Byte | Form::BytePlus | Form::Half | Form::Word)
}

// The name of the global that an instruction uses, or nothing.
fn global_note<'a>(names: &Names<'a>, known: Known) -> &'a [u8] {
    match use_of(known.row.effect) {
        Some(_) => names.get(&known.instr.operand).copied().unwrap_or(b""),
        None => b"",
    }
}
