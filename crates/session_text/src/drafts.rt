// A session as far as it was read.
ghost use Rattle.std.specs.Prelude.{◌≡◌, ◌≤◌, length, OnOk};
ghost use Rattle.hex.specs.Hex.{decode_of};
ghost use Rattle.module_text.specs.TextReader.Answers.{Gives};
ghost use Rattle.session_text.specs.Seen.{seen};
ghost use Rattle.session_text.specs.SessionOfText.{bytes_or_refusal, bytes_step, code_step, debug_step, ended, entry_step, file_step, first_draft, go_step, machine_step, resident_step, statement_step, step, store_step, text_step, tick_step, version_line, version_step};
ghost use Rattle.session_text.specs.Statements.{At, File, Go, HasFewNames, Key, Task, fields};

use crate::fields::is_text;
use crate::ranges::{
    is_period, is_priority, is_stack, is_step, is_store_size, is_task, name_of, names_of,
};
use crate::statements::{Statement, statement_of};
use crate::{Bytes, Keys, LineForm, Lines, Names, Session, SessionLine};
use hex::FromHexError;
use module_text::{TextEnd, after_word, number_after};
use std::alloc::Global;

/// What may come next in a session.
#[derive(Clone, Copy)]
pub enum Place {
    /// The version.
    Version,
    /// The size of the store.
    Store,
    /// `BARE`, or the period of the clock.
    Machine,
    /// Bytes of a bare machine's program, or the steps.
    Code,
    /// `RESIDENT`, or a statement.
    Resident,
    /// `DEBUG`, or a statement.
    Debug,
    /// A statement.
    Entry,
    /// Text of the last file, or a statement.
    Text,
    /// Nothing.
    End,
}

/// A session as far as it was read, and what may come next.
#[derive(Drop)]
pub struct Draft {
    /// What may come next.
    pub place: Place,
    /// The session so far.
    pub session: Session,
}

impl Draft {
    /// Nothing was read.
    pub fn new(alloc: Global) -> Draft
        ensures { result ≡ first_draft }
    {
        Draft {
            place: Place::Version,
            session: Session {
                version: 0,
                store: 0,
                period: 0,
                bare: false,
                resident: false,
                debug: false,
                lines: Lines::new(Vec::new(alloc)),
                keys: Keys::new(Vec::new(alloc)),
                go: 0,
            },
        }
    }

    /// Reads line n.
    #[tactic(auto, unfolding(crate::specs::SessionOfText::step))]
    pub fn read_line(&mut self, alloc: Global, n: u32, line: &[u8]) -> Result<(), TextEnd>
        ensures value { Gives (λ _. self.new) result (step self.old n line.now) }
        ensures long { OnOk result (self.old.place ≡ Place.Version → 8 ≤ length line.now) }
    {
        match self.place {
            Place::Version => self.read_version(n, line),
            Place::Store => self.read_store(n, line),
            Place::Machine => self.read_machine(n, line),
            Place::Code => self.read_code(alloc, n, line),
            Place::Resident => self.read_resident(alloc, n, line),
            Place::Debug => self.read_debug(alloc, n, line),
            Place::Entry => self.read_entry(alloc, n, line),
            Place::Text => self.read_text(alloc, n, line),
            Place::End => Err(TextEnd::Bad { line: n, code: 1 }),
        }
    }

    /// The session, where its last line was read; line n would be the next.
    pub fn end(self, n: u32) -> Result<Session, TextEnd>
        ensures { Gives (λ s. s) result (ended self.place self.session n) }
    {
        match self.place {
            Place::End => Ok(self.session),
            _ => Err(TextEnd::Bad { line: n, code: 3 }),
        }
    }

    fn read_version(&mut self, n: u32, line: &[u8]) -> Result<(), TextEnd>
        ensures value { Gives (λ _. self.new) result (version_step self.old.session n line.now) }
        ensures long { OnOk result (length line.now ≡ 8) }
    {
        self.session.version = version_of(n, line)?;
        self.place = Place::Store;
        Ok(())
    }

    fn read_store(&mut self, n: u32, line: &[u8]) -> Result<(), TextEnd>
        ensures { Gives (λ _. self.new) result (store_step self.old.session n line.now) }
    {
        let words = number_after(b"STORE ", n, line)?;
        if !is_store_size(self.session.version, words) {
            return Err(TextEnd::Bad { line: n, code: 2 });
        }
        self.session.store = words as u32;
        self.place = Place::Machine;
        Ok(())
    }

    fn read_machine(&mut self, n: u32, line: &[u8]) -> Result<(), TextEnd>
        ensures { Gives (λ _. self.new) result (machine_step self.old.session n line.now) }
    {
        if line == b"BARE".as_slice() {
            self.session.bare = true;
            self.place = Place::Code;
            return Ok(());
        }
        self.read_period(n, line)
    }

    fn read_period(&mut self, n: u32, line: &[u8]) -> Result<(), TextEnd>
        ensures { Gives (λ _. self.new) result (tick_step self.old.session n line.now) }
    {
        let period = number_after(b"TICK ", n, line)?;
        if !is_period(period) {
            return Err(TextEnd::Bad { line: n, code: 2 });
        }
        self.session.period = period as u32;
        self.place = Place::Resident;
        Ok(())
    }

    fn read_code(&mut self, alloc: Global, n: u32, line: &[u8]) -> Result<(), TextEnd>
        ensures { Gives (λ _. self.new) result (code_step self.old.session n line.now) }
    {
        match after_word(b":", line) {
            Some(digits) => self.read_bytes(alloc, n, digits),
            None => self.read_steps(n, line),
        }
    }

    fn read_bytes(&mut self, alloc: Global, n: u32, digits: &[u8]) -> Result<(), TextEnd>
        ensures { Gives (λ _. self.new) result (bytes_step self.old.session n digits.now) }
    {
        let bytes = bytes_of(alloc, n, digits)?;
        let form = LineForm::Code(bytes);
        self.session.lines.push(SessionLine { line: n, form })?;
        self.place = Place::Code;
        Ok(())
    }

    fn read_steps(&mut self, n: u32, line: &[u8]) -> Result<(), TextEnd>
        ensures { Gives (λ _. self.new) result (go_step self.old.session n line.now) }
    {
        let go = number_after(b"GO ", n, line)?;
        if !is_step(go) {
            return Err(TextEnd::Bad { line: n, code: 2 });
        }
        self.session.go = go;
        self.place = Place::End;
        Ok(())
    }

    fn read_resident(&mut self, alloc: Global, n: u32, line: &[u8]) -> Result<(), TextEnd>
        ensures { Gives (λ _. self.new) result (resident_step self.old.session n line.now) }
    {
        if line == b"RESIDENT".as_slice() {
            self.session.resident = true;
            self.place = Place::Debug;
            return Ok(());
        }
        self.read_entry(alloc, n, line)
    }

    fn read_debug(&mut self, alloc: Global, n: u32, line: &[u8]) -> Result<(), TextEnd>
        ensures { Gives (λ _. self.new) result (debug_step self.old.session n line.now) }
    {
        if line == b"DEBUG".as_slice() {
            self.session.debug = true;
            self.place = Place::Entry;
            return Ok(());
        }
        self.read_entry(alloc, n, line)
    }

    fn read_text(&mut self, alloc: Global, n: u32, line: &[u8]) -> Result<(), TextEnd>
        ensures { Gives (λ _. self.new) result (text_step self.old.session n line.now) }
    {
        match after_word(b":", line) {
            Some(text) => self.add_text(n, text),
            None => self.read_entry(alloc, n, line),
        }
    }

    fn add_text(&mut self, n: u32, text: &[u8]) -> Result<(), TextEnd>
        ensures { Gives (λ _. self.new) result (file_step self.old.session n text.now) }
    {
        if !is_text(text) {
            return Err(TextEnd::Bad { line: n, code: 1 });
        }
        self.session.lines.add_text(text)?;
        self.place = Place::Text;
        Ok(())
    }

    fn read_entry(&mut self, alloc: Global, n: u32, line: &[u8]) -> Result<(), TextEnd>
        ensures { Gives (λ _. self.new) result (entry_step self.old.session n line.now) }
    {
        match statement_of(self.session.version, line) {
            Some(statement) => self.add(alloc, n, statement),
            None => Err(TextEnd::Bad { line: n, code: 1 }),
        }
    }

    fn add(&mut self, alloc: Global, n: u32, statement: Statement<'_>) -> Result<(), TextEnd>
        requires { HasFewNames (seen statement) }
        ensures { Gives (λ _. self.new) result
            (statement_step self.old.session n (seen statement.entry)) }
    {
        match statement {
            Statement::File(name) => self.add_file(alloc, n, name),
            Statement::Task {
                id,
                pri,
                stack,
                names,
            } => self.add_task(alloc, n, id, pri, stack, names),
            Statement::At { step, text } => self.add_typed(n, step, text),
            Statement::Key { step, byte } => self.add_key(n, step, byte),
            Statement::Go(steps) => self.add_steps(n, steps),
        }
    }

    fn add_file(&mut self, alloc: Global, n: u32, name: &[u8]) -> Result<(), TextEnd>
        ensures { Gives (λ _. self.new) result (statement_step self.old.session n (File name.now)) }
    {
        let Some(name) = name_of(name) else {
            return Err(TextEnd::Bad { line: n, code: 2 });
        };
        let bytes = Bytes::new(Vec::new(alloc));
        let form = LineForm::File { name, bytes };
        self.session.lines.push(SessionLine { line: n, form })?;
        self.place = Place::Text;
        Ok(())
    }

    fn add_task(
        &mut self,
        alloc: Global,
        n: u32,
        id: u64,
        pri: u64,
        stack: u64,
        names: &[u8],
    ) -> Result<(), TextEnd>
        requires { length (fields names.now) ≤ 8 }
        ensures { Gives (λ _. self.new) result
            (statement_step self.old.session n (Task id pri stack (fields names.now))) }
    {
        if !is_task(self.session.version, id) || !is_priority(pri) || !is_stack(stack) {
            return Err(TextEnd::Bad { line: n, code: 2 });
        }
        let Some(names) = names_of(names) else {
            return Err(TextEnd::Bad { line: n, code: 2 });
        };
        let form = LineForm::Task {
            id: id as u32,
            pri: pri as u32,
            stack: stack as u32,
            names: Names::new(alloc, names)?,
        };
        self.session.lines.push(SessionLine { line: n, form })?;
        self.place = Place::Entry;
        Ok(())
    }

    fn add_typed(&mut self, n: u32, step: u64, text: &[u8]) -> Result<(), TextEnd>
        ensures { Gives (λ _. self.new) result
            (statement_step self.old.session n (At step text.now)) }
    {
        if !is_step(step) {
            return Err(TextEnd::Bad { line: n, code: 2 });
        }
        let step = step as u32;
        self.session.keys.add_text(step, text)?;
        self.session.keys.push(step, b'\n')?;
        self.place = Place::Entry;
        Ok(())
    }

    fn add_key(&mut self, n: u32, step: u64, byte: u8) -> Result<(), TextEnd>
        ensures { Gives (λ _. self.new) result (statement_step self.old.session n (Key step byte)) }
    {
        if !is_step(step) {
            return Err(TextEnd::Bad { line: n, code: 2 });
        }
        self.session.keys.push(step as u32, byte)?;
        self.place = Place::Entry;
        Ok(())
    }

    fn add_steps(&mut self, n: u32, steps: u64) -> Result<(), TextEnd>
        ensures { Gives (λ _. self.new) result (statement_step self.old.session n (Go steps)) }
    {
        if !is_step(steps) {
            return Err(TextEnd::Bad { line: n, code: 2 });
        }
        self.session.go = steps;
        self.place = Place::End;
        Ok(())
    }
}

// The version that line n says.
fn version_of(n: u32, line: &[u8]) -> Result<u32, TextEnd>
    ensures value { Gives (λ x. x) result (version_line n line.now) }
    ensures long { OnOk result (length line.now ≡ 8) }
{
    if line == b"TRIPOS 1".as_slice() {
        Ok(1)
    } else if line == b"TRIPOS 2".as_slice() {
        Ok(2)
    } else {
        Err(TextEnd::Bad { line: n, code: 1 })
    }
}

// The bytes that the digits of line n are.
fn bytes_of(alloc: Global, n: u32, digits: &[u8]) -> Result<Bytes, TextEnd>
    ensures { Gives (λ b. b) result (bytes_or_refusal n (decode_of digits.now)) }
{
    match hex::decode(alloc, digits) {
        Ok(bytes) => Ok(Bytes::new(bytes)),
        Err(FromHexError::OutOfMemory) => Err(TextEnd::WantMemory),
        Err(_) => Err(TextEnd::Bad { line: n, code: 1 }),
    }
}
