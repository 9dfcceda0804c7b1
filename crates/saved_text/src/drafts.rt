// A saved machine as far as it was read.
ghost use Rattle.std.specs.Prelude.{◌≡◌, ◌≤◌, [], IsTrue, Ok, OnOk, length, replicate};
ghost use Rattle.module_text.specs.TextReader.Answers.{Gives};
ghost use Rattle.saved_text.specs.SavedLines.HexText.{bytes_of, is_hex};
ghost use Rattle.saved_text.specs.SavedLines.Seen.{HasHex, seen};
ghost use Rattle.saved_text.specs.ImageOfText.{bytes_step, console_step, ended, entry_step, file_step, first_draft, go_step, key_step, machine_step, pipe_step, regs_step, ring_step, shell_step, statement_step, step, step_step, store_step, stream_step, tick_step, version_line, version_step, word_step};
ghost use Rattle.saved_text.specs.Places.{has_files, has_go, has_keys, pipe_floor, stream_floor, word_floor};

use crate::ranges::{
    are_pipe_numbers, flag_of, is_period, is_step, is_store_size, may_take, mode_of, name_of,
    stream_of,
};
use crate::saved_lines::{
    Statement, console_of, decoded, read_regs, ring_of, shell_of, statement_of,
};
use crate::{Files, Image, Mode, Pipes, SavedFile, SavedPipe, Streams};
use module_text::{TextEnd, number_after};
use session_text::{Bytes, Keys};
use std::alloc::Global;
use word_store::{Regs, Store};

/// What may come next in the text of a saved machine.
#[derive(Clone, Copy)]
pub enum Place {
    /// The version.
    Version,
    /// The size of the store.
    Store,
    /// `BARE`, or the period of the clock.
    Machine,
    /// The steps taken.
    Step,
    /// The registers.
    Regs,
    /// The type-ahead.
    Ring,
    /// The console's line.
    Console,
    /// The shell's mode and line.
    Shell,
    /// A file, bytes of the last one, or what may come after them.
    File,
    /// A stream from this number on, or what may come after streams.
    Stream(u64),
    /// A pipe from this number on, or what may come after pipes.
    Pipe(u64),
    /// A key, or what may come after keys.
    Key,
    /// A word from this address on, or the last line.
    Word(u64),
    /// Nothing.
    End,
}

/// A saved machine as far as it was read, and what may come next.
#[derive(Drop)]
pub struct Draft {
    /// What may come next.
    pub place: Place,
    /// The machine so far.
    pub image: Image,
}

impl Draft {
    /// Nothing was read. `WantMemory` comes only where memory could not be had.
    pub fn new(alloc: Global) -> Result<Draft, TextEnd>
        ensures { Gives (λ d. d) result (Ok first_draft) }
    {
        let store = zeros(alloc, 0)?;
        Ok(Draft {
            place: Place::Version,
            image: Image {
                version: 0,
                bare: false,
                store,
                period: 0,
                step: 0,
                regs: no_regs(),
                ring: no_bytes(alloc),
                finished: false,
                line: no_bytes(alloc),
                mode: Mode::Prompt,
                command: no_bytes(alloc),
                files: Files::new(Vec::new(alloc)),
                streams: Streams::new(Vec::new(alloc)),
                pipes: Pipes::new(Vec::new(alloc)),
                keys: Keys::new(Vec::new(alloc)),
                go: 0,
            },
        })
    }

    /// Reads line n.
    #[tactic(auto, unfolding(crate::specs::ImageOfText::step))]
    pub fn read_line(&mut self, alloc: Global, n: u32, line: &[u8]) -> Result<(), TextEnd>
        ensures value { Gives (λ _. self.new) result (step self.old n line.now) }
        ensures long { OnOk result (self.old.place ≡ Place.Version → 14 ≤ length line.now) }
    {
        match self.place {
            Place::Version => self.read_version(n, line),
            Place::Store => self.read_store(alloc, n, line),
            Place::Machine => self.read_machine(n, line),
            Place::Step => self.read_step(n, line),
            Place::Regs => self.read_registers(n, line),
            Place::Ring => self.read_ring(alloc, n, line),
            Place::Console => self.read_console(alloc, n, line),
            Place::Shell => self.read_shell(alloc, n, line),
            _ => self.read_entry(alloc, n, line),
        }
    }

    /// The machine, where its last line was read; line n would be the next.
    pub fn end(self, n: u32) -> Result<Image, TextEnd>
        ensures { Gives (λ x. x) result (ended self.place self.image n) }
    {
        match self.place {
            Place::End => Ok(self.image),
            _ => Err(TextEnd::Bad { line: n, code: 3 }),
        }
    }

    fn read_version(&mut self, n: u32, line: &[u8]) -> Result<(), TextEnd>
        ensures value { Gives (λ _. self.new) result (version_step self.old.image n line.now) }
        ensures long { OnOk result (length line.now ≡ 14) }
    {
        self.image.version = version_of(n, line)?;
        self.place = Place::Store;
        Ok(())
    }

    fn read_store(&mut self, alloc: Global, n: u32, line: &[u8]) -> Result<(), TextEnd>
        ensures { Gives (λ _. self.new) result (store_step self.old.image n line.now) }
    {
        let words = number_after(b"STORE ", n, line)?;
        if !is_store_size(self.image.version, words) {
            return Err(TextEnd::Bad { line: n, code: 2 });
        }
        self.image.store = zeros(alloc, words as u32)?;
        self.place = Place::Machine;
        Ok(())
    }

    fn read_machine(&mut self, n: u32, line: &[u8]) -> Result<(), TextEnd>
        ensures { Gives (λ _. self.new) result (machine_step self.old.image n line.now) }
    {
        if line == b"BARE".as_slice() {
            self.image.bare = true;
            self.place = Place::Step;
            return Ok(());
        }
        self.read_period(n, line)
    }

    fn read_period(&mut self, n: u32, line: &[u8]) -> Result<(), TextEnd>
        ensures { Gives (λ _. self.new) result (tick_step self.old.image n line.now) }
    {
        let period = number_after(b"TICK ", n, line)?;
        if !is_period(period) {
            return Err(TextEnd::Bad { line: n, code: 2 });
        }
        self.image.period = period as u32;
        self.place = Place::Step;
        Ok(())
    }

    fn read_step(&mut self, n: u32, line: &[u8]) -> Result<(), TextEnd>
        ensures { Gives (λ _. self.new) result (step_step self.old.image n line.now) }
    {
        let step = number_after(b"STEP ", n, line)?;
        if !is_step(step) {
            return Err(TextEnd::Bad { line: n, code: 2 });
        }
        self.image.step = step;
        self.place = Place::Regs;
        Ok(())
    }

    fn read_registers(&mut self, n: u32, line: &[u8]) -> Result<(), TextEnd>
        ensures { Gives (λ _. self.new) result (regs_step self.old.image n line.now) }
    {
        self.image.regs = read_regs(n, line)?;
        self.place = if self.image.bare {
            Place::Word(0)
        } else {
            Place::Ring
        };
        Ok(())
    }

    fn read_ring(&mut self, alloc: Global, n: u32, line: &[u8]) -> Result<(), TextEnd>
        ensures { Gives (λ _. self.new) result (ring_step self.old.image n line.now) }
    {
        let Some(digits) = ring_of(line) else {
            return Err(TextEnd::Bad { line: n, code: 1 });
        };
        self.image.ring = Bytes::new(decoded(alloc, digits)?);
        self.place = Place::Console;
        Ok(())
    }

    fn read_console(&mut self, alloc: Global, n: u32, line: &[u8]) -> Result<(), TextEnd>
        ensures { Gives (λ _. self.new) result (console_step self.old.image n line.now) }
    {
        let Some((d, digits)) = console_of(line) else {
            return Err(TextEnd::Bad { line: n, code: 1 });
        };
        let Some(finished) = flag_of(d) else {
            return Err(TextEnd::Bad { line: n, code: 2 });
        };
        self.image.line = Bytes::new(decoded(alloc, digits)?);
        self.image.finished = finished;
        self.place = Place::Shell;
        Ok(())
    }

    fn read_shell(&mut self, alloc: Global, n: u32, line: &[u8]) -> Result<(), TextEnd>
        ensures { Gives (λ _. self.new) result (shell_step self.old.image n line.now) }
    {
        let Some((m, x, digits)) = shell_of(line) else {
            return Err(TextEnd::Bad { line: n, code: 1 });
        };
        let Some(mode) = mode_of(m, x) else {
            return Err(TextEnd::Bad { line: n, code: 2 });
        };
        self.image.command = Bytes::new(decoded(alloc, digits)?);
        self.image.mode = mode;
        self.place = Place::File;
        Ok(())
    }

    fn read_entry(&mut self, alloc: Global, n: u32, line: &[u8]) -> Result<(), TextEnd>
        ensures { Gives (λ _. self.new) result
            (entry_step self.old.place self.old.image n line.now) }
    {
        match statement_of(line) {
            Some(statement) => self.add(alloc, n, statement),
            None => Err(TextEnd::Bad { line: n, code: 1 }),
        }
    }

    fn add(&mut self, alloc: Global, n: u32, statement: Statement<'_>) -> Result<(), TextEnd>
        requires { HasHex statement }
        ensures { Gives (λ _. self.new) result
            (statement_step self.old.place self.old.image n (seen statement.entry)) }
    {
        match statement {
            Statement::File(name) => self.add_file(alloc, n, name),
            Statement::Bytes(digits) => self.add_bytes(alloc, n, digits),
            Statement::Stream {
                k,
                mode,
                position,
                name,
            } => self.add_stream(n, k, mode, position, name),
            Statement::Pipe {
                k,
                reading,
                writing,
                written,
                name,
                digits,
            } => self.add_pipe(alloc, n, k, reading, writing, written, name, digits),
            Statement::Key { step, byte } => self.add_key(n, step, byte),
            Statement::Word { address, word } => self.add_word(n, address, word),
            Statement::Go(steps) => self.add_go(n, steps),
        }
    }

    fn add_file(&mut self, alloc: Global, n: u32, name: &[u8]) -> Result<(), TextEnd>
        ensures { Gives (λ _. self.new) result
            (file_step self.old.place self.old.image n name.now) }
    {
        if !has_files(self.place) || !self.image.files.are_before(name) {
            return Err(TextEnd::Bad { line: n, code: 1 });
        }
        let Some(name) = name_of(name) else {
            return Err(TextEnd::Bad { line: n, code: 2 });
        };
        let bytes = no_bytes(alloc);
        self.image.files.push(SavedFile { name, bytes })?;
        self.place = Place::File;
        Ok(())
    }

    fn add_bytes(&mut self, alloc: Global, n: u32, digits: &[u8]) -> Result<(), TextEnd>
        requires { IsTrue (is_hex digits.now) }
        ensures { Gives (λ _. self.new) result
            (bytes_step self.old.place self.old.image n (bytes_of digits.now)) }
    {
        if !has_files(self.place) || !self.image.files.takes_bytes() {
            return Err(TextEnd::Bad { line: n, code: 1 });
        }
        self.image.files.add_bytes(alloc, digits)?;
        self.place = Place::File;
        Ok(())
    }

    fn add_stream(
        &mut self,
        n: u32,
        k: u64,
        mode: u64,
        position: u64,
        name: &[u8],
    ) -> Result<(), TextEnd>
        ensures { Gives (λ _. self.new) result
            (stream_step self.old.place self.old.image n k mode position name.now) }
    {
        let Some(floor) = stream_floor(self.place) else {
            return Err(TextEnd::Bad { line: n, code: 1 });
        };
        if k < floor {
            return Err(TextEnd::Bad { line: n, code: 1 });
        }
        let Some(stream) = stream_of(k, mode, position, name) else {
            return Err(TextEnd::Bad { line: n, code: 2 });
        };
        self.image.streams.push(stream)?;
        self.place = Place::Stream(k + 1);
        Ok(())
    }

    fn add_pipe(
        &mut self,
        alloc: Global,
        n: u32,
        k: u64,
        r: u64,
        w: u64,
        e: u64,
        name: &[u8],
        digits: &[u8],
    ) -> Result<(), TextEnd>
        requires { IsTrue (is_hex digits.now) }
        ensures { Gives (λ _. self.new) result
            (pipe_step self.old.place self.old.image n k r w e name.now (bytes_of digits.now)) }
    {
        let Some(floor) = pipe_floor(self.place) else {
            return Err(TextEnd::Bad { line: n, code: 1 });
        };
        if k < floor {
            return Err(TextEnd::Bad { line: n, code: 1 });
        }
        if !are_pipe_numbers(k, r, w, e) {
            return Err(TextEnd::Bad { line: n, code: 2 });
        }
        let Some(name) = name_of(name) else {
            return Err(TextEnd::Bad { line: n, code: 2 });
        };
        let pipe = SavedPipe {
            k: k as u32,
            reading: r == 1,
            writing: w == 1,
            written: e == 1,
            name,
            held: Bytes::new(decoded(alloc, digits)?),
        };
        self.image.pipes.push(pipe)?;
        self.place = Place::Pipe(k + 1);
        Ok(())
    }

    fn add_key(&mut self, n: u32, step: u64, byte: u8) -> Result<(), TextEnd>
        ensures { Gives (λ _. self.new) result
            (key_step self.old.place self.old.image n step byte) }
    {
        if !has_keys(self.place) {
            return Err(TextEnd::Bad { line: n, code: 1 });
        }
        if !is_step(step) {
            return Err(TextEnd::Bad { line: n, code: 2 });
        }
        self.image.keys.push(step as u32, byte)?;
        self.place = Place::Key;
        Ok(())
    }

    fn add_word(&mut self, n: u32, address: u64, word: u32) -> Result<(), TextEnd>
        ensures { Gives (λ _. self.new) result
            (word_step self.old.place self.old.image n address word) }
    {
        let Some(floor) = word_floor(self.place) else {
            return Err(TextEnd::Bad { line: n, code: 1 });
        };
        if address < floor {
            return Err(TextEnd::Bad { line: n, code: 1 });
        }
        if address >= u64::from(self.image.store.size()) || word == 0 {
            return Err(TextEnd::Bad { line: n, code: 2 });
        }
        self.image.store.set(address as u32, word);
        self.place = Place::Word(address + 1);
        Ok(())
    }

    fn add_go(&mut self, n: u32, go: u64) -> Result<(), TextEnd>
        ensures { Gives (λ _. self.new) result (go_step self.old.place self.old.image n go) }
    {
        if !has_go(self.place) {
            return Err(TextEnd::Bad { line: n, code: 1 });
        }
        if !may_take(self.image.step, go) {
            return Err(TextEnd::Bad { line: n, code: 2 });
        }
        self.image.go = go;
        self.place = Place::End;
        Ok(())
    }
}

// ---- what may come at a place

fn has_files(place: Place) -> bool
    ensures { result ≡ has_files place }
{
    matches!(place, Place::File)
}

fn stream_floor(place: Place) -> Option<u64>
    ensures { result ≡ stream_floor place }
{
    match place {
        Place::File => Some(0),
        Place::Stream(floor) => Some(floor),
        _ => None,
    }
}

fn pipe_floor(place: Place) -> Option<u64>
    ensures { result ≡ pipe_floor place }
{
    match place {
        Place::File | Place::Stream(_) => Some(0),
        Place::Pipe(floor) => Some(floor),
        _ => None,
    }
}

fn has_keys(place: Place) -> bool
    ensures { result ≡ has_keys place }
{
    matches!(
        place,
        Place::File | Place::Stream(_) | Place::Pipe(_) | Place::Key
    )
}

fn word_floor(place: Place) -> Option<u64>
    ensures { result ≡ word_floor place }
{
    match place {
        Place::File | Place::Stream(_) | Place::Pipe(_) | Place::Key => Some(0),
        Place::Word(floor) => Some(floor),
        _ => None,
    }
}

fn has_go(place: Place) -> bool
    ensures { result ≡ has_go place }
{
    matches!(
        place,
        Place::File | Place::Stream(_) | Place::Pipe(_) | Place::Key | Place::Word(_)
    )
}

// ---- parts of a draft

// The version that line n says.
fn version_of(n: u32, line: &[u8]) -> Result<u32, TextEnd>
    ensures value { Gives (λ x. x) result (version_line n line.now) }
    ensures long { OnOk result (length line.now ≡ 14) }
{
    if line == b"TRIPOS-IMAGE 1".as_slice() {
        Ok(1)
    } else if line == b"TRIPOS-IMAGE 2".as_slice() {
        Ok(2)
    } else {
        Err(TextEnd::Bad { line: n, code: 1 })
    }
}

// A store of that many zeros.
fn zeros(alloc: Global, words: u32) -> Result<Store, TextEnd>
    ensures { Gives (λ s. s) result (Ok (replicate words 0)) }
{
    match Store::new(alloc, words) {
        Ok(store) => Ok(store),
        Err(_) => Err(TextEnd::WantMemory),
    }
}

fn no_bytes(alloc: Global) -> Bytes
    ensures { result ≡ [] }
{
    Bytes::new(Vec::new(alloc))
}

fn no_regs() -> Regs
    ensures { result ≡ record { a = 0; b = 0; c = 0; p = 0; g = 0; pc = 0 } }
{
    Regs {
        a: 0,
        b: 0,
        c: 0,
        p: 0,
        g: 0,
        pc: 0,
    }
}
