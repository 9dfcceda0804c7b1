// What the shell keeps outside the store: its mode, and the line that the console has handed to it.
ghost use Rattle.std.specs.Prelude.{◌≡◌, ◌≤◌, [], length};
ghost use Rattle.kernel_model.specs.KernelRecord.Kernel.Mode.{Prompt};
ghost use Rattle.shell.specs.Modes.{awaited, mode_of};

use crate::modes::Mode;
use arrayvec::ArrayVec;
use std::marker::Model;

/// A mode, and a line of at most 120 bytes.
#[derive(Drop)]
pub struct ShellState {
    /// What the shell does between its turns.
    mode: Mode,
    /// The line that it has from the console.
    line: ArrayVec<u8, 120>,
}

impl Model for ShellState {
    ghost use Rattle.kernel_model.specs.KernelRecord.Kernel.{Shell};
    ghost use Rattle.shell.specs.Modes.{mode_of};

    ghost Value = { Shell };

    ghost view = { λ s. record { mode = mode_of s.mode; line = s.line.items } };
}

impl ShellState {
    /// A mode and a line.
    pub fn new(mode: Mode, line: ArrayVec<u8, 120>) -> ShellState
        ensures { result ≡ record { mode = mode_of mode; line = line.items } }
    {
        ShellState { mode, line }
    }

    /// A shell that prompts, with an empty line.
    pub fn begin() -> ShellState
        ensures { result ≡ record { mode = Prompt; line = [] } }
    {
        ShellState {
            mode: Mode::Prompt,
            line: ArrayVec::new(),
        }
    }

    /// The same mode and line again. It takes no memory.
    pub fn copy(&self) -> ShellState
        ensures { result ≡ self.now }
    {
        let mut line = ArrayVec::new();
        match line.try_extend_from_slice(self.line.as_slice()) {
            Ok(()) => {}
            Err(_) => unreachable!(),
        }
        ShellState {
            mode: self.mode,
            line,
        }
    }

    /// What it does next.
    pub fn mode(&self) -> Mode
        ensures { mode_of result ≡ self.now.mode }
    {
        self.mode
    }

    /// The number of the task for which it waits, or 0.
    pub fn awaited(&self) -> u32
        ensures { result ≡ awaited self.now.mode }
    {
        match self.mode {
            Mode::Waiting(id) => id,
            Mode::Prompt | Mode::Reading | Mode::Typing => 0,
        }
    }

    /// The bytes of the line, lent, of which there are at most 120.
    pub fn line(&self) -> &[u8]
        ensures bytes { result.now ≡ self.now.line }
        ensures fits { length self.now.line ≤ 120 }
    {
        self.line.as_slice()
    }

    /// Changes what it does next.
    pub fn set_mode(&mut self, mode: Mode)
        ensures { self.new ≡ record self.old { mode = mode_of mode } }
    {
        self.mode = mode;
    }

    /// Takes the line, which is empty then, for the console to put another in its place.
    pub fn take_line(&mut self) -> ArrayVec<u8, 120>
        ensures line { result.items ≡ self.old.line }
        ensures rest { self.new ≡ record self.old { line = [] } }
    {
        std::mem::replace(&mut self.line, ArrayVec::new())
    }

    /// Puts a line in place of its own.
    pub fn put_line(&mut self, line: ArrayVec<u8, 120>)
        ensures { self.new ≡ record self.old { line = line.items } }
    {
        self.line = line;
    }
}
