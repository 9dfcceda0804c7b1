// A text that grows by what is drawn.
ghost use Rattle.std.specs.Prelude.{◌≡◌, ◌<◌, [], IfOk, OnOk, decimal};
ghost use Rattle.tripos_run.specs.SessionGenerator.Draws.{draw, plain, with_next};

use byte_streams::WantMemory;
use itoa::Buffer;
use std::alloc::Global;
use std::marker::Model;

/// A text, and the state that the next draw starts from.
#[derive(Drop)]
pub(crate) struct Draft {
    /// The text so far.
    text: Vec<u8>,
    /// The state of the generator.
    state: u32,
}

impl Model for Draft {
    ghost use Rattle.std.specs.Prelude.{List, ℕ};
    ghost use Rattle.tripos_run.specs.SessionGenerator.Draws.{Drawn};

    ghost Value = { Drawn (List ℕ) };

    ghost view = { λ d. record { value = d.text.items; state = d.state } };
}

impl Draft {
    /// No text yet, but room for so many bytes.
    pub(crate) fn new(alloc: Global, room: usize, state: u32) -> Result<Draft, WantMemory>
        ensures { IfOk result (λ d. d ≡ plain [] state) }
    {
        match Vec::with_capacity(alloc, room) {
            Ok(text) => Ok(Draft { text, state }),
            Err(_) => Err(WantMemory),
        }
    }

    /// Draws a number below the bound.
    pub(crate) fn draw(&mut self, bound: u32) -> u32
        requires { 0 < bound }
        ensures value { result ≡ (draw bound self.old.state).value }
        ensures state { self.new.state ≡ (draw bound self.old.state).state }
        ensures text { self.new.value ≡ self.old.value }
    {
        self.state = self
            .state
            .wrapping_mul(1_664_525)
            .wrapping_add(1_013_904_223);
        self.state / 65_536 % bound
    }

    /// Adds a text.
    pub(crate) fn add(&mut self, text: &[u8]) -> Result<(), WantMemory>
        ensures { OnOk result (self.new ≡ with_next self.old (plain text.now)) }
    {
        match self.text.extend_from_slice(text) {
            Ok(()) => Ok(()),
            Err(_) => Err(WantMemory),
        }
    }

    /// Adds a number in decimal.
    pub(crate) fn add_decimal(&mut self, number: u32) -> Result<(), WantMemory>
        ensures { OnOk result (self.new ≡ with_next self.old (plain (decimal number))) }
    {
        let mut buffer = Buffer::new();
        self.add(buffer.format(number).as_bytes())
    }

    /// The text.
    pub(crate) fn into_text(self) -> Vec<u8>
        ensures { result.items ≡ self.value }
    {
        self.text
    }
}
