// Who has a queue or sends packets.
ghost use Rattle.std.specs.Prelude.{◌≡◌, ◌++◌, OnOk};
ghost use Rattle.run_names.specs.Parties.{party_named, party_of, party_words};

use kernel_model::numbers::{CLOCK, KEYBOARD, OUTPUT, PENDING};
use module_text::{after_word, number};
use std::alloc::AllocError;
use tool_texts::Said::{Bytes, Number};
use tool_texts::push_sentence;

/// Somebody who has a queue or sends packets.
#[derive(Clone, Copy, Debug, PartialEq, Eq)]
pub enum Party {
    /// The task with this number.
    Task(u32),
    /// The clock.
    Clock,
    /// The keyboard.
    Keyboard,
    /// The output device.
    Output,
    /// The console's reads that wait for a line.
    ConsoleReads,
}

impl Party {
    /// The one with this number, as an event has it: that of a task or of a device, or 103 for the console's reads.
    pub fn of_number(number: i32) -> Party
        ensures { result ≡ party_of number }
    {
        match number.cast_unsigned() {
            CLOCK => Party::Clock,
            KEYBOARD => Party::Keyboard,
            OUTPUT => Party::Output,
            PENDING => Party::ConsoleReads,
            id => Party::Task(id),
        }
    }

    /// The one that these words name, as the lines of a log do: `task` and a number below 2 ^ 32, or the name of a device or of the
    /// console's reads; `None` exactly where they name none.
    pub fn read(words: &[u8]) -> Option<Party>
        ensures { result ≡ party_named words.now }
    {
        if words == b"the clock".as_slice() {
            return Some(Party::Clock);
        }
        if words == b"the keyboard".as_slice() {
            return Some(Party::Keyboard);
        }
        if words == b"the output".as_slice() {
            return Some(Party::Output);
        }
        if words == b"the reads at the console".as_slice() {
            return Some(Party::ConsoleReads);
        }
        let id = number(after_word(b"task ", words)?)?;
        if id > u64::from(u32::MAX) {
            return None;
        }
        Some(Party::Task(id as u32))
    }
}

/// Adds the words that name somebody.
pub fn push_party(text: &mut Vec<u8>, party: Party) -> Result<(), AllocError>
    ensures { OnOk result (text.new.items ≡ text.old.items ++ party_words party) }
{
    match party {
        Party::Task(id) => push_sentence(text, &[Bytes(b"task "), Number(u64::from(id))]),
        Party::Clock => push_sentence(text, &[Bytes(b"the clock")]),
        Party::Keyboard => push_sentence(text, &[Bytes(b"the keyboard")]),
        Party::Output => push_sentence(text, &[Bytes(b"the output")]),
        Party::ConsoleReads => push_sentence(text, &[Bytes(b"the reads at the console")]),
    }
}
