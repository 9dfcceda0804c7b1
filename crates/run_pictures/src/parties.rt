// Who sends a packet, or gets one.
// `run_names` has a party of the same name. That crate knows a store, and comes after this one: here a party is only what the log calls it, of any
// number, and the reads at the console are the console's.
ghost use Rattle.std.specs.Prelude.{◌≡◌, ◌++◌, OnOk, option_map};
ghost use Rattle.run_pictures.specs.Parties.{is_guest, is_task, leading_party, party_name};

use crate::texts::leading_number;
use module_text::after_word;
use std::alloc::AllocError;
use tool_texts::Said::{Bytes, Number};
use tool_texts::push_sentence;

/// A task or a device.
#[derive(Clone, Copy, PartialEq, Eq)]
pub enum Party {
    /// The clock.
    Clock,
    /// The keyboard.
    Keyboard,
    /// The task with this number.
    Task(u64),
    /// The output.
    Output,
}

/// The number of the reporter of faults.
pub const REPORTER: u64 = 2;

/// The number of the first guest. Tasks below it are residents.
const FIRST_GUEST: u64 = 5;

impl Party {
    /// Whether it is a guest.
    pub fn is_guest(self) -> bool
        ensures { result ≡ is_guest self }
    {
        matches!(self, Party::Task(number) if number >= FIRST_GUEST)
    }

    /// Whether it is a task.
    pub fn is_task(self) -> bool
        ensures { result ≡ is_task self }
    {
        matches!(self, Party::Task(_))
    }
}

/// The party with whose name a text begins, and what comes after it; `None` exactly where it begins with none.
pub fn leading_party(text: &[u8]) -> Option<(Party, &[u8])>
    ensures { option_map (λ x. (x.0, x.1.now)) result ≡ leading_party text.now }
{
    if let Some(rest) = after_word(b"task ", text) {
        let (number, rest) = leading_number(rest)?;
        return Some((Party::Task(number), rest));
    }
    if let Some(rest) = after_word(b"the clock", text) {
        return Some((Party::Clock, rest));
    }
    if let Some(rest) = after_word(b"the keyboard", text) {
        return Some((Party::Keyboard, rest));
    }
    let rest = after_word(b"the output", text)?;
    Some((Party::Output, rest))
}

/// Adds the name of a party to a text.
pub fn push_party(text: &mut Vec<u8>, party: Party) -> Result<(), AllocError>
    ensures { OnOk result (text.new.items ≡ text.old.items ++ party_name party) }
{
    match party {
        Party::Clock => push_sentence(text, &[Bytes(b"the clock")]),
        Party::Keyboard => push_sentence(text, &[Bytes(b"the keyboard")]),
        Party::Task(number) => push_sentence(text, &[Bytes(b"task "), Number(number)]),
        Party::Output => push_sentence(text, &[Bytes(b"the output")]),
    }
}
