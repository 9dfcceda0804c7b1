// What an instruction has done, by its text and by what it wrote.
ghost use Rattle.std.specs.Prelude.{◌≡◌, ◌==◌};
ghost use Rattle.std.specs.List.{position};
ghost use Rattle.state_words.specs.Instructions.{has_led, leads_always, name_of};

use log_words::bytes::split_at_blank;
use module_text::{after_word, number};

/// The words of a frame that a call writes.
const FRAME_WORDS: u64 = 4;

/// A frame, or a word of one, that an instruction wrote.
#[derive(Clone, Copy)]
pub struct WrittenFrame {
    /// The frame of the one that wrote it, as the address of a word.
    pub p: u64,
    /// How many words it wrote.
    pub words: u64,
}

/// Whether an instruction has led elsewhere than to the one after it. It was at one byte, and the next one is at another.
pub fn has_led(instruction: &[u8], from: u32, to: u32) -> bool
    ensures { result ≡ has_led instruction.now from to }
{
    let name = name_of(instruction);
    let from = u64::from(from);
    let to = u64::from(to);
    if leads_always(name) {
        return true;
    }
    match name {
        [b'J', ..] => to != from + 2,
        _ => name == b"SYS".as_slice() && to != from + 1,
    }
}

// Whether an instruction of this name leads elsewhere each time: a return, a jump without a condition, a switch or a call.
fn leads_always(name: &[u8]) -> bool
    ensures { result ≡ leads_always name.now }
{
    match name {
        b"RTN" | b"GOTO" | b"SWB" | b"SWL" | b"J" | b"J$" => true,
        [b'K', ..] => true,
        _ => false,
    }
}

// The name of an instruction: what comes before the first blank.
fn name_of(instruction: &[u8]) -> &[u8]
    ensures { result.now ≡ name_of instruction.now }
{
    match first_blank(instruction) {
        Some(end) => &instruction[..end],
        None => instruction,
    }
}

fn first_blank(text: &[u8]) -> Option<usize>
    ensures { result ≡ position (λ c. c == 32) text.now }
{
    text.iter().position(|c| *c == b' ')
}

/// The frame of an instruction that wrote a word as its first one: a call writes the caller's frame as the first word of the new one, and `SP`
/// writes the word of its own frame that it names. `None` where it is another instruction.
pub fn written_frame(instruction: &[u8], address: u64, word: i64) -> Option<WrittenFrame> {
    match instruction {
        [b'K', ..] => Some(WrittenFrame {
            p: u64::try_from(word).ok()?,
            words: FRAME_WORDS,
        }),
        [b'S', b'P', ..] => Some(WrittenFrame {
            p: address.checked_sub(word_of_frame(instruction)?)?,
            words: 1,
        }),
        _ => None,
    }
}

// Which word of its frame an instruction `SP` names: by its operand, or by its name.
fn word_of_frame(instruction: &[u8]) -> Option<u64> {
    match split_at_blank(instruction) {
        Some((name, operand)) => operand_of(name, operand),
        None => number(after_word(b"SP", instruction)?),
    }
}

// The operand, where the name is one that has it.
fn operand_of(name: &[u8], operand: &[u8]) -> Option<u64> {
    match name {
        b"SP" | b"SPH" | b"SPW" => number(operand),
        _ => None,
    }
}
