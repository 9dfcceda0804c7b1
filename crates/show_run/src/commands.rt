// What the words of the command line ask for.
ghost use Rattle.std.specs.Prelude.{◌≡◌, map, string_bytes};
ghost use Rattle.show_run.specs.Words.{command_named, show_of, span, writes, writes_in_span, writes_of_address};

use module_text::number;

/// What is shown of the run of a session.
#[derive(Clone, Copy)]
pub enum Show {
    /// The state in which it stopped.
    State,
    /// What happened in its steps, from the first of these to the last, which are counted from 1; where the first is 0, in its boot
    /// before them.
    Log {
        /// The first step, or 0 for the boot.
        first: u64,
        /// The last step.
        last: u64,
    },
    /// The steps that write one word, of the steps from the first of these to the last; where the first is 0, its boot too.
    Writes {
        /// The word's address.
        address: u32,
        /// The first step, or 0 for the boot.
        first: u64,
        /// The last step.
        last: u64,
    },
}

/// The last step where none is named: more than any machine takes.
pub const LAST: u64 = 9_999_999_999;

/// What the words ask for, or `None` exactly where they ask for nothing: `state`; `log`, or `log` and two numbers of 1 to 10 digits; `writes`
/// and the address of a word, or the same and two such numbers. An address is below 2 ^ 32.
pub fn show_of(words: &[String]) -> Option<Show>
    ensures { result ≡ show_of (map string_bytes words.now) }
{
    match words {
        [word] => command_named(word.as_str()),
        [word, address] => writes(word.as_str(), address.as_str()),
        [word, first, last] => span(word.as_str(), first.as_str(), last.as_str()),
        [word, address, first, last] => writes_in_span(
            word.as_str(),
            address.as_str(),
            first.as_str(),
            last.as_str(),
        ),
        _ => None,
    }
}

fn command_named(word: &str) -> Option<Show>
    ensures { result ≡ command_named word.now }
{
    match word {
        "state" => Some(Show::State),
        "log" => Some(Show::Log {
            first: 0,
            last: LAST,
        }),
        _ => None,
    }
}

fn span(word: &str, first: &str, last: &str) -> Option<Show>
    ensures { result ≡ span word.now first.now last.now }
{
    if word != "log" {
        return None;
    }
    let first = number(first.as_bytes())?;
    let last = number(last.as_bytes())?;
    Some(Show::Log { first, last })
}

fn writes(word: &str, address: &str) -> Option<Show>
    ensures { result ≡ writes word.now address.now }
{
    writes_of_address(word, address, 0, LAST)
}

fn writes_in_span(word: &str, address: &str, first: &str, last: &str) -> Option<Show>
    ensures { result ≡ writes_in_span word.now address.now first.now last.now }
{
    let first = number(first.as_bytes())?;
    let last = number(last.as_bytes())?;
    writes_of_address(word, address, first, last)
}

fn writes_of_address(word: &str, address: &str, first: u64, last: u64) -> Option<Show>
    ensures { result ≡ writes_of_address word.now address.now first last }
{
    if word != "writes" {
        return None;
    }
    let address = number(address.as_bytes())?;
    if address > u64::from(u32::MAX) {
        return None;
    }
    Some(Show::Writes {
        address: address as u32,
        first,
        last,
    })
}
