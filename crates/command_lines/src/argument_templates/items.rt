// The items of a command line.
ghost use Rattle.std.specs.Prelude.{◌≡◌, ◌+◌, ◌≤◌, ◌<◌, ◌∷◌, [], length, drop, MatchOption, IfSome};
ghost use Rattle.std.specs.List.{list_any};
ghost use Rattle.command_lines.specs.ArgumentTemplates.Line.{items, items_from, items_in};
ghost use Rattle.command_lines.specs.ArgumentTemplates.Line.Place.{in_quotes, in_word};
ghost use Rattle.command_lines.specs.ArgumentTemplates.Answer.{is_open};

use crate::argument_templates::cuts::{length_before, length_of_spaces};

/// How an item is in its line.
#[derive(Clone, Copy)]
pub enum Form {
    /// Bytes up to a space or the line's end.
    Word,
    /// Bytes between quotes.
    Quoted,
    /// Bytes after a quote that no other closes.
    Open,
}

/// An item, and the places in the line where its bytes begin and end.
#[derive(Clone, Copy)]
pub struct Item {
    /// How its bytes are there.
    pub form: Form,
    /// The place of its first byte.
    pub from: usize,
    /// The place after its last byte.
    pub to: usize,
}

/// The first item that begins at a place of the line or after it, and the place where the next may begin.
pub fn next_item(line: &[u8], at: usize) -> Option<(Item, usize)>
    requires { at ≤ length line.now }
    ensures value { let here = items_from at (drop at line.now) in
        MatchOption result (here ≡ []) (λ x. here ≡ x.0 ∷ items_from x.1 (drop x.1 line.now)) }
    ensures inside { IfSome result (λ x. (x.0.from ≤ x.0.to) × (x.0.to ≤ x.1)) }
    ensures goes_on { IfSome result (λ x. (at < x.1) × (x.1 ≤ length line.now)) }
{
    let rest = &line[at..];
    let from = at + length_of_spaces(rest);
    if from == line.len() {
        return None;
    }
    if line[from] == b'"' {
        Some(quoted_item(line, from + 1))
    } else {
        Some(word(line, from))
    }
}

/// Whether a quote is open at the line's end.
pub fn has_open_quote(line: &[u8]) -> bool
    ensures { result ≡ list_any is_open (items line.now) }
{
    let mut at = 0;
    while let Some((item, after)) = next_item(line, at) {
        if item.form == Form::Open {
            return true;
        }
        at = after;
    }
    false
}

// The item after a quote, and the place after the quote that closes it.
fn quoted_item(line: &[u8], from: usize) -> (Item, usize)
    requires { from ≤ length line.now }
    ensures value { items_in (in_quotes from) from (drop from line.now)
        ≡ result.0 ∷ items_from result.1 (drop result.1 line.now) }
    ensures inside { (result.0.from ≤ result.0.to) × (result.0.to ≤ result.1) }
    ensures goes_on { (from ≤ result.1) × (result.1 ≤ length line.now) }
{
    let rest = &line[from..];
    let to = from + length_before(b'"', rest);
    if to == line.len() {
        (
            Item {
                form: Form::Open,
                from,
                to,
            },
            to,
        )
    } else {
        (
            Item {
                form: Form::Quoted,
                from,
                to,
            },
            to + 1,
        )
    }
}

// The word at a place, and the place after it.
fn word(line: &[u8], from: usize) -> (Item, usize)
    requires { from < length line.now }
    ensures value { items_in (in_word from) (from + 1) (drop (from + 1) line.now)
        ≡ result.0 ∷ items_from result.1 (drop result.1 line.now) }
    ensures inside { (result.0.from ≤ result.0.to) × (result.0.to ≤ result.1) }
    ensures goes_on { (from < result.1) × (result.1 ≤ length line.now) }
{
    let rest = &line[from + 1..];
    let to = from + 1 + length_before(b' ', rest);
    (
        Item {
            form: Form::Word,
            from,
            to,
        },
        to,
    )
}
