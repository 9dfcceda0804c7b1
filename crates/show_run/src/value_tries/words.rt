// What the words of the command line ask for, where they ask for tries.
ghost use Rattle.std.specs.Prelude.{◌≡◌, ◌==◌, IfOk, IsSome, OnErr, is_some, map, option_map, string_bytes};
ghost use Rattle.std.specs.List.{position};
ghost use Rattle.show_run.specs.ValueTries.TryWords.{asked_with, numbered_setting, plain_tries, seen, span_between, span_in, spans_in, tries_of};

use crate::value_tries::settings::Setting;
use crate::value_tries::spans::{Span, span_of};
use module_text::number;
use std::alloc::{AllocError, Global};

/// Tries of values: what is set anew, and to which values, in this order.
#[derive(Drop)]
pub struct Tries {
    /// What is set anew.
    pub setting: Setting,
    /// Its values.
    pub spans: Vec<Span>,
}

/// What the words ask for, or `None` exactly where they ask for no tries: `tries`, then `tick`, `key K`, `priority TASK` or `stack TASK`,
/// and then values, at least one: `N`, or `N-M` for each number from N to M. Memory is taken only where they ask for tries.
pub fn tries_of(alloc: Global, words: &[String]) -> Result<Option<Tries>, AllocError>
    ensures tries { IfOk result (λ asked. option_map seen asked
        ≡ tries_of (map string_bytes words.now)) }
    ensures memory { OnErr result (IsSome (tries_of (map string_bytes words.now))) }
{
    match words {
        [tries, what, values @ ..] if tries.as_str() == "tries" => {
            tries_with(alloc, what.as_str(), values)
        }
        _ => Ok(None),
    }
}

fn tries_with(alloc: Global, what: &str, words: &[String]) -> Result<Option<Tries>, AllocError>
    ensures tries { IfOk result (λ asked. option_map seen asked
        ≡ plain_tries what.now (map string_bytes words.now)) }
    ensures memory { OnErr result (IsSome (plain_tries what.now (map string_bytes words.now))) }
{
    if what == "tick" {
        return tries_at(alloc, Setting::Tick, words);
    }
    match words {
        [number, values @ ..] => match numbered_setting(what.as_bytes(), number.as_bytes()) {
            Some(setting) => tries_at(alloc, setting, values),
            None => Ok(None),
        },
        [] => Ok(None),
    }
}

/// What is set of the key or the task with a number.
pub(crate) fn numbered_setting(what: &[u8], digits: &[u8]) -> Option<Setting>
    ensures { result ≡ numbered_setting what.now digits.now }
{
    let number = number(digits)?;
    if what == b"key".as_slice() {
        return Some(Setting::Key(number));
    }
    if what == b"priority".as_slice() {
        return Some(Setting::Priority(number));
    }
    if what == b"stack".as_slice() {
        return Some(Setting::Stack(number));
    }
    None
}

// The tries of the values that the words are, if each is one, and there is one at least.
fn tries_at(alloc: Global, setting: Setting, words: &[String]) -> Result<Option<Tries>, AllocError>
    ensures tries { IfOk result (λ asked. option_map seen asked
        ≡ asked_with setting (map string_bytes words.now)) }
    ensures memory { OnErr result (IsSome (asked_with setting (map string_bytes words.now))) }
{
    if words.is_empty() {
        return Ok(None);
    }
    match spans_in(alloc, words)? {
        Some(spans) => Ok(Some(Tries { setting, spans })),
        None => Ok(None),
    }
}

// The values that the words are, if each is one. Memory is taken only then.
fn spans_in(alloc: Global, words: &[String]) -> Result<Option<Vec<Span>>, AllocError>
    ensures spans { IfOk result (λ spans. option_map (λ v. v.items) spans
        ≡ spans_in (map string_bytes words.now)) }
    ensures memory { OnErr result (IsSome (spans_in (map string_bytes words.now))) }
{
    if are_spans(words) {
        return read_spans(alloc, words);
    }
    Ok(None)
}

fn are_spans(words: &[String]) -> bool
    ensures { result ≡ is_some (spans_in (map string_bytes words.now)) }
{
    for word in words {
        if span_in(word.as_bytes()).is_none() {
            return false;
        }
    }
    true
}

fn read_spans(alloc: Global, words: &[String]) -> Result<Option<Vec<Span>>, AllocError>
    ensures { IfOk result (λ spans. option_map (λ v. v.items) spans
        ≡ spans_in (map string_bytes words.now)) }
{
    let mut spans = Vec::new(alloc);
    for word in words {
        match span_in(word.as_bytes()) {
            Some(span) => spans.push(span)?,
            None => return Ok(None),
        }
    }
    Ok(Some(spans))
}

/// The value or the values that a word is, if it is that.
pub(crate) fn span_in(word: &[u8]) -> Option<Span>
    ensures { result ≡ span_in word.now }
{
    match first_dash(word) {
        Some(end) => span_between(&word[..end], &word[end + 1..]),
        None => Some(span_of(number(word)?)),
    }
}

/// Where the first `-` of a word is.
pub(crate) fn first_dash(word: &[u8]) -> Option<usize>
    ensures { result ≡ position (λ c. c == 45) word.now }
{
    word.iter().position(|c| *c == b'-')
}

// Each number from the first to the last, if that is no less.
fn span_between(first: &[u8], last: &[u8]) -> Option<Span>
    ensures { result ≡ span_between first.now last.now }
{
    let first = number(first)?;
    let last = number(last)?;
    if last < first {
        return None;
    }
    Some(Span { first, last })
}
