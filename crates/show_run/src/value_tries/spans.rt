// Values in a row.
ghost use Rattle.std.specs.Prelude.{◌≡◌, ◌+◌, ◌==◌, [], ◌∷◌, ◌++◌, OnOk};
ghost use Rattle.show_run.specs.ValueTries.Spans.{span_of, spans_with};

use std::alloc::{AllocError, Global};
use std::marker::Model;

/// The values from the first to the last.
#[derive(Clone, Copy)]
pub struct Span {
    /// The first value.
    pub first: u64,
    /// The last value.
    pub last: u64,
}

/// Spans, one after the other, seen as their list.
#[derive(Drop)]
pub struct Spans {
    /// The spans.
    list: Vec<Span>,
}

impl Model for Spans {
    ghost use Rattle.std.specs.Prelude.{List};
    ghost use Rattle.show_run.specs.declared.value_tries.spans.Span.{Span};

    ghost Value = { List Span };

    ghost view = { λ s. s.list.items };
}

impl Spans {
    /// No span.
    pub fn new(alloc: Global) -> Spans
        ensures { result ≡ [] }
    {
        Spans {
            list: Vec::new(alloc),
        }
    }

    /// The spans, lent.
    pub fn as_slice(&self) -> &[Span]
        ensures { result.now ≡ self.now }
    {
        self.list.as_slice()
    }

    /// Adds a value after the others: to the last span, where it follows on that, or else as a span of its own.
    pub fn add(&mut self, value: u64) -> Result<(), AllocError>
        ensures { OnOk result (self.new ≡ spans_with value self.old) }
    {
        add_value(value, &mut self.list)
    }
}

fn add_value(value: u64, spans: &mut Vec<Span>) -> Result<(), AllocError>
    ensures { OnOk result (spans.new.items ≡ spans_with value spans.old.items) }
{
    match spans.pop() {
        Some(last) => add_after(last, value, spans),
        None => {
            spans.push(span_of(value))?;
            Ok(())
        }
    }
}

// Adds the last span, and a value after it.
fn add_after(last: Span, value: u64, spans: &mut Vec<Span>) -> Result<(), AllocError>
    ensures { OnOk result (spans.new.items ≡ spans.old.items ++ spans_with value (last ∷ [])) }
{
    if follows(last.last, value) {
        let first = last.first;
        spans.push(Span { first, last: value })?;
        return Ok(());
    }
    spans.push(last)?;
    spans.push(span_of(value))?;
    Ok(())
}

// Whether a value is the next one.
fn follows(last: u64, value: u64) -> bool
    ensures { result ≡ (last + 1 == value) }
{
    last < value && last + 1 == value
}

/// The span of one value.
pub fn span_of(value: u64) -> Span
    ensures { result ≡ span_of value }
{
    Span {
        first: value,
        last: value,
    }
}
