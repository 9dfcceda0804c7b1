// Rows of words or of bytes.
ghost use Rattle.std.specs.Prelude.{◌≡◌};
ghost use Rattle.std.specs.List.{list_any};
ghost use Rattle.state_words.specs.Spans.{first_beyond, has, is_beyond, is_in_any};

/// A row of words or of bytes.
#[derive(Clone, Copy)]
pub struct Span {
    /// The address of the first.
    pub from: u64,
    /// The address after the last.
    pub to: u64,
}

// Whether an address is in a row.
fn has(span: Span, at: u64) -> bool
    ensures { result ≡ has at span }
{
    span.from <= at && at < span.to
}

/// Whether an address is in one of some rows.
pub fn is_in_any(spans: &[Span], at: u64) -> bool
    ensures { result ≡ is_in_any at spans.now }
{
    spans.iter().any(|span| has(*span, at))
}

// Whether a frame at p is in a stack, and the word at an address is after it.
fn is_beyond(stack: Span, p: u64, address: u64) -> bool
    ensures { result ≡ is_beyond p address stack }
{
    has(stack, p) && stack.to <= address
}

/// The first of some stacks in which a frame at p is, and after which the word at an address is; `None` exactly where there is none.
pub fn first_beyond(stacks: &[Span], p: u64, address: u64) -> Option<Span>
    ensures { result ≡ first_beyond p address stacks.now }
{
    for stack in stacks {
        if is_beyond(*stack, p, address) {
            return Some(*stack);
        }
    }
    None
}
