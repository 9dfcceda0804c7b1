// What is asked of a session as a whole.
ghost use Rattle.std.specs.Prelude.{◌≡◌};
ghost use Rattle.session_making.specs.Ends.{Gives};
ghost use Rattle.session_making.specs.Requests.{kind_of, no_steps, period_of, request_of, split_word, steps_of, steps_word, store_of, version_of};

use crate::ends::Hindered;
use crate::numbers::{most_words, period_in, steps_in, store_in, version_in};
use crate::wrongs::Wrong;
use tool_bundles::{Entries, Entry};
use tool_texts::Lent;

/// Which machine a session has.
#[derive(Clone, Copy)]
pub enum Kind {
    /// One without a kernel.
    Bare,
    /// One with a kernel and tasks.
    Guests,
    /// One with the residents, too.
    Shell,
}

/// What is asked of a session as a whole, and the words after that.
#[derive(Drop)]
pub struct Request<'a> {
    /// Which machine it has.
    pub kind: Kind,
    /// 1 or 2.
    pub version: u32,
    /// The size of the store in words.
    pub store: u32,
    /// The steps from one tick of the clock to the next; 0 on a bare machine.
    pub period: u32,
    /// Whether the task that reports faults is there.
    pub reporter: bool,
    /// The most steps that it runs.
    pub steps: u64,
    /// The programs of a bare machine, or the items.
    pub items: Entries<'a>,
}

/// The request of these words: a kind, a version, a store, a period and `-d` or `-`, then the steps, and then programs or items.
pub fn request_of<'a>(entries: &'a [Entry<'a>]) -> Result<Request<'a>, Hindered<'a>>
    ensures { Gives (λ r. r) result (request_of entries.now) }
{
    let (name, rest) = split_word(entries)?;
    let kind = kind_of(&name)?;
    let (version, rest) = split_word(rest)?;
    let (store, rest) = split_word(rest)?;
    let (period, rest) = split_word(rest)?;
    let (reporter, rest) = split_word(rest)?;
    let (steps, items) = steps_word(kind, name, rest)?;
    let version = version_of(version)?;
    let store = store_of(version, store)?;
    let steps = steps_of(steps)?;
    let period = period_of(kind, period)?;
    Ok(Request {
        kind,
        version,
        store,
        period,
        reporter: reporter.bytes() == b"-d".as_slice(),
        steps,
        items: Entries::new(items),
    })
}

// The first word of a request, and those after it.
fn split_word<'a>(entries: &'a [Entry<'a>]) -> Result<(Lent<'a>, &'a [Entry<'a>]), Hindered<'a>>
    ensures { Gives (λ x. (x.0, x.1.now)) result (split_word entries.now) }
{
    match entries.split_first() {
        Some((entry, others)) => Ok((entry.word.again(), others)),
        None => Err(Hindered::Refused(Wrong::NoRequest)),
    }
}

// The machine with this name.
fn kind_of<'a>(name: &Lent<'a>) -> Result<Kind, Hindered<'a>>
    ensures { Gives (λ k. k) result (kind_of name.now) }
{
    let name = name.bytes();
    if name == b"bare".as_slice() {
        Ok(Kind::Bare)
    } else if name == b"guests".as_slice() {
        Ok(Kind::Guests)
    } else if name == b"shell".as_slice() {
        Ok(Kind::Shell)
    } else {
        Err(Hindered::Refused(Wrong::NoRequest))
    }
}

// The word of the steps, and the words after it, of which a bare machine has one at least.
fn steps_word<'a>(
    kind: Kind,
    name: Lent<'a>,
    entries: &'a [Entry<'a>],
) -> Result<(Lent<'a>, &'a [Entry<'a>]), Hindered<'a>>
    ensures { Gives (λ x. (x.0, x.1.now)) result (steps_word kind name.entry entries.now) }
{
    let Some((steps, items)) = entries.split_first() else {
        return Err(Hindered::Refused(no_steps(kind, name)));
    };
    if matches!(kind, Kind::Bare) && items.is_empty() {
        return Err(Hindered::Refused(Wrong::NoPrograms(steps.word.again())));
    }
    Ok((steps.word.again(), items))
}

// The steps are missing.
fn no_steps(kind: Kind, name: Lent<'_>) -> Wrong<'_>
    ensures { result ≡ no_steps kind name.entry }
{
    match kind {
        Kind::Bare => Wrong::NoBareSteps,
        Kind::Guests | Kind::Shell => Wrong::NoSteps(name),
    }
}

fn version_of(word: Lent<'_>) -> Result<u32, Hindered<'_>>
    ensures { Gives (λ n. n) result (version_of word.entry) }
{
    match version_in(word.bytes()) {
        Some(version) => Ok(version),
        None => Err(Hindered::Refused(Wrong::NoVersion(word))),
    }
}

fn store_of(version: u32, word: Lent<'_>) -> Result<u32, Hindered<'_>>
    ensures { Gives (λ n. n) result (store_of version word.entry) }
{
    match store_in(version, word.bytes()) {
        Some(words) => Ok(words),
        None => {
            let most = most_words(version);
            Err(Hindered::Refused(Wrong::StoreSize { most, word }))
        }
    }
}

fn steps_of(word: Lent<'_>) -> Result<u64, Hindered<'_>>
    ensures { Gives (λ n. n) result (steps_of word.entry) }
{
    match steps_in(word.bytes()) {
        Some(steps) => Ok(steps),
        None => Err(Hindered::Refused(Wrong::Steps(word))),
    }
}

// The period of the clock, which a bare machine has not.
fn period_of(kind: Kind, word: Lent<'_>) -> Result<u32, Hindered<'_>>
    ensures { Gives (λ n. n) result (period_of kind word.entry) }
{
    if matches!(kind, Kind::Bare) {
        return Ok(0);
    }
    match period_in(word.bytes()) {
        Some(period) => Ok(period),
        None => Err(Hindered::Refused(Wrong::Period(word))),
    }
}
