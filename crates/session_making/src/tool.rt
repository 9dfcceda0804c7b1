// The text of a session that is asked for, or what is wrong.
ghost use Rattle.std.specs.Prelude.{◌≡◌, ◌+◌, ◌<◌, ◌≤◌, ◌^◌, [], IfOk};
ghost use Rattle.tool_texts.specs.Told.{told_of};
ghost use Rattle.session_making.specs.Ends.{Gives};
ghost use Rattle.session_making.specs.Stops.{Stops};
ghost use Rattle.session_making.specs.Tool.{bare_text, check_read, entries_text, item_place, kernel_text, last_notes, made_text, make_items, next_item, next_word, noted_text, one_item, refused, request_text, session_told};

use crate::bare::bare_code;
use crate::ends::Hindered;
use crate::items::item_of;
use crate::makings::{Frame, Making, Typed, add_item};
use crate::notes::idle_note;
use crate::refusals::refused_text;
use crate::requests::{Kind, Request, request_of};
use crate::sessions::{bare_session, kernel_session, session_text};
use crate::stops::{Place, Refusal, Stop, stop_at};
use crate::wrongs::Wrong;
use module_text::TextEnd;
use session_text::{Session, read_session};
use std::alloc::{AllocError, Global};
use tool_bundles::{BundleEnd, Entry, Listed, read_bundle};
use tool_texts::{Lent, ToolText};

/// A text of so many bytes, or more, is not read: it gets no memory.
const TOO_LONG: usize = 1 << 30;

/// How far the words of a request are read.
#[derive(Clone, Copy)]
pub struct At {
    /// The number of the next item, from 1.
    pub number: usize,
    /// How many words of the item before come first.
    pub others: usize,
}

/// The text of the session that a bundle asks for, after what is noted of it, or what is wrong.
#[tactic(auto, unfolding(crate::specs::Tool::session_told))]
pub fn make_session(alloc: Global, bundle: &[u8]) -> Result<ToolText, AllocError>
    ensures { IfOk result (λ t. told_of t ≡ session_told bundle.now) }
{
    let entries = match read_bundle(alloc, bundle) {
        Ok(entries) => entries,
        Err(BundleEnd::NoBundle) => return refused(alloc, Place::Request, Wrong::NoBundle),
        Err(BundleEnd::WantMemory) => return Err(AllocError),
    };
    match entries_text(alloc, entries.as_slice()) {
        Ok(bytes) => Ok(ToolText {
            is_wrong: false,
            bytes,
        }),
        Err(Stop::Refused(Refusal { place, wrong })) => refused(alloc, place, wrong),
        Err(Stop::WantMemory) => Err(AllocError),
    }
}

// What is wrong at a place.
fn refused(alloc: Global, place: Place, wrong: Wrong) -> Result<ToolText, AllocError>
    ensures { IfOk result (λ t. told_of t ≡ refused place.entry wrong.entry) }
{
    Ok(ToolText {
        is_wrong: true,
        bytes: refused_text(alloc, &place, wrong)?,
    })
}

// The text that words ask for.
fn entries_text<'a>(alloc: Global, entries: &'a [Entry<'a>]) -> Result<Vec<u8>, Stop<'a>>
    ensures { Stops (λ v. v.items) result (entries_text entries.now) }
{
    let request = request_of(entries)?;
    request_text(alloc, &request)
}

// The text that is asked for.
fn request_text<'a>(alloc: Global, request: &Request<'a>) -> Result<Vec<u8>, Stop<'a>>
    ensures { Stops (λ v. v.items) result (request_text request.now) }
{
    match request.kind {
        Kind::Bare => bare_text(alloc, request),
        Kind::Guests | Kind::Shell => kernel_text(alloc, request),
    }
}

// The same, of a bare machine.
fn bare_text<'a>(alloc: Global, request: &Request<'a>) -> Result<Vec<u8>, Stop<'a>>
    ensures { Stops (λ v. v.items) result (bare_text request.now) }
{
    let bare = bare_code(alloc, request.store, request.items.as_slice())?;
    let session = bare_session(alloc, request, bare.code.as_slice())?;
    noted_text(alloc, bare.notes, &session, &[])
}

// The same, of a machine with a kernel.
fn kernel_text<'a>(alloc: Global, request: &Request<'a>) -> Result<Vec<u8>, Stop<'a>>
    ensures { Stops (λ v. v.items) result (kernel_text request.now) }
{
    let frame = Frame {
        kind: request.kind,
        version: request.version,
        reporter: request.reporter,
    };
    let making = make_items(alloc, frame, request.items.as_slice())?;
    made_text(alloc, request, making)
}

// The text of what is made of all items.
fn made_text<'s>(alloc: Global, request: &Request, making: Making) -> Result<Vec<u8>, Stop<'s>>
    ensures { Stops (λ v. v.items) result (made_text request.now making.entry) }
{
    let Making {
        files,
        tasks,
        typed,
        notes,
        ..
    } = making;
    let notes = last_notes(alloc, request.kind, tasks.as_slice().is_empty(), notes)?;
    let session = kernel_session(alloc, request, files.into_vec(), tasks.into_vec())?;
    noted_text(alloc, notes, &session, typed.as_slice())
}

// All notes: one more where no task is in the session of guests.
fn last_notes(
    alloc: Global,
    kind: Kind,
    is_idle: bool,
    notes: Listed<u8>,
) -> Result<Listed<u8>, AllocError>
    ensures { IfOk result (λ n. n ≡ last_notes kind is_idle notes) }
{
    let mut notes = notes;
    if is_idle && matches!(kind, Kind::Guests) {
        notes.append(idle_note(alloc)?)?;
    }
    Ok(notes)
}

// The notes and then the text of a session, which has to be read.
fn noted_text<'s>(
    alloc: Global,
    notes: Listed<u8>,
    session: &Session,
    typed: &[Typed],
) -> Result<Vec<u8>, Stop<'s>>
    requires { session.now.keys ≡ [] }
    ensures { Stops (λ v. v.items) result (noted_text notes session.now typed.now) }
{
    let text = session_text(alloc, session, typed)?;
    check_read(alloc, text.as_slice())?;
    let mut notes = notes;
    notes.append(text)?;
    Ok(notes.into_vec())
}

// Whether a text is that of a session.
fn check_read<'s>(alloc: Global, text: &[u8]) -> Result<(), Stop<'s>>
    ensures { Stops (λ u. u) result (check_read text.now) }
{
    if text.len() >= TOO_LONG {
        return Err(Stop::WantMemory);
    }
    match read_session(alloc, text) {
        Ok(_) => Ok(()),
        Err(TextEnd::WantMemory) => Err(Stop::WantMemory),
        Err(TextEnd::Bad { line, code }) => Err(Stop::Refused(Refusal {
            place: Place::Request,
            wrong: Wrong::NotRead { line, code },
        })),
    }
}

// ---- the items

// What is made of the items that words are.
fn make_items<'a>(
    alloc: Global,
    frame: Frame,
    entries: &'a [Entry<'a>],
) -> Result<Making<'a>, Stop<'a>>
    ensures { Stops (λ m. m) result (make_items frame entries.now) }
{
    let mut making = Making::new(alloc);
    let mut at = At {
        number: 1,
        others: 0,
    };
    for (i, entry) in entries.iter().enumerate() {
        let (_, after) = entries.split_at(i + 1);
        at = next_word(alloc, frame, &mut making, at, &entry.word, after)?;
    }
    Ok(making)
}

// A word comes next, which begins an item unless it is one of the item before.
fn next_word<'a>(
    alloc: Global,
    frame: Frame,
    making: &mut Making<'a>,
    at: At,
    word: &Lent<'a>,
    entries: &'a [Entry<'a>],
) -> Result<At, Stop<'a>>
    requires { at.number < 2 ^ 63 }
    ensures value { Stops (λ a. (making.new, a)) result
        (next_word frame making.old at word.now entries.now) }
    ensures few { IfOk result (λ a. a.number ≤ at.number + 1) }
{
    if at.others > 0 {
        return Ok(At {
            number: at.number,
            others: at.others - 1,
        });
    }
    let others = next_item(alloc, frame, making, at.number, word, entries)?;
    Ok(At {
        number: at.number + 1,
        others,
    })
}

// The item that begins with a word is made: so many of the words after it are the item's.
fn next_item<'a>(
    alloc: Global,
    frame: Frame,
    making: &mut Making<'a>,
    number: usize,
    word: &Lent<'a>,
    entries: &'a [Entry<'a>],
) -> Result<usize, Stop<'a>>
    ensures { Stops (λ n. (making.new, n)) result
        (next_item frame making.old number word.now entries.now) }
{
    match one_item(alloc, frame, making, number, word, entries) {
        Ok(others) => Ok(others),
        Err(hindered) => Err(stop_at(item_place(number, word, entries), hindered)),
    }
}

// The same, without the place of what is wrong.
fn one_item<'a>(
    alloc: Global,
    frame: Frame,
    making: &mut Making<'a>,
    number: usize,
    word: &Lent<'a>,
    entries: &'a [Entry<'a>],
) -> Result<usize, Hindered<'a>>
    ensures { Gives (λ n. (making.new, n)) result
        (one_item frame making.old number word.now entries.now) }
{
    let (item, rest) = item_of(frame.kind, frame.version, word, entries)?;
    add_item(alloc, frame, making, number, item)?;
    Ok(entries.len().saturating_sub(rest.len()))
}

// The place of an item.
fn item_place<'a>(number: usize, word: &Lent<'a>, entries: &'a [Entry<'a>]) -> Place<'a>
    ensures { result ≡ item_place number word.now entries.now }
{
    let next = match entries.split_first() {
        Some((entry, _)) => entry.word.again(),
        None => Lent::new(&[]),
    };
    Place::Item {
        number,
        word: word.again(),
        next,
    }
}
