// What is noted of a session that is made.
ghost use Rattle.std.specs.Prelude.{◌≡◌, ◌++◌, ◌∷◌, [], None, IfOk, OnOk};
ghost use Rattle.std.specs.List.{flat_map, list_any};
ghost use Rattle.std.specs.Option.{option_copied};
ghost use Rattle.std.specs.Str.{bytes_eq};
ghost use Rattle.session_making.specs.Notes.{add_clash, are_same, are_several, clash_note, clash_notes, clashes_after, file_clashes, globals_in, globals_note, idle_note, is_told, no_clashes, no_start_note, note_clash, notes_after, number_text, numbers_text, one_clash, set_by, setter_in, several_clashes, short_note, source_at, start_note};

use crate::programs::Source;
use std::alloc::{AllocError, Global};
use tool_bundles::{Entry, Listed};
use tool_texts::Said::{Bytes, Number};
use tool_texts::{Lent, push_sentence};

/// What every note begins with.
pub const NOTE: &[u8] = b"session: note: ";

/// A note that a program of a bare machine sets globals.
pub fn globals_note(alloc: Global, path: &[u8]) -> Result<Vec<u8>, AllocError>
    ensures { IfOk result (λ v. v.items ≡ globals_note path.now) }
{
    if path.ends_with(b".module") {
        return globals_in(alloc, path, b"a global table");
    }
    globals_in(alloc, path, b"GLOBAL lines")
}

// The same, by what sets the globals.
fn globals_in<'t>(alloc: Global, path: &'t [u8], what: &'t [u8]) -> Result<Vec<u8>, AllocError>
    ensures { IfOk result (λ v. v.items ≡ globals_in path.now what.now) }
{
    let mut text = Vec::new(alloc);
    push_sentence(
        &mut text,
        &[
            Bytes(NOTE),
            Bytes(path),
            Bytes(b" has "),
            Bytes(what),
            Bytes(
                b", and a bare machine sets no globals; the program has to set them, with LF and SG\n",
            ),
        ],
    )?;
    Ok(text)
}

/// A note that no task is in the session of guests.
pub fn idle_note(alloc: Global) -> Result<Vec<u8>, AllocError>
    ensures { IfOk result (λ v. v.items ≡ idle_note) }
{
    let mut text = Vec::new(alloc);
    push_sentence(
        &mut text,
        &[
            Bytes(NOTE),
            Bytes(b"no task is in this session, so nothing will run; an item begins with task\n"),
        ],
    )?;
    Ok(text)
}

/// A note that a program's name is not the whole name of its first file; nothing where it is.
pub fn short_note<'t>(alloc: Global, name: &'t [u8], whole: &'t [u8]) -> Result<Vec<u8>, AllocError>
    ensures { IfOk result (λ v. v.items ≡ short_note name.now whole.now) }
{
    let mut text = Vec::new(alloc);
    if name == whole {
        return Ok(text);
    }
    push_sentence(
        &mut text,
        &[
            Bytes(NOTE),
            Bytes(b"the name "),
            Bytes(whole),
            Bytes(b" has more than 12 letters, so the program is called "),
            Bytes(name),
            Bytes(b"\n"),
        ],
    )?;
    Ok(text)
}

/// A note that none of these files sets global 1, where a task or a program begins: these are the files of that owner.
pub fn start_note<'t>(
    alloc: Global,
    what: &'t [u8],
    owner: &'t [u8],
    files: &'t [Entry<'t>],
) -> Result<Vec<u8>, AllocError>
    ensures { IfOk result (λ v. v.items ≡ start_note what.now owner.now files.now) }
{
    let mut text = Vec::new(alloc);
    match files {
        [file] => push_no_start(&mut text, what, file.word.bytes())?,
        _ => push_sentence(
            &mut text,
            &[
                Bytes(NOTE),
                Bytes(b"none of the "),
                Number(files.len() as u64),
                Bytes(b" files of "),
                Bytes(owner),
                Bytes(b" sets global 1, where a "),
                Bytes(what),
                Bytes(b" begins\n"),
            ],
        )?,
    }
    Ok(text)
}

// A note of one file.
fn push_no_start<'t>(text: &mut Vec<u8>, what: &'t [u8], path: &'t [u8]) -> Result<(), AllocError>
    ensures { OnOk result (text.new.items ≡ text.old.items ++ no_start_note what.now path.now) }
{
    if path.ends_with(b".module") {
        return push_sentence(
            text,
            &[
                Bytes(NOTE),
                Bytes(path),
                Bytes(b" sets no global 1, where a "),
                Bytes(what),
                Bytes(b" begins\n"),
            ],
        );
    }
    push_sentence(
        text,
        &[
            Bytes(NOTE),
            Bytes(path),
            Bytes(b" has no line GLOBAL 1, which names where a "),
            Bytes(what),
            Bytes(b" begins\n"),
        ],
    )
}

/// Two files that set the same global, and its number.
#[derive(Drop)]
pub struct Clash<'a> {
    /// The path of the earlier file.
    pub earlier: Lent<'a>,
    /// The path of the later file.
    pub later: Lent<'a>,
    /// The number of the global.
    pub number: u32,
}

/// A file that sets a global.
#[derive(Drop)]
pub struct Setter<'a> {
    /// The number of the global.
    pub number: u32,
    /// The path of the file.
    pub path: Lent<'a>,
}

/// Who sets which globals, and where two files set the same.
#[derive(Drop)]
pub struct Clashes<'a> {
    /// The files that set globals, in their order.
    pub setters: Listed<Setter<'a>>,
    /// The clashes, in the order in which they are found.
    pub found: Listed<Clash<'a>>,
}

/// The notes of clashes between these files, each of two files once. The clashes that are told are kept.
pub fn clash_notes<'a>(
    alloc: Global,
    told: &mut Listed<Clash<'a>>,
    sources: &[Source<'a>],
    files: &[Entry<'a>],
) -> Result<Vec<u8>, AllocError>
    ensures { IfOk result (λ v. (told.new, v.items) ≡ clash_notes told.old sources.now files.now) }
{
    let clashes = clashes_of(alloc, sources, files)?;
    notes_of(alloc, told, clashes.as_slice())
}

// The clashes between files.
fn clashes_of<'a>(
    alloc: Global,
    sources: &[Source<'a>],
    files: &[Entry<'a>],
) -> Result<Listed<Clash<'a>>, AllocError>
    ensures { IfOk result (λ c. c ≡ (clashes_after sources.now no_clashes files.now).found) }
{
    let mut clashes = Clashes {
        setters: Listed::new(alloc),
        found: Listed::new(alloc),
    };
    for file in files {
        add_file(&mut clashes, &file.word, set_by(sources, file.word.bytes()))?;
    }
    Ok(clashes.found)
}

// The numbers of the globals that the file at a path sets.
fn set_by<'m>(sources: &'m [Source], path: &[u8]) -> &'m [u32]
    ensures { result.now ≡ set_by sources.now path.now }
{
    match source_at(sources, path) {
        Some(source) => source.numbers.as_slice(),
        None => &[],
    }
}

// The file at a path.
fn source_at<'m, 'a>(sources: &'m [Source<'a>], path: &[u8]) -> Option<&'m Source<'a>>
    ensures { option_copied result ≡ source_at sources.now path.now }
{
    sources.iter().find(|source| source.path.bytes() == path)
}

// A file comes next, which sets these globals.
fn add_file<'a>(
    clashes: &mut Clashes<'a>,
    path: &Lent<'a>,
    numbers: &[u32],
) -> Result<(), AllocError>
    ensures { OnOk result (clashes.new ≡ file_clashes clashes.old path.now numbers.now) }
{
    for number in numbers {
        add_clash(clashes, path, *number)?;
    }
    Ok(())
}

// A file sets a global.
fn add_clash<'a>(clashes: &mut Clashes<'a>, path: &Lent<'a>, number: u32) -> Result<(), AllocError>
    ensures { OnOk result (clashes.new ≡ add_clash clashes.old path.now number) }
{
    let earlier = setter_in(clashes.setters.as_slice(), number);
    if let Some(earlier) = earlier {
        if number != 1 && earlier.bytes() != path.bytes() {
            clashes.found.push(Clash {
                earlier,
                later: path.again(),
                number,
            })?;
        }
    }
    clashes.setters.push(Setter {
        number,
        path: path.again(),
    })?;
    Ok(())
}

// The last file that sets a global, if one does.
fn setter_in<'a>(setters: &[Setter<'a>], number: u32) -> Option<Lent<'a>>
    ensures { result ≡ setter_in None number setters.now }
{
    let mut found = None;
    for setter in setters {
        if setter.number == number {
            found = Some(setter.path.again());
        }
    }
    found
}

// The notes of clashes that are not told yet.
fn notes_of<'a>(
    alloc: Global,
    told: &mut Listed<Clash<'a>>,
    clashes: &[Clash<'a>],
) -> Result<Vec<u8>, AllocError>
    ensures { IfOk result (λ v. (told.new, v.items) ≡ notes_after clashes.now told.old [] clashes.now) }
{
    let mut text = Vec::new(alloc);
    for clash in clashes {
        note_clash(alloc, &mut text, told, clashes, clash)?;
    }
    Ok(text)
}

// The note of a clash, unless one of the same two files is told.
fn note_clash<'a>(
    alloc: Global,
    text: &mut Vec<u8>,
    told: &mut Listed<Clash<'a>>,
    clashes: &[Clash<'a>],
    clash: &Clash<'a>,
) -> Result<(), AllocError>
    ensures { OnOk result ((told.new, text.new.items)
        ≡ note_clash clashes.now told.old text.old.items clash.now) }
{
    if is_told(told.as_slice(), clash) {
        return Ok(());
    }
    told.push(Clash {
        earlier: clash.earlier.again(),
        later: clash.later.again(),
        number: clash.number,
    })?;
    push_clash(alloc, text, clashes, clash)
}

// Whether a clash of the same two files is told.
fn is_told(told: &[Clash], clash: &Clash) -> bool
    ensures { result ≡ is_told told.now clash.now }
{
    told.iter().any(|other| are_same(other, clash))
}

// Whether two clashes are of the same two files.
fn are_same(first: &Clash, second: &Clash) -> bool
    ensures { result ≡ are_same first.now second.now }
{
    first.earlier.bytes() == second.earlier.bytes() && first.later.bytes() == second.later.bytes()
}

// Adds the note of two files, with all globals that both set.
fn push_clash(
    alloc: Global,
    text: &mut Vec<u8>,
    clashes: &[Clash],
    clash: &Clash,
) -> Result<(), AllocError>
    ensures { OnOk result (text.new.items ≡ text.old.items ++ clash_note clashes.now clash.now) }
{
    let mut numbers = Vec::new(alloc);
    push_numbers(&mut numbers, clashes, clash)?;
    let earlier = clash.earlier.bytes();
    let later = clash.later.bytes();
    if are_several(clashes, clash) {
        return push_several(text, earlier, later, numbers.as_slice());
    }
    push_one(text, earlier, later, numbers.as_slice())
}

// The same, of one global.
#[tactic(auto, unfolding(crate::specs::Notes::one_clash))]
fn push_one<'t>(
    text: &mut Vec<u8>,
    earlier: &'t [u8],
    later: &'t [u8],
    numbers: &'t [u8],
) -> Result<(), AllocError>
    ensures { OnOk result (text.new.items
        ≡ text.old.items ++ one_clash earlier.now later.now numbers.now) }
{
    push_sentence(
        text,
        &[
            Bytes(NOTE),
            Bytes(earlier),
            Bytes(b" and "),
            Bytes(later),
            Bytes(b" both set global"),
            Bytes(numbers),
            Bytes(b", and what "),
            Bytes(later),
            Bytes(b" sets counts\n"),
        ],
    )
}

// The same, of several globals.
#[tactic(auto, unfolding(crate::specs::Notes::several_clashes))]
fn push_several<'t>(
    text: &mut Vec<u8>,
    earlier: &'t [u8],
    later: &'t [u8],
    numbers: &'t [u8],
) -> Result<(), AllocError>
    ensures { OnOk result (text.new.items
        ≡ text.old.items ++ several_clashes earlier.now later.now numbers.now) }
{
    push_sentence(
        text,
        &[
            Bytes(NOTE),
            Bytes(earlier),
            Bytes(b" and "),
            Bytes(later),
            Bytes(b" both set globals"),
            Bytes(numbers),
            Bytes(b", and what "),
            Bytes(later),
            Bytes(b" sets counts\n"),
        ],
    )
}

// Whether the two files set more than one global.
fn are_several(clashes: &[Clash], clash: &Clash) -> bool
    ensures { result ≡ are_several clashes.now clash.now }
{
    clashes.iter().any(|other| are_same(other, clash) && other.number != clash.number)
}

// Adds the numbers of the globals that two files set, each after a blank.
fn push_numbers(text: &mut Vec<u8>, clashes: &[Clash], clash: &Clash) -> Result<(), AllocError>
    ensures { OnOk result (text.new.items ≡ text.old.items ++ numbers_text clash.now clashes.now) }
{
    for other in clashes {
        push_number(text, other, clash)?;
    }
    Ok(())
}

fn push_number(text: &mut Vec<u8>, other: &Clash, clash: &Clash) -> Result<(), AllocError>
    ensures { OnOk result (text.new.items ≡ text.old.items ++ number_text clash.now other.now) }
{
    if are_same(other, clash) {
        return push_sentence(text, &[Bytes(b" "), Number(other.number as u64)]);
    }
    Ok(())
}
