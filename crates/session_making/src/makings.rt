// What is made of the items of a machine with a kernel.
ghost use Rattle.std.specs.Prelude.{◌≡◌, ◌+◌, ◌∷◌, [], ◌++◌, ◌≤◌, ◌⊎◌, ◌||◌, false, Ok, length, IfOk, OnOk};
ghost use Rattle.std.specs.Option.{option_copied};
ghost use Rattle.session_making.specs.Ends.{Gives};
ghost use Rattle.friendly_assembly.specs.PlainText.{has_open_line};
ghost use Rattle.session_making.specs.Makings.{add_each, add_file, add_item, add_program_item, add_programs, add_task, check_bytes, check_files, check_free, check_name, check_number, check_priority, is_reserved, new_making, note_clashes, note_name, note_program, note_task, open_note, task_of, task_with, whole_text};

use crate::ends::Hindered;
use crate::items::Item;
use crate::modules::file_bytes;
use crate::notes::{Clash, NOTE, clash_notes, short_note, start_note};
use crate::programs::{
    MadeFile, Program, Source, add_program, check_count, file_name, file_named, lawful_name,
};
use crate::requests::Kind;
use crate::texts::bad_place;
use crate::wrongs::Wrong;
use arrayvec::ArrayVec;
use ram_disc::Name;
use session_text::{Bytes, Names};
use std::alloc::{AllocError, Global};
use std::slice::from_ref;
use tool_bundles::{Entries, Entry, Listed};
use tool_texts::Said::{Bytes as Said, Number};
use tool_texts::{Lent, push_sentence};

/// The most files of a task.
const MOST_TASK_FILES: usize = 8;

/// A task of the machine.
#[derive(Drop)]
pub struct MadeTask {
    /// The number of the item that it is, from 1.
    pub item: usize,
    /// Its number.
    pub id: u32,
    /// Its priority.
    pub priority: u32,
    /// The highest index of its stack.
    pub stack: u32,
    /// The files of its modules.
    pub names: Names,
}

/// What is typed.
#[derive(Drop)]
pub enum Typed<'a> {
    /// A text and a line end.
    Text { step: u64, text: Lent<'a> },
    /// A key.
    Key { step: u64, byte: u8 },
}

/// What is made of some items.
#[derive(Drop)]
pub struct Making<'a> {
    /// The files of the machine.
    pub files: Listed<MadeFile>,
    /// Its tasks.
    pub tasks: Listed<MadeTask>,
    /// What is typed.
    pub typed: Listed<Typed<'a>>,
    /// The files of programs, each with the globals that it sets.
    pub sources: Listed<Source<'a>>,
    /// The clashes of globals that are noted.
    pub told: Listed<Clash<'a>>,
    /// The notes, each with a LF.
    pub notes: Listed<u8>,
}

/// The programs of a task.
#[derive(Drop)]
pub struct Programs {
    /// The names of their files.
    pub names: ArrayVec<Name, 8>,
    /// Whether one of them sets global 1.
    pub begins: bool,
}

/// What all items are made for.
#[derive(Clone, Copy)]
pub struct Frame {
    /// Which machine it is.
    pub kind: Kind,
    /// 1 or 2.
    pub version: u32,
    /// Whether the task that reports faults is there.
    pub reporter: bool,
}

impl<'a> Making<'a> {
    /// Nothing is made.
    pub fn new(alloc: Global) -> Making<'a>
        ensures { result ≡ new_making }
    {
        Making {
            files: Listed::new(alloc),
            tasks: Listed::new(alloc),
            typed: Listed::new(alloc),
            sources: Listed::new(alloc),
            told: Listed::new(alloc),
            notes: Listed::new(alloc),
        }
    }
}

/// Adds an item, which has this number, from 1.
pub fn add_item<'a>(
    alloc: Global,
    frame: Frame,
    making: &mut Making<'a>,
    number: usize,
    item: Item<'a>,
) -> Result<(), Hindered<'a>>
    ensures { Gives (λ _. making.new) result (add_item frame making.old number item.entry) }
{
    match item {
        Item::Task {
            id,
            priority,
            stack,
            files,
        } => add_task(
            alloc,
            frame,
            making,
            number,
            id,
            priority,
            stack,
            files.as_slice(),
        ),
        Item::Program(files) => add_program_item(alloc, making, number, files.as_slice()),
        Item::File { name, path } => add_file(alloc, making, number, name, &path),
        Item::Text { step, text } => Ok(making.typed.push(Typed::Text { step, text })?),
        Item::Key { step, byte } => Ok(making.typed.push(Typed::Key { step, byte })?),
    }
}

// ---- tasks

// Adds a task with its programs.
fn add_task<'a>(
    alloc: Global,
    frame: Frame,
    making: &mut Making<'a>,
    number: usize,
    id: u32,
    priority: u32,
    stack: u32,
    files: &'a [Entry<'a>],
) -> Result<(), Hindered<'a>>
    ensures { Gives (λ _. making.new) result
        (add_task frame making.old number id priority stack files.now) }
{
    check_number(making.tasks.as_slice(), id)?;
    check_priority(frame, making.tasks.as_slice(), priority)?;
    check_files(frame.version, files.len())?;
    let programs = add_programs(alloc, frame.version, making, number, files)?;
    note_task(alloc, making, id, programs.begins, files)?;
    let names = names_made(alloc, programs.names)?;
    making.tasks.push(MadeTask {
        item: number,
        id,
        priority,
        stack,
        names,
    })?;
    Ok(())
}

// The names of a task's files.
fn names_made<'a>(alloc: Global, names: ArrayVec<Name, 8>) -> Result<Names, Hindered<'a>>
    ensures { Gives (λ n. n) result (Ok names.items) }
{
    match Names::new(alloc, names) {
        Ok(names) => Ok(names),
        Err(_) => Err(Hindered::WantMemory),
    }
}

// Whether no task has the number.
fn check_number<'a>(tasks: &[MadeTask], id: u32) -> Result<(), Hindered<'a>>
    ensures { Gives (λ u. u) result (check_number tasks.now id) }
{
    match task_with(tasks, id) {
        Some(task) => Err(Hindered::Refused(Wrong::NumberTaken {
            item: task.item,
            number: id,
        })),
        None => Ok(()),
    }
}

fn task_with(tasks: &[MadeTask], id: u32) -> Option<&MadeTask>
    ensures { option_copied result ≡ task_with tasks.now id }
{
    tasks.iter().find(|task| task.id == id)
}

// Whether no task has the priority, of the system and of the session.
fn check_priority<'a>(frame: Frame, tasks: &[MadeTask], priority: u32) -> Result<(), Hindered<'a>>
    ensures { Gives (λ u. u) result (check_priority frame tasks.now priority) }
{
    if is_reserved(frame, priority) {
        return Err(Hindered::Refused(Wrong::PriorityReserved(priority)));
    }
    match task_of(tasks, priority) {
        Some(task) => Err(Hindered::Refused(Wrong::PriorityTaken {
            item: task.item,
            priority,
        })),
        None => Ok(()),
    }
}

fn task_of(tasks: &[MadeTask], priority: u32) -> Option<&MadeTask>
    ensures { option_copied result ≡ task_of tasks.now priority }
{
    tasks.iter().find(|task| task.priority == priority)
}

// Whether a task of the system has the priority.
fn is_reserved(frame: Frame, priority: u32) -> bool
    ensures { result ≡ is_reserved frame priority }
{
    if !matches!(frame.kind, Kind::Shell) {
        return false;
    }
    if priority == 3000 {
        return frame.reporter;
    }
    priority == 1000 || priority == 5000 || priority == 6000
}

// Whether a task of this version may have so many files.
fn check_files<'a>(version: u32, count: usize) -> Result<(), Hindered<'a>>
    ensures value { Gives (λ u. u) result (check_files version count) }
    ensures few { IfOk result (λ _. version ≡ 1 ⊎ count ≤ 8) }
{
    if version != 1 && count > MOST_TASK_FILES {
        return Err(Hindered::Refused(Wrong::TaskFiles(count)));
    }
    Ok(())
}

// Adds the programs of a task: in version 1 all its files are one, and in version 2 each is one.
fn add_programs<'a>(
    alloc: Global,
    version: u32,
    making: &mut Making<'a>,
    number: usize,
    files: &'a [Entry<'a>],
) -> Result<Programs, Hindered<'a>>
    requires { version ≡ 1 ⊎ length files.now ≤ 8 }
    ensures { Gives (λ p. (making.new, p.names.items, p.begins)) result
        (add_programs version making.old number files.now) }
{
    if version != 1 {
        return add_each(alloc, making, number, files);
    }
    let program = add_program(alloc, making, number, files)?;
    let mut names = ArrayVec::new();
    names.push(program.name);
    Ok(Programs {
        names,
        begins: program.begins,
    })
}

// Adds each file as a program.
fn add_each<'a>(
    alloc: Global,
    making: &mut Making<'a>,
    number: usize,
    files: &'a [Entry<'a>],
) -> Result<Programs, Hindered<'a>>
    requires { length files.now ≤ 8 }
    ensures { Gives (λ p. (making.new, p.names.items, p.begins)) result
        (add_each making.old [] false number files.now) }
{
    let mut names = ArrayVec::new();
    let mut begins = false;
    for file in files {
        let program = add_program(alloc, making, number, from_ref(file))?;
        names.push(program.name);
        begins = either(begins, program.begins);
    }
    Ok(Programs { names, begins })
}

fn either(first: bool, second: bool) -> bool
    ensures { result ≡ (first || second) }
{
    first || second
}

// Notes what is to be known of the programs of a task.
fn note_task<'a>(
    alloc: Global,
    making: &mut Making<'a>,
    id: u32,
    begins: bool,
    files: &'a [Entry<'a>],
) -> Result<(), AllocError>
    ensures { OnOk result (making.new ≡ note_task making.old id begins files.now) }
{
    note_clashes(alloc, making, files)?;
    if begins {
        return Ok(());
    }
    let mut owner = Vec::new(alloc);
    push_sentence(&mut owner, &[Said(b"task "), Number(id as u64)])?;
    let note = start_note(alloc, b"task", owner.as_slice(), files)?;
    making.notes.append(note)
}

// Notes which globals two of these files set.
fn note_clashes<'a>(
    alloc: Global,
    making: &mut Making<'a>,
    files: &'a [Entry<'a>],
) -> Result<(), AllocError>
    ensures { OnOk result (making.new ≡ note_clashes making.old files.now) }
{
    let notes = clash_notes(alloc, &mut making.told, making.sources.as_slice(), files)?;
    making.notes.append(notes)
}

// ---- programs

// Adds a program of the shell.
fn add_program_item<'a>(
    alloc: Global,
    making: &mut Making<'a>,
    number: usize,
    files: &'a [Entry<'a>],
) -> Result<(), Hindered<'a>>
    ensures { Gives (λ _. making.new) result (add_program_item making.old number files.now) }
{
    let program = add_program(alloc, making, number, files)?;
    note_program(alloc, making, &program, files)?;
    Ok(())
}

// Notes what is to be known of a program.
fn note_program<'a>(
    alloc: Global,
    making: &mut Making<'a>,
    program: &Program,
    files: &'a [Entry<'a>],
) -> Result<(), AllocError>
    ensures { OnOk result (making.new ≡ note_program making.old program.now files.now) }
{
    note_name(alloc, making, program, files)?;
    note_clashes(alloc, making, files)?;
    if program.begins {
        return Ok(());
    }
    let note = start_note(alloc, b"program", program.name.bytes(), files)?;
    making.notes.append(note)
}

// Notes that a program's name is a front of that of its first file, where it is so.
fn note_name<'a>(
    alloc: Global,
    making: &mut Making<'a>,
    program: &Program,
    files: &'a [Entry<'a>],
) -> Result<(), AllocError>
    ensures { OnOk result (making.new ≡ note_name making.old program.now files.now) }
{
    let note = short_note(alloc, program.name.bytes(), file_name(files))?;
    making.notes.append(note)
}

// ---- files

// Adds a file of text.
fn add_file<'a>(
    alloc: Global,
    making: &mut Making<'a>,
    number: usize,
    name: Lent<'a>,
    path: &Entry<'a>,
) -> Result<(), Hindered<'a>>
    ensures { Gives (λ _. making.new) result (add_file making.old number name.entry path.now) }
{
    let own = check_name(&name)?;
    let bytes = file_bytes(path)?;
    check_bytes(&path.word, bytes.bytes())?;
    check_free(making.files.as_slice(), &name)?;
    check_count(making.files.as_slice(), name.bytes())?;
    if has_open_line(bytes.bytes()) {
        let note = open_note(alloc, name.bytes(), path.word.bytes())?;
        making.notes.append(note)?;
    }
    let whole = whole_text(alloc, bytes.bytes())?;
    let paths = Vec::from_slice(alloc, path.word.bytes())?;
    making.files.push(MadeFile {
        name: own,
        paths: Bytes::new(paths),
        item: number,
        bytes: Bytes::new(whole),
        begins: false,
    })?;
    Ok(())
}

fn check_name<'a>(name: &Lent<'a>) -> Result<Name, Hindered<'a>>
    ensures { Gives (λ n. n) result (check_name name.now) }
{
    match lawful_name(name.bytes()) {
        Some(own) => Ok(own),
        None => Err(Hindered::Refused(Wrong::FileName(name.again()))),
    }
}

// Whether a file has bytes alone that a session may have.
fn check_bytes<'a>(path: &Lent<'a>, bytes: &[u8]) -> Result<(), Hindered<'a>>
    ensures { Gives (λ u. u) result (check_bytes path.now bytes.now) }
{
    match bad_place(bytes) {
        Some(place) => Err(Hindered::Refused(Wrong::FileByte {
            path: path.again(),
            line: place.spot.line,
            column: place.spot.column,
            byte: place.byte,
        })),
        None => Ok(()),
    }
}

// Whether no file has the name.
fn check_free<'a>(files: &[MadeFile], name: &Lent<'a>) -> Result<(), Hindered<'a>>
    ensures { Gives (λ u. u) result (check_free files.now name.now) }
{
    match file_named(files, name.bytes()) {
        Some(file) => Err(Hindered::Refused(Wrong::FileTaken {
            item: file.item,
            name: name.again(),
        })),
        None => Ok(()),
    }
}

// Whether a text has a last line without an end.
fn has_open_line(text: &[u8]) -> bool
    ensures { result ≡ has_open_line text.now }
{
    !text.is_empty() && !text.ends_with(b"\n")
}

// A text, whose last line gets an end.
fn whole_text(alloc: Global, text: &[u8]) -> Result<Vec<u8>, AllocError>
    ensures { IfOk result (λ v. v.items ≡ whole_text text.now) }
{
    let mut whole = Vec::from_slice(alloc, text)?;
    if has_open_line(text) {
        whole.push(b'\n')?;
    }
    Ok(whole)
}

// A note that the last line of a file had no end.
fn open_note<'t>(alloc: Global, name: &'t [u8], path: &'t [u8]) -> Result<Vec<u8>, AllocError>
    ensures { IfOk result (λ v. v.items ≡ open_note name.now path.now) }
{
    let mut text = Vec::new(alloc);
    push_sentence(
        &mut text,
        &[
            Said(NOTE),
            Said(path),
            Said(b" has no line end after its last line; in the machine its file "),
            Said(name),
            Said(b" has one\n"),
        ],
    )?;
    Ok(text)
}
