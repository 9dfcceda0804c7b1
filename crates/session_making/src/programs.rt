// The files of programs in a machine with a kernel.
ghost use Rattle.std.specs.Prelude.{◌≡◌, ◌++◌, ◌∷◌, [], ◌≤◌, ◌<◌, Some, None, if◌then◌else◌, length, take, OnOk, IfOk, IfSome};
ghost use Rattle.std.specs.List.{AllByRecursion, flat_map};
ghost use Rattle.std.specs.Option.{option_copied};
ghost use Rattle.module_text.specs.Canonical.{IsPrintable, IsPrintableHunk, printed};
ghost use Rattle.ram_disc.specs.Name.{is_name};
ghost use Rattle.session_making.specs.Ends.{Gives};
ghost use Rattle.session_making.specs.Programs.{add_program, base_name, check_count, file_name, file_named, joined, joined_paths, known_program, name_of, new_program, plain_name, program_name, without_end};

use crate::ends::Hindered;
use crate::makings::Making;
use crate::modules::{file_module, printed_text};
use crate::tables::{global_numbers, is_in};
use crate::wrongs::Wrong;
use module_text::{Hunk, Hunks, Module, WordList};
use ram_disc::Name;
use session_text::Bytes;
use std::alloc::{AllocError, Global};
use tool_bundles::{Entry, Listed};
use tool_texts::Lent;

/// The most files of a machine.
const MOST_FILES: usize = 64;

/// The most letters of a name.
const MOST_LETTERS: usize = 12;

/// A file of the machine.
#[derive(Drop)]
pub struct MadeFile {
    /// Its name.
    pub name: Name,
    /// The paths that it comes from, with a blank between each two.
    pub paths: Bytes,
    /// The number of the item that it is of, from 1.
    pub item: usize,
    /// Its bytes.
    pub bytes: Bytes,
    /// Whether it is a module that sets global 1.
    pub begins: bool,
}

/// A file of a program, and the numbers of the globals that it sets.
#[derive(Drop)]
pub struct Source<'a> {
    /// Its path.
    pub path: Lent<'a>,
    /// The numbers, each once.
    pub numbers: WordList,
}

/// A program that is a file of the machine.
#[derive(Drop)]
pub struct Program {
    /// The name of its file.
    pub name: Name,
    /// Whether it sets global 1.
    pub begins: bool,
}

/// Adds the program of these files, once, as one module with the hunks of all.
pub fn add_program<'a>(
    alloc: Global,
    making: &mut Making<'a>,
    item: usize,
    files: &'a [Entry<'a>],
) -> Result<Program, Hindered<'a>>
    ensures { Gives (λ p. (making.new, p)) result (add_program making.old item files.now) }
{
    let word = program_name(files);
    let name = name_of(file_name(files), word)?;
    let paths = joined_paths(alloc, files)?;
    if let Some(known) = file_named(making.files.as_slice(), name.bytes()) {
        return known_program(alloc, known, word, name, paths);
    }
    check_count(making.files.as_slice(), word)?;
    new_program(alloc, making, item, name, paths, files)
}

// The name of a program: that of its first file, or as much of it as a name may have.
fn program_name<'a>(files: &'a [Entry<'a>]) -> &'a [u8]
    ensures { result.now ≡ program_name files.now }
{
    first_letters(file_name(files))
}

// The first 12 letters of a name, or all where there are no more.
#[tactic(auto, using(std::proofs::lemmas::List::take_all))]
fn first_letters(name: &[u8]) -> &[u8]
    ensures { result.now ≡ take 12 name.now }
{
    if name.len() > MOST_LETTERS {
        return &name[..MOST_LETTERS];
    }
    name
}

/// The name of the first of some files, without the end of a program's file.
pub fn file_name<'a>(files: &'a [Entry<'a>]) -> &'a [u8]
    ensures { result.now ≡ file_name files.now }
{
    match files.split_first() {
        Some((file, _)) => plain_name(base_name(file.word.bytes())),
        None => &[],
    }
}

// A name without the end of a program's file.
fn plain_name(name: &[u8]) -> &[u8]
    ensures { result.now ≡ plain_name name.now }
{
    let other = without_end(b".module", name).unwrap_or(name);
    let other = without_end(b".s", name).unwrap_or(other);
    without_end(b".asm", name).unwrap_or(other)
}

// A name without this end; `None` exactly where it does not end so.
fn without_end<'t>(end: &[u8], name: &'t [u8]) -> Option<&'t [u8]>
    ensures { option_copied result ≡ without_end end.now name.now }
{
    name.strip_suffix(end)
}

// What comes after the last slash of a path.
fn base_name(path: &[u8]) -> &[u8]
    ensures { result.now ≡ base_name path.now path.now }
{
    let mut name = path;
    let mut rest = path;
    while let Some((byte, others)) = rest.split_first() {
        if *byte == b'/' {
            name = others;
        }
        rest = others;
    }
    name
}

// The name of a program, which is that of its first file or the front of it.
fn name_of<'t>(whole: &'t [u8], name: &'t [u8]) -> Result<Name, Hindered<'t>>
    ensures { Gives (λ n. n) result (name_of whole.now name.now) }
{
    match lawful_name(name) {
        Some(name) => Ok(name),
        None => Err(Hindered::Refused(Wrong::ProgramName(Lent::new(whole)))),
    }
}

/// The name that these bytes are; `None` exactly where they are no name.
pub fn lawful_name(word: &[u8]) -> Option<Name>
    ensures { result ≡ (if is_name word.now then Some word.now else None) }
{
    Name::read(word)
}

// The paths of files, with a blank between each two.
fn joined_paths(alloc: Global, files: &[Entry]) -> Result<Bytes, AllocError>
    ensures { IfOk result (λ b. b ≡ joined_paths files.now) }
{
    let mut paths = Vec::new(alloc);
    let Some((first, others)) = files.split_first() else {
        return Ok(Bytes::new(paths));
    };
    paths.extend_from_slice(first.word.bytes())?;
    push_paths(&mut paths, others)?;
    Ok(Bytes::new(paths))
}

fn push_paths(paths: &mut Vec<u8>, files: &[Entry]) -> Result<(), AllocError>
    ensures { let more = flat_map (λ file. 32 ∷ file.word) files.now in
        OnOk result (paths.new.items ≡ paths.old.items ++ more) }
{
    for file in files {
        paths.push(b' ')?;
        paths.extend_from_slice(file.word.bytes())?;
    }
    Ok(())
}

/// The file of this name, if there is one.
pub fn file_named<'m>(files: &'m [MadeFile], name: &[u8]) -> Option<&'m MadeFile>
    ensures { option_copied result ≡ file_named files.now name.now }
{
    files.iter().find(|file| file.name.bytes() == name)
}

// A program whose name a file has already: it has to come from the same paths.
fn known_program<'a>(
    alloc: Global,
    known: &MadeFile,
    word: &'a [u8],
    name: Name,
    paths: Bytes,
) -> Result<Program, Hindered<'a>>
    ensures { Gives (λ p. p) result (known_program known.now word.now name paths) }
{
    if known.paths.as_slice() == paths.as_slice() {
        return Ok(Program {
            name,
            begins: known.begins,
        });
    }
    let from = Vec::from_slice(alloc, known.paths.as_slice())?;
    Err(Hindered::Refused(Wrong::NameTaken {
        name: Lent::new(word),
        known: Bytes::new(from),
        item: known.item,
        paths,
    }))
}

/// Whether there may be one file more of this name.
pub fn check_count<'a>(files: &[MadeFile], word: &'a [u8]) -> Result<(), Hindered<'a>>
    ensures { Gives (λ u. u) result (check_count files.now word.now) }
{
    if files.len() >= MOST_FILES {
        return Err(Hindered::Refused(Wrong::FileCount(Lent::new(word))));
    }
    Ok(())
}

// A program that is not there yet.
fn new_program<'a>(
    alloc: Global,
    making: &mut Making<'a>,
    item: usize,
    name: Name,
    paths: Bytes,
    files: &'a [Entry<'a>],
) -> Result<Program, Hindered<'a>>
    ensures { Gives (λ p. (making.new, p)) result (new_program making.old item name paths files.now) }
{
    let mut hunks = Vec::new(alloc);
    join(alloc, &mut hunks, &mut making.sources, files)?;
    let numbers = global_numbers(alloc, hunks.as_slice())?;
    let begins = is_in(numbers.as_slice(), 1);
    let module = Module {
        hunks: Hunks::new(hunks),
    };
    let bytes = Bytes::new(printed_text(alloc, &module)?);
    let program = Program {
        name: name.copy(),
        begins,
    };
    making.files.push(MadeFile {
        name,
        paths,
        item,
        bytes,
        begins,
    })?;
    Ok(program)
}

// Adds the hunks of files to others, and what globals each file sets.
fn join<'a>(
    alloc: Global,
    hunks: &mut Vec<Hunk>,
    sources: &mut Listed<Source<'a>>,
    files: &'a [Entry<'a>],
) -> Result<(), Hindered<'a>>
    requires { AllByRecursion IsPrintableHunk hunks.old.items }
    ensures value { Gives (λ _. (hunks.new.items, sources.new)) result
        (joined hunks.old.items sources.old files.now) }
    ensures printable { OnOk result (AllByRecursion IsPrintableHunk hunks.new.items) }
{
    for file in files {
        let module = file_module(alloc, file)?;
        let numbers = global_numbers(alloc, module.hunks.as_slice())?;
        sources.push(Source {
            path: file.word.again(),
            numbers,
        })?;
        let mut more = module.hunks.into_vec();
        hunks.append(&mut more)?;
    }
    Ok(())
}
