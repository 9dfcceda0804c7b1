// The items of a machine with a kernel.
ghost use Rattle.std.specs.Prelude.{◌≡◌, ◌∷◌, [], ◌≤◌, ◌<◌, length, option_map, IfOk, IfSome};
ghost use Rattle.session_making.specs.Ends.{Gives};
ghost use Rattle.session_making.specs.Items.{after_files, byte_in, check_files, file_item, is_program, item_of, key_byte, key_item, own_count, own_files, priority_of, program_files, program_item, stack_of, step_of, task_item, task_number, task_word, text_flaw, text_item, two_words};

use crate::ends::Hindered;
use crate::numbers::{highest_task, priority_in, stack_in, steps_in, task_in};
use crate::requests::Kind;
use crate::texts::bad_byte;
use crate::wrongs::Wrong;
use tool_bundles::{Entries, Entry};
use tool_texts::Lent;

/// What is put into a machine with a kernel.
#[derive(Drop)]
pub enum Item<'a> {
    /// A task, and the files of its program, of which there is one at least.
    Task {
        id: u32,
        priority: u32,
        stack: u32,
        files: Entries<'a>,
    },
    /// A program that the shell can start: its files, of which there is one at least.
    Program(Entries<'a>),
    /// A file of the machine with this name, and the path that it comes from.
    File {
        name: Lent<'a>,
        path: Entry<'a>,
    },
    /// A text that is typed.
    Text {
        step: u64,
        text: Lent<'a>,
    },
    /// A key that is typed.
    Key {
        step: u64,
        byte: u8,
    },
}

/// The item that begins with a word, and the words after the item.
pub fn item_of<'a>(
    kind: Kind,
    version: u32,
    word: &Lent<'a>,
    entries: &'a [Entry<'a>],
) -> Result<(Item<'a>, &'a [Entry<'a>]), Hindered<'a>>
    ensures { Gives (λ x. (x.0, x.1.now)) result (item_of kind version word.now entries.now) }
{
    let name = word.bytes();
    if name == b"task".as_slice() {
        task_item(version, entries)
    } else if name == b"program".as_slice() {
        program_item(kind, entries)
    } else if name == b"file".as_slice() {
        file_item(entries)
    } else if name == b"type".as_slice() {
        text_item(entries)
    } else if name == b"key".as_slice() {
        key_item(entries)
    } else {
        Err(Hindered::Refused(Wrong::NoItem(word.again())))
    }
}

// A task: its number, its priority, its stack and its files.
fn task_item<'a>(
    version: u32,
    entries: &'a [Entry<'a>],
) -> Result<(Item<'a>, &'a [Entry<'a>]), Hindered<'a>>
    ensures { Gives (λ x. (x.0, x.1.now)) result (task_item version entries.now) }
{
    let (id, rest) = task_word(entries)?;
    let (priority, rest) = task_word(rest)?;
    let (stack, rest) = task_word(rest)?;
    let (program, _) = task_word(rest)?;
    let id = task_number(version, id)?;
    let priority = priority_of(priority)?;
    let stack = stack_of(stack)?;
    let (files, others) = own_files(rest);
    check_files(program, files)?;
    let files = Entries::new(files);
    Ok((
        Item::Task {
            id,
            priority,
            stack,
            files,
        },
        others,
    ))
}

// The first word of a task, and those after it.
fn task_word<'a>(entries: &'a [Entry<'a>]) -> Result<(Lent<'a>, &'a [Entry<'a>]), Hindered<'a>>
    ensures { Gives (λ x. (x.0, x.1.now)) result (task_word entries.now) }
{
    match entries.split_first() {
        Some((entry, others)) => Ok((entry.word.again(), others)),
        None => Err(Hindered::Refused(Wrong::TaskWords)),
    }
}

fn task_number(version: u32, word: Lent<'_>) -> Result<u32, Hindered<'_>>
    ensures { Gives (λ n. n) result (task_number version word.entry) }
{
    match task_in(version, word.bytes()) {
        Some(id) => Ok(id),
        None => {
            let last = highest_task(version);
            Err(Hindered::Refused(Wrong::TaskNumber { last, word }))
        }
    }
}

fn priority_of(word: Lent<'_>) -> Result<u32, Hindered<'_>>
    ensures { Gives (λ n. n) result (priority_of word.entry) }
{
    match priority_in(word.bytes()) {
        Some(priority) => Ok(priority),
        None => Err(Hindered::Refused(Wrong::Priority(word))),
    }
}

fn stack_of(word: Lent<'_>) -> Result<u32, Hindered<'_>>
    ensures { Gives (λ n. n) result (stack_of word.entry) }
{
    match stack_in(word.bytes()) {
        Some(stack) => Ok(stack),
        None => Err(Hindered::Refused(Wrong::Stack(word))),
    }
}

// Whether a task has a file at least.
fn check_files<'a>(program: Lent<'a>, files: &[Entry]) -> Result<(), Hindered<'a>>
    ensures { Gives (λ u. u) result (check_files program.entry files.now) }
{
    if files.is_empty() {
        return Err(Hindered::Refused(Wrong::TaskProgram(program)));
    }
    Ok(())
}

// The files of programs with which words begin, and the words after them.
fn own_files<'a>(entries: &'a [Entry<'a>]) -> (&'a [Entry<'a>], &'a [Entry<'a>])
    ensures own { result.0.now ≡ own_files entries.now }
    ensures after { result.1.now ≡ after_files entries.now }
{
    entries.split_at(own_count(entries))
}

// How many files of programs words begin with.
fn own_count(entries: &[Entry]) -> usize
    ensures value { result ≡ own_count entries.now }
    ensures inside { result ≤ length entries.now }
{
    let mut count = 0;
    for entry in entries {
        if !is_program(entry.word.bytes()) {
            return count;
        }
        count += 1;
    }
    count
}

/// Whether a path is that of a program.
pub fn is_program(path: &[u8]) -> bool
    ensures { result ≡ is_program path.now }
{
    path.ends_with(b".asm") || path.ends_with(b".s") || path.ends_with(b".module")
}

// A program of the shell: its files, or the first word whatever its name is.
fn program_item<'a>(
    kind: Kind,
    entries: &'a [Entry<'a>],
) -> Result<(Item<'a>, &'a [Entry<'a>]), Hindered<'a>>
    ensures { Gives (λ x. (x.0, x.1.now)) result (program_item kind entries.now) }
{
    if !matches!(kind, Kind::Shell) {
        return Err(Hindered::Refused(Wrong::NoShell));
    }
    if entries.is_empty() {
        return Err(Hindered::Refused(Wrong::ProgramWords));
    }
    let (files, others) = program_files(entries);
    Ok((Item::Program(Entries::new(files)), others))
}

// The files of a program, and the words after them.
fn program_files<'a>(entries: &'a [Entry<'a>]) -> (&'a [Entry<'a>], &'a [Entry<'a>])
    requires { 1 ≤ length entries.now }
    ensures { (result.0.now, result.1.now) ≡ program_files entries.now }
{
    let count = own_count(entries);
    entries.split_at(if count == 0 { 1 } else { count })
}

// A file: its name, and its path.
fn file_item<'a>(entries: &'a [Entry<'a>]) -> Result<(Item<'a>, &'a [Entry<'a>]), Hindered<'a>>
    ensures { Gives (λ x. (x.0, x.1.now)) result (file_item entries.now) }
{
    match two_words(entries) {
        Some((name, path, others)) => Ok((
            Item::File {
                name: name.word.again(),
                path: path.again(),
            },
            others,
        )),
        None => Err(Hindered::Refused(Wrong::FileWords)),
    }
}

// A typed text: its step, and the text.
fn text_item<'a>(entries: &'a [Entry<'a>]) -> Result<(Item<'a>, &'a [Entry<'a>]), Hindered<'a>>
    ensures { Gives (λ x. (x.0, x.1.now)) result (text_item entries.now) }
{
    let Some((step, text, others)) = two_words(entries) else {
        return Err(Hindered::Refused(Wrong::TypeWords));
    };
    let step = step_of(step.word.again())?;
    let text = text.word.again();
    if let Some(wrong) = text_flaw(text.bytes()) {
        return Err(Hindered::Refused(wrong));
    }
    Ok((Item::Text { step, text }, others))
}

// What is wrong in a typed text, if something is.
fn text_flaw(text: &[u8]) -> Option<Wrong<'_>>
    ensures { result ≡ text_flaw text.now }
{
    let at = bad_byte(text)?;
    Some(Wrong::TypedByte {
        column: at + 1,
        byte: text[at],
    })
}

// A key: its step, and its two hex digits.
fn key_item<'a>(entries: &'a [Entry<'a>]) -> Result<(Item<'a>, &'a [Entry<'a>]), Hindered<'a>>
    ensures { Gives (λ x. (x.0, x.1.now)) result (key_item entries.now) }
{
    let Some((step, digits, others)) = two_words(entries) else {
        return Err(Hindered::Refused(Wrong::KeyWords));
    };
    let step = step_of(step.word.again())?;
    let byte = key_byte(digits.word.again())?;
    Ok((Item::Key { step, byte }, others))
}

fn step_of(word: Lent<'_>) -> Result<u64, Hindered<'_>>
    ensures { Gives (λ n. n) result (step_of word.entry) }
{
    match steps_in(word.bytes()) {
        Some(step) => Ok(step),
        None => Err(Hindered::Refused(Wrong::Step(word))),
    }
}

fn key_byte(word: Lent<'_>) -> Result<u8, Hindered<'_>>
    ensures { Gives (λ n. n) result (key_byte word.entry) }
{
    match byte_in(word.bytes()) {
        Some(byte) => Ok(byte),
        None => Err(Hindered::Refused(Wrong::KeyDigits(word))),
    }
}

// The byte that two hex digits are, if a word is that.
fn byte_in(digits: &[u8]) -> Option<u8>
    ensures { result ≡ byte_in digits.now }
{
    let mut bytes = [0u8; 1];
    match hex::decode_to_slice(digits, &mut bytes) {
        Ok(()) => Some(bytes[0]),
        Err(_) => None,
    }
}

// The first two words, and those after them.
fn two_words<'a>(
    entries: &'a [Entry<'a>],
) -> Option<(&'a Entry<'a>, &'a Entry<'a>, &'a [Entry<'a>])>
    ensures { option_map (λ x. (x.0.now, x.1.now, x.2.now)) result ≡ two_words entries.now }
{
    let (first, rest) = entries.split_first()?;
    let (second, others) = rest.split_first()?;
    Some((first, second, others))
}
