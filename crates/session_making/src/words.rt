// What is wrong, in words.
ghost use Rattle.std.specs.Prelude.{◌≡◌, ◌∷◌, [], ◌++◌, IfOk, OnOk};
ghost use Rattle.hex.specs.Hex.{encode_lower};
ghost use Rattle.session_making.specs.Words.{byte_name, file_byte_words, file_count_words, hex_name, hunk_count_words, name_taken_words, no_file_words, no_item_words, no_room_words, no_steps_words, no_version_words, number_taken_words, priority_taken_words, typed_byte_words, words_of};

use crate::wrongs::Wrong;
use std::alloc::{AllocError, Global};
use tool_texts::Said::{Bytes, Number};
use tool_texts::push_sentence;

/// What is after the words where the words of the command line are wrong.
const HELP: &[u8] = b"; ./session --help has all words";

/// Adds what is wrong, in words.
pub fn push_words(alloc: Global, text: &mut Vec<u8>, wrong: Wrong) -> Result<(), AllocError>
    ensures { OnOk result (text.new.items ≡ text.old.items ++ words_of wrong.entry) }
{
    match wrong {
        Wrong::NoBundle => push_sentence(
            text,
            &[Bytes(b"the input is no bundle of words and files")],
        ),
        Wrong::NoRequest => push_sentence(
            text,
            &[Bytes(
                b"a request begins with bare, guests or shell, a version, a store, a period, and -d or -",
            )],
        ),
        Wrong::NoBareSteps => push_sentence(
            text,
            &[
                Bytes(
                    b"bare has the most steps and files of assembly after it: bare STEPS FILE.asm..",
                ),
                Bytes(HELP),
            ],
        ),
        Wrong::NoPrograms(steps) => push_sentence(
            text,
            &[
                Bytes(b"after the steps, "),
                Bytes(steps.bytes()),
                Bytes(b", a file of assembly is missing: bare STEPS FILE.asm.."),
                Bytes(HELP),
            ],
        ),
        Wrong::NoSteps(kind) => push_no_steps(text, kind.bytes()),
        Wrong::NoVersion(word) => push_no_version(text, word.bytes()),
        Wrong::StoreSize { most, word } => push_sentence(
            text,
            &[
                Bytes(b"a store has an even number of words from 1024 to "),
                Number(most),
                Bytes(b", and not "),
                Bytes(word.bytes()),
            ],
        ),
        Wrong::Steps(word) => push_sentence(
            text,
            &[
                Bytes(b"the steps are a number from 0 to 4000000000, and not "),
                Bytes(word.bytes()),
            ],
        ),
        Wrong::Period(word) => push_sentence(
            text,
            &[
                Bytes(b"a tick is a number of steps from 1 to 1000000, and not "),
                Bytes(word.bytes()),
            ],
        ),
        Wrong::NoFile(path) => push_no_file(text, path.bytes()),
        Wrong::Program(said) => push_sentence(text, &[Bytes(said.as_slice())]),
        Wrong::NoModule { path, line, code } => push_sentence(
            text,
            &[
                Bytes(path.bytes()),
                Bytes(b":"),
                Number(line as u64),
                Bytes(b": the file is no module (code "),
                Number(code as u64),
                Bytes(b")\n"),
            ],
        ),
        Wrong::HunkCount { path, count } => push_hunk_count(text, path.bytes(), count),
        Wrong::NoRoom { path, store } => push_no_room(text, path.bytes(), store),
        Wrong::NotRead { line, code } => push_sentence(
            text,
            &[
                Bytes(b"the session would not be read: line "),
                Number(line as u64),
                Bytes(b" code "),
                Number(code as u64),
            ],
        ),
        Wrong::NoItem(word) => push_no_item(text, word.bytes()),
        Wrong::TaskWords => push_sentence(
            text,
            &[Bytes(
                b"a task has a number, a priority, a stack and a program: task ID PRI STACK FILE.asm",
            )],
        ),
        Wrong::TaskNumber { last, word } => push_sentence(
            text,
            &[
                Bytes(b"a task has a number from 5 to "),
                Number(last),
                Bytes(b", and not "),
                Bytes(word.bytes()),
            ],
        ),
        Wrong::Priority(word) => push_sentence(
            text,
            &[
                Bytes(b"a priority is from 1 to 10000, and not "),
                Bytes(word.bytes()),
            ],
        ),
        Wrong::Stack(word) => push_sentence(
            text,
            &[
                Bytes(b"the highest index of a stack is from 20 to 100000, and not "),
                Bytes(word.bytes()),
            ],
        ),
        Wrong::NumberTaken { item, number } => push_number_taken(text, item, number),
        Wrong::PriorityReserved(priority) => push_sentence(
            text,
            &[
                Bytes(b"a task of the system has the priority "),
                Number(priority as u64),
            ],
        ),
        Wrong::PriorityTaken { item, priority } => push_priority_taken(text, item, priority),
        Wrong::TaskProgram(word) => push_sentence(
            text,
            &[
                Bytes(
                    b"a task's program is a file of assembly, FILE.asm or FILE.s, or a module, FILE.module, and not ",
                ),
                Bytes(word.bytes()),
            ],
        ),
        Wrong::TaskFiles(count) => push_sentence(
            text,
            &[
                Bytes(b"a task of version 2 has at most 8 files, and not "),
                Number(count as u64),
            ],
        ),
        Wrong::NoShell => push_sentence(
            text,
            &[
                Bytes(
                    b"a program is started by the shell, which guests has not; take shell, or task for a task of its own",
                ),
                Bytes(HELP),
            ],
        ),
        Wrong::ProgramWords => push_sentence(
            text,
            &[
                Bytes(b"a program has a file of assembly, or a module: program FILE.asm"),
                Bytes(HELP),
            ],
        ),
        Wrong::ProgramName(name) => push_sentence(
            text,
            &[
                Bytes(b"a program's name is 1 to 12 letters, digits, '-', '.' and '_', and not "),
                Bytes(name.bytes()),
            ],
        ),
        Wrong::NameTaken {
            name,
            known,
            item,
            paths,
        } => push_name_taken(text, name.bytes(), known.as_slice(), item, paths.as_slice()),
        Wrong::FileTaken { item, name } => push_sentence(
            text,
            &[
                Bytes(b"a file of item "),
                Number(item as u64),
                Bytes(b" has the name "),
                Bytes(name.bytes()),
                Bytes(b" already"),
            ],
        ),
        Wrong::FileCount(name) => push_file_count(text, name.bytes()),
        Wrong::FileWords => push_sentence(
            text,
            &[
                Bytes(b"a file has a name and a path: file NAME PATH"),
                Bytes(HELP),
            ],
        ),
        Wrong::TypeWords => push_sentence(
            text,
            &[
                Bytes(b"what is typed has a step and a text: type STEP TEXT"),
                Bytes(HELP),
            ],
        ),
        Wrong::KeyWords => push_sentence(
            text,
            &[
                Bytes(b"a key has a step and two hex digits: key STEP HH"),
                Bytes(HELP),
            ],
        ),
        Wrong::FileName(name) => push_sentence(
            text,
            &[
                Bytes(b"a file's name is 1 to 12 letters, digits, '-', '.' and '_', and not "),
                Bytes(name.bytes()),
            ],
        ),
        Wrong::FileByte {
            path,
            line,
            column,
            byte,
        } => {
            let name = byte_name(alloc, byte)?;
            push_file_byte(text, path.bytes(), line, column, name.as_slice())
        }
        Wrong::Step(word) => push_sentence(
            text,
            &[
                Bytes(b"a step is a number from 0 to 4000000000, and not "),
                Bytes(word.bytes()),
            ],
        ),
        Wrong::TypedByte { column, byte } => {
            let name = byte_name(alloc, byte)?;
            push_typed_byte(text, column, name.as_slice())
        }
        Wrong::KeyDigits(word) => push_sentence(
            text,
            &[
                Bytes(b"a key is two hex digits, and not "),
                Bytes(word.bytes()),
            ],
        ),
    }
}

// The steps of a machine with a kernel are missing.
fn push_no_steps(text: &mut Vec<u8>, kind: &[u8]) -> Result<(), AllocError>
    ensures { OnOk result (text.new.items ≡ text.old.items ++ no_steps_words kind.now) }
{
    push_sentence(
        text,
        &[
            Bytes(kind),
            Bytes(b" has the most steps after it, and items: "),
            Bytes(kind),
            Bytes(b" STEPS ITEM.."),
            Bytes(HELP),
        ],
    )
}

// There is no such version.
fn push_no_version(text: &mut Vec<u8>, word: &[u8]) -> Result<(), AllocError>
    ensures { OnOk result (text.new.items ≡ text.old.items ++ no_version_words word.now) }
{
    push_sentence(
        text,
        &[
            Bytes(b"there is no version "),
            Bytes(word),
            Bytes(b", but 1 and 2"),
        ],
    )
}

// A file could not be read.
fn push_no_file(text: &mut Vec<u8>, path: &[u8]) -> Result<(), AllocError>
    ensures { OnOk result (text.new.items ≡ text.old.items ++ no_file_words path.now) }
{
    push_sentence(
        text,
        &[
            Bytes(b"there is no file "),
            Bytes(path),
            Bytes(b" that can be read"),
        ],
    )
}

// A program of a bare machine has so many hunks.
fn push_hunk_count(text: &mut Vec<u8>, path: &[u8], count: usize) -> Result<(), AllocError>
    ensures { OnOk result (text.new.items ≡ text.old.items ++ hunk_count_words path.now count) }
{
    push_sentence(
        text,
        &[
            Bytes(path),
            Bytes(b" has "),
            Number(count as u64),
            Bytes(b" hunks, and a program of a bare machine has one"),
        ],
    )
}

// A program does not fit into a store of so many words.
fn push_no_room(text: &mut Vec<u8>, path: &[u8], store: u32) -> Result<(), AllocError>
    ensures { OnOk result (text.new.items ≡ text.old.items ++ no_room_words path.now store) }
{
    push_sentence(
        text,
        &[
            Bytes(path),
            Bytes(b" does not fit into a store of "),
            Number(store as u64),
            Bytes(b" words; take a larger one with -s"),
        ],
    )
}

// There is no such item.
fn push_no_item(text: &mut Vec<u8>, word: &[u8]) -> Result<(), AllocError>
    ensures { OnOk result (text.new.items ≡ text.old.items ++ no_item_words word.now) }
{
    push_sentence(
        text,
        &[
            Bytes(b"there is no item "),
            Bytes(word),
            Bytes(b", but task, program, file, type and key"),
        ],
    )
}

// The task of an earlier item has the number.
fn push_number_taken(text: &mut Vec<u8>, item: usize, number: u32) -> Result<(), AllocError>
    ensures { OnOk result (text.new.items ≡ text.old.items ++ number_taken_words item number) }
{
    push_sentence(
        text,
        &[
            Bytes(b"the task of item "),
            Number(item as u64),
            Bytes(b" has the number "),
            Number(number as u64),
            Bytes(b" already"),
        ],
    )
}

// The task of an earlier item has the priority.
fn push_priority_taken(text: &mut Vec<u8>, item: usize, priority: u32) -> Result<(), AllocError>
    ensures { OnOk result (text.new.items ≡ text.old.items ++ priority_taken_words item priority) }
{
    push_sentence(
        text,
        &[
            Bytes(b"the task of item "),
            Number(item as u64),
            Bytes(b" has the priority "),
            Number(priority as u64),
            Bytes(b" already"),
        ],
    )
}

// Files of this name come from other paths in an earlier item.
fn push_name_taken<'t>(
    text: &mut Vec<u8>,
    name: &'t [u8],
    known: &'t [u8],
    item: usize,
    paths: &'t [u8],
) -> Result<(), AllocError>
    ensures { OnOk result (text.new.items ≡ text.old.items ++ name_taken_words name.now known.now item paths.now) }
{
    push_sentence(
        text,
        &[
            Bytes(b"two files have the name "),
            Bytes(name),
            Bytes(b": "),
            Bytes(known),
            Bytes(b" of item "),
            Number(item as u64),
            Bytes(b", and "),
            Bytes(paths),
        ],
    )
}

// There are as many files as a machine has at most, before this one.
fn push_file_count(text: &mut Vec<u8>, name: &[u8]) -> Result<(), AllocError>
    ensures { OnOk result (text.new.items ≡ text.old.items ++ file_count_words name.now) }
{
    push_sentence(
        text,
        &[
            Bytes(name),
            Bytes(b" would be file 65, and a machine has at most 64"),
        ],
    )
}

// A byte of a file that no session may have, with its name.
fn push_file_byte<'t>(
    text: &mut Vec<u8>,
    path: &'t [u8],
    line: u64,
    column: u64,
    name: &'t [u8],
) -> Result<(), AllocError>
    ensures { OnOk result (text.new.items
        ≡ text.old.items ++ file_byte_words path.now line column name.now) }
{
    push_sentence(
        text,
        &[
            Bytes(path),
            Bytes(b":"),
            Number(line),
            Bytes(b": byte "),
            Number(column),
            Bytes(b" of the line is "),
            Bytes(name),
            Bytes(b", and a session may have the bytes from the blank to ~"),
        ],
    )
}

// A byte of a typed text that no session may have, with its name.
fn push_typed_byte(text: &mut Vec<u8>, column: usize, name: &[u8]) -> Result<(), AllocError>
    ensures { OnOk result (text.new.items ≡ text.old.items ++ typed_byte_words column name.now) }
{
    push_sentence(
        text,
        &[
            Bytes(b"byte "),
            Number(column as u64),
            Bytes(b" of the text is "),
            Bytes(name),
            Bytes(b", and a typed text may have the bytes from the blank to ~"),
        ],
    )
}

// What a byte is called.
fn byte_name(alloc: Global, byte: u8) -> Result<Vec<u8>, AllocError>
    ensures { IfOk result (λ v. v.items ≡ byte_name byte) }
{
    match byte {
        b'\t' => Vec::from_slice(alloc, b"a tab"),
        b'\n' => Vec::from_slice(alloc, b"a line end"),
        b'\r' => Vec::from_slice(alloc, b"a carriage return"),
        _ => hex_name(alloc, &hex_digits(byte)),
    }
}

// What a byte with these two digits is called.
fn hex_name(alloc: Global, digits: &[u8]) -> Result<Vec<u8>, AllocError>
    ensures { IfOk result (λ v. v.items ≡ hex_name digits.now) }
{
    let mut text = Vec::new(alloc);
    push_sentence(
        &mut text,
        &[Bytes(b"the byte "), Bytes(digits), Bytes(b" in hex")],
    )?;
    Ok(text)
}

/// A byte as two hex digits in lower case.
pub fn hex_digits(byte: u8) -> [u8; 2]
    ensures { result ≡ encode_lower (byte ∷ []) }
{
    let mut digits = [0u8; 2];
    hex::encode_to_slice([byte], &mut digits).unwrap();
    digits
}
