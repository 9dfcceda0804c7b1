// The program of a bare machine.
ghost use Rattle.std.specs.Prelude.{◌≡◌, ◌++◌, [], ◌<◌, ◌≤◌, length, IfOk, OnOk};
ghost use Rattle.session_making.specs.Bare.{add_code, add_program, add_programs, no_code, note_globals, one_hunk};
ghost use Rattle.session_making.specs.Ends.{Gives};

use crate::ends::Hindered;
use crate::modules::file_module;
use crate::notes::globals_note;
use crate::tables::{global_numbers, hunk_code};
use crate::wrongs::Wrong;
use module_text::Hunk;
use std::alloc::{AllocError, Global};
use tool_bundles::{Entry, Listed};
use tool_texts::Lent;

/// The word of the store at which the code of a bare machine begins.
const FIRST_WORD: u64 = 200;

/// The code of some programs, and what is noted of them.
#[derive(Drop)]
pub struct BareCode {
    /// The bytes of the code, which begins at byte 800.
    pub code: Listed<u8>,
    /// The notes, each with a LF.
    pub notes: Listed<u8>,
}

/// The code of programs, one after another in a store of so many words.
pub fn bare_code<'a>(
    alloc: Global,
    store: u32,
    files: &'a [Entry<'a>],
) -> Result<BareCode, Hindered<'a>>
    ensures { Gives (λ b. b) result (add_programs store no_code files.now) }
{
    let mut bare = BareCode {
        code: Listed::new(alloc),
        notes: Listed::new(alloc),
    };
    for file in files {
        add_program(alloc, store, &mut bare, file)?;
    }
    Ok(bare)
}

// Adds a program.
fn add_program<'a>(
    alloc: Global,
    store: u32,
    bare: &mut BareCode,
    file: &'a Entry<'a>,
) -> Result<(), Hindered<'a>>
    ensures { Gives (λ _. bare.new) result (add_program store bare.old file.now) }
{
    let module = file_module(alloc, file)?;
    let hunks = module.hunks.as_slice();
    let hunk = one_hunk(&file.word, hunks)?;
    add_code(alloc, store, bare, &file.word, hunk)?;
    note_globals(alloc, bare, file.word.bytes(), hunks)?;
    Ok(())
}

// The one hunk of a program.
fn one_hunk<'m, 'a>(path: &Lent<'a>, hunks: &'m [Hunk]) -> Result<&'m Hunk, Hindered<'a>>
    ensures { Gives (λ h. h.now) result (one_hunk path.now hunks.now) }
{
    match hunks {
        [hunk] => Ok(hunk),
        _ => Err(Hindered::Refused(Wrong::HunkCount {
            path: path.again(),
            count: hunks.len(),
        })),
    }
}

// Adds the code of a hunk, which has to be in the store.
fn add_code<'a>(
    alloc: Global,
    store: u32,
    bare: &mut BareCode,
    path: &Lent<'a>,
    hunk: &Hunk,
) -> Result<(), Hindered<'a>>
    ensures { Gives (λ _. bare.new) result (add_code store bare.old path.now hunk.now) }
{
    let at = FIRST_WORD + bare.code.as_slice().len() as u64 / 4;
    let code = hunk_code(alloc, at - 1, hunk)?;
    bare.code.append(code)?;
    if FIRST_WORD + bare.code.as_slice().len() as u64 / 4 > u64::from(store) {
        return Err(Hindered::Refused(Wrong::NoRoom {
            path: path.again(),
            store,
        }));
    }
    Ok(())
}

// Notes that a program sets globals, if it does.
fn note_globals(
    alloc: Global,
    bare: &mut BareCode,
    path: &[u8],
    hunks: &[Hunk],
) -> Result<(), AllocError>
    ensures { OnOk result (bare.new ≡ note_globals bare.old path.now hunks.now) }
{
    let numbers = global_numbers(alloc, hunks)?;
    if numbers.as_slice().is_empty() {
        return Ok(());
    }
    let note = globals_note(alloc, path)?;
    bare.notes.append(note)
}
