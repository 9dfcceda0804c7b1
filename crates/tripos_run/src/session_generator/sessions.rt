// The session that a number makes.
ghost use Rattle.std.specs.Prelude.{◌≡◌, ◌≤◌, ◌+◌, ◌<◌, length, IfOk, OnOk};
ghost use Rattle.tripos_run.specs.SessionGenerator.Draws.{choosing, draw, in_turn, with_next};
ghost use Rattle.tripos_run.specs.SessionGenerator.Generated.{character, command_of, file, generated, line, longest, on_a_file, typing};

use crate::session_generator::drafts::Draft;
use byte_streams::WantMemory;
use std::alloc::Global;

/// The most bytes of a session.
pub const LONGEST: usize = 135_409;

const FILES: u32 = 40;

const MOST_LINES: u32 = 50;

const CHARACTERS: u32 = 60;

const COMMANDS: u32 = 500;

/// The text of the session that the number makes: files of drawn characters, and commands that are typed.
pub fn generate(alloc: Global, n: u32) -> Result<Vec<u8>, WantMemory>
    ensures text { IfOk result (λ text. text.items ≡ generated n) }
    ensures short { IfOk result (λ text. length text.items ≤ longest) }
{
    let mut draft = Draft::new(alloc, LONGEST, n)?;
    draft.add(b"TRIPOS 1\nSTORE 65536\nTICK 100\nRESIDENT\n")?;
    add_files(&mut draft)?;
    add_commands(&mut draft)?;
    draft.add(b"GO 600000\n")?;
    Ok(draft.into_text())
}

fn add_files(draft: &mut Draft) -> Result<(), WantMemory>
    ensures { OnOk result (draft.new ≡ with_next draft.old (in_turn FILES file)) }
{
    for number in 0..FILES {
        add_file(draft, number)?;
    }
    Ok(())
}

fn add_file(draft: &mut Draft, number: u32) -> Result<(), WantMemory>
    ensures { OnOk result (draft.new ≡ with_next draft.old (file number)) }
{
    draft.add(b"FILE F")?;
    draft.add_decimal(number)?;
    draft.add(b"\n")?;
    let lines = 1 + draft.draw(MOST_LINES);
    add_lines(draft, lines)
}

fn add_lines(draft: &mut Draft, count: u32) -> Result<(), WantMemory>
    ensures { OnOk result (draft.new ≡ with_next draft.old (in_turn count (λ _. line))) }
{
    for _ in 0..count {
        add_line(draft)?;
    }
    Ok(())
}

fn add_line(draft: &mut Draft) -> Result<(), WantMemory>
    ensures { OnOk result (draft.new ≡ with_next draft.old line) }
{
    draft.add(b":")?;
    add_characters(draft)?;
    draft.add(b"\n")
}

fn add_characters(draft: &mut Draft) -> Result<(), WantMemory>
    ensures { OnOk result (draft.new
        ≡ with_next draft.old (in_turn CHARACTERS (λ _. character))) }
{
    for _ in 0..CHARACTERS {
        add_character(draft)?;
    }
    Ok(())
}

fn add_character(draft: &mut Draft) -> Result<(), WantMemory>
    ensures { OnOk result (draft.new ≡ with_next draft.old character) }
{
    let code = 33 + draft.draw(90);
    draft.add(&[code as u8])
}

fn add_commands(draft: &mut Draft) -> Result<(), WantMemory>
    ensures { OnOk result (draft.new
        ≡ with_next draft.old (in_turn COMMANDS (λ i. typing (i + 1)))) }
{
    for i in 0..COMMANDS {
        add_typing(draft, i + 1)?;
    }
    Ok(())
}

// Adds the line that types a command at the step 1000 k.
fn add_typing(draft: &mut Draft, k: u32) -> Result<(), WantMemory>
    requires { k ≤ COMMANDS }
    ensures { OnOk result (draft.new ≡ with_next draft.old (typing k)) }
{
    draft.add(b"AT ")?;
    draft.add_decimal(1000 * k)?;
    draft.add(b" :")?;
    add_command(draft)?;
    draft.add(b"\n")
}

fn add_command(draft: &mut Draft) -> Result<(), WantMemory>
    ensures { OnOk result (draft.new ≡ with_next draft.old (choosing (draw 4) command_of)) }
{
    match draft.draw(4) {
        0 => add_on_a_file(draft, b"TYPE F"),
        1 => draft.add(b"EX"),
        2 => add_on_a_file(draft, b"DELETE F"),
        _ => draft.add(b"STATUS"),
    }
}

fn add_on_a_file(draft: &mut Draft, verb: &[u8]) -> Result<(), WantMemory>
    ensures { OnOk result (draft.new ≡ with_next draft.old (on_a_file verb.now)) }
{
    let number = draft.draw(FILES);
    draft.add(verb)?;
    draft.add_decimal(number)
}
