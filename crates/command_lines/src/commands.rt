// The commands, and how a line is read to one.
ghost use Rattle.std.specs.Prelude.{◌≡◌, ◌<◌, ◌^◌, length, Ok, if◌then◌else◌};
ghost use Rattle.command_lines.specs.Arguments.{is_set, on_ok};
ghost use Rattle.command_lines.specs.Command.{command_of, file_in, flags_in, named_command, nothing_in, priority_in, program_in, program_named, renaming_in, task_in};

use crate::argument_templates::Arg;
use crate::arguments::{is_set, name, number, option_number, read_arguments, text};
use crate::command_names::{CommandName, command_named};
use crate::words::{first_word, rest_of};
use ram_disc::Name;

/// What a command line asks of the shell.
#[derive(Drop)]
pub enum Command {
    /// Nothing: the line has no word.
    Nothing,
    /// The file is typed.
    Type(Name),
    /// The files are listed.
    Examine,
    /// The file is deleted.
    Delete(Name),
    /// The file gets another name.
    Rename {
        /// The name that it has.
        from: Name,
        /// The name that it gets.
        to: Name,
    },
    /// The tasks are listed.
    Status,
    /// The blocks of the store are counted.
    Map,
    /// The task is held.
    Hold(u32),
    /// The task is held no longer.
    Release(u32),
    /// The task gets another priority.
    ChangePriority {
        /// The number of the task.
        task: u32,
        /// The priority that it gets.
        priority: u32,
    },
    /// The task's flags get more: 1, 2, 4 and 8 for B, C, D and E, added up.
    Break {
        /// The number of the task.
        task: u32,
        /// The flags, added up.
        flags: u32,
    },
    /// The program is started beside the shell, with the priority where there is one.
    Run {
        /// The name of its file.
        program: Name,
        /// Its priority, where the line has one.
        priority: Option<u32>,
    },
    /// The machine stops.
    Finish,
    /// The line's word is a program that is started and waited for. A program takes no arguments: `rest` has the code of the
    /// refusal where there are some.
    Start {
        /// The name of its file.
        program: Name,
        /// That nothing follows, or the code of the refusal.
        rest: Result<(), u32>,
    },
}

/// The command that a line is, or the code of its refusal. The codes of the line as RDARGS reads it come first, then 55 for an
/// argument that is no decimal number below 2 ^ 32, then 40 for one that is no lawful name of a file.
pub fn read_command(line: &[u8]) -> Result<Command, u32>
    requires { length line.now < 2 ^ 32 }
    ensures { result ≡ command_of line.now }
{
    let word = first_word(line);
    if word.is_empty() {
        return Ok(Command::Nothing);
    }
    let rest = rest_of(line);
    match command_named(word) {
        Some(name) => read_named(name, rest),
        None => read_program(word, rest),
    }
}

// A word that names a command, and what follows it.
fn read_named(name: CommandName, rest: &[u8]) -> Result<Command, u32>
    requires { length rest.now < 2 ^ 32 }
    ensures { result ≡ named_command name rest.now }
{
    match name {
        CommandName::TypeFile => Ok(Command::Type(read_file(rest)?)),
        CommandName::ListFiles => read_alone(rest, Command::Examine),
        CommandName::DeleteFile => Ok(Command::Delete(read_file(rest)?)),
        CommandName::RenameFile => read_renaming(rest),
        CommandName::ListTasks => read_alone(rest, Command::Status),
        CommandName::CountBlocks => read_alone(rest, Command::Map),
        CommandName::HoldTask => Ok(Command::Hold(read_task(rest)?)),
        CommandName::ReleaseTask => Ok(Command::Release(read_task(rest)?)),
        CommandName::SetPriority => read_priority(rest),
        CommandName::SetFlags => read_flags(rest),
        CommandName::RunProgram => read_run(rest),
        CommandName::FinishMachine => read_alone(rest, Command::Finish),
    }
}

// Any other word is a program; what follows it is read, and refuses nothing yet.
fn read_program(word: &[u8], rest: &[u8]) -> Result<Command, u32>
    requires { length rest.now < 2 ^ 32 }
    ensures { result ≡ program_named word.now rest.now }
{
    let program = name(word)?;
    Ok(Command::Start {
        program,
        rest: read_nothing(rest),
    })
}

fn read_nothing(rest: &[u8]) -> Result<(), u32>
    requires { length rest.now < 2 ^ 32 }
    ensures { result ≡ nothing_in rest.now }
{
    read_arguments(b"", rest)?;
    Ok(())
}

// A command that takes no arguments.
fn read_alone(rest: &[u8], command: Command) -> Result<Command, u32>
    requires { length rest.now < 2 ^ 32 }
    ensures { result ≡ on_ok (nothing_in rest.now) (λ none. Ok command) }
{
    read_nothing(rest)?;
    Ok(command)
}

fn read_file(rest: &[u8]) -> Result<Name, u32>
    requires { length rest.now < 2 ^ 32 }
    ensures { result ≡ file_in rest.now }
{
    let args = read_arguments(b"FILE/A", rest)?;
    name(text(rest, args[0]))
}

fn read_task(rest: &[u8]) -> Result<u32, u32>
    requires { length rest.now < 2 ^ 32 }
    ensures { result ≡ task_in rest.now }
{
    let args = read_arguments(b"TASK/A", rest)?;
    number(text(rest, args[0]))
}

// The name of a file, and its new name.
fn read_renaming(rest: &[u8]) -> Result<Command, u32>
    requires { length rest.now < 2 ^ 32 }
    ensures { result ≡ renaming_in rest.now }
{
    let args = read_arguments(b"FROM/A,TO=AS/A", rest)?;
    Ok(Command::Rename {
        from: name(text(rest, args[0]))?,
        to: name(text(rest, args[1]))?,
    })
}

// A task, and its new priority.
fn read_priority(rest: &[u8]) -> Result<Command, u32>
    requires { length rest.now < 2 ^ 32 }
    ensures { result ≡ priority_in rest.now }
{
    let args = read_arguments(b"TASK/A,PRI/A", rest)?;
    Ok(Command::ChangePriority {
        task: number(text(rest, args[0]))?,
        priority: number(text(rest, args[1]))?,
    })
}

// A task, and its new flags. No switch means B.
fn read_flags(rest: &[u8]) -> Result<Command, u32>
    requires { length rest.now < 2 ^ 32 }
    ensures { result ≡ flags_in rest.now }
{
    let args = read_arguments(b"TASK/A,B/S,C/S,D/S,E/S", rest)?;
    let task = number(text(rest, args[0]))?;
    let flags = flag(args[1], 1) + flag(args[2], 2) + flag(args[3], 4) + flag(args[4], 8);
    Ok(Command::Break {
        task,
        flags: if flags == 0 { 1 } else { flags },
    })
}

// The flag of a switch, where it is set.
fn flag(switch: Arg, flag: u32) -> u32
    ensures { result ≡ (if is_set switch then flag else 0) }
{
    if is_set(switch) { flag } else { 0 }
}

// A program, and its priority, which is read before the name is.
fn read_run(rest: &[u8]) -> Result<Command, u32>
    requires { length rest.now < 2 ^ 32 }
    ensures { result ≡ program_in rest.now }
{
    let args = read_arguments(b"PROGRAM/A,PRI/K", rest)?;
    let priority = option_number(rest, args[1])?;
    Ok(Command::Run {
        program: name(text(rest, args[0]))?,
        priority,
    })
}
