// The programs of a session, which have names.
ghost use Rattle.std.specs.Prelude.{◌≡◌, ◌++◌, Ok};
ghost use Rattle.module_text.specs.TextReader.Answers.{Gives};
ghost use Rattle.show_run.specs.SessionPrograms.{line_programs, named_programs, programs_of};
ghost use Rattle.show_run.specs.ShortFiles.{HasShortFiles, IsShortLine};

use crate::Show;
use module_text::{TextEnd, read_module};
use session_text::{LineForm, Session, SessionLine};
use state_text::Program;
use std::alloc::Global;

/// The programs whose names are said. It is done before the machine is booted, since none takes memory then.
pub(crate) fn named_programs(
    alloc: Global,
    asked: Show,
    session: &Session,
) -> Result<Vec<Program>, TextEnd>
    requires { HasShortFiles session.now }
    ensures { Gives (λ p. p.items) result (Ok (named_programs asked session.now)) }
{
    match asked {
        Show::State => programs_of(alloc, session),
        Show::Log { .. } | Show::Writes { .. } => Ok(Vec::new(alloc)),
    }
}

// All programs of a session, in their order.
fn programs_of(alloc: Global, session: &Session) -> Result<Vec<Program>, TextEnd>
    requires { HasShortFiles session.now }
    ensures { Gives (λ p. p.items) result (Ok (programs_of session.now)) }
{
    let mut programs = Vec::new(alloc);
    for line in session.lines.as_slice() {
        add_program(alloc, line, &mut programs)?;
    }
    Ok(programs)
}

// Adds the program that a line gives, if it gives one.
fn add_program(
    alloc: Global,
    line: &SessionLine,
    programs: &mut Vec<Program>,
) -> Result<(), TextEnd>
    requires { IsShortLine line.now }
    ensures { Gives (λ _. programs.new.items) result
        (Ok (programs.old.items ++ line_programs line.now)) }
{
    match &line.form {
        LineForm::File { name, bytes } => match read_module(alloc, bytes.as_slice()) {
            Ok(module) => {
                let name = name.copy();
                let hunks = module.hunks;
                programs.push(Program { name, hunks })?;
                Ok(())
            }
            Err(TextEnd::Bad { .. }) => Ok(()),
            Err(TextEnd::WantMemory) => Err(TextEnd::WantMemory),
        },
        LineForm::Code(_) | LineForm::Task { .. } => Ok(()),
    }
}
