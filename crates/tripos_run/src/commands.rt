// What the words of the command line ask for.
ghost use Rattle.std.specs.Prelude.{◌≡◌, map, string_bytes};
ghost use Rattle.tripos_run.specs.Words.{command_named, generation, job_of, seed};

use module_text::number;

/// What the program is asked to do.
#[derive(Clone, Copy)]
pub enum Job {
    /// Answer an input.
    Answer(Command),
    /// Make a session of the number, run it, and sum up what it writes.
    Generate(u32),
}

/// What the program is asked to do with its input.
#[derive(Clone, Copy)]
pub enum Command {
    /// Run the session.
    Run,
    /// Run the session, and write the words of its store that are not 0.
    Dump,
    /// Run the session, and write a line for each event of its kernel in place of the console bytes.
    Trace,
    /// Write the module of the assembly text.
    Asm,
    /// List the module.
    Disasm,
    /// Run the session, by the debugger's lines after it.
    Debug,
    /// Run the session, and write its machine as a text.
    Save,
    /// Go on with the machine of a text.
    Resume,
    /// Take the rounds of two machines and the link between them.
    Ring,
}

/// What the words ask for, or `None` exactly where they ask for nothing.
pub fn job_of(words: &[String]) -> Option<Job>
    ensures { result ≡ job_of (map string_bytes words.now) }
{
    match words {
        [word] => command_named(word.as_str()).map(Job::Answer),
        [word, number] => generation(word.as_str(), number.as_str()),
        _ => None,
    }
}

fn command_named(word: &str) -> Option<Command>
    ensures { result ≡ command_named word.now }
{
    match word {
        "run" => Some(Command::Run),
        "dump" => Some(Command::Dump),
        "trace" => Some(Command::Trace),
        "asm" => Some(Command::Asm),
        "disasm" => Some(Command::Disasm),
        "debug" => Some(Command::Debug),
        "save" => Some(Command::Save),
        "resume" => Some(Command::Resume),
        "ring" => Some(Command::Ring),
        _ => None,
    }
}

fn generation(word: &str, digits: &str) -> Option<Job>
    ensures { result ≡ generation word.now digits.now }
{
    if word != "gen" {
        return None;
    }
    let n = number(digits.as_bytes())?;
    seed(n).map(Job::Generate)
}

// The number, where it is below 2 ^ 32.
fn seed(n: u64) -> Option<u32>
    ensures { result ≡ seed n }
{
    u32::try_from(n).ok()
}
