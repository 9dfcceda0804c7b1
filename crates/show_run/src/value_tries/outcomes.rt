// What a run comes to.
ghost use Rattle.std.specs.Prelude.{◌≡◌};
ghost use Rattle.show_run.specs.ValueTries.Outcomes.{is_same_ending, is_same_outcome, is_same_stop};

use kernel_model::Stop;
use session_text::Bytes;

/// How a try of a value ended.
#[derive(Clone, Copy)]
pub enum Ending {
    /// The machine ran, and has stopped for this reason.
    Stopped(Stop),
    /// The session does not boot: the line that is refused, and the code.
    NoBoot { line: u32, code: u32 },
    /// There is no session with the value.
    NoSession,
}

/// What a try comes to.
#[derive(Drop)]
pub struct Outcome {
    /// The bytes that went to the console.
    pub bytes: Bytes,
    /// How it ended.
    pub ending: Ending,
}

/// A value that was tried.
#[derive(Drop)]
pub struct Try {
    /// The value.
    pub value: u64,
    /// How many steps were taken.
    pub steps: u64,
    /// What it came to.
    pub outcome: Outcome,
}

/// Whether two outcomes are the same.
pub fn is_same_outcome(a: &Outcome, b: &Outcome) -> bool
    ensures { result ≡ is_same_outcome a.now b.now }
{
    is_same_ending(a.ending, b.ending) && a.bytes.as_slice() == b.bytes.as_slice()
}

fn is_same_ending(a: Ending, b: Ending) -> bool
    ensures { result ≡ is_same_ending a b }
{
    match (a, b) {
        (Ending::Stopped(stop), Ending::Stopped(other)) => is_same_stop(stop, other),
        (
            Ending::NoBoot { line, code },
            Ending::NoBoot {
                line: other_line,
                code: other_code,
            },
        ) => line == other_line && code == other_code,
        (Ending::NoSession, Ending::NoSession) => true,
        _ => false,
    }
}

fn is_same_stop(a: Stop, b: Stop) -> bool
    ensures { result ≡ is_same_stop a b }
{
    match (a, b) {
        (Stop::Steps, Stop::Steps) | (Stop::Finish, Stop::Finish) => true,
        (Stop::Quit(code), Stop::Quit(other)) => code == other,
        (
            Stop::Fault {
                code,
                address,
                task,
            },
            Stop::Fault {
                code: other_code,
                address: other_address,
                task: other_task,
            },
        ) => code == other_code && address == other_address && task == other_task,
        _ => false,
    }
}
