// How the runs of an outcome ended, in words.
use crate::value_tries::groups::Group;
use crate::value_tries::outcomes::Ending;
use crate::value_tries::settings::Setting;
use kernel_model::Stop;
use run_names::fault_meaning;
use std::alloc::AllocError;
use text_errors::numbers::push_count;
use tool_texts::Said::{Bytes, Number};
use tool_texts::push_sentence;

/// Adds how the runs of an outcome ended, of which this is set anew.
pub fn push_ending(text: &mut Vec<u8>, setting: Setting, group: &Group) -> Result<(), AllocError> {
    match group.outcome.ending {
        Ending::Stopped(stop) => {
            push_stop(text, stop)?;
            push_steps(text, group.least, group.most)
        }
        Ending::NoBoot { line, code } => push_no_boot(text, line, code),
        Ending::NoSession => push_sentence(
            text,
            &[
                Bytes(b"  there is no session with such a value: "),
                Bytes(range_words(setting)),
                Bytes(b"\n"),
            ],
        ),
    }
}

// Why the runs have stopped.
fn push_stop(text: &mut Vec<u8>, stop: Stop) -> Result<(), AllocError> {
    match stop {
        Stop::Steps => push_sentence(text, &[Bytes(b"  its steps are used up")]),
        Stop::Quit(code) => push_sentence(
            text,
            &[Bytes(b"  it quit with "), Number(u64::from(code))],
        ),
        Stop::Finish => push_sentence(text, &[Bytes(b"  FINISH ended it")]),
        Stop::Fault {
            code,
            address,
            task,
        } => push_sentence(
            text,
            &[
                Bytes(b"  fault "),
                Number(u64::from(code)),
                Bytes(b" at "),
                Number(u64::from(address)),
                Bytes(b" in task "),
                Number(u64::from(task)),
                Bytes(b", "),
                Bytes(fault_meaning(code)),
            ],
        ),
    }
}

// After how many steps they have stopped.
fn push_steps(text: &mut Vec<u8>, least: u64, most: u64) -> Result<(), AllocError> {
    push_sentence(text, &[Bytes(b", after ")])?;
    if least < most {
        push_sentence(text, &[Number(least), Bytes(b" to ")])?;
    }
    push_count(text, most, b"step")?;
    push_sentence(text, &[Bytes(b"\n")])
}

fn push_no_boot(text: &mut Vec<u8>, line: u32, code: u32) -> Result<(), AllocError> {
    push_sentence(
        text,
        &[
            Bytes(b"  it does not boot: line "),
            Number(u64::from(line)),
            Bytes(b" code "),
            Number(u64::from(code)),
            Bytes(b", "),
            Bytes(boot_meaning(code)),
            Bytes(b"\n"),
        ],
    )
}

// What the code of a line means that does not boot.
fn boot_meaning(code: u32) -> &'static [u8] {
    match code {
        1 => b"no room in the store for what this line puts there",
        8 => b"an earlier task has this priority",
        18 => b"the program sets a global above 1000",
        27 => b"an earlier task has this number",
        41 => b"no file of this name",
        42 => b"an earlier file has this name",
        43 => b"no room on the disc for this file",
        44 => b"no room in the directory, which has 64 files",
        _ => b"the program's file is no module text",
    }
}

/// What a session may have there.
pub fn range_words(setting: Setting) -> &'static [u8] {
    match setting {
        Setting::Tick => b"a period is a number from 1 to 1000000",
        Setting::Key(_) => b"a step is a number up to 4000000000",
        Setting::Priority(_) => b"a priority is a number from 1 to 10000",
        Setting::Stack(_) => b"the highest index of a stack is a number from 20 to 100000",
    }
}
