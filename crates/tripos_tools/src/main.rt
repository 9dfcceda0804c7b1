// The program that has the tools: the process's words, input and output are given to the one call that answers.
#![tactic(auto)]

use byte_streams::{StdSink, StdSource};
use program_answers::exit_code;
use std::process::ExitCode;
use std::{env, io};
use tools_run::tools;

/// Ends with the status of the call, or with 9 where the system can't give the words.
fn main(rt: HostRuntime) -> ExitCode {
    let Ok(args) = env::args(&rt) else {
        return ExitCode::from(9);
    };
    let mut words = Vec::new(rt.alloc());
    for word in args.skip(1) {
        if words.push(word).is_err() {
            return ExitCode::from(9);
        }
    }
    let mut src = StdSource::new(rt.reader());
    let mut out = StdSink::new(io::writer(&rt));
    let status = tools(rt.alloc(), words.as_slice(), &mut src, &mut out);
    ExitCode::from(exit_code(status))
}
