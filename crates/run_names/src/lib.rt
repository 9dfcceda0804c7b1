// The names of what is in a store and in a log: programs, functions and places, who has a packet, and what codes mean.
#![tactic(auto)]

pub mod codes;
pub mod endings;
pub mod flags;
pub mod functions;
pub mod hunks;
pub mod modules;
pub mod packets_out;
pub mod parties;
pub mod places;
pub mod programs;

pub use codes::{fault_meaning, refusal_meaning, request_name};
pub use endings::push_what_led_to_0;
pub use flags::push_flags;
pub use functions::{FunctionName, function_in};
pub use hunks::{NamedHunk, hunks_of};
pub use modules::{NamedModule, block_of_task, modules_of, push_programs, task_blocks};
pub use packets_out::{PacketsOut, Sent, holder};
pub use parties::{Party, push_party};
pub use places::{Place, hunk_with, place_in, push_comma_place, push_place};
pub use programs::{KnownProgram, known_programs};
