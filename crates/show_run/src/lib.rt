// What the second program does: the state in which a session's run stopped, or what happened in its steps, in words; and what is told of a
// bundle.
#![tactic(auto)]

mod answer;
pub mod commands;
pub mod laws;
mod machines;
mod no_machines;
pub mod places;
pub mod program;
mod programs;
pub mod refused_texts;
mod single_steps;
pub mod step_log;
pub mod tellings;
pub mod told_tries;
pub mod typed_words;
mod value_tries;
pub mod word_writes;
pub mod worded_log;
pub mod worded_moment;

pub use commands::Show;
pub use laws::answer_law;
pub use program::show;
pub use value_tries::laws::{outcome_law, setting_law, span_law};
