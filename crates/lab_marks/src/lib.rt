// The marks of a lab: the values of a student's number, and what is marked by them.
#![tactic(auto)]

pub mod arithmetic;
pub mod checks;
pub mod cuts;
pub mod drafts;
pub mod ends;
pub mod expressions;
pub mod files;
pub mod fillings;
pub mod known;
pub mod laws;
pub mod lets;
pub mod levels;
pub mod marks;
pub mod plans;
pub mod requests;
pub mod sessions;
pub mod stops;
pub mod tokens;
pub mod tool;
pub mod wrongs;

pub use ends::Hindered;
pub use expressions::value_of;
pub use laws::{expression_law, grouping_law, plan_law};
pub use tool::marks_text;
pub use wrongs::Wrong;
