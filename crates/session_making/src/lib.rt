// Making sessions: the session that a request with its files asks for, as a text, or the first thing that is wrong in the request.
#![tactic(auto)]

pub mod bare;
pub mod ends;
pub mod items;
pub mod laws;
pub mod makings;
pub mod modules;
pub mod notes;
pub mod numbers;
pub mod programs;
pub mod refusals;
pub mod requests;
pub mod sessions;
pub mod stops;
pub mod tables;
pub mod texts;
pub mod tool;
pub mod words;
pub mod wrongs;

pub use tool::make_session;
