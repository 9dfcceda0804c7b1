// The text of a session: what it says, read and printed.
#![tactic(auto)]

pub mod boot_ends;
mod drafts;
mod fields;
pub mod fronts;
pub mod laws;
pub mod lists;
pub mod print;
mod ranges;
pub mod read;
pub mod sessions;
mod statements;

pub use boot_ends::BootEnd;
pub use fields::number_field;
pub use fronts::{Front, read_front};
pub use lists::{Bytes, Keys, Lines, Names};
pub use print::print_session;
pub use read::read_session;
pub use sessions::{LineForm, Session, SessionLine};
