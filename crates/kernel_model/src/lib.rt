// The kernel as a record of lists that owns words of the store; which words are its own, and which task runs.
#![tactic(auto)]

pub mod kernel_dispatch;
pub mod kernel_record;
pub mod word_kinds;

pub use kernel_record::{Stop, Use, field_of_state, is_held_state, numbers};
pub use word_kinds::{ByteKinds, KindKeeper, Walk, are_unowned, packet_in};
