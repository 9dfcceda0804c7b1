// Whether a store, whatever its words are, holds the words of valid lists.
#![tactic(auto)]

pub mod between;
pub mod check;
pub mod console_line;
pub mod fault_reports;
pub mod list_passes;
mod packet_rules;
pub mod places;
pub mod queue_pass;
mod queued;

pub use between::{are_valid_registers, are_valid_ticks, first_runs};
pub use check::holds_lists;
pub use console_line::is_valid_console;
pub use fault_reports::are_valid_faults;
pub use list_passes::{has_residents, highest_of};
