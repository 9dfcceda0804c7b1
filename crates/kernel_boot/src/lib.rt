// How a kernel begins, and what a session puts into it.
#![tactic(auto)]

mod begin;
mod files;
pub mod laws;
mod refusals;
mod residents;
mod start;
mod tasks;

pub use begin::begin_task;
pub use files::load_files;
pub use laws::boot_lines_law;
pub use refusals::BootRefusal;
pub use residents::make_resident_kernel;
pub use start::make_kernel;
pub use tasks::start_tasks;
