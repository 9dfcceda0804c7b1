// The kernel calls on blocks, and what a keeper of kinds is told about them.

mod giving;
mod keeper;
mod taking;
mod uses;

pub use giving::freevec;
pub use keeper::tell_take;
pub use taking::getvec;
pub use uses::use_of;
