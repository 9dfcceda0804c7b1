// Modules in a store, and the globals that they set.

pub mod calls;
mod copies;
pub mod globals;
pub mod laws;
mod placement;
mod relocation;

pub use calls::{LoadEnd, NoModule, load, unload};
pub use globals::{MOST_GLOBALS, globals_fit, init_globals};
