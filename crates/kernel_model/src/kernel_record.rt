// The kernel as a record of lists, which owns words of the store, and its numbers. Its functions do nothing: their contracts are
// the laws.

pub mod change_laws;
pub mod image_laws;
pub mod list_laws;
pub mod number_laws;
pub mod numbers;
pub mod states;
pub mod stops;
pub mod uses;

pub use states::{field_of_state, is_held_state};
pub use stops::Stop;
pub use uses::Use;
