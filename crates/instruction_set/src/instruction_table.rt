// The table of instructions: for each function byte a name, a form of operand and an effect.

pub mod effects;
pub mod forms;
pub mod laws;
pub mod lookup;
pub mod names;
mod places;
pub mod row_names;
pub mod rows;
mod slots;

pub use effects::{Effect, Test};
pub use forms::Form;
pub use lookup::{row, shape};
pub use names::byte_of;
pub use row_names::name;
pub use rows::{Row, Shape};
