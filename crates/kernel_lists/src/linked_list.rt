// Lists linked through the words of a store.

pub mod laws;
pub mod links;
pub mod walk;

pub use links::{link_in, unlink};
pub use walk::{Nodes, follow};
