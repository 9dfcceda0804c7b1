// Assembly text, and the module text that it makes.

pub mod assembly;
pub mod directives;
mod encode;
pub mod errors;
mod hunks;
pub mod instruction_law;
mod instructions;
pub mod labels;
pub mod laws;
pub mod numbers;
pub mod operands;
pub mod parts;
pub mod pieces;
pub mod places;
pub mod read;
mod sinks;
pub mod statements;
pub mod survey;
pub mod tables;

pub use assembly::assemble;
use errors::LineError;
