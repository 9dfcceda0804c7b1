// Decoding: the instruction at a byte address, with its operand.

pub mod code;
pub mod evenness;
pub mod fetch;
pub mod instructions;
pub mod laws;
pub mod offsets;

pub use code::Code;
pub use evenness::{even_above, even_below};
pub use fetch::decode;
pub use instructions::{DecodeEnd, Instr};
pub use offsets::{byte_offset, half_offset};
