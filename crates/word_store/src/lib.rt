// The machine's words: the store, the registers, arithmetic, and who guards the kernel's words.
#![tactic(auto)]

pub mod arithmetic;
pub mod guards;
pub mod registers;
pub mod words;

pub use arithmetic::{add, div, mul, mul_div, rem, shl, shr, signed, sub};
pub use guards::Guard;
pub use registers::Regs;
pub use words::by_address::{set_word_at, set_words, word, word_at};
pub use words::{NoStoreMemory, Store};
