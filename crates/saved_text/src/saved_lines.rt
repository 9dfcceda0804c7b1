// The lines of the text of a saved machine, each read and printed.

mod fields;
pub mod heads;
pub mod hex_text;
pub mod print;
pub mod statements;

pub use heads::{console_of, is_word, read_regs, ring_of, shell_of};
pub use hex_text::decoded;
pub use print::{
    print_bytes, print_console, print_file, print_go, print_key, print_pipe, print_regs,
    print_ring, print_shell, print_stream, print_word,
};
pub use statements::{Statement, statement_of};
