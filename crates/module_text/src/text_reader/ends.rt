// Why a text is not read.
ghost use Rattle.std.specs.Prelude.{◌≡◌};
ghost use Rattle.module_text.specs.declared.text_reader.ends.TextEnd.TheVariants.{WantMemory};

use std::alloc::{AllocError, AllocFailed};
use thiserror::Error;

/// Why a text is not read.
#[derive(Debug, Drop, Error)]
pub enum TextEnd {
    /// The text is refused at this line, counted from 1, with a code to which its reader gives the meaning.
    #[error("refused: line {line} code {code}")]
    Bad { line: u32, code: u32 },
    /// Memory could not be had.
    #[error("memory could not be had")]
    WantMemory,
}

impl<T: Drop> From<AllocFailed<T>> for TextEnd {
    ghost from_gives = { λ _ e. e ≡ WantMemory };

    fn from(_: AllocFailed<T>) -> TextEnd {
        TextEnd::WantMemory
    }
}

impl From<AllocError> for TextEnd {
    ghost from_gives = { λ _ e. e ≡ WantMemory };

    fn from(_: AllocError) -> TextEnd {
        TextEnd::WantMemory
    }
}
