// What is said of a line, and of which column.
ghost use Rattle.std.specs.Prelude.{◌≡◌, IfOk};
ghost use Rattle.std.specs.List.{flat_map};
ghost use Rattle.tool_texts.specs.Sentences.{text_of};
ghost use Rattle.assembly_errors.specs.Remarks.{kept_remark};

use std::alloc::{AllocError, Global};
use tool_texts::{Said, push_sentence};

/// What is said of a line.
#[derive(Drop)]
pub struct Remark {
    /// The column of which it is said, from 1.
    pub column: usize,
    /// The words.
    pub words: Vec<u8>,
}

/// What is said of a column, one part after the other.
pub fn make_remark(alloc: Global, column: usize, parts: &[Said]) -> Result<Remark, AllocError>
    ensures { IfOk result
        (λ r. kept_remark r ≡ record { column = column; words = flat_map text_of parts.now }) }
{
    let mut words = Vec::new(alloc);
    push_sentence(&mut words, parts)?;
    Ok(Remark { column, words })
}
