// Reading the text of a saved machine.
ghost use Rattle.std.specs.Prelude.{◌≡◌, ◌^◌, ◌<◌, length, IfOk};
ghost use Rattle.module_text.specs.TextReader.Answers.{Gives};
ghost use Rattle.module_text.specs.TextReader.Lines.{lines_of};
ghost use Rattle.saved_text.specs.Canonical.{IsLawful};
ghost use Rattle.saved_text.specs.ImageOfText.{image_of};

use crate::Image;
use crate::drafts::Draft;
use module_text::{TextEnd, split_line};
use std::alloc::Global;

/// A saved machine, and how many lines its text has.
#[derive(Drop)]
pub struct ReadImage {
    /// The machine.
    pub image: Image,
    /// The number of its lines, the last of which is its `GO`.
    pub lines: u32,
}

/// The saved machine of a text. Unless memory runs out, `Bad` comes exactly where the text is none, with the first line in
/// error, from 1, and its code: 1 where no such form may be there, or a name, a number or an address does not rise, 2
/// where a number or a name is out of its range, and 3 where the text ended before its `GO` line, which is one more than the
/// lines that there are. `WantMemory` comes only where memory could not be had.
pub fn read_image(alloc: Global, text: &[u8]) -> Result<ReadImage, TextEnd>
    requires { length text.now < 2 ^ 32 }
    ensures value { Gives (λ r. r.image) result (image_of text.now) }
    ensures lines { IfOk result (λ r. r.lines ≡ length (lines_of text.now)) }

    // A machine that was read can be printed.
    ensures lawful { IfOk result (λ r. IsLawful r.image) }
{
    whole_image(alloc, text)
}

// The saved machine of a text, line by line.
fn whole_image(alloc: Global, text: &[u8]) -> Result<ReadImage, TextEnd>
    requires { length text.now < 2 ^ 32 }
    ensures value { Gives (λ r. r.image) result (image_of text.now) }
    ensures lines { IfOk result (λ r. r.lines ≡ length (lines_of text.now)) }
{
    let mut draft = Draft::new(alloc)?;
    let mut n = 1;
    let mut rest = text;
    while let Some((line, others)) = split_line(rest) {
        draft.read_line(alloc, n, line)?;
        n += 1;
        rest = others;
    }
    let image = draft.end(n)?;
    Ok(ReadImage {
        image,
        lines: n - 1,
    })
}
