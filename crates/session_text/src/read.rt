// Reading a session.
ghost use Rattle.std.specs.Prelude.{◌≡◌, ◌^◌, ◌<◌, length, IfOk};
ghost use Rattle.module_text.specs.TextReader.Answers.{Gives};
ghost use Rattle.session_text.specs.Canonical.{IsLawful};
ghost use Rattle.session_text.specs.Numbering.{IsNumbered};
ghost use Rattle.session_text.specs.SessionOfText.{session_of};

use crate::Session;
use crate::drafts::Draft;
use module_text::{TextEnd, split_line};
use std::alloc::Global;

/// The session of a text. Unless memory runs out, `Bad` comes exactly where the text is none, with the first line in
/// error, from 1, and its code: 1 where no such form may be there, 2 where a number or a name is out of its range, and
/// 3 where the text ended before its `GO` line, which is one more than the lines that there are. `WantMemory` comes only
/// where memory could not be had.
pub fn read_session(alloc: Global, text: &[u8]) -> Result<Session, TextEnd>
    requires { length text.now < 2 ^ 32 }
    ensures value { Gives (λ s. s) result (session_of text.now) }

    // A session that was read can be printed, and its lines have the numbers of lines.
    ensures lawful { IfOk result IsLawful }
    ensures numbered { IfOk result (λ s. IsNumbered s.bare s.lines) }
{
    whole_session(alloc, text)
}

// The session of a text, line by line.
fn whole_session(alloc: Global, text: &[u8]) -> Result<Session, TextEnd>
    requires { length text.now < 2 ^ 32 }
    ensures { Gives (λ s. s) result (session_of text.now) }
{
    let mut draft = Draft::new(alloc);
    let mut n = 1;
    let mut rest = text;
    while let Some((line, others)) = split_line(rest) {
        draft.read_line(alloc, n, line)?;
        n += 1;
        rest = others;
    }
    draft.end(n)
}
