// Reading the input of a ring.
ghost use Rattle.std.specs.Prelude.{◌≡◌, ◌<◌, ◌+◌, ◌^◌, length, IfOk};
ghost use Rattle.module_text.specs.TextReader.Answers.{Gives};
ghost use Rattle.machine_ring.specs.RingLink.LawfulRing.{IsLawfulRing};
ghost use Rattle.machine_ring.specs.RingLink.RingOfText.{ring_of};

use crate::ring_link::RingInput;
use crate::ring_link::heads::read_head;
use crate::ring_link::inputs::LEFT_LINE;
use crate::ring_link::lines::rest_after;
use crate::ring_link::machines::{end_behind, read_left, read_right};
use module_text::TextEnd;
use std::alloc::Global;

/// The ring of a text. Unless memory runs out, `Bad` comes exactly where the text is none, with the first line in
/// error, from 1, and its code: 1 where no such form may be there, 2 where a number, a name or the number of
/// letters is out of its range, and 3 where the text ended before the right machine's `GO` line, which is one more
/// than the lines that there are. `WantMemory` comes only where memory could not be had.
pub fn read_ring(alloc: Global, text: &[u8]) -> Result<RingInput, TextEnd>
    requires { length text.now < 2 ^ 32 }
    ensures value { Gives (λ x. x) result (ring_of text.now) }

    // A ring that was read is within the rules, and each of its lines has a number in the text.
    ensures lawful { IfOk result IsLawfulRing }
{
    whole_ring(alloc, text)
}

// The ring of a text, part by part.
#[tactic(auto, unfolding(crate::specs::RingLink::RingOfText::ring_of))]
fn whole_ring(alloc: Global, text: &[u8]) -> Result<RingInput, TextEnd>
    requires { length text.now < 2 ^ 32 }
    ensures { Gives (λ x. x) result (ring_of text.now) }
{
    let (head, rest) = read_head(alloc, text)?;
    let (left, rest, lines) = match read_left(alloc, rest) {
        Ok(parts) => parts,
        Err(end) => return Err(end_behind(LEFT_LINE, end)),
    };
    let right_line = LEFT_LINE + lines + 1;
    let rest = rest_after(b"RIGHT", right_line, rest)?;
    let right = match read_right(alloc, rest) {
        Ok(session) => session,
        Err(end) => return Err(end_behind(right_line, end)),
    };
    Ok(RingInput {
        rounds: head.rounds,
        wait: head.wait,
        link: head.link,
        acks: head.acks,
        left,
        right,
        left_line: LEFT_LINE,
        right_line,
    })
}
