// Checking the text of a module without memory.
ghost use Rattle.std.specs.Prelude.{◌≡◌, ◌+◌, ◌-◌, ◌^◌, ◌<◌};
ghost use Rattle.module_text.specs.Shapes.{check_of, counted};

use crate::TextBytes;
use crate::grammar::{Expects, finish};
use crate::step::read_token;
use crate::tokens::next_span;

/// How large a module is.
#[derive(Clone, Copy, Debug, PartialEq, Eq)]
pub struct Shape {
    /// The number of hunks.
    pub hunks: u32,
    /// The number of words in all hunks.
    pub words: u32,
}

/// The shape of the module of a text. `Err` comes exactly where the text is none, with the code of the first token that
/// cannot follow those before it: 1 it is no word, 2 the text ends inside an item, 3 no item of this type may be here,
/// 4 an offset is not below its hunk's length, 5 the text ends where an item could begin, 6 a token follows the end word.
pub fn check_module<X: TextBytes>(text: &X) -> Result<Shape, u32>
    ensures { result ≡ check_of (X.text text.now) }
{
    let mut shape = Shape { hunks: 0, words: 0 };
    let mut expects = Expects::FirstType;
    let mut place = 0;
    while let Some(token) = next_span(text, place) {
        let step = read_token(text, expects, token)?;
        shape = counted(shape, expects);
        expects = step.next;
        place = token.end;
    }
    finish(expects)?;
    Ok(shape)
}

// The shape, where a word was read of which this was expected.
fn counted(shape: Shape, expects: Expects) -> Shape
    requires { shape.hunks + shape.words < 2 ^ 32 - 1 }
    ensures { result ≡ counted shape expects }
{
    let Shape { hunks, words } = shape;
    match expects {
        Expects::Length => Shape {
            hunks: hunks + 1,
            words,
        },
        Expects::Word { .. } => Shape {
            hunks,
            words: words + 1,
        },
        _ => shape,
    }
}
