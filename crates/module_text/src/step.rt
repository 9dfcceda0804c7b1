// One token more.
ghost use Rattle.std.specs.Prelude.{◌≡◌, ◌<◌, ◌≤◌, length};
ghost use Rattle.module_text.specs.Places.{bytes_in};
ghost use Rattle.module_text.specs.ModuleOfText.{read_token};

use crate::TextBytes;
use crate::grammar::{Expects, follow};
use crate::tokens::{Span, word_in};

/// A word that was read, and what is expected after it.
#[derive(Clone, Copy)]
pub struct Step {
    /// The word.
    pub word: u32,
    /// What is expected after it.
    pub next: Expects,
}

/// The word that a token is, and what is expected after it; else the code of a token that cannot be here.
pub fn read_token<X: TextBytes>(text: &X, expects: Expects, token: Span) -> Result<Step, u32>
    requires some { token.start < token.end }
    requires inside { token.end ≤ length (X.text text.now) }
    ensures { result ≡ read_token expects (bytes_in (X.text text.now) token) }
{
    let word = word_in(text, token).ok_or(1u32)?;
    let next = follow(expects, word)?;
    Ok(Step { word, next })
}
