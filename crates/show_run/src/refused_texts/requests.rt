// What a bundle asks for.
ghost use Rattle.std.specs.Prelude.{◌≡◌};
ghost use Rattle.show_run.specs.RefusedTexts.Requests.{request_of, with_kind};

use text_errors::{TextKind, kind_named};
use tool_bundles::Entry;
use tool_texts::Lent;

/// What is asked for.
#[derive(Drop)]
pub struct Request<'a> {
    /// The kind of the text.
    pub kind: TextKind,
    /// The name of its file, or nothing where it has none.
    pub name: Lent<'a>,
    /// The text.
    pub text: Lent<'a>,
}

/// What words ask for: the kind of a text, and a file with its bytes. `None` comes exactly where they are not that.
pub fn request_of<'a>(entries: &'a [Entry<'a>]) -> Option<Request<'a>>
    ensures { result ≡ request_of entries.now }
{
    match entries {
        [kind, file] => with_kind(kind_named(kind.word.bytes())?, file),
        _ => None,
    }
}

// The text of this kind that a word names with its bytes.
fn with_kind<'a>(kind: TextKind, file: &'a Entry<'a>) -> Option<Request<'a>>
    ensures { result ≡ with_kind kind file.now }
{
    Some(Request {
        kind,
        name: file.word.again(),
        text: file.file()?,
    })
}
