// What is asked for: a session, its map, words, and the files that the map names.

use tool_bundles::{Entries, Entry};
use tool_texts::Lent;

/// What is asked for.
#[derive(Drop)]
pub struct Request<'a> {
    /// The path of the session.
    pub path: Lent<'a>,
    /// The text of the session.
    pub session: Lent<'a>,
    /// The text of the map, if there is one.
    pub map: Option<Lent<'a>>,
    /// The words, a line each.
    pub words: Lent<'a>,
    /// The files that the map names.
    pub sources: Entries<'a>,
}

/// The request of a bundle: a session, a map or the word `-`, and a file of words, each with its bytes, and then the files that the map names.
/// `None` comes exactly where one of the first three is not so.
pub fn request_of<'a>(entries: &'a [Entry<'a>]) -> Option<Request<'a>> {
    let (session, rest) = entries.split_first()?;
    let (map, rest) = rest.split_first()?;
    let (words, sources) = rest.split_first()?;
    Some(Request {
        path: session.word.again(),
        session: session.file()?,
        map: map_of(map)?,
        words: words.file()?,
        sources: Entries::new(sources),
    })
}

// The map, if there is one; `None` where the word is neither `-` nor names a file that was read.
fn map_of<'a>(entry: &Entry<'a>) -> Option<Option<Lent<'a>>> {
    match entry.file() {
        Some(bytes) => Some(Some(bytes)),
        None if entry.word.bytes() == b"-".as_slice() => Some(None),
        None => None,
    }
}
