// What a bundle asks for.
ghost use Rattle.std.specs.Prelude.{◌≡◌};

use tool_bundles::{Entries, Entry};
use tool_texts::Lent;

/// The line by which a session is run to its end.
const TO_THE_END: &[u8] = b"CONT\n";

/// What is asked for.
#[derive(Drop)]
pub struct Request<'a> {
    /// The text of the session.
    pub session: Lent<'a>,
    /// The path of the map.
    pub map_path: Lent<'a>,
    /// The text of the map.
    pub map: Lent<'a>,
    /// The lines of the debugger by which the session is run.
    pub lines: Lent<'a>,
    /// The words that are places.
    pub places: Entries<'a>,
}

/// What words ask for: the path of a session, that of a map, that of lines or `-`, and one place at least.
pub fn request_of<'a>(entries: &'a [Entry<'a>]) -> Option<Request<'a>> {
    let [session, map, lines, places @ ..] = entries else {
        return None;
    };
    if places.is_empty() {
        return None;
    }
    Some(Request {
        session: session.file()?,
        map_path: map.word.again(),
        map: map.file()?,
        lines: lines_of(lines)?,
        places: Entries::new(places),
    })
}

// The lines of the debugger.
fn lines_of<'a>(entry: &Entry<'a>) -> Option<Lent<'a>> {
    if let Some(lines) = entry.file() {
        return Some(lines);
    }
    if entry.word.bytes() == b"-".as_slice() {
        return Some(Lent::new(TO_THE_END));
    }
    None
}
