// What is asked of a moment.
use crate::no_machines::step_named;
use tool_bundles::Entry;

/// What is told.
#[derive(Clone, Copy)]
pub enum Asked {
    /// The state.
    State,
    /// The lists.
    Lists,
}

/// What is asked for.
#[derive(Clone, Copy)]
pub struct Request<'a> {
    /// What the session is called.
    pub name: &'a [u8],
    /// The text of the session.
    pub session: &'a [u8],
    /// What is told.
    pub asked: Asked,
    /// After which step it is, if that is not the end of the run.
    pub at: Option<u64>,
}

/// What the words of a bundle ask for; `None` where they are no request.
pub fn request_of<'a>(entries: &[Entry<'a>]) -> Option<Request<'a>> {
    let [session, asked, at] = entries else {
        return None;
    };
    Some(Request {
        name: session.word.bytes(),
        session: session.file()?.bytes(),
        asked: asked_by(asked.word.bytes())?,
        at: step_named(at.word.bytes())?,
    })
}

// What a word asks for.
fn asked_by(word: &[u8]) -> Option<Asked> {
    match word {
        b"state" => Some(Asked::State),
        b"lists" => Some(Asked::Lists),
        _ => None,
    }
}
