// What bundles ask for.
use crate::value_tries::settings::Setting;
use crate::value_tries::words::numbered_setting;
use module_text::number;
use tool_bundles::Entry;

/// The tries that are asked for.
#[derive(Clone, Copy)]
pub struct Request<'a> {
    /// How many lines are shown at most of what was written.
    pub most_lines: u64,
    /// How many spans are shown at most of the values of an outcome.
    pub most_spans: u64,
    /// What is set anew.
    pub setting: Setting,
    /// Its values, as they were written.
    pub values: &'a [u8],
    /// What the session is called.
    pub name: &'a [u8],
    /// The text of the session.
    pub session: &'a [u8],
}

/// The session with another value that is asked for.
#[derive(Clone, Copy)]
pub struct Variant<'a> {
    /// What is set anew.
    pub setting: Setting,
    /// Its value.
    pub value: u64,
    /// What the session is called.
    pub name: &'a [u8],
    /// The text of the session.
    pub session: &'a [u8],
}

/// The tries that the words of a bundle ask for; `None` where they are no request.
pub fn request_of<'a>(entries: &[Entry<'a>]) -> Option<Request<'a>> {
    match entries {
        [lines, spans, what, values, session] => {
            request_with(lines, spans, plain_setting(what)?, values, session)
        }
        [lines, spans, what, number, values, session] => {
            let setting = numbered_setting(what.word.bytes(), number.word.bytes())?;
            request_with(lines, spans, setting, values, session)
        }
        _ => None,
    }
}

// What is set anew, where it has no number.
fn plain_setting(what: &Entry) -> Option<Setting> {
    if what.word.bytes() == b"tick".as_slice() {
        return Some(Setting::Tick);
    }
    None
}

// A request, of which this is set anew.
fn request_with<'a>(
    lines: &Entry<'a>,
    spans: &Entry<'a>,
    setting: Setting,
    values: &Entry<'a>,
    session: &Entry<'a>,
) -> Option<Request<'a>> {
    Some(Request {
        most_lines: number(lines.word.bytes())?,
        most_spans: number(spans.word.bytes())?,
        setting,
        values: values.word.bytes(),
        name: session.word.bytes(),
        session: session.file()?.bytes(),
    })
}

/// The session with another value that the words of a bundle ask for; `None` where they are no request.
pub fn variant_of<'a>(entries: &[Entry<'a>]) -> Option<Variant<'a>> {
    match entries {
        [what, value, session] => variant_with(plain_setting(what)?, value, session),
        [what, number, value, session] => {
            let setting = numbered_setting(what.word.bytes(), number.word.bytes())?;
            variant_with(setting, value, session)
        }
        _ => None,
    }
}

// A session, of which this is set anew.
fn variant_with<'a>(
    setting: Setting,
    value: &Entry<'a>,
    session: &Entry<'a>,
) -> Option<Variant<'a>> {
    Some(Variant {
        setting,
        value: number(value.word.bytes())?,
        name: session.word.bytes(),
        session: session.file()?.bytes(),
    })
}
