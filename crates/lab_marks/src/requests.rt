// What a bundle asks for.

use module_text::number;
use tool_bundles::Entry;
use tool_texts::Lent;

/// The most digits of a student's number.
const MOST_DIGITS: usize = 8;

/// A file with its path.
#[derive(Drop)]
pub struct NamedFile<'a> {
    /// The path.
    pub path: Lent<'a>,
    /// The bytes.
    pub bytes: Lent<'a>,
}

/// What is asked for of the marks.
#[derive(Drop)]
pub enum Asked<'a> {
    /// What is told of the lab with this name.
    Told(Lent<'a>),
    /// The plan by which it is graded, with the number made of what is handed in.
    Plan(i64),
    /// A file of the lab with its values.
    File(AskedFile<'a>),
}

/// A file of the lab that is asked for with its values.
#[derive(Drop)]
pub struct AskedFile<'a> {
    /// The number made of what is handed in.
    pub handed: i64,
    /// Whether the expressions in its comments keep their braces.
    pub keeps_braces: bool,
    /// The file.
    pub file: NamedFile<'a>,
}

/// What a bundle asks for.
#[derive(Drop)]
pub struct Request<'a> {
    /// What is asked for.
    pub asked: Asked<'a>,
    /// The student's number, as it is written.
    pub number: Lent<'a>,
    /// What that is worth.
    pub worth: i64,
    /// The marks.
    pub marks: NamedFile<'a>,
}

/// What words ask for. The first one is `told`, `plan`, `filled` or `kept`. Then come the student's number, of 1 to 8 digits, and a word: for
/// `told` the name of the lab, and otherwise the number made of the bytes that are handed in. Then comes the path of the marks, with their
/// bytes, and for `filled` and `kept` that of the file. `filled` takes away the braces of its comments, and `kept` leaves them.
pub fn request_of<'a>(entries: &'a [Entry<'a>]) -> Option<Request<'a>> {
    let [kind, number_word, third, marks, files @ ..] = entries else {
        return None;
    };
    Some(Request {
        asked: asked_of(kind.word.bytes(), third, files)?,
        number: number_word.word.again(),
        worth: short_number(number_word.word.bytes())?,
        marks: named_file(marks)?,
    })
}

// What the first word asks for, with the third one and the words after the marks.
fn asked_of<'a>(kind: &[u8], third: &Entry<'a>, files: &[Entry<'a>]) -> Option<Asked<'a>> {
    match (kind, files) {
        (b"told", []) => Some(Asked::Told(third.word.again())),
        (b"plan", []) => Some(Asked::Plan(handed_number(third.word.bytes())?)),
        (b"filled", [file]) => file_asked(false, third, file),
        (b"kept", [file]) => file_asked(true, third, file),
        _ => None,
    }
}

fn file_asked<'a>(keeps_braces: bool, third: &Entry<'a>, file: &Entry<'a>) -> Option<Asked<'a>> {
    Some(Asked::File(AskedFile {
        handed: handed_number(third.word.bytes())?,
        keeps_braces,
        file: named_file(file)?,
    }))
}

// The number that 1 to 8 digits are.
fn short_number(digits: &[u8]) -> Option<i64> {
    if digits.len() > MOST_DIGITS {
        return None;
    }
    handed_number(digits)
}

// The number that 1 to 10 digits are.
fn handed_number(digits: &[u8]) -> Option<i64> {
    i64::try_from(number(digits)?).ok()
}

// The file that a word names.
fn named_file<'a>(entry: &Entry<'a>) -> Option<NamedFile<'a>> {
    Some(NamedFile {
        path: entry.word.again(),
        bytes: entry.file()?,
    })
}
