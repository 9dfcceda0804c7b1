// Which tool the words of the command line ask for.
ghost use Rattle.std.specs.Prelude.{◌≡◌, map, string_bytes};
ghost use Rattle.tools_run.specs.Words.{asked_of, asked_with_name, tool_named};

use tool_texts::Lent;

/// A tool.
#[derive(Clone, Copy)]
pub enum Tool {
    /// The plain assembly text of one with more forms.
    Asm,
    /// What is wrong in an assembly text, in words.
    AsmErrors,
    /// What is strange in an assembly text that is taken, in words.
    AsmNotes,
    /// Where the bytes of each line of an assembly text are.
    AsmPlaces,
    /// The text of the session that a bundle asks for.
    Session,
    /// The picture of the run that a log tells of.
    Picture,
    /// The marks of a lab by the values of a number, or a file with these values, as a bundle asks for them.
    Marks,
    /// The assembly that makes a module again.
    Unasm,
    /// Which globals modules set and use, and which of those that are called nobody sets.
    Needs,
    /// Where two runs part, by their logs.
    Partings,
}

/// What is asked for: a tool, and how its input is called.
#[derive(Drop)]
pub struct Asked<'w> {
    /// The tool.
    pub tool: Tool,
    /// The name of the input, or nothing where it has none.
    pub name: Lent<'w>,
}

/// What the words ask for, or `None` exactly where they ask for nothing: a tool, and the name of its input, where it has one.
pub fn asked_of(words: &[String]) -> Option<Asked<'_>>
    ensures { result ≡ asked_of (map string_bytes words.now) }
{
    match words {
        [word] => asked_with_name(word.as_str(), ""),
        [word, name] => asked_with_name(word.as_str(), name.as_str()),
        _ => None,
    }
}

// A tool, with a name of its input.
fn asked_with_name<'w>(word: &str, name: &'w str) -> Option<Asked<'w>>
    ensures { result ≡ asked_with_name word.now name.now }
{
    let tool = tool_named(word)?;
    Some(Asked {
        tool,
        name: Lent::new(name.as_bytes()),
    })
}

// The tool that a word is, if it is one.
fn tool_named(word: &str) -> Option<Tool>
    ensures { result ≡ tool_named word.now }
{
    match word {
        "asm" => Some(Tool::Asm),
        "asm-errors" => Some(Tool::AsmErrors),
        "asm-notes" => Some(Tool::AsmNotes),
        "asm-places" => Some(Tool::AsmPlaces),
        "session" => Some(Tool::Session),
        "picture" => Some(Tool::Picture),
        "marks" => Some(Tool::Marks),
        "unasm" => Some(Tool::Unasm),
        "needs" => Some(Tool::Needs),
        "partings" => Some(Tool::Partings),
        _ => None,
    }
}
