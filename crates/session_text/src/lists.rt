// The lists in a session. Each is made from a vector and lent as a slice, and takes no memory.
ghost use Rattle.std.specs.Prelude.{◌≡◌, [], ◌∷◌, ◌++◌, Ok, OnErr, OnOk, map};
ghost use Rattle.module_text.specs.TextReader.Answers.{Gives};
ghost use Rattle.session_text.specs.FileText.{form_with_text, line_with_text, with_text};

use crate::{LineForm, SessionLine};
use arrayvec::ArrayVec;
use module_text::TextEnd;
use ram_disc::Name;
use std::alloc::{AllocFailed, Global};
use std::marker::Model;

/// Bytes, seen as their list.
#[derive(Drop)]
pub struct Bytes {
    /// The bytes.
    list: Vec<u8>,
}

impl Model for Bytes {
    ghost use Rattle.std.specs.Prelude.{ℕ, List};

    ghost Value = { List ℕ };

    ghost view = { λ b. b.list.items };
}

impl Bytes {
    /// These bytes.
    pub fn new(bytes: Vec<u8>) -> Bytes
        ensures { result ≡ bytes.items }
    {
        Bytes { list: bytes }
    }

    /// The bytes, lent.
    pub fn as_slice(&self) -> &[u8]
        ensures { result.now ≡ self.now }
    {
        self.list.as_slice()
    }

    /// A line of text after the bytes, with an LF.
    pub fn with_line(self, text: &[u8]) -> Result<Bytes, TextEnd>
        ensures { Gives (λ b. b) result (Ok (self ++ (text.now ++ 10 ∷ []))) }
    {
        let mut list = self.list;
        list.extend_from_slice(text)?;
        list.push(b'\n')?;
        Ok(Bytes { list })
    }

    /// The bytes, without taking memory.
    pub fn into_vec(self) -> Vec<u8>
        ensures { result.items ≡ self }
    {
        self.list
    }
}

/// The lines between the head of a session and its `GO`, seen as their list.
#[derive(Drop)]
pub struct Lines {
    /// The lines, in the order of the text.
    list: Vec<SessionLine>,
}

impl Model for Lines {
    ghost use Rattle.std.specs.Prelude.{List};
    ghost use Rattle.session_text.specs.declared.sessions.SessionLine.{SessionLine};

    ghost Value = { List SessionLine };

    ghost view = { λ l. l.list.items };
}

impl Lines {
    /// These lines.
    pub fn new(lines: Vec<SessionLine>) -> Lines
        ensures { result ≡ lines.items }
    {
        Lines { list: lines }
    }

    /// Adds a line at the end.
    pub fn push(&mut self, line: SessionLine) -> Result<(), AllocFailed<SessionLine>>
        ensures ok { OnOk result (self.new ≡ self.old ++ line ∷ []) }
        ensures err { OnErr result (self.new ≡ self.old) }
    {
        self.list.push(line)
    }

    /// Adds a line of text to the last file, if that is the last line.
    pub fn add_text(&mut self, text: &[u8]) -> Result<(), TextEnd>
        ensures { Gives (λ _. self.new) result (Ok (with_text self.old text.now)) }
    {
        if let Some(last) = self.list.pop() {
            self.list.push(line_with_text(last, text)?)?;
        }
        Ok(())
    }

    /// The lines, lent.
    pub fn as_slice(&self) -> &[SessionLine]
        ensures { result.now ≡ self.now }
    {
        self.list.as_slice()
    }

    /// The lines, without taking memory.
    pub fn into_vec(self) -> Vec<SessionLine>
        ensures { result.items ≡ self }
    {
        self.list
    }
}

fn line_with_text(line: SessionLine, text: &[u8]) -> Result<SessionLine, TextEnd>
    ensures { Gives (λ l. l) result (Ok (line_with_text line text.now)) }
{
    let SessionLine { line, form } = line;
    let form = form_with_text(form, text)?;
    Ok(SessionLine { line, form })
}

fn form_with_text(form: LineForm, text: &[u8]) -> Result<LineForm, TextEnd>
    ensures { Gives (λ f. f) result (Ok (form_with_text form text.now)) }
{
    match form {
        LineForm::File { name, bytes } => {
            let bytes = bytes.with_line(text)?;
            Ok(LineForm::File { name, bytes })
        }
        LineForm::Code(bytes) => Ok(LineForm::Code(bytes)),
        LineForm::Task {
            id,
            pri,
            stack,
            names,
        } => Ok(LineForm::Task {
            id,
            pri,
            stack,
            names,
        }),
    }
}

/// Keys, each with the step at which it is due, seen as their list.
#[derive(Drop)]
pub struct Keys {
    /// The step and the byte of each key, in the order of the text.
    list: Vec<(u32, u8)>,
}

impl Model for Keys {
    ghost use Rattle.std.specs.Prelude.{ℕ, List};

    ghost Value = { List (ℕ × ℕ) };

    ghost view = { λ k. k.list.items };
}

impl Keys {
    /// These keys.
    pub fn new(keys: Vec<(u32, u8)>) -> Keys
        ensures { result ≡ keys.items }
    {
        Keys { list: keys }
    }

    /// Adds a key at the end.
    pub fn push(&mut self, step: u32, byte: u8) -> Result<(), AllocFailed<(u32, u8)>>
        ensures ok { OnOk result (self.new ≡ self.old ++ (step, byte) ∷ []) }
        ensures err { OnErr result (self.new ≡ self.old) }
    {
        self.list.push((step, byte))
    }

    /// Adds the bytes of a text at the end, as keys that are due at one step.
    pub fn add_text(&mut self, step: u32, text: &[u8]) -> Result<(), TextEnd>
        ensures { Gives (λ _. self.new) result (Ok (self.old ++ map (λ c. (step, c)) text.now)) }
    {
        for byte in text {
            self.list.push((step, *byte))?;
        }
        Ok(())
    }

    /// The keys, lent.
    pub fn as_slice(&self) -> &[(u32, u8)]
        ensures { result.now ≡ self.now }
    {
        self.list.as_slice()
    }

    /// The keys, without taking memory.
    pub fn into_vec(self) -> Vec<(u32, u8)>
        ensures { result.items ≡ self }
    {
        self.list
    }
}

/// At most eight names of files, seen as their list. They are apart, so that they take no room in the lines that have none.
#[derive(Drop)]
pub struct Names {
    /// The names, in the order of the text.
    list: Box<ArrayVec<Name, 8>>,
}

impl Model for Names {
    ghost use Rattle.std.specs.Prelude.{ℕ, List};

    ghost Value = { List (List ℕ) };

    ghost view = { λ n. n.list.value.items };
}

impl Names {
    /// These names. `WantMemory` comes only where memory could not be had.
    pub fn new(alloc: Global, names: ArrayVec<Name, 8>) -> Result<Names, TextEnd>
        ensures { Gives (λ n. n) result (Ok names.items) }
    {
        Ok(Names {
            list: Box::new(alloc, names)?,
        })
    }

    /// The names, lent.
    pub fn as_slice(&self) -> &[Name]
        ensures { result.now ≡ self.now }
    {
        self.list.as_slice()
    }
}
