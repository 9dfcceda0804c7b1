// The lists in a saved machine. Each is made from a vector and lent as a slice, and takes no memory.
ghost use Rattle.std.specs.Prelude.{◌≡◌, ◌∷◌, ◌++◌, [], IsTrue, None, Ok, OnErr, OnOk};
ghost use Rattle.module_text.specs.TextReader.Answers.{Gives};
ghost use Rattle.saved_text.specs.SavedLines.HexText.{bytes_of, is_hex};
ghost use Rattle.ram_disc.specs.Disc.{is_before};
ghost use Rattle.saved_text.specs.Files.{is_behind, takes_bytes, with_bytes, with_more};

use crate::saved_lines::decoded;
use crate::{SavedFile, SavedPipe, SavedStream};
use module_text::TextEnd;
use session_text::Bytes;
use std::alloc::{AllocFailed, Global};
use std::marker::Model;

/// The files of a saved machine, seen as their list.
#[derive(Drop)]
pub struct Files {
    /// The files, in the order of the text.
    list: Vec<SavedFile>,
}

impl Model for Files {
    ghost use Rattle.std.specs.Prelude.{List};
    ghost use Rattle.saved_text.specs.declared.images.SavedFile.{SavedFile};

    ghost Value = { List SavedFile };

    ghost view = { λ l. l.list.items };
}

impl Files {
    /// These files.
    pub fn new(files: Vec<SavedFile>) -> Files
        ensures { result ≡ files.items }
    {
        Files { list: files }
    }

    /// Adds a file at the end.
    pub fn push(&mut self, file: SavedFile) -> Result<(), AllocFailed<SavedFile>>
        ensures ok { OnOk result (self.new ≡ self.old ++ file ∷ []) }
        ensures err { OnErr result (self.new ≡ self.old) }
    {
        self.list.push(file)
    }

    /// Adds the bytes that these digits are to the last file, if there is one.
    pub fn add_bytes(&mut self, alloc: Global, digits: &[u8]) -> Result<(), TextEnd>
        requires { IsTrue (is_hex digits.now) }
        ensures { Gives (λ _. self.new) result (Ok (with_bytes self.old (bytes_of digits.now))) }
    {
        if let Some(last) = self.list.pop() {
            self.list.push(with_more(alloc, last, digits)?)?;
        }
        Ok(())
    }

    /// Whether a file of this name may come after them.
    pub fn are_before(&self, name: &[u8]) -> bool
        ensures { result ≡ is_behind self.now name.now }
    {
        match self.list.last() {
            Some(file) => is_before(file.name.bytes(), name),
            None => true,
        }
    }

    /// Whether the last one may have more bytes: it is there, and all lines of its bytes are full.
    pub fn takes_bytes(&self) -> bool
        ensures { result ≡ takes_bytes self.now }
    {
        match self.list.last() {
            Some(file) => file.bytes.as_slice().len() % 32 == 0,
            None => false,
        }
    }

    /// The files, lent.
    pub fn as_slice(&self) -> &[SavedFile]
        ensures { result.now ≡ self.now }
    {
        self.list.as_slice()
    }
}

// Whether the one name is before the other in byte order.
fn is_before(a: &[u8], b: &[u8]) -> bool
    ensures { result ≡ is_before a.now b.now }
{
    a.cmp(b).is_lt()
}

// The file with the bytes that these digits are after its bytes.
fn with_more(alloc: Global, file: SavedFile, digits: &[u8]) -> Result<SavedFile, TextEnd>
    requires { IsTrue (is_hex digits.now) }
    ensures { Gives (λ f. f) result (Ok (with_more file (bytes_of digits.now))) }
{
    let SavedFile { name, bytes } = file;
    let more = decoded(alloc, digits)?;
    let mut list = bytes.into_vec();
    list.extend_from_slice(&more)?;
    let bytes = Bytes::new(list);
    Ok(SavedFile { name, bytes })
}

/// The open streams of a saved machine, seen as their list.
#[derive(Drop)]
pub struct Streams {
    /// The streams, in the order of the text.
    list: Vec<SavedStream>,
}

impl Model for Streams {
    ghost use Rattle.std.specs.Prelude.{List};
    ghost use Rattle.saved_text.specs.declared.images.SavedStream.{SavedStream};

    ghost Value = { List SavedStream };

    ghost view = { λ l. l.list.items };
}

impl Streams {
    /// These streams.
    pub fn new(streams: Vec<SavedStream>) -> Streams
        ensures { result ≡ streams.items }
    {
        Streams { list: streams }
    }

    /// Adds a stream at the end.
    pub fn push(&mut self, stream: SavedStream) -> Result<(), AllocFailed<SavedStream>>
        ensures ok { OnOk result (self.new ≡ self.old ++ stream ∷ []) }
        ensures err { OnErr result (self.new ≡ self.old) }
    {
        self.list.push(stream)
    }

    /// The streams, lent.
    pub fn as_slice(&self) -> &[SavedStream]
        ensures { result.now ≡ self.now }
    {
        self.list.as_slice()
    }
}

/// The pipes of a saved machine, seen as their list.
#[derive(Drop)]
pub struct Pipes {
    /// The pipes, in the order of the text.
    list: Vec<SavedPipe>,
}

impl Model for Pipes {
    ghost use Rattle.std.specs.Prelude.{List};
    ghost use Rattle.saved_text.specs.declared.images.SavedPipe.{SavedPipe};

    ghost Value = { List SavedPipe };

    ghost view = { λ l. l.list.items };
}

impl Pipes {
    /// These pipes.
    pub fn new(pipes: Vec<SavedPipe>) -> Pipes
        ensures { result ≡ pipes.items }
    {
        Pipes { list: pipes }
    }

    /// Adds a pipe at the end.
    pub fn push(&mut self, pipe: SavedPipe) -> Result<(), AllocFailed<SavedPipe>>
        ensures ok { OnOk result (self.new ≡ self.old ++ pipe ∷ []) }
        ensures err { OnErr result (self.new ≡ self.old) }
    {
        self.list.push(pipe)
    }

    /// The pipes, lent.
    pub fn as_slice(&self) -> &[SavedPipe]
        ensures { result.now ≡ self.now }
    {
        self.list.as_slice()
    }
}
