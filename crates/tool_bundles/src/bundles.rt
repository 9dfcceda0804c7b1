// A bundle: words, some of them with the bytes of the file that they name.
ghost use Rattle.std.specs.Prelude.{◌≡◌, ◌==◌, option_map};
ghost use Rattle.std.specs.List.{position};
ghost use Rattle.tool_bundles.specs.Bundles.{Reads, bundle_of};
ghost use Rattle.tool_bundles.specs.Entries.{bare_word, entry_of, file_header, file_of, file_word, first_line, header_of, part_of, with_header};

use crate::ends::BundleEnd;
use module_text::{after_word, number};
use session_text::number_field;
use std::alloc::Global;
use std::marker::Model;
use tool_texts::Lent;

/// What a word brings with it.
#[derive(Drop)]
pub enum Content<'a> {
    /// Nothing: it is a word alone.
    Nothing,
    /// It names a file that could not be read.
    Unread,
    /// It names a file with these bytes.
    Bytes(Lent<'a>),
}

/// A word of a bundle.
#[derive(Drop)]
pub struct Entry<'a> {
    /// The word.
    pub word: Lent<'a>,
    /// What it brings.
    pub content: Content<'a>,
}

impl<'a> Content<'a> {
    /// The same, lent once more.
    pub fn again(&self) -> Content<'a>
        ensures { result ≡ self.now }
    {
        match self {
            Content::Nothing => Content::Nothing,
            Content::Unread => Content::Unread,
            Content::Bytes(bytes) => Content::Bytes(bytes.again()),
        }
    }
}

impl<'a> Entry<'a> {
    /// The same word, lent once more.
    pub fn again(&self) -> Entry<'a>
        ensures { result ≡ self.now }
    {
        Entry {
            word: self.word.again(),
            content: self.content.again(),
        }
    }

    /// The bytes of the file that it names; `None` exactly where it brings none.
    pub fn file(&self) -> Option<Lent<'a>>
        ensures { result ≡ file_of self.now }
    {
        match &self.content {
            Content::Bytes(bytes) => Some(bytes.again()),
            Content::Nothing | Content::Unread => None,
        }
    }
}

/// Words that are lent, seen as their list.
#[derive(Drop)]
pub struct Entries<'a> {
    /// The words.
    list: &'a [Entry<'a>],
}

impl<'a> Model for Entries<'a> {
    ghost use Rattle.std.specs.Prelude.{List};
    ghost use Rattle.tool_bundles.specs.declared.bundles.Entry.{Entry};

    ghost Value = { List Entry };

    ghost view = { λ e. e.list.now };
}

impl<'a> Entries<'a> {
    /// These words.
    pub fn new(list: &'a [Entry<'a>]) -> Entries<'a>
        ensures { result ≡ list.now }
    {
        Entries { list }
    }

    /// The words, lent.
    pub fn as_slice(&self) -> &'a [Entry<'a>]
        ensures { result.now ≡ self.now }
    {
        self.list
    }
}

/// The line before a word.
#[derive(Clone, Copy)]
pub enum Header {
    /// A word of so many bytes.
    Word(u64),
    /// A word of so many bytes, which names a file that could not be read.
    Unread(u64),
    /// A word of so many bytes, which names a file of so many.
    File { name: u64, size: u64 },
}

/// The words of a bundle. `NoBundle` comes exactly where the text is none.
pub fn read_bundle<'a>(alloc: Global, text: &'a [u8]) -> Result<Vec<Entry<'a>>, BundleEnd>
    ensures { Reads (λ v. v.items) result (bundle_of text.now) }
{
    let mut entries = Vec::new(alloc);
    let mut rest = text;
    for done in 0..text.len() {
        if rest.is_empty() {
            return Ok(entries);
        }
        let Some((entry, others)) = entry_of(rest) else {
            return Err(BundleEnd::NoBundle);
        };
        entries.push(entry)?;
        rest = others;
    }
    Ok(entries)
}

// The first word with what it brings, and what comes after that; `None` exactly where there is none.
fn entry_of(text: &[u8]) -> Option<(Entry<'_>, &[u8])>
    ensures { option_map (λ x. (x.0, x.1.now)) result ≡ entry_of text.now }
{
    let (line, rest) = first_line(text)?;
    with_header(header_of(line)?, rest)
}

// The first line, and what comes after its LF; `None` exactly where there is no LF.
fn first_line(text: &[u8]) -> Option<(&[u8], &[u8])>
    ensures { option_map (λ x. (x.0.now, x.1.now)) result ≡ first_line text.now }
{
    let end = line_feed(text)?;
    Some((&text[..end], &text[end + 1..]))
}

// Where the first LF is.
fn line_feed(text: &[u8]) -> Option<usize>
    ensures { result ≡ position (λ c. c == 10) text.now }
{
    text.iter().position(|c| *c == b'\n')
}

// What a line before a word says; `None` exactly where it is none.
fn header_of(line: &[u8]) -> Option<Header>
    ensures { result ≡ header_of line.now }
{
    if let Some(digits) = after_word(b"word ", line) {
        return Some(Header::Word(number(digits)?));
    }
    if let Some(digits) = after_word(b"none ", line) {
        return Some(Header::Unread(number(digits)?));
    }
    file_header(after_word(b"file ", line)?)
}

// The same, of a line `file` with its two sizes.
fn file_header(sizes: &[u8]) -> Option<Header>
    ensures { result ≡ file_header sizes.now }
{
    let (name, digits) = number_field(sizes)?;
    let size = number(digits)?;
    Some(Header::File { name, size })
}

// The word after its line, with what it brings.
fn with_header(header: Header, text: &[u8]) -> Option<(Entry<'_>, &[u8])>
    ensures { option_map (λ x. (x.0, x.1.now)) result ≡ with_header header text.now }
{
    match header {
        Header::Word(size) => bare_word(Content::Nothing, size, text),
        Header::Unread(size) => bare_word(Content::Unread, size, text),
        Header::File { name, size } => file_word(name, size, text),
    }
}

// A word of so many bytes, which brings this.
fn bare_word<'a>(content: Content<'a>, size: u64, text: &'a [u8]) -> Option<(Entry<'a>, &'a [u8])>
    ensures { option_map (λ x. (x.0, x.1.now)) result ≡ bare_word content.entry size text.now }
{
    let (word, rest) = part_of(size, text)?;
    let word = Lent::new(word);
    Some((Entry { word, content }, rest))
}

// A word that names a file, and the bytes of the file.
fn file_word(name: u64, size: u64, text: &[u8]) -> Option<(Entry<'_>, &[u8])>
    ensures { option_map (λ x. (x.0, x.1.now)) result ≡ file_word name size text.now }
{
    let (word, rest) = part_of(name, text)?;
    let (bytes, rest) = part_of(size, rest)?;
    let word = Lent::new(word);
    let content = Content::Bytes(Lent::new(bytes));
    Some((Entry { word, content }, rest))
}

// So many bytes, and what comes after them and a LF; `None` exactly where there are not both.
fn part_of(size: u64, text: &[u8]) -> Option<(&[u8], &[u8])>
    ensures { option_map (λ x. (x.0.now, x.1.now)) result ≡ part_of size text.now }
{
    if size >= text.len() as u64 {
        return None;
    }
    let (part, rest) = text.split_at(size as usize);
    let rest = after_word(b"\n", rest)?;
    Some((part, rest))
}
