// The words of a module, as the program reads them.

use crate::findings::Findings;
use crate::lines::TextLines;
use crate::numbers::{after_prefix, hex_number, is_hex, push_count};
use crate::other_lines::push_shown;
use crate::reading::Reading;
use std::alloc::{AllocError, Global};
use tool_texts::Said::{Bytes, Number};
use tool_texts::push_sentence;

/// The word before a hunk.
const HUNK: u32 = 1000;

/// The word before a relocation list.
const RELOCATIONS: u32 = 1001;

/// The word at the end.
const END: u32 = 1002;

/// The codes of what is wrong in a module.
const NO_WORD: u32 = 1;

const ENDS_INSIDE: u32 = 2;

const NO_ITEM: u32 = 3;

const NO_OFFSET: u32 = 4;

const NO_END: u32 = 5;

const AFTER_END: u32 = 6;

/// Lines of a text, of which a module is made.
#[derive(Clone, Copy)]
pub struct ModuleLines {
    /// The number of the first.
    pub first: usize,
    /// The number of the line after the last.
    pub end: usize,
    /// How many bytes at the beginning of each are no part of the module.
    pub skipped: usize,
    /// Whether they are the whole text; then what comes after an error is read, too.
    pub is_whole: bool,
}

/// What a module takes.
#[derive(Clone, Copy)]
pub struct ModuleSize {
    /// How many words its hunks have.
    pub words: u64,
    /// How many hunks there are.
    pub hunks: u64,
    /// The highest global that it says it has.
    pub highest: u32,
}

/// What is due in a module.
#[derive(Clone, Copy, PartialEq, Eq)]
enum Due {
    /// A hunk, a relocation list or the end.
    Item,
    /// The length of a hunk.
    Length,
    /// The words of a hunk.
    Words,
    /// The count of a relocation list.
    Count,
    /// The offsets of a relocation list.
    Offsets,
    /// Nothing.
    Nothing,
}

/// A module that is read.
#[derive(Drop)]
struct ModuleReader {
    /// What is due.
    due: Due,
    /// What it takes so far.
    size: ModuleSize,
    /// The length of the hunk.
    length: u32,
    /// How many words or offsets are missing.
    left: u32,
    /// The word that was last in the hunk.
    last: u32,
    /// The line of the hunk's length, if there is a hunk.
    hunk: Option<usize>,
    /// The line of the relocation list's count, if there is a list.
    list: Option<usize>,
    /// The line of the end word.
    ended: usize,
    /// Whether what comes next can't be read, after an error.
    is_lost: bool,
}

/// Reads all lines of a text as a module.
pub fn read_whole_module(reading: &mut Reading) -> Result<(), AllocError> {
    let lines = ModuleLines {
        first: 1,
        end: reading.lines.after_last(),
        skipped: 0,
        is_whole: true,
    };
    read_module(reading.alloc, &reading.lines, lines, &mut reading.findings)?;
    Ok(())
}

/// Reads lines as a module, and adds the errors in it; where they are not the whole text, only the first.
pub fn read_module(
    alloc: Global,
    text: &TextLines,
    lines: ModuleLines,
    findings: &mut Findings,
) -> Result<ModuleSize, AllocError> {
    let mut module = ModuleReader::new();
    for n in lines.first..lines.end {
        module.read_line(alloc, text, lines, n, findings)?;
        if !lines.is_whole && !findings.is_empty() {
            return Ok(module.size);
        }
    }
    module.read_end(alloc, text, lines, findings)?;
    Ok(module.size)
}

impl ModuleReader {
    fn new() -> ModuleReader {
        ModuleReader {
            due: Due::Item,
            size: ModuleSize {
                words: 0,
                hunks: 0,
                highest: 0,
            },
            length: 0,
            left: 0,
            last: 0,
            hunk: None,
            list: None,
            ended: 0,
            is_lost: false,
        }
    }

    // Reads the words of line n.
    fn read_line(
        &mut self,
        alloc: Global,
        text: &TextLines,
        lines: ModuleLines,
        n: usize,
        findings: &mut Findings,
    ) -> Result<(), AllocError> {
        let line = if lines.is_whole {
            text.whole(n)
        } else {
            text.line(n)
        };
        let mut column = lines.skipped.saturating_add(1);
        let words = line.get(lines.skipped..).unwrap_or(&[]);
        for token in words.split(|c| matches!(*c, b' ' | b'\r')) {
            if !token.is_empty() {
                self.read_word(alloc, n, column, token, findings)?;
                if !lines.is_whole && !findings.is_empty() {
                    return Ok(());
                }
            }
            column = column.saturating_add(token.len()).saturating_add(1);
        }
        Ok(())
    }

    // Reads a word, which is at this column of line n.
    fn read_word(
        &mut self,
        alloc: Global,
        n: usize,
        column: usize,
        token: &[u8],
        findings: &mut Findings,
    ) -> Result<(), AllocError> {
        let value = match hex_number(token) {
            Some(value) => value,
            None => {
                let words = no_word(alloc, token)?;
                findings.add(alloc, n, column, NO_WORD, &[Bytes(words.as_slice())])?;
                self.is_lost = self.is_lost
                    || matches!(self.due, Due::Item | Due::Length | Due::Count);
                0
            }
        };
        if self.is_lost {
            return Ok(());
        }
        match self.due {
            Due::Item => self.begin(alloc, n, column, token, value, findings),
            Due::Length => {
                self.begin_hunk(n, value);
                Ok(())
            }
            Due::Words => {
                self.add_word(value);
                Ok(())
            }
            Due::Count => {
                self.begin_list(n, value);
                Ok(())
            }
            Due::Offsets => self.add_offset(alloc, n, column, token, value, findings),
            Due::Nothing => {
                self.is_lost = true;
                findings.add(
                    alloc,
                    n,
                    column,
                    AFTER_END,
                    &[
                        Bytes(b"the end word 3ea is in line "),
                        Number(self.ended as u64),
                        Bytes(b", and nothing may be after it"),
                    ],
                )
            }
        }
    }

    // A hunk, a relocation list or the end begins.
    fn begin(
        &mut self,
        alloc: Global,
        n: usize,
        column: usize,
        token: &[u8],
        value: u32,
        findings: &mut Findings,
    ) -> Result<(), AllocError> {
        if value == HUNK {
            self.due = Due::Length;
        } else if value == RELOCATIONS && self.hunk.is_some() {
            self.due = Due::Count;
        } else if value == END {
            self.due = Due::Nothing;
            self.ended = n;
        } else {
            let words = self.no_item(alloc, token, value)?;
            findings.add(alloc, n, column, NO_ITEM, &[Bytes(words.as_slice())])?;
            self.is_lost = true;
        }
        Ok(())
    }

    fn begin_hunk(&mut self, n: usize, length: u32) {
        self.length = length;
        self.left = length;
        self.size.hunks = self.size.hunks.saturating_add(1);
        self.hunk = Some(n);
        self.list = None;
        self.last = 0;
        self.due = if length > 0 { Due::Words } else { Due::Item };
    }

    fn add_word(&mut self, value: u32) {
        self.size.words = self.size.words.saturating_add(1);
        self.last = value;
        self.left = self.left.saturating_sub(1);
        if self.left == 0 {
            self.due = Due::Item;
            self.size.highest = self.size.highest.max(value);
        }
    }

    fn begin_list(&mut self, n: usize, count: u32) {
        self.left = count;
        self.list = Some(n);
        self.due = if count > 0 { Due::Offsets } else { Due::Item };
    }

    fn add_offset(
        &mut self,
        alloc: Global,
        n: usize,
        column: usize,
        token: &[u8],
        value: u32,
        findings: &mut Findings,
    ) -> Result<(), AllocError> {
        if value >= self.length {
            findings.add(
                alloc,
                n,
                column,
                NO_OFFSET,
                &[
                    Bytes(b"the offset "),
                    Bytes(token),
                    Bytes(b" is "),
                    Number(u64::from(value)),
                    Bytes(b", and has to be below the length of its hunk, which is "),
                    Number(u64::from(self.length)),
                ],
            )?;
        }
        self.left = self.left.saturating_sub(1);
        if self.left == 0 {
            self.due = Due::Item;
        }
        Ok(())
    }

    // Why nothing begins with this word.
    fn no_item(&self, alloc: Global, token: &[u8], value: u32) -> Result<Vec<u8>, AllocError> {
        let mut words = Vec::new(alloc);
        if value == RELOCATIONS {
            push_sentence(
                &mut words,
                &[Bytes(
                    b"a relocation list, 3e9, is after its hunk, and none comes before this one",
                )],
            )?;
        } else if let Some(line) = self.list {
            push_sentence(
                &mut words,
                &[
                    Bytes(b"the relocation list of line "),
                    Number(line as u64),
                    Bytes(
                        b" is full, and after it comes a hunk, 3e8, another list, 3e9, or the end word 3ea, and not ",
                    ),
                    Bytes(token),
                ],
            )?;
        } else if let Some(line) = self.hunk {
            push_sentence(
                &mut words,
                &[
                    Bytes(b"the hunk of line "),
                    Number(line as u64),
                    Bytes(
                        b" has all its words, and after it comes a hunk, 3e8, a relocation list, 3e9, or the end word 3ea, and not ",
                    ),
                    Bytes(token),
                ],
            )?;
        } else {
            push_sentence(
                &mut words,
                &[
                    Bytes(
                        b"a module begins with a hunk, 3e8, or has the end word 3ea alone, but found ",
                    ),
                    Bytes(token),
                ],
            )?;
        }
        Ok(words)
    }

    // The lines end.
    fn read_end(
        &self,
        alloc: Global,
        text: &TextLines,
        lines: ModuleLines,
        findings: &mut Findings,
    ) -> Result<(), AllocError> {
        if self.is_lost || self.due == Due::Nothing {
            return Ok(());
        }
        let n = if lines.is_whole {
            text.end_line()
        } else {
            lines.end
        };
        let column = if lines.is_whole {
            text.whole(n).len().saturating_add(1)
        } else {
            1
        };
        let (code, words) = self.missing(alloc)?;
        findings.add(alloc, n, column, code, &[Bytes(words.as_slice())])
    }

    // What is missing at the end, with its code.
    fn missing(&self, alloc: Global) -> Result<(u32, Vec<u8>), AllocError> {
        let mut words = Vec::new(alloc);
        match self.due {
            Due::Item => {
                push_sentence(
                    &mut words,
                    &[Bytes(b"the text ends without the end word 3ea")],
                )?;
                return Ok((NO_END, words));
            }
            Due::Length => push_sentence(
                &mut words,
                &[Bytes(b"the text ends where the length of a hunk is due")],
            )?,
            Due::Count => push_sentence(
                &mut words,
                &[Bytes(b"the text ends where the count of a relocation list is due")],
            )?,
            Due::Words => self.push_missing_words(&mut words)?,
            Due::Offsets | Due::Nothing => self.push_missing_offsets(&mut words)?,
        }
        Ok((ENDS_INSIDE, words))
    }

    // Words of the hunk are missing at the end.
    fn push_missing_words(&self, words: &mut Vec<u8>) -> Result<(), AllocError> {
        push_sentence(
            words,
            &[
                Bytes(b"the text ends inside the hunk that begins in line "),
                Number(self.hunk.unwrap_or(0) as u64),
                Bytes(b": of its "),
            ],
        )?;
        push_count(words, u64::from(self.length), b"word")?;
        push_sentence(
            words,
            &[
                Bytes(b" "),
                Number(u64::from(self.left)),
                Bytes(are_missing(self.left)),
            ],
        )
    }

    // Offsets of the list are missing at the end.
    fn push_missing_offsets(&self, words: &mut Vec<u8>) -> Result<(), AllocError> {
        push_sentence(words, &[Bytes(b"the text ends inside a relocation list: ")])?;
        push_count(words, u64::from(self.left), b"offset")?;
        push_sentence(words, &[Bytes(are_missing(self.left))])
    }
}

fn are_missing(count: u32) -> &'static [u8] {
    if count == 1 {
        b" is missing"
    } else {
        b" are missing"
    }
}

// Why this is no word.
fn no_word(alloc: Global, token: &[u8]) -> Result<Vec<u8>, AllocError> {
    let mut words = Vec::new(alloc);
    if is_hex(token) {
        push_sentence(&mut words, &[Bytes(b"a word has 1 to 8 hex digits, and ")])?;
        push_shown(&mut words, token)?;
        push_sentence(&mut words, &[Bytes(b" has "), Number(token.len() as u64)])?;
        return Ok(words);
    }
    if let Some(digits) = after_prefix(token) {
        if is_hex(digits) {
            push_sentence(
                &mut words,
                &[Bytes(b"hex digits are here without 0x: "), Bytes(digits)],
            )?;
            return Ok(words);
        }
    }
    if token.contains(&b'\t') {
        push_sentence(
            &mut words,
            &[Bytes(b"a tab is here, and words have blanks and line ends between them")],
        )?;
        return Ok(words);
    }
    let shown = shown_token(alloc, token)?;
    push_sentence(
        &mut words,
        &[Bytes(b"a word of 1 to 8 hex digits is due, but found ")],
    )?;
    push_shown(&mut words, shown.as_slice())?;
    Ok(words)
}

// A token with `?` for each byte that is no text.
fn shown_token(alloc: Global, token: &[u8]) -> Result<Vec<u8>, AllocError> {
    let mut shown = Vec::new(alloc);
    for byte in token {
        shown.push(match byte {
            b' '..=b'~' => *byte,
            _ => b'?',
        })?;
    }
    Ok(shown)
}
