// The lines of a session, as the program reads them. After an error it goes on as if the line that is meant was there.

use crate::bytes::has_bytes;
use crate::drafts::{Item, ItemKind, SessionDraft};
use crate::forms::read_form;
use crate::line_words::{LineWord, word_among, word_named};
use crate::lines::first_word;
use crate::numbers::{counted, is_hex};
use crate::other_lines::{Allowed, other_line, push_shown};
use crate::parts::Piece;
use crate::places::{Stage, Surroundings};
use crate::reading::{CUT_OFF, NO_FORM, Reading};
use module_text::number;
use std::alloc::{AllocError, Global};
use tool_texts::Said::Bytes;
use tool_texts::push_sentence;

/// A session that is read, and where it ends.
#[derive(Drop)]
pub struct SessionEnd<'a> {
    /// The session.
    pub draft: SessionDraft<'a>,
    /// The number of the line after its last one.
    pub next: usize,
}

/// The file whose lines may come.
#[derive(Clone, Copy)]
enum OpenFile {
    /// None.
    Nothing,
    /// One whose own line is in error.
    Unread,
    /// The last item.
    Last,
}

/// How a session goes on after a line.
#[derive(Clone, Copy)]
enum Next {
    /// By the next line.
    GoesOn,
    /// Not at all: this line was the last one.
    Ends,
    /// Not at all: this line is not one of the session.
    EndsBefore,
    /// The text is no session at all.
    Foreign,
}

/// What is read of a session.
#[derive(Drop)]
struct SessionReader<'a> {
    /// What it says.
    draft: SessionDraft<'a>,
    /// Which lines are due.
    stage: Stage,
    /// The file whose lines may come.
    open_file: OpenFile,
}

/// Reads the session that begins at this line of the text.
pub fn read_session<'a>(
    reading: &mut Reading<'a>,
    first: usize,
    surroundings: Surroundings,
) -> Result<SessionEnd<'a>, AllocError> {
    let mut session = SessionReader {
        draft: SessionDraft::new(reading.alloc),
        stage: Stage::Version,
        open_file: OpenFile::Nothing,
    };
    let after_last = reading.lines.after_last();
    for n in first..after_last {
        let next = match session.take_line(reading, n, first, surroundings)? {
            Next::GoesOn => continue,
            Next::Ends => n.saturating_add(1),
            Next::EndsBefore => n,
            Next::Foreign => after_last,
        };
        return Ok(SessionEnd {
            draft: session.draft,
            next,
        });
    }
    end_of_text(reading, first)?;
    Ok(SessionEnd {
        draft: session.draft,
        next: after_last,
    })
}

// The text ends in a session that begins at this line.
fn end_of_text(reading: &mut Reading, first: usize) -> Result<(), AllocError> {
    let n = reading.lines.after_last();
    if reading.lines.count() < first {
        return reading.wrong(
            n,
            1,
            CUT_OFF,
            &[Bytes(b"the text ends before its first line, TRIPOS 1 or TRIPOS 2")],
        );
    }
    let last = reading.lines.line(reading.lines.count());
    if first_word(last) == LineWord::Go.name() {
        return Ok(());
    }
    reading.wrong(
        n,
        1,
        CUT_OFF,
        &[Bytes(b"the text ends without its last line, GO n, and n is the most steps")],
    )
}

impl<'a> SessionReader<'a> {
    // Reads line n of a session that begins at the first.
    fn take_line(
        &mut self,
        reading: &mut Reading<'a>,
        n: usize,
        first: usize,
        surroundings: Surroundings,
    ) -> Result<Next, AllocError> {
        let line = reading.lines.line(n);
        if surroundings == Surroundings::Left && line == LineWord::Right.name() {
            reading.wrong(
                n,
                1,
                NO_FORM,
                &[Bytes(b"the session of the left machine has no GO line before RIGHT")],
            )?;
            return Ok(Next::EndsBefore);
        }
        if !has_bytes(reading, n, line)? {
            self.stage = self.stage.next();
            return Ok(Next::GoesOn);
        }
        if line.starts_with(b":") && !self.stage.is_head() {
            return self.take_colon(reading, n, line, surroundings);
        }
        let allowed = self.stage.allowed(surroundings, self.draft.is_bare);
        match word_among(allowed, first_word(line)) {
            Some(word) => self.take_word(reading, n, line, word),
            None if n == first && surroundings == Surroundings::Alone => {
                self.take_first(reading, n, line, allowed)
            }
            None => self.take_other(reading, n, line, allowed, surroundings, None),
        }
    }

    // A line that begins with a colon, after the head.
    fn take_colon(
        &mut self,
        reading: &mut Reading<'a>,
        n: usize,
        line: &'a [u8],
        surroundings: Surroundings,
    ) -> Result<Next, AllocError> {
        if self.draft.is_bare {
            self.take_code(reading, n, line)?;
            return Ok(Next::GoesOn);
        }
        match self.open_file {
            OpenFile::Unread => Ok(Next::GoesOn),
            OpenFile::Last => {
                self.add_text(line);
                Ok(Next::GoesOn)
            }
            OpenFile::Nothing => {
                let why = Vec::from_slice(
                    reading.alloc,
                    b"a line of text is directly after FILE name, or after another line of the same file",
                )?;
                let allowed = self.stage.allowed(surroundings, false);
                self.take_other(reading, n, line, allowed, surroundings, Some(why))
            }
        }
    }

    // The first line of a text, which begins with no word of a session.
    fn take_first(
        &mut self,
        reading: &mut Reading<'a>,
        n: usize,
        line: &'a [u8],
        allowed: &'static [LineWord],
    ) -> Result<Next, AllocError> {
        match foreign_words(line) {
            Some(words) => {
                reading.wrong(n, 1, NO_FORM, &[Bytes(words)])?;
                Ok(Next::Foreign)
            }
            None => self.take_other(reading, n, line, allowed, Surroundings::Alone, None),
        }
    }

    // A line that may not be there, for this reason or for another one.
    fn take_other(
        &mut self,
        reading: &mut Reading<'a>,
        n: usize,
        line: &'a [u8],
        words: &'static [LineWord],
        surroundings: Surroundings,
        why: Option<Vec<u8>>,
    ) -> Result<Next, AllocError> {
        let why = match why {
            Some(why) => Some(why),
            None => self.reason(reading.alloc, line)?,
        };
        let allowed = Allowed {
            words,
            is_in_file: !matches!(self.open_file, OpenFile::Nothing),
        };
        let meant = other_line(reading, n, line, allowed, why)?;
        Ok(self.go_on_with(meant))
    }

    // Goes on as if the line that is meant was there.
    fn go_on_with(&mut self, meant: Option<LineWord>) -> Next {
        match meant {
            Some(LineWord::Go) => return Next::Ends,
            Some(LineWord::Tripos) if self.stage == Stage::Version => self.stage = Stage::Store,
            Some(LineWord::Store) if self.stage.is_head() => self.stage = Stage::Kind,
            Some(LineWord::Tripos | LineWord::Store) => {}
            Some(LineWord::Bare) if self.stage.is_head() => {
                self.stage = Stage::Residents;
                self.draft.is_bare = true;
            }
            Some(LineWord::Tick) if self.stage.is_head() => self.stage = Stage::Residents,
            Some(LineWord::Resident) if !self.stage.is_head() => {
                self.stage = Stage::Reports;
                self.draft.has_residents = true;
            }
            Some(LineWord::File) if !self.draft.is_bare => {
                self.stage = Stage::Items;
                self.open_file = OpenFile::Unread;
            }
            Some(LineWord::Task | LineWord::At | LineWord::Key | LineWord::Debug)
                if !self.draft.is_bare => {
                self.stage = Stage::Items;
                self.open_file = OpenFile::Nothing;
            }
            _ => self.stage = self.stage.next(),
        }
        Next::GoesOn
    }

    // Why a line may not be there, where that is known.
    fn reason(&self, alloc: Global, line: &[u8]) -> Result<Option<Vec<u8>>, AllocError> {
        let name = first_word(line);
        let word = word_named(name);
        if self.stage == Stage::Kind && word == Some(LineWord::Bare) {
            return reason_of(
                alloc,
                &[Bytes(
                    b"the right machine of a ring has a kernel, so that something can be typed at it: TICK n",
                )],
            );
        }
        if self.stage.is_head() || line.is_empty() {
            return Ok(None);
        }
        if self.draft.is_bare {
            return bare_reason(alloc, line, name, word);
        }
        match word {
            Some(LineWord::Resident) => reason_of(
                alloc,
                &[Bytes(b"RESIDENT comes once, directly after TICK n")],
            ),
            Some(LineWord::Debug) => {
                reason_of(
                    alloc,
                    &[Bytes(b"DEBUG comes once, directly after RESIDENT")],
                )
            }
            Some(LineWord::Tripos | LineWord::Store | LineWord::Bare | LineWord::Tick) => {
                reason_of(
                    alloc,
                    &[Bytes(name), Bytes(b" comes once, in the first three lines")],
                )
            }
            _ => Ok(None),
        }
    }

    // A line with this word, which may be there.
    fn take_word(
        &mut self,
        reading: &mut Reading<'a>,
        n: usize,
        line: &'a [u8],
        word: LineWord,
    ) -> Result<Next, AllocError> {
        let pieces = read_form(reading, n, line, word, self.draft.version)?;
        self.open_file = OpenFile::Nothing;
        match word {
            LineWord::Tripos => {
                self.stage = Stage::Store;
                self.draft.version = first_number(&pieces);
            }
            LineWord::Store => {
                self.stage = Stage::Kind;
                self.draft.store = first_number(&pieces);
            }
            LineWord::Bare => {
                self.stage = Stage::Residents;
                self.draft.is_bare = true;
            }
            LineWord::Tick => self.stage = Stage::Residents,
            LineWord::Resident => {
                self.stage = Stage::Reports;
                self.draft.has_residents = true;
            }
            LineWord::Debug => {
                self.stage = Stage::Items;
                self.draft.has_reports = true;
            }
            LineWord::File => {
                self.stage = Stage::Items;
                self.open_file = self.add_item(n, ItemKind::File, pieces)?;
            }
            LineWord::Task => {
                self.stage = Stage::Items;
                self.add_item(n, ItemKind::Task, pieces)?;
            }
            LineWord::Go => return Ok(Next::Ends),
            _ => self.stage = Stage::Items,
        }
        Ok(Next::GoesOn)
    }

    // Keeps a line for the boot, where it was read. Answers which file is open, where it is the line of one.
    fn add_item(
        &mut self,
        line: usize,
        kind: ItemKind,
        pieces: Option<Vec<Piece<'a>>>,
    ) -> Result<OpenFile, AllocError> {
        let Some(pieces) = pieces else {
            return Ok(OpenFile::Unread);
        };
        self.draft.items.push(Item {
            line,
            kind,
            pieces,
            bytes: 0,
            texts: 0,
        })?;
        Ok(OpenFile::Last)
    }

    // A line of the file that is the last item.
    fn add_text(&mut self, line: &[u8]) {
        if let Some(item) = self.draft.items.last_mut() {
            item.bytes = item.bytes.saturating_add(line.len() as u64);
            item.texts = item.texts.saturating_add(1);
        }
    }

    // A line of program bytes.
    fn take_code(
        &mut self,
        reading: &mut Reading<'a>,
        n: usize,
        line: &'a [u8],
    ) -> Result<(), AllocError> {
        let digits = line.strip_prefix(b":").unwrap_or(line);
        if let Some(index) = digits.iter().position(|c| !c.is_ascii_hexdigit()) {
            let found = [digits.get(index).copied().unwrap_or(b' ')];
            let shown = if found == [b' '] {
                Bytes(b"a blank")
            } else {
                Bytes(found.as_slice())
            };
            reading.wrong(
                n,
                index.saturating_add(2),
                NO_FORM,
                &[Bytes(b"program bytes are hex digits, but found "), shown],
            )?;
        } else if digits.len() % 2 == 1 {
            let count = counted(reading.alloc, digits.len() as u64, b"digit")?;
            reading.wrong(
                n,
                line.len(),
                NO_FORM,
                &[
                    Bytes(b"two hex digits are a byte, and this line has "),
                    Bytes(count.as_slice()),
                ],
            )?;
        }
        self.draft.items.push(Item {
            line: n,
            kind: ItemKind::Code,
            pieces: Vec::new(reading.alloc),
            bytes: digits.len() as u64 / 2,
            texts: 0,
        })?;
        Ok(())
    }
}

// The number that is the first part of a line; 0 where the line was not read.
fn first_number(pieces: &Option<Vec<Piece>>) -> u64 {
    match pieces {
        Some(pieces) => match pieces.first() {
            Some(piece) => number(piece.text.bytes()).unwrap_or(0),
            None => 0,
        },
        None => 0,
    }
}

fn reason_of(alloc: Global, parts: &[tool_texts::Said]) -> Result<Option<Vec<u8>>, AllocError> {
    let mut words = Vec::new(alloc);
    push_sentence(&mut words, parts)?;
    Ok(Some(words))
}

// Why a line may not be in a bare session.
fn bare_reason(
    alloc: Global,
    line: &[u8],
    name: &[u8],
    word: Option<LineWord>,
) -> Result<Option<Vec<u8>>, AllocError> {
    if is_hex(line) {
        let mut shown = Vec::new(alloc);
        push_shown(&mut shown, line)?;
        return reason_of(
            alloc,
            &[
                Bytes(b"program bytes are after a colon: :"),
                Bytes(shown.as_slice()),
            ],
        );
    }
    if word.is_none() {
        return Ok(None);
    }
    reason_of(
        alloc,
        &[
            Bytes(
                b"a bare machine, as BARE says, has program bytes in lines :hex, and then GO n; ",
            ),
            Bytes(name),
            Bytes(b" needs TICK n in the place of BARE"),
        ],
    )
}

// What a text is whose first line is this, where it is known and no session.
fn foreign_words(line: &[u8]) -> Option<&'static [u8]> {
    if line.starts_with(b"TRIPOS-IMAGE") {
        Some(b"this is a saved machine, which ./tripos resume reads, and bin/saved")
    } else if line.starts_with(b"RING ") {
        Some(b"this is a ring, which ./tripos ring reads")
    } else if line.starts_with(b"000003e8 ")
        || line.starts_with(b"00003e8 ")
        || line.starts_with(b"3e8 ")
    {
        Some(b"this is a module, which ./tripos disasm reads; ./session makes sessions")
    } else if is_assembly(line) {
        Some(b"this is assembly, which ./tripos asm reads; ./session makes sessions of it")
    } else if line.starts_with(b"* ") {
        Some(b"this is an answer of the program, and no session")
    } else {
        None
    }
}

// Whether a line looks like one of assembly: a comment, a global, or a label.
fn is_assembly(line: &[u8]) -> bool {
    if line.starts_with(b";") || line.starts_with(b"GLOBAL ") {
        return true;
    }
    match first_word(line) {
        [first, name @ .., b':'] => {
            line.contains(&b' ')
                && first.is_ascii_alphabetic()
                && name.iter().all(|c| c.is_ascii_alphanumeric())
        }
        _ => false,
    }
}
