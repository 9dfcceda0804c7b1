// What the boot refuses of a session in which nothing else is wrong.

use crate::drafts::{Item, ItemKind, SessionDraft};
use crate::findings::{Finding, Findings};
use crate::modules::{ModuleLines, ModuleSize, read_module};
use crate::nearness::distance;
use crate::numbers::counted;
use crate::parts::Piece;
use crate::reading::Reading;
use module_text::number;
use std::alloc::{AllocError, Global};
use tool_texts::Said::{Bytes, Number};
use tool_texts::push_sentence;

/// The codes of what the boot refuses.
const NO_ROOM: u32 = 1;

const PRIORITY_TAKEN: u32 = 8;

const NO_SUCH_GLOBAL: u32 = 18;

const NUMBER_TAKEN: u32 = 27;

const NO_FILE: u32 = 41;

const NAME_TAKEN: u32 = 42;

const DISC_FULL: u32 = 43;

const TOO_MANY_FILES: u32 = 44;

/// What is added to the code of a module that is refused.
const IN_MODULE: u32 = 60;

/// The byte at which the program of a bare machine begins.
const FIRST_BYTE: u64 = 800;

/// The words of the system's own: its root and table, the end word, and the blocks of the residents, without and with the reporter of faults.
const ROOT_WORDS: u64 = 202;

const RESIDENT_WORDS: u64 = 88;

const REPORTER_WORDS: u64 = 116;

/// The priorities of the residents, and that of the reporter of faults.
const RESIDENT_PRIORITIES: [u64; 3] = [1000, 5000, 6000];

const REPORTER_PRIORITY: u64 = 3000;

/// What a disc has.
const MOST_FILES: usize = 64;

const SECTORS: u64 = 4096;

const SECTOR_BYTES: u64 = 512;

/// The words of globals, 0 among them, and of a task's block.
const GLOBALS: u64 = 1001;

const TASK_WORDS_OF_1: u64 = 23;

const TASK_WORDS: u64 = 30;

/// The number of the last global.
const LAST_GLOBAL: u32 = 1000;

/// The longest name of which one that is near is looked for.
const LONGEST_NEAR: usize = 20;

/// A task that boots.
#[derive(Clone, Copy)]
struct BootedTask {
    /// The number of its line.
    line: usize,
    /// Its number.
    id: u64,
    /// Its priority.
    priority: u64,
}

/// A kernel that boots.
#[derive(Drop)]
struct KernelBoot<'s, 'a> {
    /// The session.
    draft: &'s SessionDraft<'a>,
    /// The places of its files among the items.
    files: Vec<usize>,
    /// The tasks.
    tasks: Vec<BootedTask>,
    /// How many words of the store are free.
    room: u64,
    /// How many sectors of the disc are used.
    sectors: u64,
}

/// Adds what the boot refuses.
pub fn boot<'a>(reading: &mut Reading<'a>, draft: &SessionDraft<'a>) -> Result<(), AllocError> {
    if draft.is_bare {
        return boot_bare(reading, draft);
    }
    boot_kernel(reading, draft)
}

fn boot_bare(reading: &mut Reading, draft: &SessionDraft) -> Result<(), AllocError> {
    let room = draft.store.saturating_mul(4).saturating_sub(FIRST_BYTE);
    let mut bytes = 0u64;
    for item in &draft.items {
        bytes = bytes.saturating_add(item.bytes);
        if bytes > room {
            return reading.wrong(
                item.line,
                1,
                NO_ROOM,
                &[
                    Bytes(b"the store has no room for the bytes of this line: from byte 800 on, "),
                    Number(draft.store),
                    Bytes(b" words have room for "),
                    Number(room),
                    Bytes(b", and with this line there are "),
                    Number(bytes),
                ],
            );
        }
    }
    Ok(())
}

fn boot_kernel<'a>(reading: &mut Reading<'a>, draft: &SessionDraft<'a>) -> Result<(), AllocError> {
    let residents = match (draft.has_residents, draft.has_reports) {
        (false, _) => 0,
        (true, false) => RESIDENT_WORDS,
        (true, true) => REPORTER_WORDS,
    };
    let mut kernel = KernelBoot {
        draft,
        files: Vec::new(reading.alloc),
        tasks: Vec::new(reading.alloc),
        room: draft.store.saturating_sub(ROOT_WORDS + residents),
        sectors: 0,
    };
    for (i, item) in draft.items.iter().enumerate() {
        if matches!(item.kind, ItemKind::File) {
            kernel.boot_file(reading, i, item)?;
        }
    }
    for item in &draft.items {
        if matches!(item.kind, ItemKind::Task) {
            kernel.boot_task(reading, item)?;
        }
    }
    Ok(())
}

impl<'s, 'a> KernelBoot<'s, 'a> {
    // Puts a file on the disc, the item at this place.
    fn boot_file(
        &mut self,
        reading: &mut Reading<'a>,
        place: usize,
        item: &Item<'a>,
    ) -> Result<(), AllocError> {
        let name = text_of(item, 0);
        let column = column_of(item, 0);
        let own = item.bytes.saturating_add(SECTOR_BYTES - 1) / SECTOR_BYTES;
        if let Some(other) = self.file_named(name) {
            return reading.wrong(
                item.line,
                column,
                NAME_TAKEN,
                &[
                    Bytes(b"line "),
                    Number(other.line as u64),
                    Bytes(b" has a file of the name "),
                    Bytes(name),
                    Bytes(b" already"),
                ],
            );
        }
        if self.files.len() >= MOST_FILES {
            return reading.wrong(
                item.line,
                column,
                TOO_MANY_FILES,
                &[Bytes(b"this would be file 65, and a machine has at most 64")],
            );
        }
        let free = SECTORS.saturating_sub(self.sectors);
        if own > free {
            let taken = counted(reading.alloc, own, b"sector")?;
            return reading.wrong(
                item.line,
                column,
                DISC_FULL,
                &[
                    Bytes(b"the disc has no room for this file: it takes "),
                    Bytes(taken.as_slice()),
                    Bytes(b" of 512 bytes, and "),
                    Number(free),
                    Bytes(b" of 4096 are free"),
                ],
            );
        }
        self.sectors = self.sectors.saturating_add(own);
        self.files.push(place)?;
        Ok(())
    }

    // The file of this name that is on the disc.
    fn file_named(&self, name: &[u8]) -> Option<&'s Item<'a>> {
        for place in &self.files {
            let item = self.draft.items.as_slice().get(*place)?;
            if text_of(item, 0) == name {
                return Some(item);
            }
        }
        None
    }

    // Makes a task. Where it is refused, it takes no room.
    fn boot_task(&mut self, reading: &mut Reading<'a>, item: &Item<'a>) -> Result<(), AllocError> {
        let id = number_of(item, 0);
        let priority = number_of(item, 1);
        if let Some(other) = self.tasks.iter().find(|task| task.id == id) {
            return reading.wrong(
                item.line,
                column_of(item, 0),
                NUMBER_TAKEN,
                &[
                    Bytes(b"the task of line "),
                    Number(other.line as u64),
                    Bytes(b" has the number "),
                    Number(id),
                    Bytes(b" already"),
                ],
            );
        }
        let Some((room, highest)) = self.load_files(reading, item)? else {
            return Ok(());
        };
        if !self.has_priority(reading, item, priority)? {
            return Ok(());
        }
        if highest > LAST_GLOBAL {
            return reading.wrong(
                item.line,
                column_of(item, 3),
                NO_SUCH_GLOBAL,
                &[
                    Bytes(b"the program says that its highest global is "),
                    Number(u64::from(highest)),
                    Bytes(b", and the last one is 1000"),
                ],
            );
        }
        let need = self.task_words(number_of(item, 2));
        if need > room {
            return self.no_room(
                reading,
                item,
                2,
                b"the task, its globals and its stack",
                need,
                room,
            );
        }
        self.room = room - need;
        self.tasks.push(BootedTask {
            line: item.line,
            id,
            priority,
        })?;
        Ok(())
    }

    // The words of a task's blocks, with a stack of this highest index.
    fn task_words(&self, stack: u64) -> u64 {
        let own = if self.draft.version == 1 {
            TASK_WORDS_OF_1
        } else {
            TASK_WORDS
        };
        even(stack.saturating_add(own + GLOBALS + 2))
    }

    // Loads the modules of a task. Answers the room that is left and the highest global, or nothing where one is refused.
    fn load_files(
        &mut self,
        reading: &mut Reading<'a>,
        item: &Item<'a>,
    ) -> Result<Option<(u64, u32)>, AllocError> {
        let mut room = self.room;
        let mut highest = 0;
        for (k, piece) in item.pieces.iter().enumerate().skip(3) {
            let Some(size) = self.load_file(reading, item, piece)? else {
                return Ok(None);
            };
            let need = even(size.words.saturating_add(size.hunks).saturating_add(3));
            if need > room {
                let mut what = Vec::new(reading.alloc);
                push_sentence(
                    &mut what,
                    &[Bytes(b"the module of "), Bytes(piece.text.bytes())],
                )?;
                self.no_room(reading, item, k, what.as_slice(), need, room)?;
                return Ok(None);
            }
            room = room - need;
            highest = size.highest.max(highest);
        }
        Ok(Some((room, highest)))
    }

    // What the module in the file of a task takes, or nothing where it is refused.
    fn load_file(
        &self,
        reading: &mut Reading<'a>,
        item: &Item<'a>,
        piece: &Piece<'a>,
    ) -> Result<Option<ModuleSize>, AllocError> {
        let name = piece.text.bytes();
        let Some(file) = self.file_named(name) else {
            let near = self.near_file(reading.alloc, name)?;
            reading.wrong(
                item.line,
                piece.column,
                NO_FILE,
                &[
                    Bytes(b"no FILE line has the name "),
                    Bytes(name),
                    Bytes(near.as_slice()),
                ],
            )?;
            return Ok(None);
        };
        let first = file.line.saturating_add(1);
        let lines = ModuleLines {
            first,
            end: first.saturating_add(file.texts),
            skipped: 1,
            is_whole: false,
        };
        let mut found = Findings::new(reading.alloc);
        let size = read_module(reading.alloc, &reading.lines, lines, &mut found)?;
        match found.as_slice().first() {
            Some(finding) => {
                no_module(reading, item, piece, file, finding)?;
                Ok(None)
            }
            None => Ok(Some(size)),
        }
    }

    // What is said of a file with a name that is near.
    fn near_file(&self, alloc: Global, name: &[u8]) -> Result<Vec<u8>, AllocError> {
        let mut words = Vec::new(alloc);
        if name.len() > LONGEST_NEAR {
            return Ok(words);
        }
        let mut best = 3;
        let mut near: Option<&Item> = None;
        for place in &self.files {
            let Some(item) = self.draft.items.as_slice().get(*place) else {
                continue;
            };
            let other = text_of(item, 0);
            if other.eq_ignore_ascii_case(name) {
                push_sentence(
                    &mut words,
                    &[
                        Bytes(b"; "),
                        Bytes(other),
                        Bytes(b" of line "),
                        Number(item.line as u64),
                        Bytes(b" has other capitals"),
                    ],
                )?;
                return Ok(words);
            }
            let far = distance(alloc, name, other)?;
            if far < best && far.saturating_add(1) < name.len() {
                best = far;
                near = Some(item);
            }
        }
        if let Some(item) = near {
            push_sentence(
                &mut words,
                &[
                    Bytes(b"; is "),
                    Bytes(text_of(item, 0)),
                    Bytes(b" of line "),
                    Number(item.line as u64),
                    Bytes(b" meant?"),
                ],
            )?;
        }
        Ok(words)
    }

    // Whether no other task has this priority.
    fn has_priority(
        &self,
        reading: &mut Reading<'a>,
        item: &Item<'a>,
        priority: u64,
    ) -> Result<bool, AllocError> {
        if self.is_reserved(priority) {
            reading.wrong(
                item.line,
                column_of(item, 1),
                PRIORITY_TAKEN,
                &[
                    Bytes(b"a task of the system has the priority "),
                    Number(priority),
                ],
            )?;
            return Ok(false);
        }
        match self.tasks.iter().find(|task| task.priority == priority) {
            Some(other) => {
                reading.wrong(
                    item.line,
                    column_of(item, 1),
                    PRIORITY_TAKEN,
                    &[
                        Bytes(b"the task of line "),
                        Number(other.line as u64),
                        Bytes(b" has the priority "),
                        Number(priority),
                        Bytes(b" already"),
                    ],
                )?;
                Ok(false)
            }
            None => Ok(true),
        }
    }

    // Whether a resident has this priority.
    fn is_reserved(&self, priority: u64) -> bool {
        self.draft.has_residents
            && (RESIDENT_PRIORITIES.contains(&priority)
                || self.draft.has_reports && priority == REPORTER_PRIORITY)
    }

    // The store has no room for something that a part of the line asks for.
    fn no_room(
        &self,
        reading: &mut Reading<'a>,
        item: &Item<'a>,
        part: usize,
        what: &[u8],
        need: u64,
        room: u64,
    ) -> Result<(), AllocError> {
        let size = even(self.draft.store.saturating_add(need.saturating_sub(room)));
        reading.wrong(
            item.line,
            column_of(item, part),
            NO_ROOM,
            &[
                Bytes(b"the store has no room for "),
                Bytes(what),
                Bytes(b": it takes "),
                Number(need),
                Bytes(b" words, and "),
                Number(room),
                Bytes(b" are free; STORE "),
                Number(size),
                Bytes(b" has room"),
            ],
        )
    }
}

// The file of a task is no module.
fn no_module<'t>(
    reading: &mut Reading,
    item: &Item,
    piece: &'t Piece<'t>,
    file: &Item,
    finding: &'t Finding,
) -> Result<(), AllocError> {
    reading.wrong(
        item.line,
        piece.column,
        finding.code.saturating_add(IN_MODULE),
        &[
            Bytes(b"the file "),
            Bytes(piece.text.bytes()),
            Bytes(b" of line "),
            Number(file.line as u64),
            Bytes(b" is no module: in line "),
            Number(finding.line as u64),
            Bytes(b" "),
            Bytes(finding.words.as_slice()),
        ],
    )
}

// The next even number, or the number itself.
fn even(n: u64) -> u64 {
    n.saturating_add(n % 2)
}

// The bytes of a part of a line.
fn text_of<'a>(item: &Item<'a>, part: usize) -> &'a [u8] {
    match item.pieces.as_slice().get(part) {
        Some(piece) => piece.text.bytes(),
        None => &[],
    }
}

// Where a part of a line begins.
fn column_of(item: &Item, part: usize) -> usize {
    match item.pieces.as_slice().get(part) {
        Some(piece) => piece.column,
        None => 1,
    }
}

// The number that a part of a line is.
fn number_of(item: &Item, part: usize) -> u64 {
    number(text_of(item, part)).unwrap_or(0)
}
