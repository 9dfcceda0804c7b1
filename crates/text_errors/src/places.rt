// Where a session is in a text, and where a line is in a session.

use crate::line_words::LineWord;

/// Where a session is.
#[derive(Clone, Copy, PartialEq, Eq)]
pub enum Surroundings {
    /// It is the text, or the beginning of it.
    Alone,
    /// It is the left machine of a ring.
    Left,
    /// It is the right machine of a ring.
    Right,
}

/// Which lines are due.
#[derive(Clone, Copy, PartialEq, Eq)]
pub enum Stage {
    /// The version.
    Version,
    /// The size of the store.
    Store,
    /// The period, or that there is no kernel.
    Kind,
    /// The residents, or any item.
    Residents,
    /// That faults are reported, or any item.
    Reports,
    /// Any item.
    Items,
}

const VERSION_LINES: &[LineWord] = &[LineWord::Tripos];

const STORE_LINES: &[LineWord] = &[LineWord::Store];

const KIND_LINES: &[LineWord] = &[LineWord::Bare, LineWord::Tick];

const PERIOD_LINES: &[LineWord] = &[LineWord::Tick];

const BARE_LINES: &[LineWord] = &[LineWord::Colon, LineWord::Go];

const RESIDENT_LINES: &[LineWord] = &[
    LineWord::Resident,
    LineWord::File,
    LineWord::Task,
    LineWord::At,
    LineWord::Key,
    LineWord::Go,
];

const REPORT_LINES: &[LineWord] = &[
    LineWord::Debug,
    LineWord::File,
    LineWord::Task,
    LineWord::At,
    LineWord::Key,
    LineWord::Go,
];

const ITEM_LINES: &[LineWord] = &[
    LineWord::File,
    LineWord::Task,
    LineWord::At,
    LineWord::Key,
    LineWord::Go,
];

impl Stage {
    /// Whether the first three lines are not all there.
    pub fn is_head(self) -> bool {
        matches!(self, Stage::Version | Stage::Store | Stage::Kind)
    }

    /// The stage after a line of the head that could not be read; another stage stays.
    pub fn next(self) -> Stage {
        match self {
            Stage::Version => Stage::Store,
            Stage::Store => Stage::Kind,
            Stage::Kind => Stage::Residents,
            other => other,
        }
    }

    /// The first words that lines may have now.
    pub fn allowed(self, surroundings: Surroundings, is_bare: bool) -> &'static [LineWord] {
        match self {
            Stage::Version => VERSION_LINES,
            Stage::Store => STORE_LINES,
            Stage::Kind if surroundings == Surroundings::Right => PERIOD_LINES,
            Stage::Kind => KIND_LINES,
            _ if is_bare => BARE_LINES,
            Stage::Residents => RESIDENT_LINES,
            Stage::Reports => REPORT_LINES,
            Stage::Items => ITEM_LINES,
        }
    }
}
