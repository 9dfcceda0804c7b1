// What a map says.
ghost use Rattle.std.specs.Prelude.{◌≡◌, []};

use std::alloc::Global;
use tool_bundles::Listed;
use tool_texts::Lent;

/// The map of a session: where the lines of its programs are.
#[derive(Drop)]
pub struct ProgramMap<'a> {
    /// The hunks of the programs.
    pub hunks: Listed<MappedHunk<'a>>,
    /// Where hunks are on a bare machine; there are none in the map of another one.
    pub placed: Listed<PlacedHunk<'a>>,
}

impl<'a> ProgramMap<'a> {
    /// The map of no programs.
    pub fn new(alloc: Global) -> ProgramMap<'a>
        ensures hunks { result.hunks ≡ [] }
        ensures placed { result.placed ≡ [] }
    {
        ProgramMap {
            hunks: Listed::new(alloc),
            placed: Listed::new(alloc),
        }
    }
}

/// A hunk of a program, and the lines that its bytes come from.
#[derive(Drop)]
pub struct MappedHunk<'a> {
    /// The name of the program, and after the first hunk a dot and the hunk's number.
    pub name: Lent<'a>,
    /// The path of the file that it comes from.
    pub file: Lent<'a>,
    /// Its words where it is loaded, the first of which is their number; `None` for a word that is relocated.
    pub words: Listed<Option<u32>>,
    /// The lines, in the order of the file.
    pub lines: Listed<MappedLine<'a>>,
}

/// A line of a file that has a label or gives bytes.
#[derive(Drop)]
pub struct MappedLine<'a> {
    /// Where its bytes begin, in bytes from the first of the hunk.
    pub offset: u32,
    /// Its number in the file, from 1.
    pub number: u64,
    /// The label that is last before the line or on it, if there is one.
    pub label: Option<Lent<'a>>,
}

/// Where a hunk is on a bare machine.
#[derive(Drop)]
pub struct PlacedHunk<'a> {
    /// The hunk's name.
    pub name: Lent<'a>,
    /// The address of its first word.
    pub word: u32,
}
