// A map as far as it was read.
ghost use Rattle.std.specs.Prelude.{◌≡◌, IfErr};
ghost use Rattle.module_text.specs.TextReader.Answers.{Gives};
ghost use Rattle.program_places.specs.MapOfText.{after_statement, first_draft, has_words, step, with_last};
ghost use Rattle.program_places.specs.Refusals.{IsBadAt};
ghost use Rattle.program_places.specs.Statements.{or_no_line};
ghost use Rattle.program_places.specs.declared.statements.Statement.TheVariants.{Hunk, Line, Program, At};

use crate::maps::{MappedHunk, MappedLine, PlacedHunk, ProgramMap};
use crate::statements::{Statement, bad_line, statement_of};
use module_text::TextEnd;
use std::alloc::Global;
use tool_bundles::Listed;
use tool_texts::Lent;

/// A map as far as it was read.
#[derive(Drop)]
pub struct Draft<'a> {
    /// The map, but for its last hunk.
    pub map: ProgramMap<'a>,
    /// The hunk that is last, if there is one.
    pub last: Option<MappedHunk<'a>>,
}

impl<'a> Draft<'a> {
    /// Nothing was read.
    pub fn new(alloc: Global) -> Draft<'a>
        ensures { result ≡ first_draft }
    {
        Draft {
            map: ProgramMap::new(alloc),
            last: None,
        }
    }

    /// What is read with line n, which comes next.
    #[tactic(auto, unfolding(crate::specs::MapOfText::step))]
    pub fn with_line(self, alloc: Global, n: u32, line: &'a [u8]) -> Result<Draft<'a>, TextEnd>
        ensures value { Gives (λ d. d) result (step self.entry n line.now) }
        ensures refused { IfErr result (IsBadAt n) }
    {
        let statement = statement_of(alloc, n, line)?;
        self.with_statement(alloc, n, statement)
    }

    /// The map with its last hunk. Line n is the one that comes next, or else the last.
    pub fn whole_map(self, n: u32) -> Result<ProgramMap<'a>, TextEnd>
        ensures value { Gives (λ map. map) result (or_no_line n (with_last self.entry.map self.entry.last)) }
        ensures refused { IfErr result (IsBadAt n) }
    {
        let Draft { map, last } = self;
        match last {
            Some(hunk) => with_hunk(map, hunk, n),
            None => Ok(map),
        }
    }

    // Line n states this.
    fn with_statement(
        self,
        alloc: Global,
        n: u32,
        statement: Statement<'a>,
    ) -> Result<Draft<'a>, TextEnd>
        ensures value { Gives (λ d. d) result (or_no_line n (after_statement self.entry statement.entry)) }
        ensures refused { IfErr result (IsBadAt n) }
    {
        match statement {
            Statement::Program { name, file } => self.with_program(alloc, n, name, file),
            Statement::Hunk { name, words } => self.with_words(n, name, words),
            Statement::Line { name, line } => self.with_mapped(n, name, line),
            Statement::At { placed } => self.with_placed(n, placed),
        }
    }

    // A program begins, whose hunk has no words yet.
    fn with_program(
        self,
        alloc: Global,
        n: u32,
        name: Lent<'a>,
        file: Lent<'a>,
    ) -> Result<Draft<'a>, TextEnd>
        ensures value { Gives (λ d. d) result
            (or_no_line n (after_statement self.entry (Program name.entry file.entry))) }
        ensures refused { IfErr result (IsBadAt n) }
    {
        let map = self.whole_map(n)?;
        Ok(Draft {
            map,
            last: Some(MappedHunk {
                name,
                file,
                words: Listed::new(alloc),
                lines: Listed::new(alloc),
            }),
        })
    }

    // The words of the hunk that is last, which has none yet.
    fn with_words(
        self,
        n: u32,
        name: Lent<'a>,
        words: Listed<Option<u32>>,
    ) -> Result<Draft<'a>, TextEnd>
        ensures value { Gives (λ d. d) result
            (or_no_line n (after_statement self.entry (Hunk name.entry words))) }
        ensures refused { IfErr result (IsBadAt n) }
    {
        let Draft { map, last } = self;
        match last {
            Some(hunk) if hunk.name.bytes() == name.bytes() && !has_words(&hunk) => {
                let mut hunk = hunk;
                hunk.words = words;
                Ok(Draft {
                    map,
                    last: Some(hunk),
                })
            }
            _ => Err(bad_line(n)),
        }
    }

    // A line of the hunk that is last, which has its words.
    fn with_mapped(self, n: u32, name: Lent<'a>, line: MappedLine<'a>) -> Result<Draft<'a>, TextEnd>
        ensures value { Gives (λ d. d) result
            (or_no_line n (after_statement self.entry (Line name.entry line.entry))) }
        ensures refused { IfErr result (IsBadAt n) }
    {
        let Draft { map, last } = self;
        match last {
            Some(hunk) if hunk.name.bytes() == name.bytes() && has_words(&hunk) => {
                let mut hunk = hunk;
                hunk.lines.push(line)?;
                Ok(Draft {
                    map,
                    last: Some(hunk),
                })
            }
            _ => Err(bad_line(n)),
        }
    }

    // Where a hunk is on a bare machine.
    fn with_placed(self, n: u32, placed: PlacedHunk<'a>) -> Result<Draft<'a>, TextEnd>
        ensures value { Gives (λ d. d) result (or_no_line n (after_statement self.entry (At placed.entry))) }
        ensures refused { IfErr result (IsBadAt n) }
    {
        let mut draft = self;
        draft.map.placed.push(placed)?;
        Ok(draft)
    }
}

// The map with one hunk more, which has to have its words.
fn with_hunk<'a>(
    map: ProgramMap<'a>,
    hunk: MappedHunk<'a>,
    n: u32,
) -> Result<ProgramMap<'a>, TextEnd>
    ensures value { Gives (λ map. map) result (or_no_line n (with_last map.entry (Some hunk.entry))) }
    ensures refused { IfErr result (IsBadAt n) }
{
    if !has_words(&hunk) {
        return Err(bad_line(n));
    }
    let mut map = map;
    map.hunks.push(hunk)?;
    Ok(map)
}

// Whether a hunk has its words.
fn has_words(hunk: &MappedHunk) -> bool
    ensures { result ≡ has_words hunk.now }
{
    !hunk.words.as_slice().is_empty()
}
