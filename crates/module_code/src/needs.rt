// Which globals modules set and use, in words, and which of those that are called nobody sets.
use crate::known_names::{Names, names_in};
use crate::module_uses::{ModuleUses, uses_of};
use crate::requests::{NamedModule, NoAnswer, module_of, request_of, told_end};
use std::alloc::{AllocError, Global};
use std::collections::BTreeSet;
use tool_texts::Said::{self, Bytes, Number};
use tool_texts::{ToolText, push_blanks, push_sentence};

/// A line of globals has at most so many characters.
const WIDTH: usize = 110;
/// The width of the word before them, with two blanks.
const WORD_WIDTH: usize = 12;
/// The global at which a task begins.
const START: u32 = 1;
/// After the highest number of a global.
const GLOBALS: u32 = 65536;

/// Modules, and which globals each of them uses.
#[derive(Drop)]
struct Program<'a> {
    /// The modules.
    modules: Vec<NamedModule<'a>>,
    /// What each of them uses.
    uses: Vec<ModuleUses>,
    /// The names of globals.
    names: Names<'a>,
}

/// Which globals the modules of a bundle use, in words.
pub fn global_needs(alloc: Global, bundle: &[u8]) -> Result<ToolText, AllocError> {
    match needs_text(alloc, bundle) {
        Ok(bytes) => Ok(ToolText {
            is_wrong: false,
            bytes,
        }),
        Err(end) => told_end(alloc, b"needs", end),
    }
}

fn needs_text(alloc: Global, bundle: &[u8]) -> Result<Vec<u8>, NoAnswer> {
    let request = request_of(alloc, bundle)?;
    if request.modules.is_empty() {
        return Err(NoAnswer::NoRequest);
    }
    let mut uses = Vec::new(alloc);
    for (i, named) in request.modules.iter().enumerate() {
        let module = module_of(alloc, i, named.text)?;
        uses.push(uses_of(alloc, module.hunks.as_slice())?)?;
    }
    let program = Program {
        names: names_in(alloc, request.names)?,
        modules: request.modules,
        uses,
    };
    Ok(program.text(alloc)?)
}

impl<'a> Program<'a> {
    // What each module uses, and all together.
    fn text(&self, alloc: Global) -> Result<Vec<u8>, AllocError> {
        let mut text = Vec::new(alloc);
        for (named, uses) in self.modules.iter().zip(self.uses.iter()) {
            self.push_module(&mut text, named.name, uses)?;
        }
        self.push_all(alloc, &mut text)?;
        Ok(text)
    }

    // What a module uses.
    fn push_module(
        &self,
        text: &mut Vec<u8>,
        name: &[u8],
        uses: &ModuleUses,
    ) -> Result<(), AllocError> {
        push_sentence(text, &[Bytes(name), Bytes(b"\n")])?;
        if uses.is_empty() {
            return push_sentence(text, &[Bytes(b"   uses no globals\n")]);
        }
        self.push_globals(text, b"sets", &uses.sets)?;
        self.push_globals(text, b"calls", &uses.calls)?;
        self.push_globals(text, b"reads", &uses.reads)?;
        self.push_globals(text, b"writes", &uses.writes)?;
        self.push_globals(text, b"addresses", &uses.addresses)
    }

    // What holds of all modules together.
    fn push_all(&self, alloc: Global, text: &mut Vec<u8>) -> Result<(), AllocError> {
        let head: &[u8] = if self.modules.len() > 1 {
            b"all together\n"
        } else {
            b"for itself\n"
        };
        push_sentence(text, &[Bytes(head)])?;
        let (missing, unset) = self.without_value(alloc)?;
        self.push_globals(text, b"not set", &missing)?;
        self.push_globals(text, b"no value", &unset)?;
        if !self.uses.iter().any(|uses| uses.sets.contains(&START)) {
            let words = b"  nobody sets global 1, where a task begins\n";
            push_sentence(text, &[Bytes(words)])?;
        }
        self.push_twice_set(text)?;
        if missing.is_empty() {
            push_sentence(text, &[Bytes(b"   every global that is called is set\n")])?;
        }
        Ok(())
    }

    // The globals to which no module gives a value: those that are called, and those that are only read.
    fn without_value(&self, alloc: Global) -> Result<(BTreeSet<u32>, BTreeSet<u32>), AllocError> {
        let mut missing = BTreeSet::new(alloc);
        let mut unset = BTreeSet::new(alloc);
        // the kernel gives global 0 its value
        for n in 1..GLOBALS {
            if self.uses.iter().any(|uses| uses.gives(n)) {
                continue;
            }
            if self.uses.iter().any(|uses| uses.calls.contains(&n)) {
                missing.insert(n)?;
            } else if self.uses.iter().any(|uses| uses.reads.contains(&n)) {
                unset.insert(n)?;
            }
        }
        Ok((missing, unset))
    }

    // A line of globals, cut where it gets long.
    fn push_globals(
        &self,
        text: &mut Vec<u8>,
        what: &[u8],
        globals: &BTreeSet<u32>,
    ) -> Result<(), AllocError> {
        if globals.is_empty() {
            return Ok(());
        }
        let mut begin = text.len();
        push_sentence(text, &[Bytes(b"  "), Bytes(what)])?;
        push_blanks(text, (WORD_WIDTH - 2).saturating_sub(what.len()))?;
        let mut left = globals.len();
        for n in globals.iter() {
            let line = text.len().saturating_sub(begin);
            if line.saturating_add(self.width(*n)) > WIDTH {
                push_sentence(text, &[Bytes(b"\n")])?;
                begin = text.len();
                push_blanks(text, WORD_WIDTH)?;
            }
            push_sentence(text, &[Bytes(b" ")])?;
            self.push_global(text, *n)?;
            left = left.saturating_sub(1);
            if left > 0 {
                push_sentence(text, &[Bytes(b",")])?;
            }
        }
        push_sentence(text, &[Bytes(b"\n")])
    }

    // How many characters a global has.
    fn width(&self, n: u32) -> usize {
        let digits = n.checked_ilog10().unwrap_or(0) as usize;
        match self.names.get(&n) {
            Some(name) => name.len().saturating_add(digits).saturating_add(2),
            None => digits.saturating_add(1),
        }
    }

    // A global, with its name if it has one.
    fn push_global(&self, text: &mut Vec<u8>, n: u32) -> Result<(), AllocError> {
        push_sentence(text, &[Number(u64::from(n))])?;
        match self.names.get(&n) {
            Some(name) => push_sentence(text, &[Bytes(b" "), Bytes(name)]),
            None => Ok(()),
        }
    }

    // The globals that several modules set, and which of them counts.
    fn push_twice_set(&self, text: &mut Vec<u8>) -> Result<(), AllocError> {
        for n in 1..GLOBALS {
            let setters = self
                .uses
                .iter()
                .filter(|uses| uses.sets.contains(&n))
                .count();
            if setters > 1 {
                self.push_setters(text, n)?;
            }
        }
        Ok(())
    }

    // A line with the modules that set a global.
    fn push_setters(&self, text: &mut Vec<u8>, n: u32) -> Result<(), AllocError> {
        push_sentence(text, &[Bytes(b"   ")])?;
        self.push_global(text, n)?;
        push_sentence(text, &[Bytes(b" is set by ")])?;
        let mut last: Option<&[u8]> = None;
        for (named, uses) in self.modules.iter().zip(self.uses.iter()) {
            if uses.sets.contains(&n) {
                let comma: &[u8] = if last.is_some() { b", " } else { b"" };
                push_sentence(text, &[Bytes(comma), Bytes(named.name)])?;
                last = Some(named.name);
            }
        }
        let last = last.unwrap_or(b"");
        push_sentence(text, &[Bytes(b"; "), Bytes(last), Bytes(b" counts\n")])
    }
}
