// The labels of a hunk's assembly.
use crate::global_tables::GlobalPair;
use crate::hunk_code::HunkCode;
use crate::known_names::Names;
use crate::names::{function_name, push_name};
use crate::units::FIRST;
use instruction_set::instruction_table::Form;
use std::alloc::{AllocError, Global};
use std::collections::{BTreeMap, BTreeSet};
use tool_texts::Said::{Bytes, Number};
use tool_texts::push_sentence;

/// The most letters and digits of a name that are in a label.
const MOST_LETTERS: usize = 12;

/// What an instruction names by a label.
#[derive(Clone, Copy)]
pub enum Target {
    /// The halfword at this offset, which leads on.
    Lead(u32),
    /// This offset.
    Offset(u32),
}

/// The labels of a hunk.
#[derive(Drop)]
pub struct Labels {
    /// For each offset up to that of the global table, whether it has a label.
    pub wanted: Vec<bool>,
    /// The labels that are no number.
    pub named: BTreeMap<u32, Vec<u8>>,
}

impl Labels {
    /// Whether an offset has a label.
    pub fn is_wanted(&self, at: u32) -> bool {
        self.wanted
            .as_slice()
            .get(at as usize)
            .copied()
            .unwrap_or(false)
    }

    // An offset has a label.
    fn want(&mut self, at: u32) {
        if let Some(wanted) = self.wanted.get_mut(at as usize) {
            *wanted = true;
        }
    }

    /// Adds the label of an offset.
    pub fn push_label(&self, text: &mut Vec<u8>, at: u32) -> Result<(), AllocError> {
        match self.named.get(&at) {
            Some(name) => push_sentence(text, &[Bytes(name.as_slice())]),
            None => push_sentence(text, &[Bytes(b"L"), Number(u64::from(at))]),
        }
    }
}

/// The labels of a hunk. What leads to a place at which no line can begin is data from now on.
pub fn find_labels(
    alloc: Global,
    code: &mut HunkCode,
    names: &Names,
) -> Result<Labels, AllocError> {
    let mut labels = Labels {
        wanted: Vec::new(alloc),
        named: BTreeMap::new(alloc),
    };
    for at in 0..code.places.len().saturating_add(1) {
        labels.wanted.push(false)?;
    }
    for at in FIRST..code.end() {
        want_lead(code, &mut labels, at);
    }
    for at in FIRST..code.end() {
        want_target(code, &mut labels, at);
    }
    want_others(code, &mut labels);
    name_labels(alloc, code, names, &mut labels)?;
    Ok(labels)
}

// Whether a line can begin at an offset.
fn can_begin(code: &HunkCode, at: u32) -> bool {
    if at < FIRST {
        return false;
    }
    match code.place(at) {
        Some(place) => place.within.is_none_or(|begin| begin == at),
        None => false,
    }
}

// What a halfword leads to has a label, or it is a number.
fn want_lead(code: &mut HunkCode, labels: &mut Labels, at: u32) {
    if !code.is_lead(at) {
        return;
    }
    let to = code.lead(at);
    if can_begin(code, to) {
        labels.want(to);
    } else {
        code.make_number(at);
    }
}

// What an instruction names has a label, or the instruction is data.
fn want_target(code: &mut HunkCode, labels: &mut Labels, at: u32) {
    match target_at(code, at) {
        Some(Target::Lead(to)) if code.is_lead(to) => labels.want(to),
        Some(Target::Offset(to)) if can_begin(code, to) => labels.want(to),
        Some(Target::Lead(_)) | Some(Target::Offset(_)) => code.forget(at),
        None => {}
    }
}

/// What an instruction names by a label; `None` where it names nothing so, and where no instruction of the code is there.
pub fn target_at(code: &HunkCode, at: u32) -> Option<Target> {
    let known = code.code_at(at)?;
    match known.row.form {
        Form::Indirect => Some(Target::Lead(code.lead_of(at, known.row)?)),
        Form::Relative => Some(Target::Offset(known.instr.target)),
        _ => None,
    }
}

// What the global table, relocated words and names lead to has labels.
fn want_others(code: &HunkCode, labels: &mut Labels) {
    for pair in code.table.pairs.as_slice() {
        labels.want(pair.place);
    }
    for offset in code.hunk.relocations.as_slice() {
        labels.want(address_in(code, offset.saturating_mul(4)));
    }
    for at in FIRST..code.end().saturating_add(1) {
        if code.is_function(at) {
            labels.want(at);
        }
    }
}

/// The offset of the word whose number is the word at an offset.
pub fn address_in(code: &HunkCode, at: u32) -> u32 {
    code.word(at).saturating_mul(4)
}

// Gives labels the names of functions and of globals.
fn name_labels(
    alloc: Global,
    code: &HunkCode,
    names: &Names,
    labels: &mut Labels,
) -> Result<(), AllocError> {
    let mut taken = BTreeSet::new(alloc);
    for at in FIRST..code.end().saturating_add(1) {
        if code.is_function(at) {
            name_function(alloc, code, labels, &mut taken, at)?;
        }
    }
    for pair in code.table.pairs.as_slice().iter().rev() {
        name_global(alloc, names, labels, &mut taken, *pair)?;
    }
    Ok(())
}

// Labels that are taken.
type Taken = BTreeSet<Vec<u8>>;

// A function has the name that a compiler has left.
fn name_function(
    alloc: Global,
    code: &HunkCode,
    labels: &mut Labels,
    taken: &mut Taken,
    at: u32,
) -> Result<(), AllocError> {
    let Some(place) = function_name(code, at) else {
        return Ok(());
    };
    let mut name = Vec::new(alloc);
    push_name(&mut name, code, place)?;
    let label = new_label(alloc, name.as_slice(), taken)?;
    give(alloc, labels, taken, at, label)
}

// A place to which a global is set, and that has no name, has the name of the global, or its number.
fn name_global(
    alloc: Global,
    names: &Names,
    labels: &mut Labels,
    taken: &mut Taken,
    pair: GlobalPair,
) -> Result<(), AllocError> {
    if labels.named.contains_key(&pair.place) {
        return Ok(());
    }
    if let Some(name) = names.get(&pair.number) {
        let label = new_label(alloc, name, taken)?;
        return give(alloc, labels, taken, pair.place, label);
    }
    let mut label = Vec::new(alloc);
    push_sentence(&mut label, &[Bytes(b"g"), Number(u64::from(pair.number))])?;
    if taken.contains(&label) {
        return Ok(());
    }
    give(alloc, labels, taken, pair.place, label)
}

// An offset has this label.
fn give(
    alloc: Global,
    labels: &mut Labels,
    taken: &mut Taken,
    at: u32,
    label: Vec<u8>,
) -> Result<(), AllocError> {
    let mut own = Vec::new(alloc);
    own.extend_from_slice(label.as_slice())?;
    labels.named.insert(at, own)?;
    taken.insert(label)?;
    Ok(())
}

// The letters and digits of a name, as a label that no other place has.
fn new_label(alloc: Global, name: &[u8], taken: &Taken) -> Result<Vec<u8>, AllocError> {
    let mut own = Vec::new(alloc);
    for byte in name.iter().filter(|byte| byte.is_ascii_alphanumeric()) {
        own.push(*byte)?;
    }
    let mut label = Vec::new(alloc);
    if !is_label(own.as_slice()) {
        label.push(b'f')?;
    }
    for byte in own.iter() {
        if label.len() < MOST_LETTERS {
            label.push(*byte)?;
        }
    }
    numbered(alloc, label, taken)
}

// Whether letters and digits are a label that is no number.
fn is_label(name: &[u8]) -> bool {
    match name {
        [b'L' | b'g', digits @ ..] if !digits.is_empty() => {
            !digits.iter().all(|byte| byte.is_ascii_digit())
        }
        [first, ..] => first.is_ascii_alphabetic(),
        [] => false,
    }
}

// A label, with a number after it where it is taken.
fn numbered(alloc: Global, label: Vec<u8>, taken: &Taken) -> Result<Vec<u8>, AllocError> {
    if !taken.contains(&label) {
        return Ok(label);
    }
    for n in 2..u64::MAX {
        let mut own = Vec::new(alloc);
        push_sentence(&mut own, &[Bytes(label.as_slice()), Number(n)])?;
        if !taken.contains(&own) {
            return Ok(own);
        }
    }
    Ok(label)
}
