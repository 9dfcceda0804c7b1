// Which bytes of a hunk are code. It is followed from the global table, and from the names that a compiler leaves before functions, along jumps,
// calls, and the tables of switches. All else is data.
ghost use Rattle.module_text.specs.Canonical.{IsPrintableHunk};

use crate::hunk_code::{HunkCode, Known};
use crate::names::{FUNCTION_MARK, SECTION_MARK, name_length};
use crate::units::Unit;
use instruction_set::instruction_table::{Effect, Form};
use module_text::Hunk;
use std::alloc::{AllocError, Global};

/// The places from which code is still to be followed.
#[derive(Drop)]
struct Waiting {
    /// Their offsets, in the order in which they are followed.
    offsets: Vec<u32>,
}

impl Waiting {
    // Code may be at this offset.
    fn visit(&mut self, code: &HunkCode, at: u32) -> Result<(), AllocError> {
        if code.is_free(at, 1) {
            self.offsets.push(at)?;
        }
        Ok(())
    }
}

/// A hunk, of which the code is told from the data.
pub fn find_code(alloc: Global, hunk: &Hunk) -> Result<HunkCode<'_>, AllocError>
    requires { IsPrintableHunk hunk.now }
{
    let mut code = HunkCode::new(alloc, hunk)?;
    let mut waiting = Waiting {
        offsets: Vec::new(alloc),
    };
    put_borders(&mut code);
    put_addresses(&mut code);
    put_names(&mut code, &mut waiting)?;
    for pair in code.table.pairs.as_slice().iter().rev() {
        waiting.visit(&code, pair.place)?;
    }
    for turn in 0..usize::MAX {
        let Some(at) = waiting.offsets.as_slice().get(turn).copied() else {
            return Ok(code);
        };
        follow(&mut code, &mut waiting, at)?;
    }
    Ok(code)
}

// Something begins where a global is set.
fn put_borders(code: &mut HunkCode) {
    for k in 0..code.table.pairs.len() {
        if let Some(pair) = code.table.pairs.as_slice().get(k).copied() {
            code.put_border(pair.place);
        }
    }
}

// Relocated words, and what they lead to.
fn put_addresses(code: &mut HunkCode) {
    let hunk = code.hunk;
    for offset in hunk.relocations.as_slice() {
        let at = offset.saturating_mul(4);
        if code.is_free(at, 4) {
            code.put(at, Unit::Address, 4);
        }
        let to = code.word(at).saturating_mul(4);
        code.put_border(to);
    }
}

// The names that a compiler has left.
fn put_names(code: &mut HunkCode, waiting: &mut Waiting) -> Result<(), AllocError> {
    for word in 1..code.table.begin {
        let at = u32::try_from(word).unwrap_or(u32::MAX).saturating_mul(4);
        if at.saturating_add(12) > code.end() {
            return Ok(());
        }
        put_name(code, waiting, at)?;
    }
    Ok(())
}

// The name at an offset, if one is there.
fn put_name(code: &mut HunkCode, waiting: &mut Waiting, at: u32) -> Result<(), AllocError> {
    let mark = code.word(at);
    let is_mark = mark == FUNCTION_MARK || mark == SECTION_MARK;
    let name = at.saturating_add(4);
    if !is_mark || name_length(code, name).is_none() {
        return Ok(());
    }
    let count = u32::from(code.byte(name)) + 5;
    if !code.is_free(at, count) {
        return Ok(());
    }
    if mark == SECTION_MARK {
        code.put(at, Unit::SectionName, count);
        return Ok(());
    }
    code.put(at, Unit::FunctionName, count);
    let begin = at.saturating_add(count);
    code.put_function(begin);
    waiting.visit(code, begin)
}

// Follows the code from an offset up to where it leaves for elsewhere.
fn follow(code: &mut HunkCode, waiting: &mut Waiting, from: u32) -> Result<(), AllocError> {
    let mut at = from;
    for turn in 0..code.places.len() {
        match follow_one(code, waiting, at)? {
            Some(next) => at = next,
            None => return Ok(()),
        }
    }
    Ok(())
}

// The instruction at an offset is code, if it can be; where the next one is, if it goes on there.
fn follow_one(
    code: &mut HunkCode,
    waiting: &mut Waiting,
    at: u32,
) -> Result<Option<u32>, AllocError> {
    let Some(known) = code.instruction(at) else {
        return Ok(None);
    };
    let length = known.instr.length;
    if !code.is_free(at, length) || !has_lead(code, at, known) {
        return Ok(None);
    }
    code.put(at, Unit::Code, length);
    match known.row.form {
        Form::Relative | Form::Indirect => {
            if leads_run(known.row.effect) {
                waiting.visit(code, known.instr.target)?;
            }
        }
        Form::Switch => {
            follow_switch(code, waiting, at, known.row.effect)?;
            return Ok(None);
        }
        _ => {}
    }
    if ends_run(known.row.effect) {
        return Ok(None);
    }
    Ok(Some(at.saturating_add(length)))
}

// Whether an instruction needs no halfword, or has it: after itself, and where nothing else is.
fn has_lead(code: &mut HunkCode, at: u32, known: Known) -> bool {
    match code.lead_of(at, known.row) {
        Some(lead) => lead >= at.saturating_add(known.instr.length) && code.put_lead(lead),
        None => true,
    }
}

// Whether a run may go on at the target of an instruction.
fn leads_run(effect: Effect) -> bool {
    !matches!(
        effect,
        Effect::LoadAtTarget | Effect::LoadTargetWord | Effect::StoreTarget
    )
}

// Whether the next instruction does not come after one.
fn ends_run(effect: Effect) -> bool {
    matches!(
        effect,
        Effect::Rtn | Effect::Goto | Effect::Jump | Effect::Brk
    )
}

// The table of a switch begins at its first even offset. If it is no table, the bytes stay data.
fn follow_switch(
    code: &mut HunkCode,
    waiting: &mut Waiting,
    switch: u32,
    effect: Effect,
) -> Result<(), AllocError> {
    let next = switch.saturating_add(1);
    let at = next.saturating_add(next % 2);
    if !code.is_free(at, 4) {
        return Ok(());
    }
    let count = u32::from(code.half(at));
    let step = if matches!(effect, Effect::Swl) { 2 } else { 4 };
    if !code.is_free(at, 4 + count * step) {
        return Ok(());
    }
    code.put(at, Unit::Number, 2);
    put_case(code, waiting, at.saturating_add(2))?;
    for i in 1..count + 1 {
        let case = at.saturating_add(step.saturating_mul(i));
        if step == 4 {
            code.put(case, Unit::Number, 2);
        }
        put_case(code, waiting, case.saturating_add(2))?;
    }
    Ok(())
}

// A halfword of a table leads on.
fn put_case(code: &mut HunkCode, waiting: &mut Waiting, at: u32) -> Result<(), AllocError> {
    code.put_lead(at);
    waiting.visit(code, code.lead(at))
}
