// The lines that set constants.
ghost use Rattle.std.specs.Prelude.{◌≡◌, ◌∷◌, [], ◌++◌, IfOk, OnOk, map};
ghost use Rattle.std.specs.Option.{option_copied};
ghost use Rattle.friendly_assembly.specs.KeptNames.{constants_kept, kept};
ghost use Rattle.friendly_assembly.specs.LineLabels.{labels_in, said_in};
ghost use Rattle.friendly_assembly.specs.Operands.{operand_of};
ghost use Rattle.friendly_assembly.specs.Parts.{parts_of};
ghost use Rattle.friendly_assembly.specs.Readings.{code_of};
ghost use Rattle.friendly_assembly.specs.Settings.{constants_after, constants_alone, constants_of, is_constant_name, no_constants, report_at, set_by, set_named, set_new, set_to, setting_by, setting_of, with_setting};
ghost use Rattle.tool_texts.specs.Reports.{report_of};

use crate::flaws::{Flaw, Wrong, push_words};
use crate::labels::{is_name, split_labels};
use crate::names::{Constant, ConstantTable, Names, constant_named, set};
use crate::operands::operand_of;
use crate::parts::{Part, parts_of};
use crate::readings::code_length;
use crate::strange_bytes::strange_flaw;
use crate::values::Value;
use std::alloc::{AllocError, Global};
use std::collections::BTreeMap;
use tool_texts::{Lent, Report};

/// A constant that a line sets.
#[derive(Drop)]
pub struct Setting<'a> {
    /// Its name.
    pub name: Lent<'a>,
    /// Its value.
    pub value: Value<'a>,
}

/// What is known of constants after some lines.
#[derive(Drop)]
pub struct KeptConstants<'a> {
    /// Those that are set.
    pub table: ConstantTable<'a>,
    /// What is wrong in these lines.
    pub reports: Vec<Report<'a>>,
}

/// The constants that lines set, and what is wrong in these lines.
pub fn constants_of<'a>(alloc: Global, lines: &[&'a [u8]]) -> Result<KeptConstants<'a>, AllocError>
    ensures { let all = constants_of no_constants 1 (map (λ line. line.now) lines.now) in
        IfOk result (λ known. constants_kept known ≡ all) }
{
    let mut known = KeptConstants {
        table: BTreeMap::new(alloc),
        reports: Vec::new(alloc),
    };
    for (i, line) in lines.iter().enumerate() {
        add_line(alloc, &mut known, i as u64 + 1, line)?;
    }
    Ok(known)
}

// Line n comes next.
fn add_line<'a>(
    alloc: Global,
    known: &mut KeptConstants<'a>,
    n: u64,
    line: &'a [u8],
) -> Result<(), AllocError>
    ensures { let after = constants_after (constants_kept known.old) n line.now in
        OnOk result (constants_kept known.new ≡ after) }
{
    let (code, _) = line.split_at(code_length(line));
    let parts = parts_of(alloc, code)?;
    let setting = setting_of(alloc, &known.table, code, parts.as_slice());
    add(alloc, known, n, line, setting)
}

// Line n sets this constant, or nothing, or is wrong.
fn add<'a>(
    alloc: Global,
    known: &mut KeptConstants<'a>,
    n: u64,
    line: &'a [u8],
    setting: Result<Option<Setting<'a>>, Flaw<'a>>,
) -> Result<(), AllocError>
    ensures { let after = with_setting (constants_kept known.old) n line.now setting.entry in
        OnOk result (constants_kept known.new ≡ after) }
{
    match setting {
        Ok(None) => Ok(()),
        Ok(Some(Setting { name, value })) => {
            set(&mut known.table, name.bytes(), Constant { value, line: n })
        }
        Err(flaw) => push_report(alloc, &mut known.reports, n, line, flaw),
    }
}

/// Adds what is wrong in line n.
pub fn push_report<'a>(
    alloc: Global,
    reports: &mut Vec<Report<'a>>,
    n: u64,
    line: &'a [u8],
    flaw: Flaw<'a>,
) -> Result<(), AllocError>
    ensures { let more = report_at n line.now flaw.entry ∷ [] in
        OnOk result (map report_of reports.new.items ≡ map report_of reports.old.items ++ more) }
{
    let mut words = Vec::new(alloc);
    push_words(&mut words, flaw.wrong)?;
    reports.push(Report {
        line: n,
        column: flaw.column.saturating_add(flaw.after),
        text: line,
        words,
        code: 0,
    })?;
    Ok(())
}

// The constant that a line sets, if it sets one.
fn setting_of<'a>(
    alloc: Global,
    constants: &ConstantTable<'a>,
    code: &'a [u8],
    parts: &[Part<'a>],
) -> Result<Option<Setting<'a>>, Flaw<'a>>
    requires { parts.now ≡ parts_of code.now }
    ensures { result ≡ setting_of (kept constants.now) code.now }
{
    match strange_flaw(code) {
        Some(_) => Ok(None),
        None => {
            let (labels, said) = split_labels(parts);
            setting_by(alloc, constants, labels, said)
        }
    }
}

// The same, of a line with these labels, which says this after them.
fn setting_by<'a>(
    alloc: Global,
    constants: &ConstantTable<'a>,
    labels: &[Part<'a>],
    said: &[Part<'a>],
) -> Result<Option<Setting<'a>>, Flaw<'a>>
    ensures { result ≡ setting_by (kept constants.now) labels.now said.now }
{
    match said.split_first() {
        Some((word, operands)) if word.text.bytes() == b"SET".as_slice() => {
            set_by(alloc, constants, labels, word, operands)
        }
        _ => Ok(None),
    }
}

// `SET` and its operands.
fn set_by<'a>(
    alloc: Global,
    constants: &ConstantTable<'a>,
    labels: &[Part<'a>],
    word: &Part<'a>,
    operands: &[Part<'a>],
) -> Result<Option<Setting<'a>>, Flaw<'a>>
    ensures { result ≡ set_by (kept constants.now) labels.now word.now operands.now }
{
    match operands {
        [name, part] => set_named(alloc, constants, labels, name, part),
        _ => Err(Flaw::new(word.column, Wrong::SettingForm)),
    }
}

// `SET` without a label, a name, and a value.
fn set_named<'a>(
    alloc: Global,
    constants: &ConstantTable<'a>,
    labels: &[Part<'a>],
    name: &Part<'a>,
    part: &Part<'a>,
) -> Result<Option<Setting<'a>>, Flaw<'a>>
    ensures { result ≡ set_named (kept constants.now) labels.now name.now part.now }
{
    if let Some(label) = labels.first() {
        return Err(Flaw::new(label.column, Wrong::LabelledSetting));
    }
    if !is_constant_name(name.text.bytes()) {
        return Err(Flaw::new(name.column, Wrong::ConstantName));
    }
    let before = constant_named(constants, name.text.bytes());
    set_new(alloc, constants, name, part, before)
}

// A constant that is not set already.
fn set_new<'a>(
    alloc: Global,
    constants: &ConstantTable<'a>,
    name: &Part<'a>,
    part: &Part<'a>,
    before: Option<&Constant<'a>>,
) -> Result<Option<Setting<'a>>, Flaw<'a>>
    ensures { result ≡ set_new (kept constants.now) name.now part.now (option_copied before.entry) }
{
    match before {
        Some(before) => Err(Flaw::new(
            name.column,
            Wrong::SetAgain {
                name: name.text.again(),
                line: before.line,
            },
        )),
        None => set_first(alloc, constants, name, part),
    }
}

// A constant is set for the first time.
fn set_first<'a>(
    alloc: Global,
    constants: &ConstantTable<'a>,
    name: &Part<'a>,
    part: &Part<'a>,
) -> Result<Option<Setting<'a>>, Flaw<'a>>
    ensures { let value = operand_of (constants_alone (kept constants.now)) part.now in
        result ≡ set_to name.now.text part.now value }
{
    let firsts = BTreeMap::new(alloc);
    let names = Names {
        constants,
        firsts: &firsts,
    };
    set_to(name.text.again(), part, operand_of(&names, part))
}

// A constant is set to a number.
fn set_to<'a>(
    name: Lent<'a>,
    part: &Part<'a>,
    value: Result<Value<'a>, Flaw<'a>>,
) -> Result<Option<Setting<'a>>, Flaw<'a>>
    ensures { result ≡ set_to name.entry part.now value.entry }
{
    let value = value?;
    if !value.is_number() {
        return Err(Flaw::new(part.column, Wrong::NoValue(part.text.again())));
    }
    Ok(Some(Setting { name, value }))
}

// The name of a constant is one that a label may have.
fn is_constant_name(name: &[u8]) -> bool
    ensures { result ≡ is_constant_name name.now }
{
    is_name(name) && name.len() <= 16
}
