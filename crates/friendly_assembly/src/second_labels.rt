// The lines that define labels, and which labels stand for others.
ghost use Rattle.std.specs.Prelude.{◌≡◌, [], IfOk, OnOk, Some, map};
ghost use Rattle.std.specs.Map.{update};
ghost use Rattle.std.specs.Str.{bytes_eq};
ghost use Rattle.friendly_assembly.specs.KeptNames.{kept, labels_in_map, labels_kept};
ghost use Rattle.friendly_assembly.specs.LineLabels.{labels_in, name_of};
ghost use Rattle.friendly_assembly.specs.Parts.{parts_of};
ghost use Rattle.friendly_assembly.specs.Readings.{code_of};
ghost use Rattle.friendly_assembly.specs.SecondLabels.{labels_of, no_labels, with_constant, with_first, with_first_by, with_first_label, with_labels, with_line, with_other, with_other_by, with_others};
ghost use Rattle.tool_texts.specs.Reports.{report_of};

use crate::flaws::{Flaw, Wrong};
use crate::labels::{name_of, split_labels};
use crate::names::{ConstantTable, constant_named};
use crate::parts::{Part, parts_of};
use crate::readings::code_length;
use crate::settings::push_report;
use std::alloc::{AllocError, Global};
use std::collections::BTreeMap;
use tool_texts::{Lent, Report};

/// What is known of labels after some lines.
#[derive(Drop)]
pub struct KeptLabels<'a> {
    /// The line on which each is defined first.
    pub lines: BTreeMap<&'a [u8], u64>,
    /// The first label of the line of each other label.
    pub firsts: BTreeMap<&'a [u8], &'a [u8]>,
    /// What is wrong.
    pub reports: Vec<Report<'a>>,
}

/// The labels that lines define, and what is wrong with them, where these constants are set.
pub fn labels_of<'a>(
    alloc: Global,
    constants: &ConstantTable<'a>,
    lines: &[&'a [u8]],
) -> Result<KeptLabels<'a>, AllocError>
    ensures { let all = labels_of (kept constants.now) no_labels 1 (map (λ line. line.now) lines.now) in
        IfOk result (λ known. labels_kept known ≡ all) }
{
    let mut known = KeptLabels {
        lines: BTreeMap::new(alloc),
        firsts: BTreeMap::new(alloc),
        reports: Vec::new(alloc),
    };
    for (i, line) in lines.iter().enumerate() {
        add_line(alloc, constants, &mut known, i as u64 + 1, line)?;
    }
    Ok(known)
}

// Line n comes next.
fn add_line<'a>(
    alloc: Global,
    constants: &ConstantTable<'a>,
    known: &mut KeptLabels<'a>,
    n: u64,
    line: &'a [u8],
) -> Result<(), AllocError>
    ensures { let labels = labels_in (parts_of (code_of line.now)) in
        let after = with_labels (kept constants.now) (labels_kept known.old) n line.now labels in
        OnOk result (labels_kept known.new ≡ after) }
{
    let (code, _) = line.split_at(code_length(line));
    let parts = parts_of(alloc, code)?;
    let (labels, _) = split_labels(parts.as_slice());
    add_labels(alloc, constants, known, n, line, labels)
}

// The labels of line n.
fn add_labels<'a>(
    alloc: Global,
    constants: &ConstantTable<'a>,
    known: &mut KeptLabels<'a>,
    n: u64,
    line: &'a [u8],
    labels: &[Part<'a>],
) -> Result<(), AllocError>
    ensures { let after = with_labels (kept constants.now) (labels_kept known.old) n line.now labels.now in
        OnOk result (labels_kept known.new ≡ after) }
{
    let Some((first, others)) = labels.split_first() else {
        return Ok(());
    };
    add_first(alloc, constants, known, n, line, first)?;
    add_others(
        alloc,
        constants,
        known,
        n,
        line,
        name_of(first.text.bytes()),
        others,
    )
}

// The first label of line n.
fn add_first<'a>(
    alloc: Global,
    constants: &ConstantTable<'a>,
    known: &mut KeptLabels<'a>,
    n: u64,
    line: &'a [u8],
    label: &Part<'a>,
) -> Result<(), AllocError>
    ensures { let after = with_first (kept constants.now) (labels_kept known.old) n line.now label.now in
        OnOk result (labels_kept known.new ≡ after) }
{
    let before = line_of(known, label);
    report_constant(alloc, constants, known, n, line, label)?;
    put_first(known, n, label, before)
}

// The first label of line n, which may be on a line before.
fn put_first<'a>(
    known: &mut KeptLabels<'a>,
    n: u64,
    label: &Part<'a>,
    before: Option<u64>,
) -> Result<(), AllocError>
    ensures { let after = with_first_by (labels_kept known.old) n label.now before in
        OnOk result (labels_kept known.new ≡ after) }
{
    match before {
        Some(_) => Ok(()),
        None => define(known, n, label),
    }
}

// The labels after it, for which it stands.
fn add_others<'a>(
    alloc: Global,
    constants: &ConstantTable<'a>,
    known: &mut KeptLabels<'a>,
    n: u64,
    line: &'a [u8],
    first: &'a [u8],
    others: &[Part<'a>],
) -> Result<(), AllocError>
    ensures { let all = with_others (kept constants.now) (labels_kept known.old) n line.now first.now others.now in
        OnOk result (labels_kept known.new ≡ all) }
{
    for label in others {
        add_other(alloc, constants, known, n, line, first, label)?;
    }
    Ok(())
}

// Another label of line n.
fn add_other<'a>(
    alloc: Global,
    constants: &ConstantTable<'a>,
    known: &mut KeptLabels<'a>,
    n: u64,
    line: &'a [u8],
    first: &'a [u8],
    label: &Part<'a>,
) -> Result<(), AllocError>
    ensures { let after = with_other (kept constants.now) (labels_kept known.old) n line.now first.now label.now in
        OnOk result (labels_kept known.new ≡ after) }
{
    let before = line_of(known, label);
    report_constant(alloc, constants, known, n, line, label)?;
    put_other(alloc, known, n, line, first, label, before)
}

// Another label of line n, which may be on a line before.
fn put_other<'a>(
    alloc: Global,
    known: &mut KeptLabels<'a>,
    n: u64,
    line: &'a [u8],
    first: &'a [u8],
    label: &Part<'a>,
    before: Option<u64>,
) -> Result<(), AllocError>
    ensures { let after = with_other_by (labels_kept known.old) n line.now first.now label.now before in
        OnOk result (labels_kept known.new ≡ after) }
{
    match before {
        Some(before) => report_again(alloc, known, n, line, label, before),
        None => {
            define(known, n, label)?;
            stand_for(known, label, first)
        }
    }
}

// What is wrong with a label that is a constant too.
fn report_constant<'a>(
    alloc: Global,
    constants: &ConstantTable<'a>,
    known: &mut KeptLabels<'a>,
    n: u64,
    line: &'a [u8],
    label: &Part<'a>,
) -> Result<(), AllocError>
    ensures { let after = with_constant (kept constants.now) (labels_kept known.old) n line.now label.now in
        OnOk result (labels_kept known.new ≡ after) }
{
    let name = Lent::new(name_of(label.text.bytes()));
    match constant_named(constants, name.bytes()) {
        Some(constant) => {
            let wrong = Wrong::LabelIsConstant {
                name,
                line: constant.line,
            };
            push_report(
                alloc,
                &mut known.reports,
                n,
                line,
                Flaw::new(label.column, wrong),
            )
        }
        None => Ok(()),
    }
}

// The line on which a label is already, if it is on one.
fn line_of(known: &KeptLabels, label: &Part) -> Option<u64>
    ensures { result ≡ kept known.now.lines (name_of label.now.text) }
{
    known.lines.get(name_of(label.text.bytes())).copied()
}

// A label is on line n.
fn define<'a>(known: &mut KeptLabels<'a>, n: u64, label: &Part<'a>) -> Result<(), AllocError>
    ensures { let after = with_line (labels_kept known.old) n (name_of label.now.text) in
        OnOk result (labels_kept known.new ≡ after) }
{
    put_line(&mut known.lines, name_of(label.text.bytes()), n)
}

fn put_line<'a>(
    lines: &mut BTreeMap<&'a [u8], u64>,
    name: &'a [u8],
    n: u64,
) -> Result<(), AllocError>
    ensures { let table = update bytes_eq (kept lines.old) name.now (Some n) in
        OnOk result (kept lines.new ≡ table) }
{
    lines.insert(name, n)?;
    Ok(())
}

// The first label of its line stands for a label.
fn stand_for<'a>(
    known: &mut KeptLabels<'a>,
    label: &Part<'a>,
    first: &'a [u8],
) -> Result<(), AllocError>
    ensures { let after = with_first_label (labels_kept known.old) (name_of label.now.text) first.now in
        OnOk result (labels_kept known.new ≡ after) }
{
    put_label(&mut known.firsts, name_of(label.text.bytes()), first)
}

fn put_label<'a>(
    firsts: &mut BTreeMap<&'a [u8], &'a [u8]>,
    name: &'a [u8],
    first: &'a [u8],
) -> Result<(), AllocError>
    ensures { let table = update bytes_eq (labels_in_map firsts.old) name.now (Some first.now) in
        OnOk result (labels_in_map firsts.new ≡ table) }
{
    firsts.insert(name, first)?;
    Ok(())
}

// A label that is on a line before.
fn report_again<'a>(
    alloc: Global,
    known: &mut KeptLabels<'a>,
    n: u64,
    line: &'a [u8],
    label: &Part<'a>,
    before: u64,
) -> Result<(), AllocError>
    ensures { let after = with_other_by (labels_kept known.old) n line.now [] label.now (Some before) in
        OnOk result (labels_kept known.new ≡ after) }
{
    let wrong = Wrong::DefinedAgain {
        name: Lent::new(name_of(label.text.bytes())),
        line: before,
    };
    push_report(
        alloc,
        &mut known.reports,
        n,
        line,
        Flaw::new(label.column, wrong),
    )
}
