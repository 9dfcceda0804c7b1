// The lines in error.
ghost use Rattle.std.specs.Prelude.{◌≡◌, ◌++◌, ◌<◌, ◌^◌, ◌∷◌, [], length, IfOk, OnOk};
ghost use Rattle.std.specs.List.{filter_map};
ghost use Rattle.module_text.specs.TextReader.Lines.{lines_of};
ghost use Rattle.assembly.specs.AssemblyText.KeptLabels.{table_of};
ghost use Rattle.assembly_errors.specs.Drafts.{draft_of, drafted, is_none, no_draft};
ghost use Rattle.assembly_errors.specs.Findings.{finding_of, is_blamed, lead_error, whole_draft, with_findings};

use crate::drafts::{Draft, Finding, read_draft};
use crate::leads::Lead;
use assembly::assembly_text::errors::LineError;
use assembly::assembly_text::pieces::piece_of;
use assembly::assembly_text::places::Place;
use std::alloc::{AllocError, Global};
use std::collections::BTreeMap;
use tool_texts::Lent;

/// All lines of a text, of which all that are in error are found.
#[tactic(auto, unfolding(crate::specs::Findings::whole_draft))]
pub fn find_errors(alloc: Global, text: &[u8]) -> Result<Draft<'_>, AllocError>
    requires { length text.now < 2 ^ 32 }
    ensures { IfOk result (λ d. draft_of d ≡ whole_draft text.now) }
{
    let mut draft = read_draft(alloc, text)?;
    follow_leads(&mut draft)?;
    Ok(draft)
}

// Finds the lines that name a label and are in error.
fn follow_leads(draft: &mut Draft) -> Result<(), AllocError>
    ensures { OnOk result (draft_of draft.new ≡ with_findings (draft_of draft.old)) }
{
    let is_right = draft.found.is_empty();
    add_findings(
        &draft.known.labels,
        is_right,
        draft.leads.as_slice(),
        &mut draft.found,
    )
}

fn add_findings<'a>(
    labels: &BTreeMap<&[u8], Place>,
    is_right: bool,
    leads: &[Lead<'a>],
    found: &mut Vec<Finding<'a>>,
) -> Result<(), AllocError>
    ensures { OnOk result (found.new.items
        ≡ found.old.items ++ filter_map (finding_of (table_of labels.now) is_right) leads.now) }
{
    for lead in leads {
        add_finding(labels, is_right, lead, found)?;
    }
    Ok(())
}

fn add_finding<'a>(
    labels: &BTreeMap<&[u8], Place>,
    is_right: bool,
    lead: &Lead<'a>,
    found: &mut Vec<Finding<'a>>,
) -> Result<(), AllocError>
    ensures { OnOk result (found.new.items
        ≡ found.old.items ++ filter_map (finding_of (table_of labels.now) is_right) (lead.now ∷ [])) }
{
    if let Some(error) = lead_error(labels, is_right, lead) {
        found.push(Finding {
            number: lead.number(),
            text: Lent::new(lead.text()),
            offset: lead.offset(),
            error,
        })?;
    }
    Ok(())
}

// What is wrong with a line that names a label.
fn lead_error(labels: &BTreeMap<&[u8], Place>, is_right: bool, lead: &Lead) -> Option<LineError>
    ensures { result ≡ lead_error (table_of labels.now) is_right lead.now }
{
    match piece_of(labels, lead.offset(), lead.statement()) {
        Ok(_) => None,
        Err(error) => is_blamed(error, is_right).then_some(error),
    }
}

// Whether a label is within reach is known only where no line was wrong before.
fn is_blamed(error: LineError, is_right: bool) -> bool
    ensures { result ≡ is_blamed error is_right }
{
    is_right || matches!(error, LineError::UndefinedLabel)
}
