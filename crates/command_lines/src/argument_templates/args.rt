// What a command line gives the entries of a template.
ghost use Rattle.std.specs.Prelude.{◌≡◌, ◌==◌, ◌&&◌, ◌||◌, ◌+◌, ◌≤◌, ◌<◌, ◌^◌, length, not, IfSome, Ok, Err, Some, None, true, false, replicate, MatchResult, OnErr, slice_set, slice_range, IfOk};
ghost use Rattle.std.specs.List.{position, zip};
ghost use Rattle.command_lines.specs.declared.argument_templates.args.Arg.TheVariants.{Unset};
ghost use Rattle.command_lines.specs.ArgumentTemplates.Answer.{IsBelow, answer, filled, is_free, is_unset, is_whole, role_of, span, step};
ghost use Rattle.command_lines.specs.ArgumentTemplates.Line.{items};
ghost use Rattle.command_lines.specs.ArgumentTemplates.Refusal.{code_of};
ghost use Rattle.command_lines.specs.ArgumentTemplates.Template.{entries, is_template};

use crate::argument_templates::entries::{
    Role, is_keyword, is_required, is_switch, is_template, word_role,
};
use crate::argument_templates::items::{Form, Item, has_open_quote, next_item};

/// What a line gives an entry.
#[derive(Clone, Copy)]
pub enum Arg {
    /// Nothing.
    Unset,
    /// The name of a switch.
    Switch,
    /// A value, by the places in the line where it begins and ends.
    Span { from: u32, to: u32 },
}

/// Why a line is refused.
#[derive(Clone, Copy)]
enum Refusal {
    /// The template is none, or has too many entries.
    Template,
    /// A quote is open.
    OpenQuote,
    /// There is no entry for an item.
    Surplus,
    /// A name's entry is set, or the name lacks its value.
    Name,
    /// A required entry is unset.
    Missing,
}

impl Refusal {
    fn code(self) -> u32
        ensures { result ≡ code_of self }
    {
        match self {
            Refusal::Template => 50,
            Refusal::Missing => 51,
            Refusal::Surplus => 52,
            Refusal::Name => 53,
            Refusal::OpenQuote => 54,
        }
    }
}

/// Reads a line by a template: what each of its entries is given, or the code of the refusal, after which all are unset.
pub fn read_args(template: &[u8], line: &[u8], values: &mut [Arg; 8]) -> Result<(), u32>
    requires short { length line.now < 2 ^ 32 }
    ensures answer { let given = answer template.now line.now in
        MatchResult result (λ _. given ≡ Ok values.new) (λ code. given ≡ Err code) }
    ensures unset { OnErr result (values.new ≡ replicate 8 Unset) }
{
    *values = [Arg::Unset; 8];
    let outcome = fill(template, line, values);
    if outcome.is_err() {
        *values = [Arg::Unset; 8];
    }
    outcome.map_err(|refusal| refusal.code())
}

// The same, where all entries come unset, and some may be left set.
fn fill(template: &[u8], line: &[u8], values: &mut [Arg; 8]) -> Result<(), Refusal>
    requires short { length line.now < 2 ^ 32 }
    requires fresh { values.old ≡ replicate 8 Unset }
    ensures { let given = answer template.now line.now in
        MatchResult result (λ _. given ≡ Ok values.new) (λ e. given ≡ Err (code_of e)) }
{
    if !is_template(template) {
        return Err(Refusal::Template);
    }
    if has_open_quote(line) {
        return Err(Refusal::OpenQuote);
    }
    read_items(template, line, values)?;
    if is_whole(template, values) {
        Ok(())
    } else {
        Err(Refusal::Missing)
    }
}

// Reads the items from left to right.
fn read_items(template: &[u8], line: &[u8], values: &mut [Arg; 8]) -> Result<(), Refusal>
    requires short { length line.now < 2 ^ 32 }
    requires few { length (entries template.now) ≤ 8 }
    ensures { let given = filled (entries template.now) line.now values.old None (items line.now) in
        MatchResult result (λ _. given ≡ Ok values.new) (λ e. given ≡ Err (code_of e)) }
{
    let mut at = 0;
    let mut name = None;
    while let Some((item, after)) = next_item(line, at) {
        name = read_item(template, line, name, item, values)?;
        at = after;
    }
    if name.is_some() {
        Err(Refusal::Name)
    } else {
        Ok(())
    }
}

// Reads an item after a name that waits for its value, if there is one, and gives the name that waits then.
fn read_item(
    template: &[u8],
    line: &[u8],
    name: Option<usize>,
    item: Item,
    values: &mut [Arg; 8],
) -> Result<Option<usize>, Refusal>
    requires place { (item.from ≤ item.to) × (item.to ≤ length line.now) }
    requires short { length line.now < 2 ^ 32 }
    requires few { length (entries template.now) ≤ 8 }
    requires name { IfSome name (λ k. k < 8) }
    ensures value { let next = step (entries template.now) line.now values.old name item in
        MatchResult result (λ k. next ≡ Ok (values.new, k)) (λ e. next ≡ Err (code_of e)) }
    ensures name { IfOk result (λ next. IfSome next (λ k. k < 8)) }
{
    if let Some(k) = name {
        values[k] = span(item);
        return Ok(None);
    }
    match role_of(template, line, item) {
        Role::SwitchName(k) => {
            check_unset(values[k])?;
            values[k] = Arg::Switch;
            Ok(None)
        }
        Role::EntryName(k) => {
            check_unset(values[k])?;
            Ok(Some(k))
        }
        Role::NoName => {
            let k = free_entry(template, values).ok_or(Refusal::Surplus)?;
            values[k] = span(item);
            Ok(None)
        }
    }
}

// What an item is: a quoted one is no name.
fn role_of(template: &[u8], line: &[u8], item: Item) -> Role
    requires { (item.from ≤ item.to) × (item.to ≤ length line.now) }
    ensures value { result ≡ role_of line.now (entries template.now) item }
    ensures below { IsBelow (length (entries template.now)) result }
{
    match item.form {
        Form::Word => word_role(template, &line[item.from..item.to]),
        Form::Quoted | Form::Open => Role::NoName,
    }
}

fn check_unset(arg: Arg) -> Result<(), Refusal>
    ensures { MatchResult result (λ _. is_unset arg ≡ true) (λ e. (is_unset arg ≡ false) × (code_of e ≡ 53)) }
{
    match arg {
        Arg::Unset => Ok(()),
        Arg::Switch | Arg::Span { .. } => Err(Refusal::Name),
    }
}

// The first unset entry that takes a value which is alone.
fn free_entry(template: &[u8], values: &[Arg; 8]) -> Option<usize>
    ensures value { result ≡ position is_free (zip (entries template.now) values.now) }
    ensures small { IfSome result (λ k. k < 8) }
{
    if template.is_empty() {
        return None;
    }
    template.split(|c| *c == b',').zip(values.iter()).position(|(entry, arg)| is_unset(*arg)
        && !(is_keyword(entry) || is_switch(entry)))
}

// Whether no required entry is unset.
fn is_whole(template: &[u8], values: &[Arg; 8]) -> bool
    ensures { result ≡ is_whole (entries template.now) values.now }
{
    if template.is_empty() {
        return true;
    }
    template
        .split(|c| *c == b',')
        .zip(values.iter())
        .all(|(entry, arg)| !(is_required(entry) && is_unset(*arg)))
}

fn is_unset(arg: Arg) -> bool
    ensures { result ≡ is_unset arg }
{
    matches!(arg, Arg::Unset)
}

// An item as a value.
fn span(item: Item) -> Arg
    requires low { item.from < 2 ^ 32 }
    requires high { item.to < 2 ^ 32 }
    ensures { result ≡ span item }
{
    Arg::Span {
        from: item.from as u32,
        to: item.to as u32,
    }
}
