// Templates: entries between commas, each with its names and its qualifiers.
ghost use Rattle.std.specs.Prelude.{◌≡◌, ◌==◌, ◌&&◌, ◌||◌, ◌≤◌, ◌<◌, length, map, not, IfSome};
ghost use Rattle.std.specs.List.{count_by, list_all, before_first};
ghost use Rattle.std.specs.Char.{is_ascii_alphanumeric};
ghost use Rattle.std.specs.Str.{str_eq_ignore_ascii_case};
ghost use Rattle.command_lines.specs.ArgumentTemplates.Template.{entries, names, qualifiers, are_names, are_qualifiers, is_entry_name, has_name, is_once, is_entry, is_template, is_switch, is_keyword, is_required};
ghost use Rattle.command_lines.specs.ArgumentTemplates.Answer.{IsBelow, other_named, switch_named, word_role};

use crate::argument_templates::cuts::length_before;

/// The most entries of a template.
pub const MOST_ENTRIES: usize = 8;

/// What an item is by its template.
#[derive(Clone, Copy)]
pub enum Role {
    /// A name of the switch with this number.
    SwitchName(usize),
    /// A name of the entry with this number, which is no switch.
    EntryName(usize),
    NoName,
}

/// Whether the text is a template of at most `MOST_ENTRIES` entries.
pub fn is_template(template: &[u8]) -> bool
    ensures { result ≡ is_template (entries template.now) }
{
    entry_count(template) <= MOST_ENTRIES && are_entries(template)
}

/// What a word is by its template: a name of the entry with this number, or no name.
pub fn word_role(template: &[u8], word: &[u8]) -> Role
    ensures value { result ≡ word_role word.now (entries template.now) }
    ensures below { IsBelow (length (entries template.now)) result }
{
    if let Some(k) = switch_named(template, word) {
        return Role::SwitchName(k);
    }
    match other_named(template, word) {
        Some(k) => Role::EntryName(k),
        None => Role::NoName,
    }
}

/// Whether the entry needs a value.
pub fn is_required(entry: &[u8]) -> bool
    ensures { result ≡ is_required entry.now }
{
    qualifiers(entry).contains(&b'A')
}

/// Whether the entry takes a value after its name alone.
pub fn is_keyword(entry: &[u8]) -> bool
    ensures { result ≡ is_keyword entry.now }
{
    qualifiers(entry).contains(&b'K')
}

/// Whether the entry is a switch.
pub fn is_switch(entry: &[u8]) -> bool
    ensures { result ≡ is_switch entry.now }
{
    qualifiers(entry).contains(&b'S')
}

fn entry_count(template: &[u8]) -> usize
    ensures { result ≡ length (entries template.now) }
{
    if template.is_empty() {
        return 0;
    }
    template.split(|c| *c == b',').count()
}

fn are_entries(template: &[u8]) -> bool
    ensures { result ≡ list_all (is_entry (entries template.now)) (entries template.now) }
{
    if template.is_empty() {
        return true;
    }
    template
        .split(|c| *c == b',')
        .all(|entry| is_entry(template, entry))
}

// Whether this is an entry, none of whose names is anywhere else in the template.
fn is_entry(template: &[u8], entry: &[u8]) -> bool
    ensures { result ≡ is_entry (entries template.now) entry.now }
{
    are_qualifiers(qualifiers(entry)) && are_names(template, entry)
}

fn are_names(template: &[u8], entry: &[u8]) -> bool
    ensures { result ≡ are_names (entries template.now) entry.now }
{
    names(entry).split(|c| *c == b'=').all(|name| is_entry_name(name)
        && is_once(template, entry, name))
}

// The switch that has this name.
fn switch_named(template: &[u8], word: &[u8]) -> Option<usize>
    ensures value { result ≡ switch_named word.now (entries template.now) }
    ensures inside { IfSome result (λ k. k < length (entries template.now)) }
{
    if template.is_empty() {
        return None;
    }
    template
        .split(|c| *c == b',')
        .position(|entry| has_name(word, entry) && is_switch(entry))
}

// The entry that has this name and is no switch.
fn other_named(template: &[u8], word: &[u8]) -> Option<usize>
    ensures value { result ≡ other_named word.now (entries template.now) }
    ensures inside { IfSome result (λ k. k < length (entries template.now)) }
{
    if template.is_empty() {
        return None;
    }
    template
        .split(|c| *c == b',')
        .position(|entry| has_name(word, entry) && !is_switch(entry))
}

// The text of an entry's names.
fn names(entry: &[u8]) -> &[u8]
    ensures { result.now ≡ before_first (λ b. b == 47) entry.now }
{
    &entry[..length_before(b'/', entry)]
}

// The text of an entry's qualifiers.
fn qualifiers(entry: &[u8]) -> &[u8]
    ensures { result.now ≡ qualifiers entry.now }
{
    &entry[length_before(b'/', entry)..]
}

fn are_qualifiers(text: &[u8]) -> bool
    ensures { result ≡ are_qualifiers text.now }
{
    matches!(text, b"" | b"/A" | b"/K" | b"/A/K" | b"/K/A" | b"/S")
}

fn is_entry_name(name: &[u8]) -> bool
    ensures { result ≡ is_entry_name name.now }
{
    !name.is_empty() && are_letters_and_digits(name)
}

fn are_letters_and_digits(name: &[u8]) -> bool
    ensures { result ≡ list_all is_ascii_alphanumeric name.now }
{
    name.iter().all(|c| c.is_ascii_alphanumeric())
}

fn has_name(word: &[u8], entry: &[u8]) -> bool
    ensures { result ≡ has_name word.now entry.now }
{
    names(entry)
        .split(|c| *c == b'=')
        .any(|name| is_same(name, word))
}

// Whether a name is once among its entry's, and in no other entry.
fn is_once(template: &[u8], entry: &[u8], name: &[u8]) -> bool
    ensures { result ≡ is_once (entries template.now) entry.now name.now }
{
    times_in_entry(entry, name) == 1 && entries_with(template, name) == 1
}

// How often a name is in an entry.
fn times_in_entry(entry: &[u8], name: &[u8]) -> usize
    ensures { result ≡ count_by (λ other. str_eq_ignore_ascii_case other name.now) (names entry.now) }
{
    names(entry)
        .split(|c| *c == b'=')
        .filter(|other| is_same(other, name))
        .count()
}

// How many entries have a name.
fn entries_with(template: &[u8], name: &[u8]) -> usize
    ensures { result ≡ count_by (has_name name.now) (entries template.now) }
{
    if template.is_empty() {
        return 0;
    }
    template
        .split(|c| *c == b',')
        .filter(|entry| has_name(name, entry))
        .count()
}

// Whether two names are one, case ignored.
#[tactic(auto, using(crate::proofs::ArgumentTemplates::Chains::sameness))]
fn is_same(a: &[u8], b: &[u8]) -> bool
    ensures { result ≡ str_eq_ignore_ascii_case a.now b.now }
{
    a.eq_ignore_ascii_case(b)
}
