// The labels that a line begins with.
ghost use Rattle.std.specs.Prelude.{◌≡◌, ◌≤◌, length, not};
ghost use Rattle.std.specs.Char.{is_ascii_alphanumeric};
ghost use Rattle.std.specs.List.{list_all, position, position_or_len};
ghost use Rattle.std.specs.Option.{option_copied};
ghost use Rattle.friendly_assembly.specs.LineLabels.{before_colon, is_label, is_name, label_count, name_of, labels_in, said_in};

use crate::parts::Part;

/// The labels that the parts of a line begin with, and what it says after them.
pub fn split_labels<'p, 'a>(parts: &'p [Part<'a>]) -> (&'p [Part<'a>], &'p [Part<'a>])
    ensures labels { result.0.now ≡ labels_in parts.now }
    ensures said { result.1.now ≡ said_in parts.now }
{
    parts.split_at(label_count(parts))
}

// How many labels the parts begin with.
#[tactic(auto, using(crate::proofs::PlaceLemmas::first_or_end))]
fn label_count(parts: &[Part]) -> usize
    ensures value { result ≡ label_count parts.now }
    ensures within { result ≤ length parts.now }
{
    first_other(parts).unwrap_or(parts.len())
}

// Where the first part is that is no label.
fn first_other(parts: &[Part]) -> Option<usize>
    ensures { result ≡ position (λ p. not (is_label p.text)) parts.now }
{
    parts.iter().position(|part| !is_label(part.text.bytes()))
}

// Whether a part is a label: a name and a colon.
fn is_label(part: &[u8]) -> bool
    ensures { result ≡ is_label part.now }
{
    match before_colon(part) {
        Some(name) => is_name(name),
        None => false,
    }
}

// What comes before the colon of a part that ends with one.
fn before_colon(part: &[u8]) -> Option<&[u8]>
    ensures { option_copied result ≡ before_colon part.now }
{
    part.strip_suffix(b":")
}

/// Whether this is a name: a letter, and any number of letters and digits.
pub fn is_name(text: &[u8]) -> bool
    ensures { result ≡ is_name text.now }
{
    match text.split_first() {
        None => false,
        Some((first, others)) => first.is_ascii_alphabetic() && goes_on_name(others),
    }
}

// Whether these may come after the first letter of a name.
fn goes_on_name(others: &[u8]) -> bool
    ensures { result ≡ list_all is_ascii_alphanumeric others.now }
{
    others.iter().all(|c| c.is_ascii_alphanumeric())
}

/// The name of a label.
pub fn name_of(label: &[u8]) -> &[u8]
    ensures { result.now ≡ name_of label.now }
{
    label.split_at(label.len().saturating_sub(1)).0
}
