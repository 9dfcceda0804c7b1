// Labels and names.
ghost use Rattle.std.specs.Prelude.{◌≡◌, ◌||◌, ◌==◌};
ghost use Rattle.std.specs.Char.{is_ascii_alphanumeric};
ghost use Rattle.std.specs.List.{list_all};
ghost use Rattle.assembly.specs.AssemblyText.Names.{is_label, has_name_form, label_of};

use std::marker::Model;

/// A label, lent by the text and seen as its bytes.
#[derive(Drop)]
pub struct Label<'a> {
    /// The label's bytes.
    name: &'a [u8],
}

impl<'a> Model for Label<'a> {
    ghost use Rattle.std.specs.Prelude.{ℕ, List};

    ghost Value = { List ℕ };

    ghost view = { λ l. l.name.now };
}

impl<'a> Label<'a> {
    /// The label that this part of a line is; `None` exactly where it is none.
    pub fn read(part: &'a [u8]) -> Option<Label<'a>>
        ensures { result ≡ label_of part.now }
    {
        if is_label(part) {
            Some(Label { name: part })
        } else {
            None
        }
    }

    /// Its bytes, lent.
    pub fn name(&self) -> &'a [u8]
        ensures { result.now ≡ self.now }
    {
        self.name
    }
}

// Whether this part of a line is a label: a letter, and up to 15 letters and digits.
fn is_label(part: &[u8]) -> bool
    ensures { result ≡ is_label part.now }
{
    match part.split_first() {
        None => false,
        Some((first, others)) => {
            first.is_ascii_alphabetic() && others.len() <= 15 && goes_on_label(others)
        }
    }
}

// Whether these may be after the first letter of a label.
fn goes_on_label(others: &[u8]) -> bool
    ensures { result ≡ list_all is_ascii_alphanumeric others.now }
{
    others.iter().all(|c| c.is_ascii_alphanumeric())
}

/// Whether this part of a line may be a name: a letter, and any number of letters, digits and `$`.
pub fn has_name_form(part: &[u8]) -> bool
    ensures { result ≡ has_name_form part.now }
{
    match part.split_first() {
        None => false,
        Some((first, others)) => first.is_ascii_alphabetic() && goes_on_name(others),
    }
}

// Whether these may be after the first letter of a name.
fn goes_on_name(others: &[u8]) -> bool
    ensures { result ≡ list_all (λ c. is_ascii_alphanumeric c || (c == 36)) others.now }
{
    others
        .iter()
        .all(|c| c.is_ascii_alphanumeric() || *c == b'$')
}
