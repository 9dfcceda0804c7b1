// The fields of a line, which are between blanks.
ghost use Rattle.std.specs.Prelude.{◌≡◌, ◌==◌, option_map};
ghost use Rattle.std.specs.Char.{is_ascii_graphic};
ghost use Rattle.std.specs.List.{list_all, position};
ghost use Rattle.saved_text.specs.SavedLines.Statements.{field_before_blank};
ghost use Rattle.session_text.specs.Statements.{is_field, split_at_blank};

/// Whether this is a field: one byte at least, and no blank.
pub fn is_field(field: &[u8]) -> bool
    ensures { result ≡ is_field field.now }
{
    !field.is_empty() && are_graphic(field)
}

fn are_graphic(field: &[u8]) -> bool
    ensures { result ≡ list_all is_ascii_graphic field.now }
{
    field.iter().all(|c| c.is_ascii_graphic())
}

/// A field before the first blank, and what is after that; `None` exactly where there are not both.
pub fn field_before_blank(text: &[u8]) -> Option<(&[u8], &[u8])>
    ensures { option_map (λ x. (x.0.now, x.1.now)) result ≡ field_before_blank text.now }
{
    let (field, rest) = split_at_blank(text)?;
    is_field(field).then_some((field, rest))
}

// What is before and after the first blank.
fn split_at_blank(text: &[u8]) -> Option<(&[u8], &[u8])>
    ensures { option_map (λ x. (x.0.now, x.1.now)) result ≡ split_at_blank text.now }
{
    match first_blank(text) {
        Some(end) => Some((&text[..end], &text[end + 1..])),
        None => None,
    }
}

fn first_blank(text: &[u8]) -> Option<usize>
    ensures { result ≡ position (λ c. c == 32) text.now }
{
    text.iter().position(|c| *c == b' ')
}
