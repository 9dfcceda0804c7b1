// The fields of a line, which are between blanks.
ghost use Rattle.std.specs.Prelude.{◌≡◌, ◌==◌, ◌||◌, length, option_map};
ghost use Rattle.std.specs.Char.{is_ascii_graphic};
ghost use Rattle.std.specs.List.{list_all, position};
ghost use Rattle.session_text.specs.Statements.{are_fields, fields, is_field, is_text, number_field, split_at_blank};

use module_text::number;

/// What is before and after the first blank; `None` exactly where there is none.
pub fn split_at_blank(text: &[u8]) -> Option<(&[u8], &[u8])>
    ensures { option_map (λ x. (x.0.now, x.1.now)) result ≡ split_at_blank text.now }
{
    match first_blank(text) {
        Some(end) => Some((&text[..end], &text[end + 1..])),
        None => None,
    }
}

fn first_blank(text: &[u8]) -> Option<usize>
    ensures { result ≡ position (λ c. c == 32) text.now }
{
    text.iter().position(|c| *c == b' ')
}

/// The number before the first blank, and what is after that; `None` exactly where there are not both.
pub fn number_field(text: &[u8]) -> Option<(u64, &[u8])>
    ensures { option_map (λ x. (x.0, x.1.now)) result ≡ number_field text.now }
{
    let (digits, rest) = split_at_blank(text)?;
    let n = number(digits)?;
    Some((n, rest))
}

/// Whether these are bytes from the blank to `~`.
pub fn is_text(text: &[u8]) -> bool
    ensures { result ≡ is_text text.now }
{
    text.iter().all(|c| c.is_ascii_graphic() || *c == b' ')
}

/// Whether this is a field: one byte at least, and no blank.
pub fn is_field(field: &[u8]) -> bool
    ensures { result ≡ is_field field.now }
{
    !field.is_empty() && are_graphic(field)
}

fn are_graphic(field: &[u8]) -> bool
    ensures { result ≡ list_all is_ascii_graphic field.now }
{
    field.iter().all(|c| c.is_ascii_graphic())
}

/// Whether these are fields, with one blank between two, and at most so many.
pub fn are_fields(most: usize, text: &[u8]) -> bool
    ensures { result ≡ are_fields most (fields text.now) }
{
    all_fields(text) && field_count(text) <= most
}

fn all_fields(text: &[u8]) -> bool
    ensures { result ≡ list_all is_field (fields text.now) }
{
    text.split(|c| *c == b' ').all(is_field)
}

fn field_count(text: &[u8]) -> usize
    ensures { result ≡ length (fields text.now) }
{
    text.split(|c| *c == b' ').count()
}
