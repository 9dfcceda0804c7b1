// The names that a table gives to globals.
use module_text::number;
use std::alloc::{AllocError, Global};
use std::collections::BTreeMap;

/// Names of globals by their numbers.
pub type Names<'a> = BTreeMap<u32, &'a [u8]>;

/// The names that lines `NUMBER NAME` give; other lines give none.
pub fn names_in(alloc: Global, text: &[u8]) -> Result<Names<'_>, AllocError> {
    let mut names = BTreeMap::new(alloc);
    for line in text.split(|byte| *byte == b'\n') {
        if let Some((n, name)) = name_in(line) {
            names.insert(n, name)?;
        }
    }
    Ok(names)
}

// The number and the name of a line.
fn name_in(line: &[u8]) -> Option<(u32, &[u8])> {
    let end = line.iter().position(|byte| *byte == b' ')?;
    let (digits, rest) = line.split_at(end);
    let n = u32::try_from(number(digits)?).ok()?;
    Some((n, rest.strip_prefix(b" ")?))
}
