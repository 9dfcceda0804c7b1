// The names that a compiler leaves in a hunk.
use crate::hunk_code::HunkCode;
use std::alloc::AllocError;

/// The word before a function: dfdf in hex.
pub const FUNCTION_MARK: u32 = 57311;
/// The word before a section: fddf in hex.
pub const SECTION_MARK: u32 = 64991;

/// How many characters the name has that a compiler has left at this offset: a byte with the number 7 or 11, and as many characters, filled up
/// with blanks; `None` where none is there, or blanks alone.
pub fn name_length(code: &HunkCode, at: u32) -> Option<u32> {
    let count = u32::from(code.byte(at));
    let is_name = count == 7 || count == 11;
    if !is_name || at.saturating_add(count) >= code.end() {
        return None;
    }
    let mut length = None;
    for i in 1..count + 1 {
        let byte = code.byte(at.saturating_add(i));
        match byte {
            b' ' => {}
            b'!'..=b'~' => length = Some(i),
            _ => return None,
        }
    }
    length
}

/// Adds the name that a compiler has left at this offset.
pub fn push_name(text: &mut Vec<u8>, code: &HunkCode, at: u32) -> Result<(), AllocError> {
    let length = name_length(code, at).unwrap_or(0);
    for i in 1..length.saturating_add(1) {
        text.push(code.byte(at.saturating_add(i)))?;
    }
    Ok(())
}

/// The offset of the name of the function that begins at an offset.
pub fn function_name(code: &HunkCode, at: u32) -> Option<u32> {
    let before = code.place(at.checked_sub(1)?)?;
    Some(before.within?.saturating_add(4))
}
