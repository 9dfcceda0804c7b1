// Flags in words.
use std::alloc::AllocError;
use tool_texts::Said::{Bytes, Number};
use tool_texts::push_sentence;

/// Adds the flags of a task, of which one is set at least: their number, and which of its bits are set.
pub fn push_flags(text: &mut Vec<u8>, flags: u32) -> Result<(), AllocError> {
    push_sentence(text, &[Number(u64::from(flags))])?;
    if flags == u32::MAX {
        return push_sentence(text, &[Bytes(b" (all bits)")]);
    }
    let count = flags.count_ones();
    push_sentence(
        text,
        &[Bytes(if count == 1 { b" (bit " } else { b" (bits " })],
    )?;
    let mut told = 0;
    for bit in 0..32 {
        if !has_bit(flags, bit) {
            continue;
        }
        push_sentence(
            text,
            &[Bytes(before_bit(told, count)), Number(u64::from(bit))],
        )?;
        told = told.saturating_add(1);
    }
    push_sentence(text, &[Bytes(b")")])
}

// Whether a bit is set.
fn has_bit(flags: u32, bit: u32) -> bool {
    flags.checked_shr(bit).unwrap_or(0) % 2 == 1
}

// What comes before a bit after so many, of all that there are.
fn before_bit(told: u32, count: u32) -> &'static [u8] {
    if told == 0 {
        b""
    } else if told.saturating_add(1) >= count {
        b" and "
    } else {
        b", "
    }
}
