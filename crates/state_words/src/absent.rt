// Instructions of Cintcode that are none here.
use module_text::{after_word, number};

/// What the instruction of Cintcode with this byte is, and what does the same here, in words; no words where it is none of those that are
/// missing here.
pub fn absent_words(byte: u64) -> &'static [u8] {
    match byte {
        1 => b"FLTOP of Cintcode, which computes with a point; nothing does that here",
        223 => b"MW of Cintcode, which is for words of 64 bits; nothing does that here",
        239 => b"MDIV of Cintcode, which is not here; muldiv of the library does the same",
        240 => b"CHGCO of Cintcode, which is not here; changeco of the library does the same",
        254 => b"SELLD of Cintcode, which is not here; shifts and AND do the same",
        255 => b"SELST of Cintcode, which is not here; shifts, AND and OR do the same",
        _ => b"",
    }
}

/// The same of an instruction as the debugger lists it: of one that is missing here it lists the byte.
pub fn absent_instruction(listed: &[u8]) -> &'static [u8] {
    match after_word(b"DB ", listed).and_then(number) {
        Some(byte) => absent_words(byte),
        None => b"",
    }
}
