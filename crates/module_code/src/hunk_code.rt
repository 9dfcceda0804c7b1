// The bytes of a hunk before its global table, with what they are.
ghost use Rattle.module_text.specs.Canonical.{IsPrintableHunk};

use crate::global_tables::{GlobalTable, read_table};
use crate::units::{FIRST, Place, Unit};
use assembly::module_listing::HunkBytes;
use instruction_set::Code;
use instruction_set::instruction_table::{Form, Row, row};
use instruction_set::operand_forms::{Instr, decode, even_below, half_offset};
use module_text::Hunk;
use std::alloc::{AllocError, Global};

/// The bytes of a hunk before its global table, with what they are.
#[derive(Drop)]
pub struct HunkCode<'a> {
    /// The hunk.
    pub hunk: &'a Hunk,
    /// Its bytes.
    bytes: HunkBytes<'a>,
    /// Its global table.
    pub table: GlobalTable,
    /// What is known of each byte, and of the end.
    pub places: Vec<Place>,
}

/// An instruction and its row.
#[derive(Clone, Copy)]
pub struct Known {
    /// The instruction.
    pub instr: Instr,
    /// Its row in the table of instructions.
    pub row: Row,
}

impl<'a> HunkCode<'a> {
    /// A hunk of whose bytes nothing is known.
    pub fn new(alloc: Global, hunk: &'a Hunk) -> Result<HunkCode<'a>, AllocError>
        requires { IsPrintableHunk hunk.now }
    {
        let table = read_table(alloc, hunk.words.as_slice())?;
        let mut places = Vec::new(alloc);
        for word in 0..table.begin {
            for byte in 0..4 {
                places.push(Place::new())?;
            }
        }
        places.push(Place::new())?;
        Ok(HunkCode {
            hunk,
            bytes: HunkBytes::new(hunk),
            table,
            places,
        })
    }

    /// The offset of the global table.
    pub fn end(&self) -> u32 {
        u32::try_from(self.places.len().saturating_sub(1)).unwrap_or(u32::MAX)
    }

    /// What is known of a byte; `None` where it is after the beginning of the table.
    pub fn place(&self, at: u32) -> Option<Place> {
        self.places.as_slice().get(at as usize).copied()
    }

    /// A byte of the hunk; 0 after its end.
    pub fn byte(&self, at: u32) -> u8 {
        self.bytes.byte(at).unwrap_or(0)
    }

    /// The halfword at an offset.
    pub fn half(&self, at: u32) -> u16 {
        u16::from_le_bytes([self.byte(at), self.byte(at.saturating_add(1))])
    }

    /// The word at an offset.
    pub fn word(&self, at: u32) -> u32 {
        let low = u32::from(self.half(at));
        let high = u32::from(self.half(at.saturating_add(2)));
        low | high << 16
    }

    /// Where the halfword at an offset leads to, modulo 2 ^ 32.
    pub fn lead(&self, at: u32) -> u32 {
        at.wrapping_add(half_offset(self.half(at)))
    }

    /// The instruction at an offset, if its bytes are one.
    pub fn instruction(&self, at: u32) -> Option<Known> {
        let instr = decode(&self.bytes, at).ok()?;
        let row = row(instr.byte)?;
        Some(Known { instr, row })
    }

    /// The instruction of the code at an offset, if one begins there.
    pub fn code_at(&self, at: u32) -> Option<Known> {
        if !self.is_code(at) {
            return None;
        }
        self.instruction(at)
    }

    /// The offset of the halfword by which an instruction of an indirect form leads on; `None` for other forms.
    pub fn lead_of(&self, at: u32, row: Row) -> Option<u32> {
        match row.form {
            Form::Indirect => {
                let next = at.saturating_add(1);
                let far = 2 * u32::from(self.byte(next));
                Some(even_below(next.saturating_add(far)))
            }
            _ => None,
        }
    }

    /// Whether so many bytes are before the table, are data, and nothing has to begin after the first of them.
    pub fn is_free(&self, at: u32, count: u32) -> bool {
        let end = at.saturating_add(count);
        if at < FIRST || end > self.end() {
            return false;
        }
        for i in at..end {
            let Some(place) = self.place(i) else {
                return false;
            };
            if place.within.is_some() || i > at && place.is_border {
                return false;
            }
        }
        true
    }

    /// From now on so many bytes are this.
    pub fn put(&mut self, at: u32, unit: Unit, count: u32) {
        for i in at..at.saturating_add(count) {
            if let Some(place) = self.places.get_mut(i as usize) {
                place.within = Some(at);
            }
        }
        if let Some(place) = self.places.get_mut(at as usize) {
            place.unit = unit;
            place.length = count;
        }
    }

    /// A halfword leads on, if it can; whether it does.
    pub fn put_lead(&mut self, at: u32) -> bool {
        if self.is_lead(at) {
            return true;
        }
        if !self.is_free(at, 2) {
            return false;
        }
        self.put(at, Unit::Lead, 2);
        true
    }

    /// What begins at an offset is data again.
    pub fn forget(&mut self, at: u32) {
        let Some(known) = self.place(at) else {
            return;
        };
        for i in at..at.saturating_add(known.length) {
            if let Some(place) = self.places.get_mut(i as usize) {
                place.within = None;
            }
        }
        if let Some(place) = self.places.get_mut(at as usize) {
            place.unit = Unit::Nothing;
        }
    }

    /// What begins at an offset is a number from now on.
    pub fn make_number(&mut self, at: u32) {
        if let Some(place) = self.places.get_mut(at as usize) {
            place.unit = Unit::Number;
        }
    }

    /// Something has to begin at an offset.
    pub fn put_border(&mut self, at: u32) {
        if let Some(place) = self.places.get_mut(at as usize) {
            place.is_border = true;
        }
    }

    /// A function begins at an offset, after its name.
    pub fn put_function(&mut self, at: u32) {
        if let Some(place) = self.places.get_mut(at as usize) {
            place.is_border = true;
            place.is_function = true;
        }
    }

    /// Whether a function with a name begins at an offset.
    pub fn is_function(&self, at: u32) -> bool {
        matches!(
            self.place(at),
            Some(Place {
                is_function: true,
                ..
            })
        )
    }

    /// Whether a halfword that leads on is at an offset.
    pub fn is_lead(&self, at: u32) -> bool {
        matches!(
            self.place(at),
            Some(Place {
                unit: Unit::Lead,
                ..
            })
        )
    }

    /// Whether what is at an offset is an instruction of the code.
    pub fn is_code(&self, at: u32) -> bool {
        matches!(
            self.place(at),
            Some(Place {
                unit: Unit::Code,
                ..
            })
        )
    }
}
