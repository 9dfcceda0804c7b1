// How PC came to where a fault was met.
use crate::absent::absent_words;
use crate::scenes::Scene;
use crate::ways::{Trail, Way};
use std::alloc::AllocError;
use tool_texts::Said::{Bytes, Number};
use tool_texts::push_sentence;

/// The code of the fault of a byte that is no instruction.
const NO_INSTRUCTION: u32 = 1;

/// Where PC came.
#[derive(Clone, Copy)]
enum Arrival<'w> {
    /// It went out of the code by an instruction that led there.
    Away(&'w Way),
    /// It ran on past the end of the code.
    PastEnd(&'w Way),
    /// An instruction led to a byte that is none.
    Misled(&'w Way),
    /// It ran on to a byte that is none, after it came by the second way, if it did, to where it ran on.
    RanOn(&'w Way, Option<&'w Way>),
}

impl Scene<'_> {
    /// Adds a line, which begins with these blanks, on how PC came to a byte at which a task met a fault with this code; nothing where that
    /// says nothing new.
    pub fn push_way(
        &self,
        text: &mut Vec<u8>,
        blanks: &[u8],
        id: u32,
        byte: u32,
        code: u32,
    ) -> Result<(), AllocError> {
        let Some(trail) = self.trails.trail(id) else {
            return Ok(());
        };
        let Some(arrival) = self.arrival(trail, byte, code) else {
            return Ok(());
        };
        push_sentence(text, &[Bytes(blanks)])?;
        self.push_arrival(text, arrival, byte)?;
        push_sentence(text, &[Bytes(b"\n")])
    }

    // Where PC came, if that says something.
    fn arrival<'w>(&self, trail: &'w Trail, byte: u32, code: u32) -> Option<Arrival<'w>> {
        if self.end_of_code(byte).is_none() {
            let left = trail.left.as_ref()?;
            return Some(if left.is_led {
                Arrival::Away(left)
            } else {
                Arrival::PastEnd(left)
            });
        }
        let before = trail.before.as_ref()?;
        if code != NO_INSTRUCTION || self.is_absent(byte) {
            return None;
        }
        Some(if before.is_led {
            Arrival::Misled(before)
        } else if self.is_past_code(byte) {
            Arrival::PastEnd(before)
        } else {
            Arrival::RanOn(before, trail.led.as_ref())
        })
    }

    // Whether a byte is an instruction of Cintcode that is missing here.
    fn is_absent(&self, byte: u32) -> bool {
        !absent_words(u64::from(self.byte_at(u64::from(byte)))).is_empty()
    }

    // Where PC came.
    fn push_arrival(
        &self,
        text: &mut Vec<u8>,
        arrival: Arrival,
        byte: u32,
    ) -> Result<(), AllocError> {
        match arrival {
            Arrival::Away(way) => {
                self.push_became(text, way)?;
                if self.is_over(way.from) {
                    push_sentence(text, &[Bytes(b", where the program was written over")])?;
                }
                push_sentence(text, &[Bytes(b", and no program is there")])
            }
            Arrival::PastEnd(way) => self.push_past_end(text, way),
            Arrival::Misled(way) => {
                self.push_became(text, way)?;
                let why: &[u8] = if self.is_over(byte) {
                    b", and there the program was written over"
                } else {
                    b", and no instruction is there"
                };
                push_sentence(text, &[Bytes(why)])
            }
            Arrival::RanOn(way, led) => self.push_ran_on(text, byte, way, led),
        }
    }

    // That an instruction has led PC away.
    fn push_became(&self, text: &mut Vec<u8>, way: &Way) -> Result<(), AllocError> {
        push_sentence(
            text,
            &[
                Bytes(b"PC became "),
                Number(u64::from(way.goal)),
                Bytes(b" in step "),
                Number(way.step),
                Bytes(b" by "),
                Bytes(way.by.as_slice()),
                Bytes(b" at "),
            ],
        )?;
        self.push_place(text, way.from)
    }

    // That PC ran past the end of the code.
    fn push_past_end(&self, text: &mut Vec<u8>, way: &Way) -> Result<(), AllocError> {
        push_sentence(
            text,
            &[
                Bytes(b"PC ran past the end of the code in step "),
                Number(way.step),
                Bytes(b", after "),
                Bytes(way.by.as_slice()),
                Bytes(b" at "),
            ],
        )?;
        self.push_place(text, way.from)?;
        push_sentence(text, &[Bytes(b": a RTN or a jump is missing")])
    }

    // That PC ran on to a byte that is no instruction.
    fn push_ran_on(
        &self,
        text: &mut Vec<u8>,
        byte: u32,
        way: &Way,
        led: Option<&Way>,
    ) -> Result<(), AllocError> {
        push_sentence(
            text,
            &[
                Bytes(b"PC came to "),
                Number(u64::from(byte)),
                Bytes(b" from "),
                Bytes(way.by.as_slice()),
                Bytes(b" at "),
            ],
        )?;
        self.push_place(text, way.from)?;
        push_sentence(
            text,
            &[
                Bytes(b", in step "),
                Number(way.step),
                Bytes(b": a RTN or a jump is missing there"),
            ],
        )?;
        let Some(led) = led else {
            return Ok(());
        };
        push_sentence(text, &[Bytes(b", or these are data, since ")])?;
        self.push_became(text, led)
    }
}
