// Packets that are sent, and those that come back, in words.
use crate::bytes::{push_shown_byte, push_signed};
use crate::kinds::Kind;
use crate::step_texts::{Moment, PacketWords};
use crate::tellers::Teller;
use kernel_model::numbers::{FAULT_PACKET, FIRST, KIND, REPORTER, RES1, RES2};
use run_names::{Party, holder, push_party, refusal_meaning, request_name};
use std::alloc::AllocError;
use tool_texts::Said::{Bytes, Number};
use tool_texts::push_sentence;
use word_store::{Store, signed, word_at};

/// A packet that comes into a queue.
#[derive(Clone, Copy)]
pub struct Accepted {
    /// Its address.
    pub packet: u32,
    /// Who has sent it.
    pub from: Party,
    /// Whose queue it is.
    pub to: Party,
}

/// The words of a packet in a store.
pub fn words_of(store: &Store, packet: u32) -> PacketWords {
    PacketWords {
        kind: number_at(store, packet, KIND),
        first_result: number_at(store, packet, RES1),
        second_result: number_at(store, packet, RES2),
        argument: number_at(store, packet, FIRST),
    }
}

fn number_at(store: &Store, packet: u32, i: u32) -> i64 {
    i64::from(signed(word_at(store, packet, i)))
}

impl Teller<'_> {
    /// Tells that a packet comes into a queue: it is sent, or comes back to who sent it.
    pub fn tell_accepted(
        &mut self,
        moment: Moment,
        accepted: Accepted,
        told: PacketWords,
    ) -> Result<(), AllocError> {
        let Accepted { packet, from, to } = accepted;
        if self.out.accept(to, packet, from)? {
            return self.tell_back(moment, accepted, told);
        }
        self.tell_sent(moment, accepted, told)
    }

    // A packet comes back.
    fn tell_back(
        &mut self,
        moment: Moment,
        accepted: Accepted,
        told: PacketWords,
    ) -> Result<(), AllocError> {
        let Accepted { packet, from, to } = accepted;
        let kind = if is_refusal(from, told) {
            Kind::Refused
        } else {
            Kind::Return
        };
        if !self.wants(kind, moment, &[to, from]) {
            return Ok(());
        }
        let mut words = Vec::new(self.alloc);
        push_packet(&mut words, packet, from)?;
        push_sentence(&mut words, &[Bytes(b" back to ")])?;
        push_party(&mut words, to)?;
        push_answer(&mut words, from, told)?;
        self.push_line(kind, moment, &[to, from], words.as_slice())
    }

    // A packet is sent.
    fn tell_sent(
        &mut self,
        moment: Moment,
        accepted: Accepted,
        told: PacketWords,
    ) -> Result<(), AllocError> {
        let Accepted { packet, from, to } = accepted;
        let holder = holder(to);
        if !self.wants(Kind::Send, moment, &[holder, from]) {
            return Ok(());
        }
        let mut words = Vec::new(self.alloc);
        push_sent(&mut words, accepted, told)?;
        self.push_line(Kind::Send, moment, &[holder, from], words.as_slice())
    }
}

// What is sent, and where.
fn push_sent(words: &mut Vec<u8>, accepted: Accepted, told: PacketWords) -> Result<(), AllocError> {
    let Accepted { packet, from, to } = accepted;
    if to == Party::ConsoleReads {
        push_sentence(
            words,
            &[Bytes(b"packet "), Number(u64::from(packet)), Bytes(b" of ")],
        )?;
        push_party(words, from)?;
        return push_sentence(words, &[Bytes(b" waits for a line at the console")]);
    }
    if to == Party::Task(REPORTER) && packet == FAULT_PACKET {
        push_sentence(words, &[Bytes(b"the fault of ")])?;
        push_party(words, from)?;
        return push_sentence(words, &[Bytes(b" to task 2, in packet 310")]);
    }
    push_packet(words, packet, from)?;
    push_sentence(words, &[Bytes(b" to ")])?;
    push_party(words, to)?;
    push_request(words, to, told)
}

// A packet and who has sent it.
fn push_packet(words: &mut Vec<u8>, packet: u32, from: Party) -> Result<(), AllocError> {
    push_sentence(
        words,
        &[
            Bytes(b"packet "),
            Number(u64::from(packet)),
            Bytes(b" from "),
        ],
    )?;
    push_party(words, from)
}

// What a packet asks for.
fn push_request(words: &mut Vec<u8>, to: Party, told: PacketWords) -> Result<(), AllocError> {
    match to {
        Party::Clock => push_sentence(
            words,
            &[
                Bytes(b", due at tick "),
                Number(unsigned(told.second_result)),
            ],
        ),
        Party::Keyboard => Ok(()),
        Party::Output => push_byte(words, b", the byte \"", told.argument),
        Party::Task(_) | Party::ConsoleReads => push_type(words, to, told),
    }
}

// The type of a packet, and what it means to a resident, or the argument.
fn push_type(words: &mut Vec<u8>, to: Party, told: PacketWords) -> Result<(), AllocError> {
    push_sentence(words, &[Bytes(b", type "), Number(unsigned(told.kind))])?;
    if let Some(name) = name_of(to, told.kind) {
        return push_sentence(words, &[Bytes(b", "), Bytes(name)]);
    }
    push_sentence(words, &[Bytes(b", word 5 is ")])?;
    push_signed(words, told.argument)
}

// What a packet says when it comes back from somebody.
fn push_answer(words: &mut Vec<u8>, from: Party, told: PacketWords) -> Result<(), AllocError> {
    match from {
        Party::Clock | Party::Output => Ok(()),
        Party::Keyboard => push_byte(words, b", with the key \"", told.first_result),
        Party::Task(_) | Party::ConsoleReads => push_results(words, from, told),
    }
}

// The results, or why the request is refused.
fn push_results(words: &mut Vec<u8>, from: Party, told: PacketWords) -> Result<(), AllocError> {
    if !is_refusal(from, told) {
        push_sentence(words, &[Bytes(b", results ")])?;
        push_signed(words, told.first_result)?;
        push_sentence(words, &[Bytes(b" and ")])?;
        return push_signed(words, told.second_result);
    }
    push_sentence(words, &[Bytes(b", ")])?;
    if let Some(name) = name_of(from, told.kind) {
        push_sentence(words, &[Bytes(name), Bytes(b" is ")])?;
    }
    push_sentence(words, &[Bytes(b"refused with code ")])?;
    push_signed(words, told.second_result)?;
    let meaning = i32::try_from(told.second_result).map_or(b"".as_slice(), refusal_meaning);
    push_sentence(words, &[Bytes(b": "), Bytes(meaning)])
}

// Whether a resident answers that it refuses a request.
fn is_refusal(from: Party, told: PacketWords) -> bool {
    match from {
        Party::Task(1..=4) => told.first_result == -1,
        _ => false,
    }
}

// What a request of this type asks somebody for, if it is one.
fn name_of(to: Party, kind: i64) -> Option<&'static [u8]> {
    request_name(to, i32::try_from(kind).ok()?)
}

// The low byte of a word, between quotes after these words.
fn push_byte(words: &mut Vec<u8>, before: &[u8], word: i64) -> Result<(), AllocError> {
    push_sentence(words, &[Bytes(before)])?;
    push_shown_byte(words, low_byte(word))?;
    push_sentence(words, &[Bytes(b"\"")])
}

/// The low byte of a word.
pub fn low_byte(word: i64) -> u8 {
    word.rem_euclid(256) as u8
}

// A word without its sign.
fn unsigned(word: i64) -> u64 {
    word.rem_euclid(1 << 32) as u64
}
