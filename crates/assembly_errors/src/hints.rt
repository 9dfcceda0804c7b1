// What may be meant by a name or a label.
ghost use Rattle.std.specs.Prelude.{◌≡◌, ◌<◌, ◌++◌, length, OnOk};
ghost use Rattle.std.specs.Char.{is_ascii_digit};
ghost use Rattle.std.specs.List.{find, list_all, position};
ghost use Rattle.assembly_errors.specs.Hints.{are_digits, directive_like, instruction_at, instruction_like, is_defined_like, label_hint, label_hint_text, name_hint, name_hint_text, name_like, other_words, spaced_at, spaced_hint, takes_number};

use crate::drafts::Definition;
use crate::likeness::{Likeness, is_like};
use crate::takes::taken_after;
use instruction_set::row;
use std::alloc::AllocError;
use tool_texts::Said::{Bytes, Number};
use tool_texts::{Lent, push_sentence};

/// What may be meant by a name.
#[derive(Drop)]
pub enum Hint<'a> {
    /// Nothing that is known.
    Nothing,
    /// This name, in capitals.
    Capitals(Lent<'a>),
    /// A word of other machines, of which this is said.
    Other(Lent<'a>),
    /// A name and a number, with a space.
    Spaced(Lent<'a>, Lent<'a>),
    /// This name, which is like it.
    Like(Lent<'a>),
}

/// What may be meant by a name that nothing has.
#[tactic(auto, unfolding(crate::specs::Hints::name_hint))]
pub fn name_hint(name: &[u8]) -> Hint<'_>
    ensures { result ≡ name_hint name.now }
{
    if let Some(other) = name_like(Likeness::Same, name) {
        return Hint::Capitals(other);
    }
    if let Some(words) = other_words(name) {
        return Hint::Other(words);
    }
    if let Some(hint) = spaced_hint(name) {
        return hint;
    }
    if let Some(other) = name_like(Likeness::Swapped, name) {
        return Hint::Like(other);
    }
    match name_like(Likeness::OneOff, name) {
        Some(other) => Hint::Like(other),
        None => Hint::Nothing,
    }
}

// A name and a number between which a space is missing.
fn spaced_hint(name: &[u8]) -> Option<Hint<'_>>
    ensures { result ≡ spaced_hint name.now }
{
    match first_digit(name) {
        Some(place) => spaced_at(name, place),
        None => None,
    }
}

fn spaced_at(name: &[u8], place: usize) -> Option<Hint<'_>>
    requires { place < length name.now }
    ensures { result ≡ spaced_at name.now place }
{
    let (front, digits) = name.split_at(place);
    if are_digits(digits) && takes_number(front) {
        return Some(Hint::Spaced(Lent::new(front), Lent::new(digits)));
    }
    None
}

fn first_digit(name: &[u8]) -> Option<usize>
    ensures { result ≡ position is_ascii_digit name.now }
{
    name.iter().position(|c| c.is_ascii_digit())
}

fn are_digits(digits: &[u8]) -> bool
    ensures { result ≡ are_digits digits.now }
{
    digits.iter().all(|c| c.is_ascii_digit())
}

fn takes_number(name: &[u8]) -> bool
    ensures { result ≡ takes_number name.now }
{
    match taken_after(name) {
        Some(takes) => takes.is_number(),
        None => false,
    }
}

// What is said of a word that other machines or texts have.
fn other_words(name: &[u8]) -> Option<Lent<'static>>
    ensures { result ≡ other_words name.now }
{
    if is_like(Likeness::Same, name, b"JMP") || is_like(Likeness::Same, name, b"JUMP") {
        return Some(Lent::new(b"J jumps to a label"));
    }
    if is_like(Likeness::Same, name, b"CALL") {
        return Some(Lent::new(b"LF loads the address of a function, and K calls it"));
    }
    if is_like(Likeness::Same, name, b"LOAD") {
        return Some(Lent::new(b"L loads a number, and LP a word of the stack frame"));
    }
    if is_like(Likeness::Same, name, b"STORE") {
        return Some(Lent::new(b"SP stores in the stack frame, and SG in a global"));
    }
    if is_like(Likeness::Same, name, b"RET") {
        return Some(Lent::new(b"RTN returns from a function"));
    }
    if is_like(Likeness::Same, name, b"ST4") {
        return Some(Lent::new(b"there are ST, ST1, ST2 and ST3, and S4 takes 4 from A"));
    }
    if is_like(Likeness::Same, name, b"SET") || is_like(Likeness::Same, name, b"DS") {
        return Some(Lent::new(b"a .s text may have it"));
    }
    None
}

// The first name of an instruction or a directive that is like this one.
fn name_like(likeness: Likeness, name: &[u8]) -> Option<Lent<'static>>
    ensures { result ≡ name_like likeness name.now }
{
    match instruction_like(likeness, name) {
        Some(other) => Some(other),
        None => directive_like(likeness, name),
    }
}

// The first name of an instruction, by its byte, that is like this one.
#[tactic(auto, using(crate::proofs::LikeNames::like_from_here, crate::proofs::LikeNames::like_from_end))]
fn instruction_like(likeness: Likeness, name: &[u8]) -> Option<Lent<'static>>
    ensures { result ≡ instruction_like likeness name.now }
{
    for byte in 0..256u32 {
        if let Some(other) = instruction_at(likeness, name, byte as u8) {
            return Some(other);
        }
    }
    None
}

// The name of the instruction with this byte, where it is like this one.
fn instruction_at(likeness: Likeness, name: &[u8], byte: u8) -> Option<Lent<'static>>
    ensures { result ≡ instruction_at likeness name.now byte }
{
    let row = row(byte)?;
    let other = row.name.as_bytes();
    if is_like(likeness, name, other) {
        return Some(Lent::new(other));
    }
    None
}

// The first name of a directive that is like this one.
fn directive_like(likeness: Likeness, name: &[u8]) -> Option<Lent<'static>>
    ensures { result ≡ directive_like likeness name.now }
{
    if is_like(likeness, name, b"DB") {
        return Some(Lent::new(b"DB"));
    }
    if is_like(likeness, name, b"DH") {
        return Some(Lent::new(b"DH"));
    }
    if is_like(likeness, name, b"DW") {
        return Some(Lent::new(b"DW"));
    }
    if is_like(likeness, name, b"RES") {
        return Some(Lent::new(b"RES"));
    }
    if is_like(likeness, name, b"DA") {
        return Some(Lent::new(b"DA"));
    }
    if is_like(likeness, name, b"ALIGN") {
        return Some(Lent::new(b"ALIGN"));
    }
    if is_like(likeness, name, b"GLOBAL") {
        return Some(Lent::new(b"GLOBAL"));
    }
    None
}

/// Adds what may be meant by a name.
pub fn push_name_hint(words: &mut Vec<u8>, hint: &Hint) -> Result<(), AllocError>
    ensures { OnOk result (words.new.items ≡ words.old.items ++ name_hint_text hint.now) }
{
    match hint {
        Hint::Nothing => push_sentence(words, &[]),
        Hint::Capitals(name) => push_sentence(
            words,
            &[Bytes(b"; names have capitals: "), Bytes(name.bytes())],
        ),
        Hint::Other(said) => push_sentence(words, &[Bytes(b"; "), Bytes(said.bytes())]),
        Hint::Spaced(front, digits) => push_sentence(
            words,
            &[
                Bytes(b"; is "),
                Bytes(front.bytes()),
                Bytes(b" "),
                Bytes(digits.bytes()),
                Bytes(b" meant, with a space?"),
            ],
        ),
        Hint::Like(name) => push_sentence(
            words,
            &[Bytes(b"; is "), Bytes(name.bytes()), Bytes(b" meant?")],
        ),
    }
}

/// What may be meant by a label that is defined nowhere.
#[derive(Drop)]
pub enum LabelHint<'a> {
    /// Nothing that is known.
    Nothing,
    /// This label, which has other capitals.
    Capitals(Definition<'a>),
    /// This label, which is like it.
    Like(Definition<'a>),
}

/// What may be meant by a label that is defined nowhere.
#[tactic(auto, unfolding(crate::specs::Hints::label_hint))]
pub fn label_hint<'a>(definitions: &[Definition<'a>], label: &[u8]) -> LabelHint<'a>
    ensures { result ≡ label_hint definitions.now label.now }
{
    if let Some(other) = definition_like(definitions, Likeness::Same, label) {
        return LabelHint::Capitals(other);
    }
    if let Some(other) = definition_like(definitions, Likeness::Swapped, label) {
        return LabelHint::Like(other);
    }
    match definition_like(definitions, Likeness::OneOff, label) {
        Some(other) => LabelHint::Like(other),
        None => LabelHint::Nothing,
    }
}

/// The first label that is defined and is like this one.
pub fn definition_like<'a>(
    definitions: &[Definition<'a>],
    likeness: Likeness,
    label: &[u8],
) -> Option<Definition<'a>>
    ensures { result ≡ find (is_defined_like likeness label.now) definitions.now }
{
    for definition in definitions {
        if is_like(likeness, label, definition.name.bytes()) {
            return Some(Definition {
                name: Lent::new(definition.name.bytes()),
                number: definition.number,
            });
        }
    }
    None
}

/// Adds what may be meant by a label.
pub fn push_label_hint(words: &mut Vec<u8>, hint: &LabelHint) -> Result<(), AllocError>
    ensures { OnOk result (words.new.items ≡ words.old.items ++ label_hint_text hint.now) }
{
    match hint {
        LabelHint::Nothing => push_sentence(words, &[]),
        LabelHint::Capitals(definition) => push_sentence(
            words,
            &[
                Bytes(b"; there is a label "),
                Bytes(definition.name.bytes()),
                Bytes(b" in line "),
                Number(u64::from(definition.number)),
                Bytes(b"; capitals differ"),
            ],
        ),
        LabelHint::Like(definition) => push_sentence(
            words,
            &[
                Bytes(b"; is "),
                Bytes(definition.name.bytes()),
                Bytes(b" of line "),
                Number(u64::from(definition.number)),
                Bytes(b" meant?"),
            ],
        ),
    }
}
