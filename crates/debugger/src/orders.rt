// What a line asks for.
ghost use Rattle.std.specs.Prelude.{◌≡◌, ◌<◌, ◌^◌};
ghost use Rattle.module_text.specs.TextReader.Numbers.{number_of};
ghost use Rattle.debugger.specs.Orders.{at_most, back_order, break_order, device_queue_order, given, instructions_order, order_alone, order_of, queue_order, span_fields, step_order, task_queue_order, unbreak_order, word_field, words_order};

use module_text::{after_word, number};
use session_text::number_field;

/// The most words, or lines of a listing, that a line may ask for.
const MOST_SHOWN: u64 = 4096;

/// The greatest number of a device, without its sign.
const MOST_DEVICE: u64 = 2_147_483_648;

/// What a line asks for.
#[derive(Clone, Copy)]
pub enum Order {
    /// A breakpoint at this byte address.
    Break(u32),
    /// No breakpoint there.
    Unbreak(u32),
    /// At most so many steps.
    Step(u32),
    /// At most so many steps undone.
    Back(u32),
    /// Steps up to a breakpoint.
    Continue,
    /// The registers.
    Registers,
    /// So many words, from this address on.
    Words { from: u32, count: u32 },
    /// The tasks.
    Tasks,
    /// The packets of a task's work queue.
    TaskQueue(u32),
    /// The packets of a device's queue, by the device's number without its sign.
    DeviceQueue(u32),
    /// The blocks.
    Blocks,
    /// The lines of a listing, at most so many, from this byte address on.
    Instructions { from: u32, count: u32 },
}

/// A line that asks for nothing.
#[derive(Clone, Copy)]
pub struct BadLine {
    /// The number of the line.
    pub line: u32,
    /// 1 where it has no form that there is, and 2 where a number is out of its range.
    pub code: u32,
}

/// What line n asks for: `BP a`, `UNBP a`, `STEP n`, `BACK n`, `CONT`, `REGS`, `MEM a n`, `TASKS`, `QUEUE id`, `QUEUE -device`, `BLOCKS` or
/// `DIS a n`. A number is 1 to 10 decimal digits below 2 ^ 32; a count is at most 4,096, and a device at most 2 ^ 31.
#[tactic(auto, unfolding(crate::specs::Orders::order_of))]
pub fn order_of(n: u32, line: &[u8]) -> Result<Order, BadLine>
    ensures { result ≡ order_of n line.now }
{
    if let Some(text) = after_word(b"BP ", line) {
        return break_order(n, text);
    }
    if let Some(text) = after_word(b"UNBP ", line) {
        return unbreak_order(n, text);
    }
    if let Some(text) = after_word(b"STEP ", line) {
        return step_order(n, text);
    }
    if let Some(text) = after_word(b"BACK ", line) {
        return back_order(n, text);
    }
    if let Some(text) = after_word(b"MEM ", line) {
        return words_order(n, text);
    }
    if let Some(text) = after_word(b"QUEUE ", line) {
        return queue_order(n, text);
    }
    if let Some(text) = after_word(b"DIS ", line) {
        return instructions_order(n, text);
    }
    order_alone(n, line)
}

fn break_order(n: u32, text: &[u8]) -> Result<Order, BadLine>
    ensures { result ≡ break_order n text.now }
{
    Ok(Order::Break(word_field(n, text)?))
}

fn unbreak_order(n: u32, text: &[u8]) -> Result<Order, BadLine>
    ensures { result ≡ unbreak_order n text.now }
{
    Ok(Order::Unbreak(word_field(n, text)?))
}

fn step_order(n: u32, text: &[u8]) -> Result<Order, BadLine>
    ensures { result ≡ step_order n text.now }
{
    Ok(Order::Step(word_field(n, text)?))
}

fn back_order(n: u32, text: &[u8]) -> Result<Order, BadLine>
    ensures { result ≡ back_order n text.now }
{
    Ok(Order::Back(word_field(n, text)?))
}

fn words_order(n: u32, text: &[u8]) -> Result<Order, BadLine>
    ensures { result ≡ words_order n text.now }
{
    let (from, count) = span_fields(n, text)?;
    Ok(Order::Words { from, count })
}

fn instructions_order(n: u32, text: &[u8]) -> Result<Order, BadLine>
    ensures { result ≡ instructions_order n text.now }
{
    let (from, count) = span_fields(n, text)?;
    Ok(Order::Instructions { from, count })
}

fn queue_order(n: u32, text: &[u8]) -> Result<Order, BadLine>
    ensures { result ≡ queue_order n text.now }
{
    match after_word(b"-", text) {
        Some(digits) => device_queue_order(n, digits),
        None => task_queue_order(n, text),
    }
}

fn task_queue_order(n: u32, text: &[u8]) -> Result<Order, BadLine>
    ensures { result ≡ task_queue_order n text.now }
{
    Ok(Order::TaskQueue(word_field(n, text)?))
}

fn device_queue_order(n: u32, text: &[u8]) -> Result<Order, BadLine>
    ensures { result ≡ device_queue_order n text.now }
{
    let value = given(n, text)?;
    Ok(Order::DeviceQueue(at_most(MOST_DEVICE, n, value)?))
}

// A line that is one word.
fn order_alone(n: u32, line: &[u8]) -> Result<Order, BadLine>
    ensures { result ≡ order_alone n line.now }
{
    if line == b"CONT".as_slice() {
        return Ok(Order::Continue);
    }
    if line == b"REGS".as_slice() {
        return Ok(Order::Registers);
    }
    if line == b"TASKS".as_slice() {
        return Ok(Order::Tasks);
    }
    if line == b"BLOCKS".as_slice() {
        return Ok(Order::Blocks);
    }
    Err(BadLine { line: n, code: 1 })
}

// An address, and how many are asked for from there on.
fn span_fields(n: u32, text: &[u8]) -> Result<(u32, u32), BadLine>
    ensures { result ≡ span_fields n text.now }
{
    let (first, rest) = number_field(text).ok_or(BadLine { line: n, code: 1 })?;
    let second = given(n, rest)?;
    let from = at_most(u64::from(u32::MAX), n, first)?;
    let count = at_most(MOST_SHOWN, n, second)?;
    Ok((from, count))
}

fn word_field(n: u32, digits: &[u8]) -> Result<u32, BadLine>
    ensures { result ≡ word_field n digits.now }
{
    let value = given(n, digits)?;
    at_most(u64::from(u32::MAX), n, value)
}

// The number that digits of line n are.
fn given(n: u32, digits: &[u8]) -> Result<u64, BadLine>
    ensures { result ≡ given n (number_of digits.now) }
{
    number(digits).ok_or(BadLine { line: n, code: 1 })
}

// The value, where it is in its range.
fn at_most(most: u64, n: u32, value: u64) -> Result<u32, BadLine>
    requires { most < 2 ^ 32 }
    ensures { result ≡ at_most most n value }
{
    if value <= most {
        Ok(value as u32)
    } else {
        Err(BadLine { line: n, code: 2 })
    }
}
