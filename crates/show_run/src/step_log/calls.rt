// The calls of a guest.
ghost use Rattle.std.specs.Option.{option_map};
ghost use Rattle.std.specs.Prelude.{◌≡◌, true, false};
ghost use Rattle.std.specs.Fmt.{signed_decimal};
ghost use Rattle.byte_streams.specs.Pending.{Gathers};
ghost use Rattle.byte_streams.specs.Pieces.{text_of};
ghost use Rattle.word_store.specs.Arithmetic.{signed};
ghost use Rattle.byte_streams.specs.Sinks.{FailsBySink, GathersFor};
ghost use Rattle.show_run.specs.StepLog.Calls.{arguments_seen, bare_call, call_at, call_line, call_lines, call_made, call_seen, kernel_call, told};

use crate::step_log::moments::{Moment, gather_line};
use bare_machine::calls::call as answer_bare;
use byte_streams::Piece::{Signed, Text};
use byte_streams::{Output, Piece, Sink, SinkFault};
use kernel_calls::{KernelCall, read_call};
use word_store::{Regs, Store, signed};

/// The function byte of SYS, the instruction that makes a call.
pub const SYS: u8 = 145;

/// A call that is made.
#[derive(Clone, Copy)]
pub struct Call {
    /// Its name.
    pub name: &'static [u8],
    /// Its arguments.
    pub arguments: Arguments,
    /// Whether 0 and a code are how it answers where it is refused.
    pub refuses: bool,
}

/// The arguments of a call, which are words.
#[derive(Clone, Copy)]
pub enum Arguments {
    /// It has none.
    Zero,
    /// It has one.
    One(u32),
    /// It has two.
    Two(u32, u32),
    /// It has three.
    Three(u32, u32, u32),
}

/// The call that the instruction at PC makes, on a bare machine or in a kernel, or `None` where it makes none.
#[tactic(auto, unfolding(crate::specs::StepLog::Calls::call_at))]
pub(crate) fn call_at(is_bare: bool, store: &Store, regs: Regs) -> Option<Call>
    ensures { option_map call_seen result ≡ call_at is_bare store.now regs }
{
    if regs.pc == 0 {
        return None;
    }
    match store.get_byte(regs.pc) {
        Some(SYS) => call_made(is_bare, store, regs),
        _ => None,
    }
}

fn call_made(is_bare: bool, store: &Store, regs: Regs) -> Option<Call>
    ensures { option_map call_seen result ≡ call_made is_bare store.now regs }
{
    if is_bare {
        return bare_call(store, regs);
    }
    kernel_call(store, regs)
}

// A bare machine answers some of the kernel's calls.
fn bare_call(store: &Store, regs: Regs) -> Option<Call>
    ensures { option_map call_seen result ≡ bare_call store.now regs }
{
    match answer_bare(store, regs) {
        Ok(_) => kernel_call(store, regs),
        Err(_) => None,
    }
}

// The call that the kernel reads there.
fn kernel_call(store: &Store, regs: Regs) -> Option<Call>
    ensures { option_map call_seen result ≡ kernel_call store.now regs }
{
    match read_call(store, regs) {
        Ok(call) => Some(told(call)),
        Err(_) => None,
    }
}

// A call by its name.
fn told(call: KernelCall) -> Call
    ensures { call_seen result ≡ told call }
{
    match call {
        KernelCall::Quit { result } => unrefused(b"quit", Arguments::One(result)),
        KernelCall::Getvec { highest } => refusable(b"getvec", Arguments::One(highest)),
        KernelCall::Freevec { block } => refusable(b"freevec", Arguments::One(block)),
        KernelCall::CreateTask {
            module,
            highest,
            priority,
        } => { refusable(b"createtask", Arguments::Three(module, highest, priority)) }
        KernelCall::DeleteTask { id } => refusable(b"deletetask", Arguments::One(id)),
        KernelCall::ChangePri { id, priority } => {
            refusable(b"changepri", Arguments::Two(id, priority))
        }
        KernelCall::SetFlags { id, flags } => refusable(b"setflags", Arguments::Two(id, flags)),
        KernelCall::TestFlags { mask } => refusable(b"testflags", Arguments::One(mask)),
        KernelCall::Hold { id } => refusable(b"hold", Arguments::One(id)),
        KernelCall::Release { id } => refusable(b"release", Arguments::One(id)),
        KernelCall::TaskWait => refusable(b"taskwait", Arguments::Zero),
        KernelCall::Qpkt { packet } => refusable(b"qpkt", Arguments::One(packet)),
        KernelCall::Dqpkt { id, packet } => refusable(b"dqpkt", Arguments::Two(id, packet)),
        KernelCall::Unload { module } => refusable(b"unload", Arguments::One(module)),
        KernelCall::CreateCo { function, highest } => {
            refusable(b"createco", Arguments::Two(function, highest))
        }
        KernelCall::DeleteCo { coroutine } => refusable(b"deleteco", Arguments::One(coroutine)),
        KernelCall::CallCo { coroutine, value } => {
            refusable(b"callco", Arguments::Two(coroutine, value))
        }
        KernelCall::ResumeCo { coroutine, value } => {
            refusable(b"resumeco", Arguments::Two(coroutine, value))
        }
        KernelCall::CoWait { value } => refusable(b"cowait", Arguments::One(value)),
        KernelCall::Wrch { character } => unrefused(b"wrch", Arguments::One(character)),
        KernelCall::MulDiv { a, b, c } => unrefused(b"muldiv", Arguments::Three(a, b, c)),
        KernelCall::AddModule { id, module } => {
            refusable(b"addmodule", Arguments::Two(id, module))
        }
    }
}

fn refusable(name: &'static [u8], arguments: Arguments) -> Call
    ensures { call_seen result
        ≡ record { name = name.now; arguments = arguments_seen arguments; refuses = true } }
{
    Call {
        name,
        arguments,
        refuses: true,
    }
}

fn unrefused(name: &'static [u8], arguments: Arguments) -> Call
    ensures { call_seen result
        ≡ record { name = name.now; arguments = arguments_seen arguments; refuses = false } }
{
    Call {
        name,
        arguments,
        refuses: false,
    }
}

/// Gathers the line of the call, if one is made.
pub(crate) fn gather_call<K: Sink>(
    m: Moment,
    call: Option<Call>,
    out: &mut K,
    pending: &mut Output,
) -> Result<(), SinkFault>
    ensures text { GathersFor K.Sink out.old out.new pending.old pending.new
        (call_lines m (option_map call_seen call)) result }
    ensures cause { FailsBySink K.Sink out.old out.new result }
{
    match call {
        Some(call) => gather_made(m, call, out, pending),
        None => Ok(()),
    }
}

fn gather_made<K: Sink>(
    m: Moment,
    call: Call,
    out: &mut K,
    pending: &mut Output,
) -> Result<(), SinkFault>
    ensures text { GathersFor K.Sink out.old out.new pending.old pending.new
        (call_line m (call_seen call)) result }
    ensures cause { FailsBySink K.Sink out.old out.new result }
{
    let start = Text(b"call ");
    let name = Text(call.name);
    let open = Text(b"(");
    let comma = Text(b", ");
    let close = Text(b")");
    match call.arguments {
        Arguments::Zero => gather_line(m, &[start, name, open, close], out, pending),
        Arguments::One(a) => { gather_line(m, &[start, name, open, word(a), close], out, pending) }
        Arguments::Two(a, b) => gather_line(
            m,
            &[start, name, open, word(a), comma, word(b), close],
            out,
            pending,
        ),
        Arguments::Three(a, b, c) => gather_line(
            m,
            &[
                start,
                name,
                open,
                word(a),
                comma,
                word(b),
                comma,
                word(c),
                close,
            ],
            out,
            pending,
        ),
    }
}

// A word as a signed number.
fn word(w: u32) -> Piece<'static>
    ensures { text_of result ≡ signed_decimal (signed w) }
{
    Signed(i64::from(signed(w)))
}
