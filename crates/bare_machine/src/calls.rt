// The calls that a bare machine knows.
ghost use Rattle.std.specs.Prelude.{◌≡◌, ◌<◌};
ghost use Rattle.bare_machine.specs.Calls.{argument, call_answer, regs_after, multiply_divide, quit, write_character};

use instruction_set::Fault;
use kernel_model::Stop;
use word_store::{Regs, Store, add, mul_div};

/// What a call leaves: new registers, the byte for the console, and why the machine has stopped.
#[derive(Clone, Copy)]
pub struct CallAnswer {
    pub regs: Regs,
    pub byte: Option<u8>,
    pub stop: Option<Stop>,
}

/// The call that SYS makes. The fault is 3 where its number or an argument is outside the store, and 7 where a bare machine
/// has no such call.
pub fn call(store: &Store, r: Regs) -> Result<CallAnswer, Fault>
    ensures { result ≡ call_answer store.now r }
{
    let number = argument(store, r, 0)?;
    match number {
        0 => quit(store, r),
        19 => write_character(store, r),
        20 => multiply_divide(store, r),
        _ => Err(Fault {
            code: 7,
            address: r.pc,
        }),
    }
}

// Argument i, of which the first is the call's number.
fn argument(store: &Store, r: Regs, i: u32) -> Result<u32, Fault>
    requires { i < 4 }
    ensures { result ≡ argument store.now r i }
{
    let at = add(r.p, 3 + i);
    store.get(at).ok_or(Fault {
        code: 3,
        address: at,
    })
}

// The registers after a call with this answer.
fn regs_after(r: Regs, a: u32, b: u32) -> Regs
    ensures { result ≡ regs_after r a b }
{
    Regs {
        a,
        b,
        pc: add(r.pc, 1),
        ..r
    }
}

fn quit(store: &Store, r: Regs) -> Result<CallAnswer, Fault>
    ensures { result ≡ quit store.now r }
{
    let code = argument(store, r, 1)?;
    Ok(CallAnswer {
        regs: regs_after(r, u32::MAX, 0),
        byte: None,
        stop: Some(Stop::Quit(code)),
    })
}

fn write_character(store: &Store, r: Regs) -> Result<CallAnswer, Fault>
    ensures { result ≡ write_character store.now r }
{
    let ch = argument(store, r, 1)?;
    Ok(CallAnswer {
        regs: regs_after(r, ch, 0),
        byte: Some((ch % 256) as u8),
        stop: None,
    })
}

fn multiply_divide(store: &Store, r: Regs) -> Result<CallAnswer, Fault>
    ensures { result ≡ multiply_divide store.now r }
{
    let a = argument(store, r, 1)?;
    let b = argument(store, r, 2)?;
    let c = argument(store, r, 3)?;
    let (quotient, remainder) = mul_div(a, b, c);
    Ok(CallAnswer {
        regs: regs_after(r, quotient, remainder),
        byte: None,
        stop: None,
    })
}
