// What a bare session puts into its machine.
ghost use Rattle.std.specs.Prelude.{◌≡◌, ◌+◌, ◌^◌, ◌<◌, ◌≤◌, [], length, IfOk, IsTrue};
ghost use Rattle.kernel_model.specs.KernelRecord.Ranges.{is_store_size};
ghost use Rattle.bare_machine.specs.Boot.{Boots, boot, code_of, with_bytes, with_lines};

use crate::{Bare, BareParts};
use session_text::{BootEnd, LineForm, Session, SessionLine};
use std::alloc::Global;
use word_store::{Regs, Store};

const PROGRAM: u32 = 800;

/// The machine of a bare session before its first step: its code is in the store from byte 800 on, and all other words are 0.
/// The first line whose bytes pass the store's end is refused with code 1. `WantMemory` comes only where memory could not be had.
#[tactic(auto, unfolding(crate::specs::Boot::boot))]
pub fn boot(alloc: Global, session: &Session) -> Result<Bare, BootEnd>
    requires { IsTrue (is_store_size 2 session.now.store) }
    ensures state { Boots (λ m. m.state) result (boot session.now) }
    ensures output { IfOk result (λ m. m.output ≡ []) }
{
    let mut store = Store::new(alloc, session.store)?;
    load_lines(&mut store, session.lines.as_slice())?;
    let regs = Regs {
        a: 0,
        b: 0,
        c: 0,
        p: 100,
        g: 20,
        pc: PROGRAM,
    };
    Ok(Bare::from_parts(BareParts {
        store,
        regs,
        step: 0,
    }))
}

// Puts the code of the lines into the store, from byte 800 on.
fn load_lines(store: &mut Store, lines: &[SessionLine]) -> Result<(), BootEnd>
    requires { length store.old ≤ 4194304 }
    ensures { Boots (λ _. store.new) result (with_lines store.old 800 lines.now) }
{
    let mut at = PROGRAM;
    for line in lines {
        let bytes = code_of(&line.form);
        if at as usize + bytes.len() > 4 * store.size() as usize {
            return Err(BootEnd::Line {
                line: line.line,
                code: 1,
            });
        }
        load_bytes(store, at, bytes);
        at += bytes.len() as u32;
    }
    Ok(())
}

// The bytes of a line of code; other lines have none.
fn code_of(form: &LineForm) -> &[u8]
    ensures { result.now ≡ code_of form.now }
{
    match form {
        LineForm::Code(bytes) => bytes.as_slice(),
        LineForm::File { .. } | LineForm::Task { .. } => &[],
    }
}

// Puts bytes into the store, from byte a on.
fn load_bytes(store: &mut Store, a: u32, bytes: &[u8])
    requires { a + length bytes.now < 2 ^ 32 }
    ensures { store.new ≡ with_bytes store.old a bytes.now }
{
    for (i, b) in bytes.iter().enumerate() {
        store.set_byte(a + i as u32, *b);
    }
}
