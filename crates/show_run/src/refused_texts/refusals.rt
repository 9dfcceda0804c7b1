// Where and why the first program refuses a text.
ghost use Rattle.std.specs.Prelude.{◌≡◌, ◌<◌, ◌+◌, ◌^◌, length, option_map, IfOk};
ghost use Rattle.std.specs.Result.{result_err};
ghost use Rattle.module_text.specs.ModuleOfText.{module_of};
ghost use Rattle.module_text.specs.TextReader.Lines.{lines_of};
ghost use Rattle.session_text.specs.Canonical.{IsLawful};
ghost use Rattle.session_text.specs.SessionOfText.{session_of};
ghost use Rattle.machine_ring.specs.Boot.{booted_ring};
ghost use Rattle.machine_ring.specs.RingLink.LawfulRing.{IsLawfulRing};
ghost use Rattle.machine_ring.specs.RingLink.RingOfText.{ring_of};
ghost use Rattle.tripos_machine.specs.Boot.{boot};
ghost use Rattle.debugger.specs.OrderLines.{first_bad};
ghost use Rattle.text_errors.specs.Telling.{refusal_of};
ghost use Rattle.show_run.specs.RefusedTexts.Refusals.{debugging_refusal, lines_refusal, ring_refusal, session_refusal, text_refusal};

use crate::places::sessions::text_behind;
use debugger::{BadLine, check_lines};
use machine_ring::{Ring, RingInput, read_ring};
use module_text::{TextEnd, read_module};
use session_text::{BootEnd, Session, read_front, read_session};
use std::alloc::{AllocError, Global};
use text_errors::{Refusal, TextKind};
use tripos_machine::boot;

/// Where and why the program refuses a text of this kind: a session for `run`, one with lines after it for `debug`, a ring for `ring`, a
/// module for `disasm`; `None` exactly where it takes the text. A session that does not boot is refused, too.
pub fn text_refusal(
    alloc: Global,
    kind: TextKind,
    text: &[u8],
) -> Result<Option<Refusal>, AllocError>
    requires { length text.now < 2 ^ 30 }
    ensures { IfOk result (λ r. option_map refusal_of r ≡ text_refusal kind text.now) }
{
    match kind {
        TextKind::Session => session_refusal(alloc, text),
        TextKind::Debugging => debugging_refusal(alloc, text),
        TextKind::Ring => ring_refusal(alloc, text),
        TextKind::Module => module_refusal(alloc, text),
    }
}

fn session_refusal(alloc: Global, text: &[u8]) -> Result<Option<Refusal>, AllocError>
    requires { length text.now < 2 ^ 30 }
    ensures { IfOk result (λ r. option_map refusal_of r ≡ session_refusal (session_of text.now)) }
{
    match read_session(alloc, text) {
        Ok(session) => boot_refusal(alloc, &session),
        Err(TextEnd::Bad { line, code }) => Ok(Some(Refusal { line, code })),
        Err(TextEnd::WantMemory) => Err(AllocError),
    }
}

// Where and why a session does not boot.
fn boot_refusal(alloc: Global, session: &Session) -> Result<Option<Refusal>, AllocError>
    requires { IsLawful session.now }
    ensures { IfOk result (λ r. option_map refusal_of r ≡ result_err (boot session.now)) }
{
    match boot(alloc, session) {
        Ok(_) => Ok(None),
        Err(BootEnd::Line { line, code }) => Ok(Some(Refusal { line, code })),
        Err(BootEnd::WantMemory) => Err(AllocError),
    }
}

fn debugging_refusal(alloc: Global, text: &[u8]) -> Result<Option<Refusal>, AllocError>
    requires { length text.now < 2 ^ 30 }
    ensures { IfOk result (λ r. option_map refusal_of r ≡ debugging_refusal text.now) }
{
    match read_front(alloc, text) {
        Ok(front) => {
            let lines = text_behind(front.end as usize, text);
            lines_refusal(alloc, &front.session, front.lines + 1, lines)
        }
        Err(TextEnd::Bad { line, code }) => Ok(Some(Refusal { line, code })),
        Err(TextEnd::WantMemory) => Err(AllocError),
    }
}

// The lines of the debugger, the first of which has this number, are read before the session boots.
fn lines_refusal(
    alloc: Global,
    session: &Session,
    first: u32,
    lines: &[u8],
) -> Result<Option<Refusal>, AllocError>
    requires lawful { IsLawful session.now }
    requires numbers { first + length lines.now < 2 ^ 32 }
    ensures { IfOk result (λ r. option_map refusal_of r
        ≡ lines_refusal (first_bad first (lines_of lines.now)) session.now) }
{
    match check_lines(lines, first) {
        Ok(()) => boot_refusal(alloc, session),
        Err(BadLine { line, code }) => Ok(Some(Refusal { line, code })),
    }
}

fn ring_refusal(alloc: Global, text: &[u8]) -> Result<Option<Refusal>, AllocError>
    requires { length text.now < 2 ^ 30 }
    ensures { IfOk result (λ r. option_map refusal_of r ≡ ring_refusal (ring_of text.now)) }
{
    match read_ring(alloc, text) {
        Ok(input) => ring_boot_refusal(alloc, &input),
        Err(TextEnd::Bad { line, code }) => Ok(Some(Refusal { line, code })),
        Err(TextEnd::WantMemory) => Err(AllocError),
    }
}

// Where and why the machines of a ring do not boot.
fn ring_boot_refusal(alloc: Global, input: &RingInput) -> Result<Option<Refusal>, AllocError>
    requires { IsLawfulRing input.now }
    ensures { IfOk result (λ r. option_map refusal_of r ≡ result_err (booted_ring input.now)) }
{
    match Ring::new(alloc, input) {
        Ok(_) => Ok(None),
        Err(BootEnd::Line { line, code }) => Ok(Some(Refusal { line, code })),
        Err(BootEnd::WantMemory) => Err(AllocError),
    }
}

fn module_refusal(alloc: Global, text: &[u8]) -> Result<Option<Refusal>, AllocError>
    requires { length text.now < 2 ^ 30 }
    ensures { IfOk result (λ r. option_map refusal_of r ≡ result_err (module_of text.now)) }
{
    match read_module(alloc, text) {
        Ok(_) => Ok(None),
        Err(TextEnd::Bad { line, code }) => Ok(Some(Refusal { line, code })),
        Err(TextEnd::WantMemory) => Err(AllocError),
    }
}
