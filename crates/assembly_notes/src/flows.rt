// Where a run goes after a line.
ghost use Rattle.std.specs.Prelude.{◌≡◌};
ghost use Rattle.assembly_notes.specs.Flows.{directive_flow, ends_run, flow_of, instruction_flow};

use assembly::assembly_text::directives::{Directive, directive_named};

/// What a line is to a run.
#[derive(Clone, Copy)]
pub enum Flow {
    /// Nothing: it has no bytes, or those of a boundary.
    Nothing,
    /// Data.
    Data,
    /// An instruction after which the next one may come.
    GoesOn,
    /// An instruction after which the next one does not come, or which may end the run.
    Ends,
}

/// What a line is that begins with this name.
pub fn flow_of(name: &[u8]) -> Flow
    ensures { result ≡ flow_of name.now }
{
    match directive_named(name) {
        Some(directive) => directive_flow(directive),
        None => instruction_flow(name),
    }
}

fn directive_flow(directive: Directive) -> Flow
    ensures { result ≡ directive_flow directive }
{
    match directive {
        Directive::Align | Directive::Global => Flow::Nothing,
        _ => Flow::Data,
    }
}

fn instruction_flow(name: &[u8]) -> Flow
    ensures { result ≡ instruction_flow name.now }
{
    if ends_run(name) {
        return Flow::Ends;
    }
    Flow::GoesOn
}

// Whether the next instruction does not come after one of this name, but for a call that returns.
fn ends_run(name: &[u8]) -> bool
    ensures { result ≡ ends_run name.now }
{
    name == b"J".as_slice()
        || name == b"J$".as_slice()
        || name == b"RTN".as_slice()
        || name == b"GOTO".as_slice()
        || name == b"SWB".as_slice()
        || name == b"SWL".as_slice()
        || name == b"SYS".as_slice()
}
