// A machine that words have brought to where it is.

use debugger::Breakpoints;
use tripos_machine::Machine;

/// A machine that words have brought to where it is.
#[derive(Drop)]
pub struct Debuggee {
    /// The machine.
    pub machine: Machine,
    /// The breakpoints.
    pub stops: Breakpoints,
    /// The debugger's lines that have led to the machine from its boot, and to the breakpoints.
    pub lines: Vec<u8>,
}
