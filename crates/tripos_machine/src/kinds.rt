// The two kinds of machines.

use bare_machine::Bare;
use kernel_machine::Machine as FullMachine;

/// A machine without a kernel, or one with a kernel.
#[derive(Drop)]
pub(crate) enum Kind {
    Bare(Bare),
    Full(FullMachine),
}
