// What a machine consists of.

use bare_machine::BareParts;
use kernel_machine::Parts as FullParts;

/// What a machine of either kind consists of, at one moment. Whether it has stopped is no part of it.
#[derive(Drop)]
pub enum Parts {
    /// A machine without a kernel.
    Bare(BareParts),
    /// A machine with a kernel.
    Full(FullParts),
}
