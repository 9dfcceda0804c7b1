// What a machine without a kernel consists of.

use word_store::{Regs, Store};

/// A machine without a kernel, at one moment.
#[derive(Drop)]
pub struct BareParts {
    /// The words, all of them plain.
    pub store: Store,
    /// The registers.
    pub regs: Regs,
    /// The steps taken so far.
    pub step: u64,
}
