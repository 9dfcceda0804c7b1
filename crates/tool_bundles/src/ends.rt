// Why a bundle is not read.
ghost use Rattle.std.specs.Prelude.{◌≡◌};
ghost use Rattle.tool_bundles.specs.declared.ends.BundleEnd.TheVariants.{WantMemory};

use std::alloc::AllocFailed;

/// Why a bundle is not read.
#[derive(Clone, Copy)]
pub enum BundleEnd {
    /// The text is no bundle.
    NoBundle,
    /// Memory could not be had.
    WantMemory,
}

impl<T: Drop> From<AllocFailed<T>> for BundleEnd {
    ghost from_gives = { λ _ e. e ≡ WantMemory };

    fn from(_: AllocFailed<T>) -> BundleEnd {
        BundleEnd::WantMemory
    }
}
