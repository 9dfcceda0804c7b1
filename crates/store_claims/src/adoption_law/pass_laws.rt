// The law of what the passes of a check find.
ghost use Rattle.std.specs.Prelude.{◌↔◌, ℕ, List};
ghost use Rattle.kernel_model.specs.KernelRecord.HoldsLists.{HoldsLists};
ghost use Rattle.kernel_model.specs.KernelRecord.Recovered.{lists_in};
ghost use Rattle.store_claims.specs.AdoptionLaw.Passes.{Passes};

/// A store, whatever its words are, holds the words of valid lists exactly where each pass finds what it looks for.
pub fn passes_law()
    ensures { (s : List ℕ) → HoldsLists s (lists_in s) ↔ Passes s }
{}
