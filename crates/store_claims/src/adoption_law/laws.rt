// The law of the valid kernel that stands for a store and the other parts of a machine.
ghost use Rattle.std.specs.Prelude.{◌≡◌, ◌↔◌, ℕ, List};
ghost use Rattle.kernel_model.specs.KernelRecord.Kernel.{Kernel};
ghost use Rattle.kernel_model.specs.KernelRecord.ValidKernel.{IsValid};
ghost use Rattle.store_claims.specs.AdoptionLaw.Adoption.{HasKernel, IsAdopted, StoreRepresentsKernel, kernel_in};
ghost use Rattle.store_claims.specs.AdoptionLaw.OtherParts.{OtherParts};

/// A valid kernel stands for a store and other parts exactly where the lists that are read off the store are valid, the store
/// holds their words, and the rules between steps hold of the kernel that is read off. Then that kernel is the one that stands for
/// them.
pub fn adoption_law()
    ensures exists { (s : List ℕ) (o : OtherParts) → HasKernel s o ↔ IsAdopted s o }
    ensures one { (s : List ℕ) (o : OtherParts) (k : Kernel) → IsValid k
        → StoreRepresentsKernel s o k → k ≡ kernel_in s o }
{}
