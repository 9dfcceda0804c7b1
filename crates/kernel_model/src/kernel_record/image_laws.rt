// Laws of the store that a kernel stands for.
ghost use Rattle.std.specs.Prelude.{◌≡◌, ℕ, List, length};
ghost use Rattle.kernel_lists.specs.OwnedWords.Owned.{Pairs};
ghost use Rattle.kernel_lists.specs.OwnedWords.Written.{IsWritten};
ghost use Rattle.kernel_model.specs.KernelRecord.Image.{HasPlainWords, IsImage, image, settled};
ghost use Rattle.kernel_model.specs.KernelRecord.Kernel.{Kernel};
ghost use Rattle.kernel_model.specs.KernelRecord.Lists.{Lists};
ghost use Rattle.kernel_model.specs.KernelRecord.Owned.{OwnsApart, owned};
ghost use Rattle.kernel_model.specs.KernelRecord.OneKernel.{HaveSameParts};
ghost use Rattle.kernel_model.specs.KernelRecord.ValidKernel.{IsValid};

/// A store is a kernel's image, word by word, exactly where it is the image as a list.
pub fn image_law()
    ensures list { (s : List ℕ) (k : Kernel) → IsImage s k → s ≡ image k }
    ensures words { (k : Kernel) → IsValid k → IsImage (image k) k }
{}

/// Where a store stands for a kernel, and the words of other lists were exchanged for those of its own, with plain words written
/// besides, it stands for the kernel with these lists, settled.
pub fn settled_law()
    ensures image { (s t : List ℕ) (k : Kernel) (l : Lists) (plain : Pairs)
        → IsImage s k → l.size ≡ k.lists.size → OwnsApart l
        → length t ≡ length s
        → IsWritten s t (owned l) plain
        → IsImage t (settled plain k l) }
    ensures plain { (k : Kernel) (l : Lists) (plain : Pairs) → OwnsApart l
        → HasPlainWords (settled plain k l) }
{}

/// At most one valid kernel has a given image and given other parts.
pub fn one_kernel_law()
    ensures { (s : List ℕ) (k j : Kernel) → IsValid k → IsValid j → IsImage s k → IsImage s j
        → HaveSameParts k j → k ≡ j }
{}
