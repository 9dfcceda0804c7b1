// Keepers of kinds, which are told of each word that becomes the kernel's or ceases to be.
ghost use Rattle.std.specs.Prelude.{◌≡◌, ◌<◌, ◌+◌, ◌≤◌, ◌↔◌, ℕ, List, true, length};
ghost use Rattle.std.specs.List.{range_with_len};
ghost use Rattle.word_store.specs.Count.{IsApart, times};
ghost use Rattle.kernel_model.specs.KernelRecord.Lists.{Lists};
ghost use Rattle.kernel_model.specs.WordKinds.Keeper.{AreTogether, IsStoreOf};

use word_store::Guard;

/// Tells the kernel's words from plain ones, and is told of each range of them that comes or goes.
pub trait KindKeeper: Guard {
    /// The keeper may know these addresses as the kernel's, in any order.
    ghost tells: { Self → List ℕ → Type 0 };

    /// It can know the addresses below this one.
    ghost room: { Self → ℕ };

    /// The n words from a on become the kernel's.
    fn claim(&mut self, a: u32, n: u32)
        requires { a + n ≤ room self.old }
        ensures tells { (before after : List ℕ) → tells self.old before
            → AreTogether after before (range_with_len a n) → tells self.new after }
        ensures room { room self.new ≡ room self.old };

    /// The n words from a on, which are the kernel's, become plain.
    fn release(&mut self, a: u32, n: u32)
        ensures tells { (before after : List ℕ) → tells self.old before → IsApart before
            → AreTogether before after (range_with_len a n) → tells self.new after }
        ensures room { room self.new ≡ room self.old };

    /// A keeper that knows the addresses of a kernel's words may be asked about the kernel's store.
    ghost may_be_asked: { (q : Self) (s known : List ℕ) (l : Lists) → tells q known
        → IsStoreOf s known l → length s ≤ room q → Self.can_guard q s };

    /// It marks exactly these addresses.
    ghost marks_known: { (q : Self) (s known : List ℕ) (l : Lists) (a : ℕ) → tells q known
        → IsStoreOf s known l → length s ≤ room q
        → Self.marks q s a ≡ true ↔ 0 < times a known };
}
