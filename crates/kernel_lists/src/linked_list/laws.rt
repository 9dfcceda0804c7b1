// Laws of linked lists.
ghost use Rattle.std.specs.Prelude.{◌≡◌, ℕ, List};
ghost use Rattle.kernel_lists.specs.LinkedList.Chain.{list_at};
ghost use Rattle.kernel_lists.specs.LinkedList.Linked.{IsLinked};

/// A store has at most one linked list at a head: the one that its links alone give.
pub fn list_law()
    ensures { (s : List ℕ) (link size : ℕ → ℕ) (head : ℕ) (ps : List ℕ)
        → IsLinked s link size head ps
        → list_at s link head ≡ ps }
{}
