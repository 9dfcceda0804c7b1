// What holds of the switch by key. The function does nothing: its contract is the law.
ghost use Rattle.std.specs.Prelude.{◌≡◌, ◌≢◌, ℕ, ◌+◌, ◌*◌, ◌≤◌, List};
ghost use Rattle.word_store.specs.Arithmetic.{add};
ghost use Rattle.word_store.specs.declared.registers.Regs.{Regs};
ghost use Rattle.instruction_set.specs.SearchOrder.{HasKeys, IsSearchOrder};
ghost use Rattle.instruction_set.specs.Switch.{jump_by, switch_by_key};

/// In a table whose keys are in the order of the search, a key that is A is found, and its label is used. In any table,
/// the default is used where no key is A.
pub fn search_law()
    ensures found { (words : List ℕ) (r : Regs) (t count : ℕ) (keys : ℕ → ℕ) →
        HasKeys words t count keys → IsSearchOrder count keys →
        (i : ℕ) → 1 ≤ i → i ≤ count → r.a ≡ keys i →
        switch_by_key words r t ≡ jump_by words r (add t (4 * i + 2)) }
    ensures none { (words : List ℕ) (r : Regs) (t count : ℕ) (keys : ℕ → ℕ) →
        HasKeys words t count keys → ((i : ℕ) → 1 ≤ i → i ≤ count → r.a ≢ keys i) →
        switch_by_key words r t ≡ jump_by words r (add t 2) }
{}
