// What holds of the whole table. The functions do nothing: their contracts are the laws.
ghost use Rattle.std.specs.Prelude.{◌≡◌, ◌<◌, ◌^◌, ◌↔◌, ℕ, List, Some, Contains, IfSome, IsNone};
ghost use Rattle.instruction_set.specs.InstructionTable.Empty.{empty_bytes};
ghost use Rattle.instruction_set.specs.InstructionTable.EffectRule.{effect_named};
ghost use Rattle.instruction_set.specs.InstructionTable.FormRule.{form_named};
ghost use Rattle.instruction_set.specs.InstructionTable.Names.{byte_named, name_at};
ghost use Rattle.instruction_set.specs.InstructionTable.Table.{entry};

/// Seven bytes are empty: 0, 1, 223, 239, 240, 254 and 255. All others have a row.
#[tactic(auto, using(crate::proofs::InstructionTable::EmptyLemmas::empty_where))]
pub fn empty_law()
    ensures { (byte : ℕ) → byte < 2 ^ 8 → (IsNone (entry byte) ↔ Contains empty_bytes byte) }
{}

/// Each name is once, so the byte that is found by the name of a row is the byte of that row.
#[tactic(auto, using(crate::proofs::InstructionTable::NameLemmas::once, crate::proofs::InstructionTable::NameLemmas::byte_named_at, crate::proofs::InstructionTable::NameLemmas::byte_named_has))]
pub fn name_law()
    ensures once { (a b : ℕ) (name : List ℕ) →
        name_at a ≡ Some name → name_at b ≡ Some name → a ≡ b }
    ensures found { (byte : ℕ) (name : List ℕ) →
        (byte_named name ≡ Some byte) ↔ (name_at byte ≡ Some name) }
{}

/// The form of each row follows from its name.
#[tactic(auto, using(crate::proofs::InstructionTable::FormLemmas::form_follows))]
pub fn form_law()
    ensures { (byte : ℕ) → IfSome (entry byte) (λ row. row.form ≡ form_named row.name) }
{}

/// The effect of each row follows from its name.
#[tactic(auto, using(crate::proofs::InstructionTable::EffectLemmas::effect_follows))]
pub fn effect_law()
    ensures { (byte : ℕ) → IfSome (entry byte) (λ row. Some row.effect ≡ effect_named row.name) }
{}
