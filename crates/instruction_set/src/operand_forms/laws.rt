// What is decoded is what was written. The function does nothing: its contract is the law.
ghost use Rattle.std.specs.Int.{w8, w16, cast_unsigned, to_le_bytes};
ghost use Rattle.std.specs.Prelude.{◌≡◌, ℕ, ℤ, [], ◌∷◌, Option, Some, Ok, FitsSigned};
ghost use Rattle.word_store.specs.Arithmetic.{add, word_of};
ghost use Rattle.instruction_set.specs.InstructionTable.Operand.{HasRoom, operand_bytes};
ghost use Rattle.instruction_set.specs.InstructionTable.Table.{Entry, entry};
ghost use Rattle.instruction_set.specs.declared.instruction_table.forms.Form.TheVariants.{Relative, Indirect};
ghost use Rattle.instruction_set.specs.OperandForms.Decoded.{decoded, halfword_place};
ghost use Rattle.instruction_set.specs.OperandForms.BytesAt.{HasBytesAt, with_number, with_target};

/// A function byte and its operand's bytes are decoded to that operand. In a relative or an indirect form, a signed offset
/// z leads z bytes on, from the operand byte or from the halfword.
#[tactic(auto, using(crate::proofs::OperandForms::Encoding::number_decoded, crate::proofs::OperandForms::Encoding::relative_decoded, crate::proofs::OperandForms::Encoding::indirect_decoded))]
pub fn encoding_law()
    ensures number { (code : ℕ → Option ℕ) (pc byte n : ℕ) (row : Entry) →
        entry byte ≡ Some row → HasRoom row.form n →
        HasBytesAt code pc (byte ∷ operand_bytes row.form n) →
        decoded code pc ≡ Ok (with_number byte row n) }
    ensures relative { (code : ℕ → Option ℕ) (pc byte : ℕ) (z : ℤ) (row : Entry) →
        entry byte ≡ Some row → row.form ≡ Relative → FitsSigned w8 z →
        HasBytesAt code pc (byte ∷ cast_unsigned w8 z ∷ []) →
        decoded code pc ≡ Ok (with_target byte row (add (add pc 1) (word_of z))) }
    ensures indirect { (code : ℕ → Option ℕ) (pc byte b : ℕ) (z : ℤ) (row : Entry) →
        entry byte ≡ Some row → row.form ≡ Indirect → FitsSigned w16 z →
        HasBytesAt code pc (byte ∷ b ∷ []) →
        HasBytesAt code (halfword_place pc b) (to_le_bytes w16 (cast_unsigned w16 z)) →
        decoded code pc ≡ Ok (with_target byte row (add (halfword_place pc b) (word_of z))) }
{}
