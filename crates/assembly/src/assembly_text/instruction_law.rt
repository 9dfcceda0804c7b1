// Assembly and decoding agree. The function does nothing: its contract is the law.
ghost use Rattle.std.specs.Prelude.{◌≡◌, ℕ, ◌∷◌, List, Option, Some, Ok};
ghost use Rattle.instruction_set.specs.InstructionTable.Operand.{HasRoom, operand_bytes};
ghost use Rattle.instruction_set.specs.InstructionTable.Table.{Entry, entry};
ghost use Rattle.instruction_set.specs.OperandForms.Decoded.{decoded};
ghost use Rattle.instruction_set.specs.OperandForms.BytesAt.{HasBytesAt, with_number};
ghost use Rattle.assembly.specs.AssemblyText.InstructionOperands.{operands_with};
ghost use Rattle.assembly.specs.AssemblyText.LineText.{statement_named};
ghost use Rattle.assembly.specs.declared.assembly_text.statements.Statement.TheVariants.{Fixed};

/// The name of a row and a number that its form has room for make the row's function byte and the bytes of the number; and
/// the bytes that they make are decoded to that row and that number, wherever they are.
#[tactic(auto, using(crate::proofs::AssemblyText::InstructionLemmas::made, crate::proofs::AssemblyText::InstructionLemmas::decoded_again))]
pub fn instruction_law()
    ensures assembled { (byte n : ℕ) (row : Entry) →
        entry byte ≡ Some row → HasRoom row.form n →
        statement_named row.name (operands_with row.form n)
        ≡ Ok (Fixed (byte ∷ operand_bytes row.form n)) }
    ensures decoded { (code : ℕ → Option ℕ) (pc byte n : ℕ) (row : Entry) (bytes : List ℕ) →
        entry byte ≡ Some row → HasRoom row.form n →
        statement_named row.name (operands_with row.form n) ≡ Ok (Fixed bytes) →
        HasBytesAt code pc bytes → decoded code pc ≡ Ok (with_number byte row n) }
{}
