// What holds of listings. The functions do nothing: their contracts are the laws.
ghost use Rattle.std.specs.List.{flat_map};
ghost use Rattle.std.specs.Prelude.{◌≡◌, ℕ, ◌*◌, ◌^◌, ◌<◌, List, Option, Some, Ok, filter, length};
ghost use Rattle.instruction_set.specs.InstructionTable.Table.{Entry, entry};
ghost use Rattle.instruction_set.specs.OperandForms.Decoded.{decoded};
ghost use Rattle.instruction_set.specs.declared.operand_forms.instructions.Instr.{Instr};
ghost use Rattle.assembly.specs.ModuleListing.Cover.{Follow, covers, hunk_lines};
ghost use Rattle.assembly.specs.ModuleListing.HunkListing.{lines_of_words};
ghost use Rattle.assembly.specs.ModuleListing.Lines.{instruction_line};
ghost use Rattle.assembly.specs.ModuleListing.Listing.{listed};

/// What is decoded to a row and an operand or a target is listed with that row's name and that operand or target, and the
/// line stands for the bytes of the instruction.
pub fn decoding_law()
    ensures { (code : ℕ → Option ℕ) (a : ℕ) (i : Instr) (row : Entry) →
        decoded code a ≡ Ok i → entry i.byte ≡ Some row →
        listed code a ≡ record { text = instruction_line row.form a row.name i; length = i.length } }
{}

/// The lines of a hunk cover it: each begins where the one before it ends, so each byte is in exactly one of them.
pub fn cover_law()
    ensures text { (words : List ℕ) →
        lines_of_words words ≡ flat_map (λ line. line.text) (hunk_lines words) }
    ensures follow { (words : List ℕ) → length words < 2 ^ 30 →
        Follow 0 (4 * length words) (hunk_lines words) }
    ensures once { (words : List ℕ) (b : ℕ) → length words < 2 ^ 30 → b < 4 * length words →
        length (filter (covers b) (hunk_lines words)) ≡ 1 }
{}
