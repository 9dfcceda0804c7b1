// A law of what is strange. The function does nothing: its contract is the law.
ghost use Rattle.std.specs.Prelude.{◌≡◌, ℕ, [], List};
ghost use Rattle.std.specs.Result.{is_err};
ghost use Rattle.std.specs.Prelude.{true};
ghost use Rattle.assembly.specs.AssemblyText.Assembly.{assembly_of};
ghost use Rattle.assembly_notes.specs.Notes.{assembly_notes};

/// Of a text that the assembler refuses nothing is said.
pub fn refused_law()
    ensures { (name text : List ℕ) →
        is_err (assembly_of text) ≡ true → (assembly_notes name text).bytes ≡ [] }
{}
