// Laws of assembly.
ghost use Rattle.std.specs.Prelude.{◌≡◌, ◌≢◌, ◌⊎◌, ℕ, List, Ok, Err};
ghost use Rattle.module_text.specs.declared.modules.Module.{Module};
ghost use Rattle.assembly.specs.AssemblyText.Assembly.{assembly_of};
ghost use Rattle.assembly.specs.AssemblyText.AssemblyForm.{Assembles, IsBadLine, IsBadOperand, IsRefused, RelocationsRise};
ghost use Rattle.assembly.specs.AssemblyText.LineErrors.{code_of};
ghost use Rattle.assembly.specs.AssemblyText.LineForm.{IsLine};
ghost use Rattle.assembly.specs.AssemblyText.LineText.{line_of};
ghost use Rattle.module_text.specs.TextReader.Refusal.{refusal};
ghost use Rattle.assembly.specs.declared.assembly_text.errors.LineError.{LineError};
ghost use Rattle.assembly.specs.declared.assembly_text.statements.Line.{Line};

/// What a text is read as is the line that it is by the rules, and every such line is read: so a text is at most one line.
pub fn line_law()
    ensures sound { (text : List ℕ) (line : Line) → line_of text ≡ Ok line → IsLine text line }
    ensures complete { (text : List ℕ) (line : Line) → IsLine text line → line_of text ≡ Ok line }
{}

/// What is made of a text is the module that it assembles to, and every such module is made: so a text assembles to at most
/// one module. Its relocations are in rising order.
pub fn assembly_law()
    ensures sound { (text : List ℕ) (m : Module) → assembly_of text ≡ Ok m → Assembles text m }
    ensures complete { (text : List ℕ) (m : Module) → Assembles text m → assembly_of text ≡ Ok m }
    ensures rising { (text : List ℕ) (m : Module) → Assembles text m → RelocationsRise m }
{}

/// At most one table of labels makes a text a module.
pub fn table_law()
    ensures { (text : List ℕ) (m n : Module) (a : Assembles text m) (b : Assembles text n) →
        a.table ≡ b.table }
{}

/// A text is refused exactly at its first bad line, with the lowest code that applies to that line. A line that is bad where
/// it is has a code other than 4 and 6; a line whose label is not found, or cannot be reached, has 4 or 6.
pub fn refusal_law()
    ensures sound { (text : List ℕ) (n code : ℕ) →
        assembly_of text ≡ Err (refusal n code) → IsRefused text n code }
    ensures complete { (text : List ℕ) (n code : ℕ) →
        IsRefused text n code → assembly_of text ≡ Err (refusal n code) }
    ensures lines { (text : List ℕ) (n : ℕ) (e : LineError) →
        IsBadLine text n e → (code_of e ≢ 4) × (code_of e ≢ 6) }
    ensures operands { (text : List ℕ) (n : ℕ) (e : LineError) →
        IsBadOperand text n e → (code_of e ≡ 4) ⊎ (code_of e ≡ 6) }
{}
