// Laws of the lines in error. The functions do nothing: their contracts are the laws.
ghost use Rattle.std.specs.Prelude.{◌≡◌, ℕ, [], List, Ok};
ghost use Rattle.std.specs.Result.{is_err, result_err};
ghost use Rattle.module_text.specs.declared.modules.Module.{Module};
ghost use Rattle.assembly.specs.AssemblyText.Assembly.{assembly_of};
ghost use Rattle.assembly_errors.specs.Findings.{findings_of};
ghost use Rattle.assembly_errors.specs.Reports.{assembly_errors};
ghost use Rattle.assembly_errors.specs.Refusals.{first_refusal};

/// The first line that is found in error is the one at which the assembler refuses the text, and its code is the refusal's. None is
/// found exactly where the assembler makes a module of the text.
pub fn refusal_law()
    ensures { (text : List ℕ) →
        first_refusal (findings_of text) ≡ result_err (assembly_of text) }
{}

/// Something is wrong exactly where the assembler refuses the text, whatever its name is. Where the assembler takes it, nothing is said.
pub fn tool_law()
    ensures wrong { (name text : List ℕ) →
        (assembly_errors name text).is_wrong ≡ is_err (assembly_of text) }
    ensures silent { (name text : List ℕ) (m : Module) →
        assembly_of text ≡ Ok m → (assembly_errors name text).bytes ≡ [] }
{}
