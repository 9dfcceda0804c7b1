// What the definition of the command says in other words.
ghost use Rattle.std.specs.Prelude.{◌≡◌, ℕ, List, Result};
ghost use Rattle.command_lines.specs.Command.{command_of};
ghost use Rattle.command_lines.specs.CommandForm.{Asks};
ghost use Rattle.command_lines.specs.declared.commands.Command.{Command};

/// A line asks exactly what the rules say: they lead to its command or to the code of its refusal, and to no other outcome.
pub fn command_law()
    ensures sound { (line : List ℕ) → Asks line (command_of line) }
    ensures complete { (line : List ℕ) (outcome : Result Command ℕ) → Asks line outcome
        → command_of line ≡ outcome }
{}
