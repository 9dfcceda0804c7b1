// What the definitions of the answer and of the items say in other words.
ghost use Rattle.std.specs.Prelude.{◌≡◌, ◌↔◌, ℕ, List, Result};
ghost use Rattle.command_lines.specs.declared.argument_templates.args.Arg.{Arg};
ghost use Rattle.command_lines.specs.declared.argument_templates.items.Item.{Item};
ghost use Rattle.command_lines.specs.ArgumentTemplates.Answer.{answer};
ghost use Rattle.command_lines.specs.ArgumentTemplates.Args.{Args};
ghost use Rattle.command_lines.specs.ArgumentTemplates.Cut.{Cut};
ghost use Rattle.command_lines.specs.ArgumentTemplates.Line.{items};

/// A line is read by its template exactly as the rules say: they lead to the answer, and to no other outcome.
pub fn args_law()
    ensures sound { (template line : List ℕ) → Args template line (answer template line) }
    ensures complete { (template line : List ℕ) (outcome : Result (List Arg) ℕ) →
        Args template line outcome → answer template line ≡ outcome }
{}

/// A line is cut into items exactly as the rules say: into its items, and into no others.
pub fn items_law()
    ensures sound { (line : List ℕ) → Cut 0 line (items line) }
    ensures complete { (line : List ℕ) (cut : List Item) → Cut 0 line cut → items line ≡ cut }
{}
