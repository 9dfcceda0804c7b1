// Laws of the program's answers.
ghost use Rattle.std.specs.Prelude.{◌≡◌, List, ℕ};
ghost use Rattle.program_answers.specs.Answer.{Answer};
ghost use Rattle.tools_run.specs.InputAnswers.{IsAnswer};
ghost use Rattle.tools_run.specs.ToolAnswers.{HasDefinition};
ghost use Rattle.tools_run.specs.Words.{asked_of};

/// Words and an input have at most one answer, unless they ask for a tool that no definition describes.
pub fn answer_law()
    ensures { (words : List (List ℕ)) (input : List ℕ) (a b : Answer) →
        HasDefinition (asked_of words) → IsAnswer words input a → IsAnswer words input b → a ≡ b }
{}
