// Laws of the program's answers.
ghost use Rattle.std.specs.Prelude.{◌≡◌, List, None, ℕ};
ghost use Rattle.program_answers.specs.Answer.{Answer};
ghost use Rattle.show_run.specs.InputAnswers.{IsAnswer};
ghost use Rattle.show_run.specs.Tellings.{telling_of};

use crate::commands::LAST;

/// The last step of a log where none is named.
pub fn number_law()
    ensures { LAST ≡ 9999999999 }
{}

/// Words and an input have at most one answer, unless the words ask for a bundle to be told: no definition says in which words that is.
pub fn answer_law()
    ensures { (words : List (List ℕ)) (input : List ℕ) (a b : Answer) →
        telling_of words ≡ None → IsAnswer words input a → IsAnswer words input b → a ≡ b }
{}
