// Laws of the program's answers.
ghost use Rattle.std.specs.Prelude.{◌≡◌, ◌+◌, ℕ, List, None, Ok};
ghost use Rattle.session_text.specs.SessionOfText.{session_of};
ghost use Rattle.session_text.specs.declared.sessions.Session.{Session};
ghost use Rattle.tripos_machine.specs.Boot.{boot};
ghost use Rattle.tripos_machine.specs.State.{IsSound, State, stop_of};
ghost use Rattle.tripos_machine.specs.Step.{Stepped};
ghost use Rattle.saved_text.specs.Canonical.{canonical, with_steps};
ghost use Rattle.saved_machine.specs.ImagePrint.Numbers.{HasWordsAndBytes, IsSized, MayTake};
ghost use Rattle.saved_machine.specs.ImagePrint.SavedImage.{saved_image};
ghost use Rattle.program_answers.specs.Answer.{Answer};
ghost use Rattle.tripos_run.specs.ContinuedAnswers.{IsContinued, IsMachineText};
ghost use Rattle.tripos_run.specs.InputAnswers.{IsAnswer, IsTextAnswer};
ghost use Rattle.tripos_run.specs.SavedAnswers.{IsResumedText, resumed_answer};
ghost use Rattle.tripos_run.specs.TracedHistory.{TracesHistory};
ghost use Rattle.tripos_run.specs.declared.commands.Command.TheVariants.{Resume, Run, Save, Trace};

/// Words and an input have at most one answer.
pub fn answer_law()
    ensures { (words : List (List ℕ)) (input : List ℕ) (a b : Answer) →
        IsAnswer words input a → IsAnswer words input b → a ≡ b }
{}

/// A run that is cut in two, saved and resumed between, writes what the whole run writes. Where `save` ends with the text of a
/// machine, `resume` of that text, with n as its steps, answers what `run` of the session with n steps more answers after the
/// console bytes of `run` of the session itself.
pub fn continued_law()
    ensures answers { (text longer : List ℕ) (s : Session) (n : ℕ) (kept before after whole : Answer)
        → session_of text ≡ Ok s
        → session_of longer ≡ Ok (record s { go = s.go + n })
        → IsTextAnswer Save text kept
        → IsMachineText kept.bytes
        → IsTextAnswer Run text before
        → IsTextAnswer Resume (with_steps n kept.bytes) after
        → IsTextAnswer Run longer whole
        → IsContinued s.go before after whole }

    // So it is of every machine between steps, whatever led to it.
    ensures machines { (version : ℕ) (s : State) (go : ℕ) → IsSound s → stop_of s ≡ None
        → HasWordsAndBytes s → IsSized version s → MayTake s go
        → IsResumedText (canonical (saved_image version s go)) (resumed_answer go s) }
{}

/// `tripos` with `trace` writes the lines of a history: where the text is a session's, and the session boots, there is a line for each
/// event of the boot and of the steps, and these events are a history of the kernel's packets, from no packet on.
pub fn trace_law()
    ensures { (text : List ℕ) (s : Session) (x : Stepped) (a : Answer) → session_of text ≡ Ok s
        → boot s ≡ Ok x
        → IsTextAnswer Trace text a
        → TracesHistory s x a }
{}
