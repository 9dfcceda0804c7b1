// Laws of what is set anew, of spans, and of outcomes.
ghost use Rattle.std.specs.Prelude.{◌≡◌, ◌↔◌, IsTrue, List, ℕ};
ghost use Rattle.std.specs.List.{flat_map};
ghost use Rattle.session_text.specs.Canonical.{IsLawful};
ghost use Rattle.session_text.specs.declared.sessions.Session.{Session};
ghost use Rattle.show_run.specs.ValueTries.Outcomes.{is_same_outcome};
ghost use Rattle.show_run.specs.ValueTries.Settings.{is_in_range, is_there, session_with};
ghost use Rattle.show_run.specs.ValueTries.Spans.{spans_of, values_of};
ghost use Rattle.show_run.specs.declared.value_tries.outcomes.Outcome.{Outcome};
ghost use Rattle.show_run.specs.declared.value_tries.settings.Setting.{Setting};

/// The value is in its range exactly where the session with it is within the rules of the session text.
pub fn setting_law()
    ensures { (k : Setting) (value : ℕ) (s : Session) → IsLawful s → IsTrue (is_there k s)
        → (IsTrue (is_in_range k value) ↔ IsLawful (session_with k value s)) }
{}

/// The values of the spans of values are these values, in their order.
pub fn span_law()
    ensures { (values : List ℕ) → flat_map values_of (spans_of values) ≡ values }
{}

/// Two outcomes are the same exactly where they have the same bytes and the same end: each outcome has one group.
pub fn outcome_law()
    ensures { (a b : Outcome) → IsTrue (is_same_outcome a b) ↔ (a ≡ b) }
{}
