// Laws of sessions and their texts.
ghost use Rattle.std.specs.Prelude.{◌≡◌, ◌↔◌, ◌≤◌, ℕ, List, Ok};
ghost use Rattle.session_text.specs.Canonical.{IsLawful, canonical, with_numbers};
ghost use Rattle.session_text.specs.FirstError.{EndsEarly, HasNoForm, IsFirstError, IsOutOfRange};
ghost use Rattle.session_text.specs.SessionForm.{IsSession};
ghost use Rattle.session_text.specs.SessionOfText.{IsRefused, session_of};
ghost use Rattle.session_text.specs.declared.sessions.Session.{Session};

/// What is read from a text is the session whose text it is, and every text of a session is read: so a text has at most
/// one session.
pub fn session_law()
    ensures sound { (text : List ℕ) (s : Session) → session_of text ≡ Ok s → IsSession text s }
    ensures complete { (text : List ℕ) (s : Session) → IsSession text s → session_of text ≡ Ok s }
{}

/// A text is refused at its first line in error: some session has a text that begins with the lines before it, and none
/// has one that begins with the lines up to it. The code is 1 exactly where no form that may be there has the line's
/// bytes, and 2 where one has but for its numbers and names. Code 3 comes exactly where all lines begin a session's text,
/// and are none.
pub fn refusal_law()
    ensures form { (text : List ℕ) (n : ℕ) → IsRefused text n 1 ↔ IsFirstError text n HasNoForm }
    ensures range { (text : List ℕ) (n : ℕ) →
        IsRefused text n 2 ↔ IsFirstError text n IsOutOfRange }
    ensures end { (text : List ℕ) (n : ℕ) → IsRefused text n 3 ↔ EndsEarly text n }
    ensures codes { (text : List ℕ) (n code : ℕ) →
        IsRefused text n code → (1 ≤ code) × (code ≤ 3) }
{}

/// The canonical text of a session whose fields are within the rules is read as the same session, with the numbers that
/// its lines have there.
pub fn printed_law()
    ensures { (s : Session) → IsLawful s → session_of (canonical s) ≡ Ok (with_numbers s) }
{}
