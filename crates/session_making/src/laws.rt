// Laws of the tool. The functions here do nothing: their contracts are the laws.
ghost use Rattle.std.specs.Prelude.{◌≡◌, [], false, List, ℕ};
ghost use Rattle.session_text.specs.Canonical.{canonical};
ghost use Rattle.session_text.specs.declared.sessions.Session.{Session};
ghost use Rattle.session_making.specs.Laws.{Writes};
ghost use Rattle.session_making.specs.Sessions.{session_text};
ghost use Rattle.session_making.specs.Tool.{session_told};

/// Where nothing is wrong, what is given is notes and after them the text of a record with what is typed, and that text is read as a
/// session.
pub fn read_law()
    ensures { (bundle : List ℕ) → (session_told bundle).is_wrong ≡ false → Writes (session_told bundle).bytes }
{}

/// The text of a record without typed things is its printed text.
pub fn printed_law()
    ensures { (s : Session) → s.keys ≡ [] → session_text s [] ≡ canonical s }
{}
