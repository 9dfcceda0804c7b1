// The kinds of texts that are read.
ghost use Rattle.std.specs.Prelude.{◌≡◌};
ghost use Rattle.text_errors.specs.Kinds.{kind_named};

/// A kind of text that the program reads.
#[derive(Clone, Copy)]
pub enum TextKind {
    /// A session.
    Session,
    /// A session, and lines of the debugger after it.
    Debugging,
    /// A ring of two machines.
    Ring,
    /// A module.
    Module,
}

/// The kind of this name, if there is one: `session`, `debug`, `ring` or `module`.
pub fn kind_named(name: &[u8]) -> Option<TextKind>
    ensures { result ≡ kind_named name.now }
{
    if name == b"session".as_slice() {
        Some(TextKind::Session)
    } else if name == b"debug".as_slice() {
        Some(TextKind::Debugging)
    } else if name == b"ring".as_slice() {
        Some(TextKind::Ring)
    } else if name == b"module".as_slice() {
        Some(TextKind::Module)
    } else {
        None
    }
}
