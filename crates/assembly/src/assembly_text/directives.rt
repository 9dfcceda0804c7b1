// The names that are no instructions.
ghost use Rattle.std.specs.Prelude.{◌≡◌};
ghost use Rattle.assembly.specs.AssemblyText.Directives.{directive_named};

/// What a line says that has no instruction.
#[derive(Clone, Copy)]
pub enum Directive {
    /// `DB n`: a byte.
    Byte,
    /// `DH n`: a halfword.
    Half,
    /// `DW n`: a word.
    Word,
    /// `RES label`.
    Reserve,
    /// `DA label`.
    Address,
    /// `ALIGN n`.
    Align,
    /// `GLOBAL n label`.
    Global,
}

/// The directive of that name; `None` exactly where none has it.
pub fn directive_named(name: &[u8]) -> Option<Directive>
    ensures { result ≡ directive_named name.now }
{
    if name == b"DB".as_slice() {
        return Some(Directive::Byte);
    }
    if name == b"DH".as_slice() {
        return Some(Directive::Half);
    }
    if name == b"DW".as_slice() {
        return Some(Directive::Word);
    }
    if name == b"RES".as_slice() {
        return Some(Directive::Reserve);
    }
    if name == b"DA".as_slice() {
        return Some(Directive::Address);
    }
    if name == b"ALIGN".as_slice() {
        return Some(Directive::Align);
    }
    if name == b"GLOBAL".as_slice() {
        return Some(Directive::Global);
    }
    None
}
