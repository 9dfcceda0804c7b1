// What an instruction does.

/// How a conditional jump compares two words, as signed numbers.
#[derive(Clone, Copy)]
pub enum Test {
    /// Equal.
    Eq,
    /// Not equal.
    Ne,
    /// Less.
    Ls,
    /// Greater.
    Gr,
    /// Less or equal.
    Le,
    /// Greater or equal.
    Ge,
}

/// What an instruction does. Here n is the operand, k the number that the variant carries, t the target, and x!i the
/// word at address x + i. To load e means B := A, and then A := e, where e is computed from the old registers.
#[derive(Clone, Copy)]
pub enum Effect {
    /// Load n.
    Load,
    /// Load minus n.
    LoadMinus,
    /// Load P!n.
    LoadP,
    /// Load P + n.
    LoadPAddress,
    /// Load G!n.
    LoadG,
    /// Load G + n.
    LoadGAddress,
    /// Load G!n!k.
    LoadGk(u32),
    /// Load P!n!k.
    LoadPk(u32),
    /// Load t.
    LoadTarget,
    /// Load the word that holds the byte at t.
    LoadAtTarget,
    /// Load t / 4, the address of that word.
    LoadTargetWord,
    /// P!n := A.
    StoreP,
    /// G!n := A.
    StoreG,
    /// G!n!0 := A.
    StoreG0,
    /// P!n!k := A.
    StorePk(u32),
    /// The word that holds the byte at t := A.
    StoreTarget,
    /// A := A + P!n.
    AddP,
    /// A := A + G!n.
    AddG,
    /// A := A + n.
    AddN,
    /// A := A - n.
    SubN,
    /// A := A!n.
    Rv,
    /// A := P!n!A.
    RvP,
    /// A!n := B.
    St,
    /// P!n!A := B.
    StP,
    /// A := byte A of the string of bytes at word B.
    Gbyt,
    /// Byte A of the string of bytes at word B := C.
    Pbyt,
    /// Byte B of the string of bytes at word A := C.
    Xpbyt,
    /// A := B + A.
    Add,
    /// A := B - A.
    Sub,
    /// A := B * A.
    Mul,
    /// A := B / A, signed, toward zero.
    Div,
    /// A := the remainder of B / A, signed, with the sign of B.
    Rem,
    /// A := B and A, bit by bit.
    And,
    /// A := B or A, bit by bit.
    Or,
    /// A := B exclusive or A, bit by bit.
    Xor,
    /// A := B shifted left by A bits.
    Lsh,
    /// A := B shifted right by A bits, with zeros from the left.
    Rsh,
    /// A := minus A.
    Neg,
    /// A := A with each bit inverted.
    Not,
    /// A and B are exchanged.
    Xch,
    /// B := A.
    Atb,
    /// C := A modulo 256.
    Atc,
    /// C := B modulo 256.
    Btc,
    /// PC := t.
    Jump,
    /// PC := t where B and A pass the test.
    JumpIf(Test),
    /// PC := t where A and 0 pass the test.
    JumpIfZero(Test),
    /// Calls the function at A, in a new frame at P + n.
    Call,
    /// Calls the function at G!n, in a new frame at P + k.
    CallG(u32),
    /// Returns from the function: PC := P!1 and P := P!0.
    Rtn,
    /// PC := A.
    Goto,
    /// A := 0, and the next byte is skipped.
    Fhop,
    /// Jumps by the label that has number A.
    Swl,
    /// Jumps by the label that is with key A.
    Swb,
    /// Nothing.
    Nop,
    /// Stops the machine.
    Brk,
    /// Calls the kernel.
    Sys,
}
