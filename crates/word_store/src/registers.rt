// The registers.

/// A and B, the words that instructions compute with; C, a byte; P and G, the word addresses of the stack frame and of
/// the globals; PC, the byte address of the instruction.
#[derive(Clone, Copy)]
pub struct Regs {
    /// The register A.
    pub a: u32,
    /// The register B.
    pub b: u32,
    /// The register C.
    pub c: u32,
    /// The register P, the address of the stack frame, in words.
    pub p: u32,
    /// The register G, the address of the globals, in words.
    pub g: u32,
    /// The register PC, the address of the next instruction, in bytes.
    pub pc: u32,
}
