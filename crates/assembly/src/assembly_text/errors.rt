// What is wrong with a line.

/// What is wrong with a line, in the order of the codes that a refusal names.
#[derive(Clone, Copy)]
pub enum LineError {
    /// The line has none of the forms.
    NoForm = 1,
    /// The name is no instruction and no directive.
    UnknownName = 2,
    /// A number is out of its range.
    OutOfRange = 3,
    /// The label that it names is defined nowhere.
    UndefinedLabel = 4,
    /// The label that it defines was defined before.
    RepeatedLabel = 5,
    /// The label that it names is out of reach or not aligned.
    OutOfReach = 6,
    /// The hunk would have more than 65,536 words.
    HunkTooLong = 7,
}

impl LineError {
    ghost use Rattle.std.specs.Prelude.{◌≡◌};
    ghost use Rattle.assembly.specs.AssemblyText.LineErrors.{code_of};

    /// Its code, from 1 to 7.
    pub fn code(self) -> u32
        ensures { result ≡ code_of self }
    {
        self as u32
    }
}
