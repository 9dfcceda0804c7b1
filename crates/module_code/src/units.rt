// What the bytes of a hunk are.

/// The first offset at which something of a hunk can be: its word 0 is its length.
pub const FIRST: u32 = 4;

/// What begins at a byte.
#[derive(Clone, Copy)]
pub enum Unit {
    /// Nothing: it is data, or a later byte of something.
    Nothing,
    /// An instruction.
    Code,
    /// A halfword that leads from its own offset to another.
    Lead,
    /// A halfword of the table of a switch that is a number.
    Number,
    /// A word that is relocated.
    Address,
    /// What a compiler leaves before a function: a mark, and its name.
    FunctionName,
    /// What a compiler leaves before a section: a mark, and its name.
    SectionName,
}

/// A byte of a hunk, and what is known of it.
#[derive(Clone, Copy)]
pub struct Place {
    /// What begins here.
    pub unit: Unit,
    /// How many bytes that has.
    pub length: u32,
    /// The offset at which what it is a part of begins; `None` where it is data.
    pub within: Option<u32>,
    /// Whether what it is a part of has to begin here.
    pub is_border: bool,
    /// Whether a function begins here to which a compiler has given a name.
    pub is_function: bool,
}

impl Place {
    /// A byte of which nothing is known.
    pub fn new() -> Place {
        Place {
            unit: Unit::Nothing,
            length: 0,
            within: None,
            is_border: false,
            is_function: false,
        }
    }
}
