// Which word may follow which.
ghost use Rattle.std.specs.Prelude.{◌≡◌};
ghost use Rattle.module_text.specs.Grammar.{finish, first_type, follow, offsets_or_type, type_after, words_or_type};

/// The type of a hunk: its length and its words follow.
pub const HUNK: u32 = 0x3e8;

/// The type of a relocation list: the number of its offsets and the offsets follow.
pub const RELOCATIONS: u32 = 0x3e9;

/// The word that ends a module.
pub const END: u32 = 0x3ea;

/// What the next word of a module's text is. `length` is the length of the hunk that was read last, and `more` the number
/// of words of the same kind that follow the next one.
#[derive(Clone, Copy)]
pub enum Expects {
    /// The type of the first item, or the end word.
    FirstType,
    /// The type of a further item, or the end word.
    NextType { length: u32 },
    /// The length of a hunk.
    Length,
    /// A word of a hunk.
    Word { more: u32, length: u32 },
    /// The number of offsets in a relocation list.
    Count { length: u32 },
    /// An offset.
    Offset { more: u32, length: u32 },
    /// None: the end word was read.
    Nothing,
}

/// What is expected after this word, or the code of a word that cannot be here: 3, 4 or 6.
pub fn follow(expects: Expects, word: u32) -> Result<Expects, u32>
    ensures { result ≡ follow expects word }
{
    match expects {
        Expects::FirstType => first_type(word),
        Expects::NextType { length } => type_after(length, word),
        Expects::Length => Ok(words_or_type(word, word)),
        Expects::Word { more, length } => Ok(words_or_type(more, length)),
        Expects::Count { length } => Ok(offsets_or_type(word, length)),
        Expects::Offset { more, length } => {
            if word < length {
                Ok(offsets_or_type(more, length))
            } else {
                Err(4)
            }
        }
        Expects::Nothing => Err(6),
    }
}

// The type of the first item.
fn first_type(word: u32) -> Result<Expects, u32>
    ensures { result ≡ first_type word }
{
    match word {
        HUNK => Ok(Expects::Length),
        END => Ok(Expects::Nothing),
        _ => Err(3),
    }
}

// The type of an item after another.
fn type_after(length: u32, word: u32) -> Result<Expects, u32>
    ensures { result ≡ type_after length word }
{
    match word {
        RELOCATIONS => Ok(Expects::Count { length }),
        _ => first_type(word),
    }
}

// So many words, then a type.
fn words_or_type(left: u32, length: u32) -> Expects
    ensures { result ≡ words_or_type left length }
{
    if left == 0 {
        return Expects::NextType { length };
    }
    Expects::Word {
        more: left - 1,
        length,
    }
}

// So many offsets, then a type.
fn offsets_or_type(left: u32, length: u32) -> Expects
    ensures { result ≡ offsets_or_type left length }
{
    if left == 0 {
        return Expects::NextType { length };
    }
    Expects::Offset {
        more: left - 1,
        length,
    }
}

/// Whether the text may end here, or else the code: 2 inside an item, 5 where an item could begin.
pub fn finish(expects: Expects) -> Result<(), u32>
    ensures { result ≡ finish expects }
{
    match expects {
        Expects::FirstType | Expects::NextType { .. } => Err(5),
        Expects::Length | Expects::Word { .. } | Expects::Count { .. } | Expects::Offset { .. } =>
            Err(2),
        Expects::Nothing => Ok(()),
    }
}
