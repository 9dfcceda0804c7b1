// What is wrong in a line.
ghost use Rattle.std.specs.Prelude.{◌≡◌, ◌++◌, OnOk};
ghost use Rattle.friendly_assembly.specs.FlawWords.{count_words, words_of};
ghost use Rattle.friendly_assembly.specs.Quotes.{flaw, flaw_after};

use std::alloc::AllocError;
use tool_texts::Said::{Bytes, Number};
use tool_texts::{Lent, push_sentence};

/// What is wrong.
#[derive(Drop)]
pub enum Wrong<'a> {
    /// A quote that is not closed.
    NotClosed,
    /// Something comes after the quote's end.
    GoesOn,
    /// A quoted byte that is no character from the blank to `~`.
    NoCharacter,
    /// A star in quotes, before something that it does not go with.
    UnknownStar,
    /// A backslash in place of a star.
    Backslash,
    /// So many characters between quotes that have one.
    CharacterCount(usize),
    /// A text in double quotes that is not after `DS`.
    StringElsewhere,
    /// These are no hex digits.
    NoHex(Lent<'a>),
    /// So many hex digits.
    LongHex(usize),
    /// A line `SET` without its two operands.
    SettingForm,
    /// A line `SET` with a label.
    LabelledSetting,
    /// No name of a constant.
    ConstantName,
    /// The constant is set on this line already.
    SetAgain { name: Lent<'a>, line: u64 },
    /// This is no value of a constant.
    NoValue(Lent<'a>),
    /// The label is a constant, which is set on this line.
    LabelIsConstant { name: Lent<'a>, line: u64 },
    /// The label is defined on this line already.
    DefinedAgain { name: Lent<'a>, line: u64 },
    /// A string without a label.
    UnlabelledString,
    /// A line `DS` without its one text.
    StringForm,
    /// A string of so many characters.
    LongString(usize),
    /// A no-break space.
    NoBreakSpace,
    /// A typographic quote.
    TypographicQuote,
}

/// Something that is wrong in a line.
#[derive(Drop)]
pub struct Flaw<'a> {
    /// The column of the part in which it is, from 1.
    pub column: usize,
    /// How many bytes after that it is.
    pub after: usize,
    /// What is wrong.
    pub wrong: Wrong<'a>,
}

impl<'a> Flaw<'a> {
    /// Something that is wrong at a column.
    pub fn new(column: usize, wrong: Wrong<'a>) -> Flaw<'a>
        ensures { result ≡ flaw column wrong.entry }
    {
        Flaw::after(column, 0, wrong)
    }

    /// Something that is wrong so many bytes after a column.
    pub fn after(column: usize, after: usize, wrong: Wrong<'a>) -> Flaw<'a>
        ensures { result ≡ flaw_after column after wrong.entry }
    {
        Flaw {
            column,
            after,
            wrong,
        }
    }
}

/// Adds what is wrong, in words.
pub fn push_words(text: &mut Vec<u8>, wrong: Wrong) -> Result<(), AllocError>
    ensures { OnOk result (text.new.items ≡ text.old.items ++ words_of wrong.entry) }
{
    match wrong {
        Wrong::NotClosed => {
            push_sentence(text, &[Bytes(b"the quote that begins here is not closed")])
        }
        Wrong::GoesOn => push_sentence(
            text,
            &[Bytes(b"the quote ends here, and after it comes more")],
        ),
        Wrong::NoCharacter => push_sentence(
            text,
            &[Bytes(b"a quoted character is one from the blank to ~")],
        ),
        Wrong::UnknownStar => push_sentence(
            text,
            &[Bytes(
                b"after a * comes n, t, s, \", ' or *: a line end, a tab, a blank, a quote or the * itself",
            )],
        ),
        Wrong::Backslash => push_sentence(
            text,
            &[Bytes(b"a line end is *n and a tab *t, with a star in place of the backslash")],
        ),
        Wrong::CharacterCount(n) => push_character_count(text, n),
        Wrong::StringElsewhere => {
            push_sentence(text, &[Bytes(b"a text in such quotes is after DS alone")])
        }
        Wrong::NoHex(digits) => push_sentence(
            text,
            &[
                Bytes(b"after 0x come hex digits, and not \""),
                Bytes(digits.bytes()),
                Bytes(b"\""),
            ],
        ),
        Wrong::LongHex(n) => push_sentence(
            text,
            &[
                Bytes(b"a hex number has at most 8 digits, and this one has "),
                Number(n as u64),
            ],
        ),
        Wrong::SettingForm => push_sentence(
            text,
            &[Bytes(b"the line is SET name value, with nothing after")],
        ),
        Wrong::LabelledSetting => push_sentence(
            text,
            &[Bytes(b"a line SET has no label: it gives no bytes")],
        ),
        Wrong::ConstantName => push_sentence(
            text,
            &[Bytes(b"the name of a constant is a letter, and up to 15 letters and digits")],
        ),
        Wrong::SetAgain { name, line } => push_sentence(
            text,
            &[
                Bytes(b"the constant "),
                Bytes(name.bytes()),
                Bytes(b" is set on line "),
                Number(line),
                Bytes(b" already"),
            ],
        ),
        Wrong::NoValue(part) => push_sentence(
            text,
            &[
                Bytes(
                    b"the value is a number, a character, or a constant that is set before, and not ",
                ),
                Bytes(part.bytes()),
            ],
        ),
        Wrong::LabelIsConstant { name, line } => push_sentence(
            text,
            &[
                Bytes(name.bytes()),
                Bytes(b" is a constant, set on line "),
                Number(line),
                Bytes(b", and no label too"),
            ],
        ),
        Wrong::DefinedAgain { name, line } => push_sentence(
            text,
            &[
                Bytes(b"the label "),
                Bytes(name.bytes()),
                Bytes(b" is defined on line "),
                Number(line),
                Bytes(b" already"),
            ],
        ),
        Wrong::UnlabelledString => push_sentence(
            text,
            &[Bytes(b"a string has a label before it, by which it is found")],
        ),
        Wrong::StringForm => push_sentence(
            text,
            &[Bytes(b"the line is DS and a text in double quotes, with nothing after")],
        ),
        Wrong::LongString(n) => push_sentence(
            text,
            &[
                Bytes(b"a string has at most 255 characters, and this one has "),
                Number(n as u64),
            ],
        ),
        Wrong::NoBreakSpace => push_sentence(
            text,
            &[Bytes(b"a no-break space is here, and no blank: the space bar alone makes a blank")],
        ),
        Wrong::TypographicQuote => push_sentence(
            text,
            &[Bytes(b"a typographic quote is here: the quotes of the keyboard are ' and \"")],
        ),
    }
}

// How many characters are between quotes that have one.
fn push_character_count(text: &mut Vec<u8>, n: usize) -> Result<(), AllocError>
    ensures { OnOk result (text.new.items ≡ text.old.items ++ count_words n) }
{
    if n == 0 {
        return push_sentence(
            text,
            &[Bytes(b"one character goes between these quotes, but found none")],
        );
    }
    push_sentence(
        text,
        &[
            Bytes(b"one character goes between these quotes, but found "),
            Number(n as u64),
        ],
    )
}
