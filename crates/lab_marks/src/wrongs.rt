// What is wrong in the marks of a lab, or in a file with values, in words.

use std::alloc::AllocError;
use tool_texts::Said::Bytes;
use tool_texts::{Lent, push_sentence};

/// What is wrong in a line.
#[derive(Drop)]
pub enum Wrong<'a> {
    /// No value has this name.
    NoName(Lent<'a>),
    /// A number is divided by 0.
    DivisionByZero,
    /// A `(` has no `)`.
    OpenParenthesis,
    /// A number or a name is due where this rest of an expression begins.
    NoOperand(Lent<'a>),
    /// This is no expression.
    NoExpression(Lent<'a>),
    /// A value has more digits than a value may have.
    LongValue,
    /// A `{` has no `}`.
    OpenBrace,
    /// A quote around a word of a session is not closed.
    OpenQuote,
    /// A mark has no points, or none that are a number.
    MarkForm,
    /// The mark that ends here has no expectation.
    NoExpectations,
    /// A line of a text has no expectation before it.
    NoExpectation,
    /// This line has no mark before it.
    NoMark,
    /// A line `repeat` has another form.
    RepeatForm,
    /// A line `repeat` has more lines than it may have.
    ManyLines,
    /// A line `tries` has another form.
    TriesForm,
    /// The periods of a line `tries` are none.
    Periods,
    /// A line `size` has another form.
    SizeForm,
    /// No line of a mark begins with this word.
    NoLine(Lent<'a>),
}

/// Adds what is wrong, in words.
pub fn push_words(text: &mut Vec<u8>, wrong: &Wrong) -> Result<(), AllocError> {
    match wrong {
        Wrong::NoName(name) => push_sentence(
            text,
            &[Bytes(b"no value has the name "), Bytes(name.bytes())],
        ),
        Wrong::NoOperand(rest) => push_sentence(
            text,
            &[
                Bytes(b"a number or a name is due at \""),
                Bytes(rest.bytes()),
                Bytes(b"\""),
            ],
        ),
        Wrong::NoExpression(said) => {
            push_sentence(text, &[Bytes(b"no expression: "), Bytes(said.bytes())])
        }
        Wrong::NoLine(kind) => push_sentence(
            text,
            &[
                Bytes(b"no line of a mark begins with "),
                Bytes(kind.bytes()),
            ],
        ),
        wrong => push_sentence(text, &[Bytes(fixed_words(wrong))]),
    }
}

// The words for what is wrong, where they are always the same.
fn fixed_words(wrong: &Wrong) -> &'static [u8] {
    match wrong {
        Wrong::DivisionByZero => b"a division by 0",
        Wrong::OpenParenthesis => b"a ) is missing",
        Wrong::LongValue => b"a value has more than 15 digits",
        Wrong::OpenBrace => b"a } is missing",
        Wrong::OpenQuote => b"a quote is not closed",
        Wrong::MarkForm => b"mark POINTS TEXT",
        Wrong::NoExpectations => b"the mark before this line expects nothing",
        Wrong::NoExpectation => b"no expectation is before this line",
        Wrong::NoMark => b"this line is before the first mark, or is none",
        Wrong::RepeatForm => b"repeat NAME FROM TO |TEXT",
        Wrong::ManyLines => b"a line is repeated more than 1000000 times",
        Wrong::TriesForm => b"tries tick FROM TO",
        Wrong::Periods => b"the periods are from 1 to 1000000, the first and then the last",
        Wrong::SizeForm => b"size NAME MOST",
        Wrong::NoName(_) | Wrong::NoOperand(_) | Wrong::NoExpression(_) | Wrong::NoLine(_) => b"",
    }
}
