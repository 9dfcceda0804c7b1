// Lines that name a label.
ghost use Rattle.std.specs.Prelude.{◌≡◌, ◌≤◌};

use assembly::assembly_text::statements::Statement;
use std::marker::Model;
use tool_texts::Lent;

/// A line that names a label, where its bytes begin within a hunk.
#[derive(Drop)]
pub struct Lead<'a> {
    /// The number of the line, from 1.
    number: u32,
    /// The line.
    text: Lent<'a>,
    /// Where the bytes of the lines before it end.
    offset: u32,
    /// What it says.
    statement: Statement<'a>,
}

impl<'a> Model for Lead<'a> {
    ghost use Rattle.std.specs.Prelude.{◌≤◌};
    ghost use Rattle.assembly_errors.specs.Leads.{NamingLine};

    ghost Value = { NamingLine };

    ghost view = { λ l. record { number = l.number; text = l.text; offset = l.offset; statement = l.statement } };

    ghost invariant = { λ l. l.offset ≤ 262144 };
}

impl<'a> Lead<'a> {
    ghost use Rattle.std.specs.Prelude.{◌≡◌, ◌≤◌};

    /// The line with this number, after lines whose bytes end at the offset.
    pub fn new(number: u32, text: &'a [u8], offset: u32, statement: Statement<'a>) -> Lead<'a>
        requires { offset ≤ 262144 }
        ensures { result
            ≡ record { number = number; text = text.now; offset = offset; statement = statement.entry } }
    {
        Lead {
            number,
            text: Lent::new(text),
            offset,
            statement,
        }
    }

    /// The number of the line.
    pub fn number(&self) -> u32
        ensures { result ≡ self.now.number }
    {
        self.number
    }

    /// The line.
    pub fn text(&self) -> &'a [u8]
        ensures { result.now ≡ self.now.text }
    {
        self.text.bytes()
    }

    /// Where the bytes of the lines before it end.
    pub fn offset(&self) -> u32
        ensures value { result ≡ self.now.offset }
        ensures low { result ≤ 262144 }
    {
        self.offset
    }

    /// What it says.
    pub fn statement(&self) -> &Statement<'a>
        ensures { result.now ≡ self.now.statement }
    {
        &self.statement
    }
}
