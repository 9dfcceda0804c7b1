// What is after a name.
ghost use Rattle.std.specs.Prelude.{◌≡◌, IsTrue};
ghost use Rattle.assembly.specs.AssemblyText.Names.{has_name_form};
ghost use Rattle.assembly_errors.specs.Takes.{instruction_takes, directive_takes, is_number, is_within, operand_text, range_text, taken_after, taken_by_form};

use assembly::assembly_text::directives::{Directive, directive_named};
use assembly::assembly_text::labels::has_name_form;
use assembly::assembly_text::numbers::is_from_to;
use assembly::assembly_text::read::instruction_named;
use instruction_set::Form;

/// What is after the name of an instruction or a directive.
#[derive(Clone, Copy)]
pub enum Takes {
    /// Nothing.
    Nothing,
    /// A byte.
    Byte,
    /// A byte to which 256 is added.
    BytePlus,
    /// Two bytes.
    Half,
    /// Four bytes.
    Word,
    /// A byte of data.
    DataByte,
    /// Two bytes of data.
    DataHalf,
    /// The number to whose multiples is aligned.
    Boundary,
    /// A label near by.
    Near,
    /// The label of a line that leads on.
    Indirect,
    /// A label to which a halfword leads.
    Reserve,
    /// A label whose address is wanted.
    Address,
    /// A global and its label.
    Global,
}

/// What is after a name; `None` exactly where nothing has that name.
pub fn taken_after(name: &[u8]) -> Option<Takes>
    ensures { result ≡ taken_after name.now }
{
    if !has_name_form(name) {
        return None;
    }
    if let Some(directive) = directive_named(name) {
        return Some(directive_takes(directive));
    }
    instruction_takes(name)
}

fn instruction_takes(name: &[u8]) -> Option<Takes>
    requires { IsTrue (has_name_form name.now) }
    ensures { result ≡ instruction_takes name.now }
{
    match instruction_named(name) {
        Some((_, form)) => Some(taken_by_form(form)),
        None => None,
    }
}

fn directive_takes(directive: Directive) -> Takes
    ensures { result ≡ directive_takes directive }
{
    match directive {
        Directive::Byte => Takes::DataByte,
        Directive::Half => Takes::DataHalf,
        Directive::Word => Takes::Word,
        Directive::Reserve => Takes::Reserve,
        Directive::Address => Takes::Address,
        Directive::Align => Takes::Boundary,
        Directive::Global => Takes::Global,
    }
}

/// What is after the name of an instruction of this form.
pub fn taken_by_form(form: Form) -> Takes
    ensures { result ≡ taken_by_form form }
{
    match form {
        Form::Plain(_) | Form::Switch => Takes::Nothing,
        Form::Byte => Takes::Byte,
        Form::BytePlus => Takes::BytePlus,
        Form::Half => Takes::Half,
        Form::Word => Takes::Word,
        Form::Relative => Takes::Near,
        Form::Indirect => Takes::Indirect,
    }
}

impl Takes {
    ghost use Rattle.std.specs.Prelude.{◌≡◌};
    ghost use Rattle.assembly_errors.specs.Takes.{is_number, is_within, operand_text, range_text};

    /// Whether it is a number of a range.
    pub fn is_number(self) -> bool
        ensures { result ≡ is_number self }
    {
        matches!(
            self,
            Takes::Byte
                | Takes::BytePlus
                | Takes::Half
                | Takes::Word
                | Takes::DataByte
                | Takes::DataHalf
        )
    }

    /// Whether it may be this number.
    pub fn is_within(self, n: i64) -> bool
        ensures { result ≡ is_within self n }
    {
        match self {
            Takes::Byte => is_from_to(0, 255, n),
            Takes::BytePlus => is_from_to(256, 511, n),
            Takes::Half => is_from_to(0, 65_535, n),
            Takes::Word => is_from_to(-2_147_483_648, 4_294_967_295, n),
            Takes::DataByte => is_from_to(-128, 255, n),
            Takes::DataHalf => is_from_to(-32_768, 65_535, n),
            _ => false,
        }
    }

    /// Its range, in words.
    pub fn range_text(self) -> &'static [u8]
        ensures { result.now ≡ range_text self }
    {
        match self {
            Takes::Byte => b"0 to 255",
            Takes::BytePlus => b"256 to 511",
            Takes::Half => b"0 to 65535",
            Takes::Word => b"-2147483648 to 4294967295",
            Takes::DataByte => b"-128 to 255",
            Takes::DataHalf => b"-32768 to 65535",
            _ => b"",
        }
    }

    /// What it is, in words.
    pub fn operand_text(self) -> &'static [u8]
        ensures { result.now ≡ operand_text self }
    {
        match self {
            Takes::Nothing => b"nothing",
            Takes::Byte => b"a number from 0 to 255",
            Takes::BytePlus => b"a number from 256 to 511",
            Takes::Half => b"a number from 0 to 65535",
            Takes::Word => b"a number from -2147483648 to 4294967295",
            Takes::DataByte => b"a number from -128 to 255",
            Takes::DataHalf => b"a number from -32768 to 65535",
            Takes::Boundary => b"the number 2 or 4",
            Takes::Global => b"a number from 1 to 1000 and a label",
            _ => b"a label",
        }
    }
}
