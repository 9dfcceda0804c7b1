// What the rest of a line gives a command: texts, names and numbers.
ghost use Rattle.std.specs.Prelude.{◌≡◌, ◌<◌, ◌^◌, IfOk, length};
ghost use Rattle.command_lines.specs.Arguments.{AreInside, IsInside, arguments, is_set, name_of, number_of, option_number_of, text_of};

use crate::argument_templates::{Arg, read_args};
use module_text::any_number;
use ram_disc::Name;
use ram_disc::codes::BAD_NAME;

/// The code of an argument that is no number.
const NO_NUMBER: u32 = 55;

/// What a line gives the entries of a template, in their order, or the code of the refusal.
pub fn read_arguments(template: &[u8], line: &[u8]) -> Result<[Arg; 8], u32>
    requires { length line.now < 2 ^ 32 }
    ensures value { result ≡ arguments template.now line.now }
    ensures inside { IfOk result (λ args. AreInside (length line.now) args) }
{
    let mut args = [Arg::Unset; 8];
    read_args(template, line, &mut args)?;
    Ok(args)
}

/// What is in the line as the value of an entry; no bytes where it is given none.
pub fn text(line: &[u8], arg: Arg) -> &[u8]
    requires { IsInside (length line.now) arg }
    ensures { result.now ≡ text_of line.now arg }
{
    match arg {
        Arg::Span { from, to } => &line[from as usize..to as usize],
        Arg::Unset | Arg::Switch => &[],
    }
}

/// Whether an entry is given anything.
pub fn is_set(arg: Arg) -> bool
    ensures { result ≡ is_set arg }
{
    !matches!(arg, Arg::Unset)
}

/// The name that a text is, or code 40.
pub fn name(text: &[u8]) -> Result<Name, u32>
    ensures { result ≡ name_of text.now }
{
    Name::read(text).ok_or(BAD_NAME)
}

/// The decimal number below 2 ^ 32 that a text is, or code 55. It has any number of digits, and zeros may lead.
pub fn number(text: &[u8]) -> Result<u32, u32>
    ensures { result ≡ number_of text.now }
{
    let n = any_number(text).ok_or(NO_NUMBER)?;
    u32::try_from(n).map_err(|_| NO_NUMBER)
}

/// The number that an entry is given, where it is given one, or code 55.
pub fn option_number(line: &[u8], arg: Arg) -> Result<Option<u32>, u32>
    requires { IsInside (length line.now) arg }
    ensures { result ≡ option_number_of line.now arg }
{
    if is_set(arg) {
        Ok(Some(number(text(line, arg))?))
    } else {
        Ok(None)
    }
}
