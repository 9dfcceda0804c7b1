// The fields of a line.
ghost use Rattle.std.specs.Prelude.{◌≡◌, ◌<◌, ◌^◌, IfOk};
ghost use Rattle.std.specs.Option.{option_copied};
ghost use Rattle.module_text.specs.TextReader.Answers.{Gives};
ghost use Rattle.module_text.specs.TextReader.Fields.{after_word, number_after};

use crate::text_reader::TextEnd;
use crate::text_reader::numbers::number;

/// What follows a word at the front of a line; `None` exactly where the line does not begin with it.
pub fn after_word<'a>(word: &[u8], line: &'a [u8]) -> Option<&'a [u8]>
    ensures { option_copied result ≡ after_word word.now line.now }
{
    line.strip_prefix(word)
}

/// The number of line n, where that is a word and 1 to 10 digits; else code 1.
pub fn number_after(word: &[u8], n: u32, line: &[u8]) -> Result<u64, TextEnd>
    ensures value { Gives (λ x. x) result (number_after word.now n line.now) }
    ensures small { IfOk result (λ x. x < 10 ^ 10) }
{
    after_word(word, line)
        .and_then(number)
        .ok_or(TextEnd::Bad { line: n, code: 1 })
}
