// Lines that are checked before any is done.
ghost use Rattle.std.specs.Prelude.{◌≡◌, ◌<◌, ◌+◌, ◌^◌, Some, None, MatchResult, length};
ghost use Rattle.module_text.specs.TextReader.Lines.{lines_of};
ghost use Rattle.debugger.specs.OrderLines.{first_bad, goes_back};

use crate::orders::order_of;
use crate::{BadLine, Order};
use module_text::split_line;

/// Whether each of these lines asks for something; the first of them has the number `first`. The first that does not is the answer.
pub fn check_lines(lines: &[u8], first: u32) -> Result<(), BadLine>
    requires { first + length lines.now < 2 ^ 32 }
    ensures { MatchResult result (λ _. first_bad first (lines_of lines.now) ≡ None)
        (λ line. first_bad first (lines_of lines.now) ≡ Some line) }
{
    let mut n = first;
    let mut rest = lines;
    while let Some((line, others)) = split_line(rest) {
        order_of(n, line)?;
        n += 1;
        rest = others;
    }
    Ok(())
}

/// Whether some of these lines asks for steps to be undone.
pub fn goes_back(lines: &[u8]) -> bool
    ensures { result ≡ goes_back (lines_of lines.now) }
{
    let mut rest = lines;
    while let Some((line, others)) = split_line(rest) {
        if let Ok(Order::Back(_)) = order_of(0, line) {
            return true;
        }
        rest = others;
    }
    false
}
