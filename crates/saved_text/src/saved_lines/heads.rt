// The lines of a saved machine's registers, type-ahead, console and shell.
ghost use Rattle.std.specs.Prelude.{◌≡◌, ◌^◌, codes, nat_lt, option_and_then, option_map};
ghost use Rattle.module_text.specs.TextReader.Answers.{Gives};
ghost use Rattle.module_text.specs.TextReader.Fields.{after_word};
ghost use Rattle.saved_text.specs.SavedLines.Heads.{are_regs, console_of, regs_line, regs_or_refusal, ring_of, shell_of, six_numbers};

use crate::saved_lines::hex_text::hex_field;
use module_text::{TextEnd, after_word, number};
use session_text::number_field;
use word_store::Regs;

/// The registers that line n has. Code 1 comes exactly where it is not `REGS` with six numbers, and else code 2 where one
/// of them is no word, or C no byte.
pub fn read_regs(n: u32, line: &[u8]) -> Result<Regs, TextEnd>
    ensures { Gives (λ r. r) result (regs_line n line.now) }
{
    match numbers_of(line) {
        Some((a, b, c, p, g, pc)) => regs_in_range(n, a, b, c, p, g, pc),
        None => Err(TextEnd::Bad { line: n, code: 1 }),
    }
}

fn numbers_of(line: &[u8]) -> Option<(u64, u64, u64, u64, u64, u64)>
    ensures { result ≡ option_and_then six_numbers (after_word (codes "REGS ") line.now) }
{
    six_numbers(after_word(b"REGS ", line)?)
}

// Six numbers between blanks.
fn six_numbers(text: &[u8]) -> Option<(u64, u64, u64, u64, u64, u64)>
    ensures { result ≡ six_numbers text.now }
{
    let (a, rest) = number_field(text)?;
    let (b, rest) = number_field(rest)?;
    let (c, rest) = number_field(rest)?;
    let (p, rest) = number_field(rest)?;
    let (g, rest) = number_field(rest)?;
    let pc = number(rest)?;
    Some((a, b, c, p, g, pc))
}

fn regs_in_range(n: u32, a: u64, b: u64, c: u64, p: u64, g: u64, pc: u64) -> Result<Regs, TextEnd>
    ensures { Gives (λ r. r) result (regs_or_refusal n (a, b, c, p, g, pc)) }
{
    if !are_regs(a, b, c, p, g, pc) {
        return Err(TextEnd::Bad { line: n, code: 2 });
    }
    Ok(Regs {
        a: a as u32,
        b: b as u32,
        c: c as u32,
        p: p as u32,
        g: g as u32,
        pc: pc as u32,
    })
}

fn are_regs(a: u64, b: u64, c: u64, p: u64, g: u64, pc: u64) -> bool
    ensures { result ≡ are_regs a b c p g pc }
{
    is_word(a) && is_word(b) && c < 256 && is_word(p) && is_word(g) && is_word(pc)
}

/// Whether the number is a word.
pub fn is_word(n: u64) -> bool
    ensures { result ≡ nat_lt n (2 ^ 32) }
{
    n < 4_294_967_296
}

/// The digits of a line of type-ahead; `None` exactly where it is none.
pub fn ring_of(line: &[u8]) -> Option<&[u8]>
    ensures { option_map (λ x. x.now) result ≡ ring_of line.now }
{
    hex_field(after_word(b"RING ", line)?)
}

/// The number of a console's line, and its digits; `None` exactly where it is none.
pub fn console_of(line: &[u8]) -> Option<(u64, &[u8])>
    ensures { option_map (λ x. (x.0, x.1.now)) result ≡ console_of line.now }
{
    let text = after_word(b"CONSOLE ", line)?;
    let (d, rest) = number_field(text)?;
    let digits = hex_field(rest)?;
    Some((d, digits))
}

/// The two numbers of a shell's line, and its digits; `None` exactly where it is none.
pub fn shell_of(line: &[u8]) -> Option<(u64, u64, &[u8])>
    ensures { option_map (λ x. (x.0, x.1, x.2.now)) result ≡ shell_of line.now }
{
    let text = after_word(b"SHELL ", line)?;
    let (m, rest) = number_field(text)?;
    let (x, rest) = number_field(rest)?;
    let digits = hex_field(rest)?;
    Some((m, x, digits))
}
