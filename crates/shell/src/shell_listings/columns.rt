// Numbers and spaces of a text.
ghost use Rattle.std.specs.Prelude.{◌≡◌, ◌+◌, ◌≤◌, ◌++◌, decimal, length, replicate};
ghost use Rattle.shell.specs.ShellListings.Columns.{left_in, right_in};

use byte_streams::Output;
use itoa::Buffer;

/// The most spaces that a column needs.
const MOST_SPACES: usize = 12;

/// Adds a number in decimal, which has at most 10 digits.
#[tactic(auto, using(resident_tasks::proofs::FaultReporter::ReportLines::few_digits))]
pub(crate) fn append_number(bytes: &mut Output, n: u32)
    requires { length bytes.old + 10 ≤ 8192 }
    ensures text { bytes.new ≡ bytes.old ++ decimal n }
    ensures short { length bytes.new ≤ length bytes.old + 10 }
{
    let mut buffer = Buffer::new();
    bytes.append(buffer.format(n).as_bytes());
}

/// Adds a number in decimal, right in so many places.
#[tactic(auto, using(resident_tasks::proofs::FaultReporter::ReportLines::few_digits))]
pub(crate) fn append_right(bytes: &mut Output, places: usize, n: u32)
    requires few { places ≤ 10 }
    requires room { length bytes.old + 10 ≤ 8192 }
    ensures text { bytes.new ≡ bytes.old ++ right_in places (decimal n) }
    ensures short { length bytes.new ≤ length bytes.old + 10 }
{
    let mut buffer = Buffer::new();
    let digits = buffer.format(n).as_bytes();
    append_spaces(bytes, places.saturating_sub(digits.len()));
    bytes.append(digits);
}

/// Adds a text of at most 12 bytes, left in 12 places.
pub(crate) fn append_left(bytes: &mut Output, text: &[u8])
    requires few { length text.now ≤ 12 }
    requires room { length bytes.old + 12 ≤ 8192 }
    ensures text { bytes.new ≡ bytes.old ++ left_in 12 text.now }
    ensures short { length bytes.new ≤ length bytes.old + 12 }
{
    bytes.append(text);
    append_spaces(bytes, MOST_SPACES - text.len());
}

fn append_spaces(bytes: &mut Output, count: usize)
    requires few { count ≤ 12 }
    requires room { length bytes.old + count ≤ 8192 }
    ensures { bytes.new ≡ bytes.old ++ replicate count 32 }
{
    let spaces = [b' '; MOST_SPACES];
    bytes.append(&spaces[..count]);
}
