// Lines that say one number.
ghost use Rattle.std.specs.Prelude.{◌≡◌, ◌+◌, ◌≤◌, ◌++◌, length};
ghost use Rattle.shell.specs.ShellListings.NumberLines.{error_line, most_in_number_line, number_line, return_code_line, task_number_line};

use crate::shell_listings::columns::append_number;
use byte_streams::Output;

/// Writes the code of a refusal.
pub fn write_error(code: u32, bytes: &mut Output)
    requires room { length bytes.old + most_in_number_line ≤ 8192 }
    ensures text { bytes.new ≡ bytes.old ++ error_line code }
    ensures short { length bytes.new ≤ length bytes.old + most_in_number_line }
{
    write_number(b"Error ", code, bytes);
}

/// Writes the result of a program, without a sign.
pub fn write_return_code(value: u32, bytes: &mut Output)
    requires room { length bytes.old + most_in_number_line ≤ 8192 }
    ensures text { bytes.new ≡ bytes.old ++ return_code_line value }
    ensures short { length bytes.new ≤ length bytes.old + most_in_number_line }
{
    write_number(b"Return code ", value, bytes);
}

/// Writes the number of a task that was started.
pub fn write_task_number(id: u32, bytes: &mut Output)
    requires room { length bytes.old + most_in_number_line ≤ 8192 }
    ensures text { bytes.new ≡ bytes.old ++ task_number_line id }
    ensures short { length bytes.new ≤ length bytes.old + most_in_number_line }
{
    write_number(b"Task ", id, bytes);
}

fn write_number(text: &[u8], n: u32, bytes: &mut Output)
    requires few { length text.now ≤ 12 }
    requires room { length bytes.old + most_in_number_line ≤ 8192 }
    ensures text { bytes.new ≡ bytes.old ++ number_line text.now n }
    ensures short { length bytes.new ≤ length bytes.old + most_in_number_line }
{
    bytes.append(text);
    append_number(bytes, n);
    bytes.append(b"\n");
}
