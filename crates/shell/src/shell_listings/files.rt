// The files of a disc.
ghost use Rattle.std.specs.Prelude.{◌≡◌, ◌+◌, ◌≤◌, ◌++◌, length};
ghost use Rattle.ram_disc.specs.Disc.{IsDisc};
ghost use Rattle.shell.specs.ShellListings.FileLines.{file_lines, most_in_file_line, most_in_files, name_and_size};

use crate::shell_listings::columns::{append_left, append_right};
use byte_streams::Output;
use ram_disc::{Disc, END_OF_FILES, Name};

/// Writes a line for each file, in byte order of their names: the name left in 12 places, a space, and the size right in 8 places.
#[tactic(auto, unfolding(crate::specs::ShellListings::FileLines::file_lines))]
pub fn write_files(disc: &Disc, bytes: &mut Output)
    requires valid { IsDisc disc.now }
    requires room { length bytes.old + most_in_files ≤ 8192 }
    ensures text { bytes.new ≡ bytes.old ++ file_lines disc.now }
    ensures short { length bytes.new ≤ length bytes.old + most_in_files }
{
    for k in 1..END_OF_FILES {
        let Some((name, size)) = disc.nth(k) else {
            return;
        };
        write_file(&name, size, bytes);
    }
}

fn write_file(name: &Name, size: u32, bytes: &mut Output)
    requires { length bytes.old + most_in_file_line ≤ 8192 }
    ensures text { bytes.new ≡ bytes.old ++ name_and_size name.now size }
    ensures short { length bytes.new ≤ length bytes.old + most_in_file_line }
{
    append_left(bytes, name.bytes());
    bytes.append(b" ");
    append_right(bytes, 8, size);
    bytes.append(b"\n");
}
