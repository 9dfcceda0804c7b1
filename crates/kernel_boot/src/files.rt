// The files of a session.
ghost use Rattle.std.specs.Prelude.{◌≡◌, ◌≤◌, ℕ, List, []};
ghost use Rattle.ram_disc.specs.Disc.{File, most_sectors, sectors_taken};
ghost use Rattle.kernel_boot.specs.BootFiles.{HasNoStreams, IsAppended, IsNewDisc, load_files, load_form, with_new_file, writing};

use crate::BootRefusal;
use ram_disc::codes::NAME_TAKEN;
use ram_disc::{Disc, Name};
use session_text::{LineForm, SessionLine};

/// The most bytes that are appended at a time.
const PIECE: usize = 4096;

/// Puts the files of a session's lines on the disc, on which no stream is open, in the order of the lines. All other lines
/// are passed over. The first line that is refused is the answer, with its code: a file has the name (42), there are 64 files
/// (44), or the disc has no room for the bytes (43).
pub fn load_files(disc: &mut Disc, lines: &[SessionLine]) -> Result<(), BootRefusal>
    requires { HasNoStreams disc.old }
    ensures { IsNewDisc disc.new result (load_files disc.old lines.now) }
{
    for line in lines {
        if let Err(code) = load_form(disc, &line.form) {
            return Err(BootRefusal {
                line: line.line,
                code,
            });
        }
    }
    Ok(())
}

// What a line puts on the disc.
fn load_form(disc: &mut Disc, form: &LineForm) -> Result<(), u32>
    requires { HasNoStreams disc.old }
    ensures { IsNewDisc disc.new result (load_form disc.old form.now) }
{
    match form {
        LineForm::File { name, bytes } => load_file(disc, name, bytes.as_slice()),
        LineForm::Code(_) | LineForm::Task { .. } => Ok(()),
    }
}

// A file with these bytes.
fn load_file(disc: &mut Disc, name: &Name, bytes: &[u8]) -> Result<(), u32>
    requires { HasNoStreams disc.old }
    ensures { IsNewDisc disc.new result (with_new_file disc.old name.now bytes.now) }
{
    if disc.size(name).is_some() {
        return Err(NAME_TAKEN);
    }
    let stream = disc.open_write(name)?;
    append_all(disc, stream, bytes)?;
    disc.close(stream)
}

// Writes the bytes, piece by piece, into the empty file on which the first stream is open.
fn append_all(disc: &mut Disc, stream: u32, bytes: &[u8]) -> Result<(), u32>
    requires first { stream ≡ 1 }
    requires empty { (others : List File) × (name : List ℕ) × (disc.old ≡ writing others name [])
        × (sectors_taken (writing others name []).files ≤ most_sectors) }
    ensures { (others : List File) (name : List ℕ) → disc.old ≡ writing others name []
        → IsAppended disc.new result (writing others name bytes.now) }
{
    let mut done = 0;
    while done < bytes.len() {
        let end = bytes.len().min(done + PIECE);
        disc.append(stream, &bytes[done..end])?;
        done = end;
    }
    Ok(())
}
