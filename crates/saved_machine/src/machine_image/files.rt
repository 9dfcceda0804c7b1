// The files of a saved machine, put on a disc.
ghost use Rattle.std.specs.Prelude.{◌≡◌, IfOk, Ok, false, is_ok};
ghost use Rattle.std.specs.Bool.{MatchBool};
ghost use Rattle.ram_disc.specs.Disc.{empty_disc};
ghost use Rattle.session_text.specs.declared.sessions.LineForm.{LineForm};
ghost use Rattle.kernel_boot.specs.BootFiles.{HasNoStreams, with_new_file};
ghost use Rattle.saved_text.specs.ImageForm.{AreFiles};
ghost use Rattle.saved_machine.specs.MachineImage.Parts.{HaveNoDisc, disc_of_files};

use byte_streams::WantMemory;
use kernel_boot::load_files;
use ram_disc::Disc;
use saved_text::SavedFile;
use session_text::{Bytes, LineForm, SessionLine};
use std::alloc::Global;

/// Puts the files on an empty disc. The answer is false where they are too many, or too large, for any disc. `WantMemory` comes
/// only where memory could not be had.
pub(crate) fn put_files(
    alloc: Global,
    disc: &mut Disc,
    files: &[SavedFile],
) -> Result<bool, WantMemory>
    requires empty { disc.old ≡ empty_disc }
    requires order { AreFiles files.now }
    ensures { IfOk result (λ put.
        MatchBool put (disc.new ≡ disc_of_files files.now) (HaveNoDisc files.now)) }
{
    for file in files {
        if !put_file(alloc, disc, file)? {
            return Ok(false);
        }
    }
    Ok(true)
}

// Puts the file on a disc on which no stream is open, as a session's line does. The answer is false exactly where it is refused.
fn put_file(alloc: Global, disc: &mut Disc, file: &SavedFile) -> Result<bool, WantMemory>
    requires { HasNoStreams disc.old }
    ensures { IfOk result (λ put. MatchBool put
        (with_new_file disc.old file.now.name file.now.bytes ≡ Ok disc.new)
        (is_ok (with_new_file disc.old file.now.name file.now.bytes) ≡ false)) }
{
    let lines = [session_line(alloc, file)?];
    Ok(load_files(disc, &lines).is_ok())
}

// The line of a session with this file.
fn session_line(alloc: Global, file: &SavedFile) -> Result<SessionLine, WantMemory>
    ensures { IfOk result (λ line.
        line.form ≡ LineForm.File file.now.name file.now.bytes) }
{
    let Ok(bytes) = Vec::from_slice(alloc, file.bytes.as_slice()) else {
        return Err(WantMemory);
    };
    Ok(SessionLine {
        line: 0,
        form: LineForm::File {
            name: file.name.copy(),
            bytes: Bytes::new(bytes),
        },
    })
}
