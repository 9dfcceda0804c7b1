// The disc of a saved machine.
ghost use Rattle.std.specs.Prelude.{◌≡◌, IfOk, MatchOption};
ghost use Rattle.ram_disc.specs.Disc.{IsDisc};
ghost use Rattle.saved_text.specs.ImageForm.{AreEntries};
ghost use Rattle.saved_machine.specs.MachineImage.Parts.{disc_with};

use crate::machine_image::files::put_files;
use crate::machine_image::streams::set_streams;
use byte_streams::WantMemory;
use ram_disc::Disc;
use saved_text::Image;
use std::alloc::Global;

/// The disc with the files and the open streams of a saved machine, or `None` exactly where these are no valid disc: there are
/// more than 64 files, they take more than 4,096 sectors, or a stream is open on no file, after its end, or beside another one
/// where one of them writes, writes anywhere but at its end, or is the shell's and writes. `WantMemory` comes only where memory
/// could not be had.
pub(crate) fn disc_of(alloc: Global, image: &Image) -> Result<Option<Disc>, WantMemory>
    requires { AreEntries image.now }
    ensures { IfOk result (λ found. MatchOption found
        (IsDisc (disc_with image.now.files image.now.streams) → ⊥)
        (λ d. (d ≡ disc_with image.now.files image.now.streams) × IsDisc d)) }
{
    let mut disc = Disc::new(alloc)?;
    if !put_files(alloc, &mut disc, image.files.as_slice())? {
        return Ok(None);
    }
    if !set_streams(&mut disc, image.streams.as_slice()) {
        return Ok(None);
    }
    // Whatever stream is asked for, the disc is a valid one.
    disc.stream(1);
    Ok(Some(disc))
}
