// The open streams of a saved machine, set on a disc.
ghost use Rattle.std.specs.Prelude.{◌≡◌};
ghost use Rattle.std.specs.Bool.{MatchBool};
ghost use Rattle.ram_disc.specs.Disc.{IsDisc};
ghost use Rattle.kernel_boot.specs.BootFiles.{HasNoStreams};
ghost use Rattle.saved_text.specs.ImageForm.{AreStreams};
ghost use Rattle.saved_machine.specs.MachineImage.Parts.{with_streams};

use ram_disc::Disc;
use saved_text::SavedStream;

/// Sets the streams on a disc on which none is open. The answer is false where no valid disc has its files and these streams.
pub(crate) fn set_streams(disc: &mut Disc, streams: &[SavedStream]) -> bool
    requires none { HasNoStreams disc.old }
    requires order { AreStreams 0 streams.now }
    ensures { MatchBool result (disc.new ≡ with_streams disc.old streams.now)
        (IsDisc (with_streams disc.old streams.now) → ⊥) }
{
    for stream in streams {
        if !disc.restore_stream(stream.k, &stream.name, stream.position, stream.writes) {
            return false;
        }
    }
    true
}
