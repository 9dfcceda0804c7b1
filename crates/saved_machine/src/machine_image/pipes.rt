// The pipes of a saved machine.
ghost use Rattle.std.specs.Prelude.{◌≡◌, IfOk, MatchOption};
ghost use Rattle.std.specs.Bool.{MatchBool};
ghost use Rattle.kernel_model.specs.KernelRecord.Pipes.{ArePipes, no_pipes};
ghost use Rattle.saved_text.specs.ImageForm.{ArePipes as AreSavedPipes};
ghost use Rattle.saved_machine.specs.MachineImage.Parts.{placed_pipes};

use byte_streams::WantMemory;
use resident_tasks::Pipes;
use saved_text::SavedPipe;
use std::alloc::Global;

/// The pipes of a saved machine in their places, or `None` exactly where these are no valid pipes: two have one name, or one has
/// no open end, has an open writing end that was never opened, or holds more than 1,024 bytes. `WantMemory` comes only where
/// memory could not be had.
pub(crate) fn pipes_of(alloc: Global, pipes: &[SavedPipe]) -> Result<Option<Pipes>, WantMemory>
    requires { AreSavedPipes 0 pipes.now }
    ensures { IfOk result (λ found. MatchOption found (ArePipes (placed_pipes pipes.now) → ⊥)
        (λ ps. (ps ≡ placed_pipes pipes.now) × ArePipes ps)) }
{
    let mut restored = Pipes::new(alloc)?;
    if !restore_pipes(&mut restored, pipes) {
        return Ok(None);
    }
    // Whatever pipe is asked for, these are valid ones.
    restored.pipe(1);
    Ok(Some(restored))
}

// Restores the pipes where there are none. The answer is false where they are no valid pipes.
fn restore_pipes(restored: &mut Pipes, pipes: &[SavedPipe]) -> bool
    requires none { restored.old ≡ no_pipes }
    requires order { AreSavedPipes 0 pipes.now }
    ensures { MatchBool result (restored.new ≡ placed_pipes pipes.now)
        (ArePipes (placed_pipes pipes.now) → ⊥) }
{
    for pipe in pipes {
        let ends = (pipe.reading, pipe.writing, pipe.written);
        if !restored.restore(pipe.k, ends, &pipe.name, pipe.held.as_slice()) {
            return false;
        }
    }
    true
}
