// The pipes of a machine's text.
ghost use Rattle.std.specs.Prelude.{◌≡◌, map, slice_get};
ghost use Rattle.saved_text.specs.ImageForm.{pipe_statement};
ghost use Rattle.byte_streams.specs.Sinks.{FailsBySink, GathersFor};
ghost use Rattle.kernel_model.specs.KernelRecord.Pipes.{ArePipes};
ghost use Rattle.resident_tasks.specs.PipeHandler.PipeCalls.{held_by, pipe_numbered};
ghost use Rattle.saved_machine.specs.ImagePrint.SavedImage.{at_place, numbered_pipes, saved_pipe};
ghost use Rattle.saved_machine.specs.ImagePrint.Private.Texts.{statements_text};

use crate::image_print::residents::flag;
use arrayvec::ArrayVec;
use byte_streams::{Output, Sink, SinkFault};
use kernel_model::numbers::{END_OF_PIPES, MOST_HELD};
use module_text::SliceText;
use resident_tasks::Pipes;
use saved_text::saved_lines::print_pipe;

/// The most bytes that a pipe holds, as the places of a walk along them are counted.
const PLACES: u32 = MOST_HELD as u32;

/// Adds a line for each pipe to what is pending, in the order of their numbers.
pub(crate) fn print_pipes<K: Sink>(
    pipes: &Pipes,
    out: &mut K,
    pending: &mut Output,
) -> Result<(), SinkFault>
    requires { ArePipes pipes.now }
    ensures text { GathersFor K.Sink out.old out.new pending.old pending.new
        (statements_text (map pipe_statement (numbered_pipes pipes.now))) result }
    ensures cause { FailsBySink K.Sink out.old out.new result }
{
    for k in 1..END_OF_PIPES {
        print_pipe_at(pipes, k, out, pending)?;
    }
    Ok(())
}

// The line of pipe k, if it is there.
fn print_pipe_at<K: Sink>(
    pipes: &Pipes,
    k: u32,
    out: &mut K,
    pending: &mut Output,
) -> Result<(), SinkFault>
    ensures text { GathersFor K.Sink out.old out.new pending.old pending.new
        (statements_text (map pipe_statement (at_place saved_pipe k (pipe_numbered pipes.now k))))
        result }
    ensures cause { FailsBySink K.Sink out.old out.new result }
{
    let Some(pipe) = pipes.pipe(k) else {
        return Ok(());
    };
    let (reading, writing, written) = pipe.ends();
    let held = held_by(pipes, k);
    print_pipe(
        u64::from(k),
        (flag(reading), flag(writing), flag(written)),
        pipe.name().bytes(),
        &SliceText::new(held.as_slice()),
        out,
        pending,
    )
}

// The bytes that pipe k holds; none where it is not there.
pub(crate) fn held_by(pipes: &Pipes, k: u32) -> ArrayVec<u8, 1024>
    requires { ArePipes pipes.now }
    ensures { result.items ≡ held_by (pipe_numbered pipes.now k) }
{
    let mut held = ArrayVec::new();
    for i in 0..PLACES {
        let Some(byte) = byte_at(pipes, k, i) else {
            return held;
        };
        held.push(byte);
    }
    held
}

// Byte i of those that pipe k holds, or `None` exactly where it holds no more than i.
fn byte_at(pipes: &Pipes, k: u32, i: u32) -> Option<u8>
    ensures { result ≡ slice_get (held_by (pipe_numbered pipes.now k)) i }
{
    pipes.pipe(k)?.at(i)
}
