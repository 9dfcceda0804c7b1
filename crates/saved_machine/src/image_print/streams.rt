// The open streams of a machine's text.
ghost use Rattle.std.specs.Prelude.{◌<◌, map};
ghost use Rattle.saved_text.specs.ImageForm.{stream_statement};
ghost use Rattle.ram_disc.specs.Disc.{IsDisc, stream_at};
ghost use Rattle.byte_streams.specs.Sinks.{FailsBySink, GathersFor};
ghost use Rattle.saved_machine.specs.ImagePrint.SavedImage.{at_place, numbered_streams, saved_stream};
ghost use Rattle.saved_machine.specs.ImagePrint.Private.Texts.{statements_text};

use crate::image_print::residents::flag;
use byte_streams::{Output, Sink, SinkFault};
use ram_disc::{Disc, END_OF_STREAMS};
use saved_text::saved_lines::print_stream;

/// Adds a line for each stream that is open to what is pending, in the order of their numbers.
pub(crate) fn print_streams<K: Sink>(
    disc: &Disc,
    out: &mut K,
    pending: &mut Output,
) -> Result<(), SinkFault>
    requires { IsDisc disc.now }
    ensures text { GathersFor K.Sink out.old out.new pending.old pending.new
        (statements_text (map stream_statement (numbered_streams disc.now.streams))) result }
    ensures cause { FailsBySink K.Sink out.old out.new result }
{
    for k in 1..END_OF_STREAMS {
        print_stream_at(disc, k, out, pending)?;
    }
    Ok(())
}

// The line of stream k, if it is open.
fn print_stream_at<K: Sink>(
    disc: &Disc,
    k: u32,
    out: &mut K,
    pending: &mut Output,
) -> Result<(), SinkFault>
    ensures text { GathersFor K.Sink out.old out.new pending.old pending.new
        (statements_text (map stream_statement (at_place saved_stream k (stream_at disc.now k))))
        result }
    ensures cause { FailsBySink K.Sink out.old out.new result }
{
    let Some((name, position, writes)) = disc.stream(k) else {
        return Ok(());
    };
    let (k, position) = (u64::from(k), u64::from(position));
    print_stream(k, flag(writes), position, name.bytes(), out, pending)
}
