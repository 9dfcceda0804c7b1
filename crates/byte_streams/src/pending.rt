// Output that is gathered before it goes to a sink.
ghost use Rattle.std.specs.Prelude.{◌≡◌, []};
ghost use Rattle.byte_streams.specs.Sinks.{FailsBySink, GathersFor, PrintsTo};

use crate::{Output, Sink, SinkFault, write_text};

/// Adds a text to what is pending. Where there is no room for it, what is pending goes to the sink
/// first, and then so does a text that is longer than all the room. `SinkFault` comes only where the
/// sink's count of faults rose; then a prefix of what was pending, and of the text after it, has gone
/// to the sink.
pub fn gather<K: Sink>(out: &mut K, pending: &mut Output, text: &[u8]) -> Result<(), SinkFault>
    ensures text { GathersFor K.Sink out.old out.new pending.old pending.new
        text.now result }
    ensures cause { FailsBySink K.Sink out.old out.new result }
{
    if text.len() <= pending.room() {
        pending.append(text);
        return Ok(());
    }
    pass_on(out, pending)?;
    if text.len() <= pending.room() {
        pending.append(text);
        return Ok(());
    }
    write_text(out, text)
}

/// Passes on what is pending. `SinkFault` comes only where the sink's count of faults rose; then a
/// prefix of it has gone to the sink, and the rest is lost.
pub fn pass_on<K: Sink>(out: &mut K, pending: &mut Output) -> Result<(), SinkFault>
    ensures text { PrintsTo K.Sink out.old out.new pending.old result }
    ensures none { pending.new ≡ [] }
    ensures cause { FailsBySink K.Sink out.old out.new result }
{
    let result = write_text(out, pending.bytes());
    pending.clear();
    result
}
