// The keys of a machine's text.
ghost use Rattle.std.specs.Prelude.{map};
ghost use Rattle.saved_text.specs.ImageForm.{key_statement};
ghost use Rattle.byte_streams.specs.Sinks.{FailsBySink, GathersFor};
ghost use Rattle.kernel_machine.specs.RunningMachine.Script.{still_to_come};
ghost use Rattle.saved_machine.specs.ImagePrint.Private.Texts.{statements_text};

use byte_streams::{Output, Sink, SinkFault};
use kernel_machine::Parts as KernelParts;
use saved_text::saved_lines::print_key;

/// Adds a line for each key that is still to come to what is pending.
pub(crate) fn print_coming_keys<K: Sink>(
    parts: &KernelParts,
    out: &mut K,
    pending: &mut Output,
) -> Result<(), SinkFault>
    ensures text { GathersFor K.Sink out.old out.new pending.old pending.new
        (statements_text (map key_statement (still_to_come parts.now.keys))) result }
    ensures cause { FailsBySink K.Sink out.old out.new result }
{
    print_keys(parts.keys.rest(), out, pending)
}

// A line for each of these keys.
fn print_keys<K: Sink>(
    keys: &[(u32, u8)],
    out: &mut K,
    pending: &mut Output,
) -> Result<(), SinkFault>
    ensures text { GathersFor K.Sink out.old out.new pending.old pending.new
        (statements_text (map key_statement keys.now)) result }
    ensures cause { FailsBySink K.Sink out.old out.new result }
{
    for key in keys {
        print_key(key.0, key.1, out, pending)?;
    }
    Ok(())
}
