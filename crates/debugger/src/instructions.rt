// The listing of a store.
ghost use Rattle.std.specs.Prelude.{◌≡◌};
ghost use Rattle.byte_streams.specs.Pending.{Gathers};
ghost use Rattle.byte_streams.specs.Sinks.{FailsBySink, GathersFor};
ghost use Rattle.debugger.specs.Texts.{code_end, instructions_text};

use assembly::gather_line;
use byte_streams::{Output, Sink, SinkFault};
use word_store::Store;

/// Gathers at most so many lines of the listing of a store, from a byte address on.
pub fn gather_instructions<K: Sink>(
    store: &Store,
    from: u32,
    count: u32,
    out: &mut K,
    pending: &mut Output,
) -> Result<(), SinkFault>
    ensures text { GathersFor K.Sink out.old out.new pending.old pending.new
        (instructions_text from count store.now) result }
    ensures cause { FailsBySink K.Sink out.old out.new result }
{
    let end = code_end(store);
    let mut place = u64::from(from);
    for _ in 0..count {
        if place >= end {
            return Ok(());
        }
        let length = gather_line(store, place as u32, out, pending)?;
        place += u64::from(length);
    }
    Ok(())
}

// The bytes that byte addresses reach.
fn code_end(store: &Store) -> u64
    ensures { result ≡ code_end store.now }
{
    (4 * u64::from(store.size())).min(1 << 32)
}
