// The bytes that a step writes to the console.
ghost use Rattle.std.specs.List.{flat_map};
ghost use Rattle.std.specs.Prelude.{◌≡◌, ◌∷◌, []};
ghost use Rattle.hex.specs.Hex.{encode_lower};
ghost use Rattle.byte_streams.specs.Pending.{Gathers};
ghost use Rattle.byte_streams.specs.Sinks.{FailsBySink, GathersFor};
ghost use Rattle.show_run.specs.StepLog.Console.{console_lines, shown};

use crate::step_log::moments::{Moment, gather_start};
use byte_streams::Piece::Text;
use byte_streams::{Output, Sink, SinkFault, gather, gather_pieces};

/// Gathers the line of the bytes that were written; none where there are none.
pub(crate) fn gather_console<K: Sink>(
    m: Moment,
    bytes: &[u8],
    out: &mut K,
    pending: &mut Output,
) -> Result<(), SinkFault>
    ensures text { GathersFor K.Sink out.old out.new pending.old pending.new
        (console_lines m bytes.now) result }
    ensures cause { FailsBySink K.Sink out.old out.new result }
{
    if bytes.is_empty() {
        return Ok(());
    }
    gather_start(m, &[Text(b"console \"")], out, pending)?;
    gather_shown(bytes, out, pending)?;
    gather(out, pending, b"\"\n")
}

fn gather_shown<K: Sink>(bytes: &[u8], out: &mut K, pending: &mut Output) -> Result<(), SinkFault>
    ensures text { GathersFor K.Sink out.old out.new pending.old pending.new
        (flat_map shown bytes.now) result }
    ensures cause { FailsBySink K.Sink out.old out.new result }
{
    for b in bytes {
        gather_byte(*b, out, pending)?;
    }
    Ok(())
}

// A byte as it is shown between quotes.
#[tactic(auto, unfolding(crate::specs::StepLog::Console::shown))]
fn gather_byte<K: Sink>(b: u8, out: &mut K, pending: &mut Output) -> Result<(), SinkFault>
    ensures text { GathersFor K.Sink out.old out.new pending.old pending.new
        (shown b) result }
    ensures cause { FailsBySink K.Sink out.old out.new result }
{
    match b {
        b'\n' => gather(out, pending, b"\\n"),
        b'"' => gather(out, pending, b"\\\""),
        b'\\' => gather(out, pending, b"\\\\"),
        b' '..=b'~' => gather(out, pending, &[b]),
        _ => gather_pieces(out, pending, &[Text(b"\\x"), Text(&hex_digits(b))]),
    }
}

fn hex_digits(b: u8) -> [u8; 2]
    ensures { result ≡ encode_lower (b ∷ []) }
{
    let mut digits = [0u8; 2];
    hex::encode_to_slice([b], &mut digits).unwrap();
    digits
}
