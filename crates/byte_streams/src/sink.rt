// Where bytes go.
ghost use Rattle.std.specs.Prelude.{List, ℕ, Option};
ghost use Rattle.byte_streams.specs.Write.{Prints, Writes, HasCause, HasWriteCause};

/// What a write answers.
#[derive(Clone, Copy, Debug, PartialEq, Eq)]
pub enum WriteStep {
    /// The whole piece was taken.
    All,
    /// The sink failed, and has taken a prefix of the piece, which may be empty.
    Failed,
}

/// The sink failed.
#[derive(Clone, Copy, Debug, PartialEq, Eq)]
pub struct SinkFault;

/// A sink of bytes. It counts its faults, and fails only where the count rises.
pub trait Sink {
    /// The bytes that the sink holds, where it tells them.
    ghost holds: { Self → Option (List ℕ) };

    /// How often the sink has failed: at 2 ^ 64 - 1 the count stands still.
    ghost faults: { Self → ℕ };

    /// Takes the piece.
    fn write(&mut self, piece: &[u8]) -> WriteStep
        ensures bytes { Writes (holds self.old) (holds self.new) result piece.now }
        ensures cause { HasWriteCause (faults self.old) (faults self.new) result };
}

/// Writes a text. `SinkFault` comes only where the sink's count of faults rose; then a prefix is written.
pub fn write_text<K: Sink>(out: &mut K, text: &[u8]) -> Result<(), SinkFault>
    ensures text { Prints (K.holds out.old) (K.holds out.new) text.now result }
    ensures cause { HasCause (K.faults out.old) (K.faults out.new) result }
{
    match out.write(text) {
        WriteStep::All => Ok(()),
        WriteStep::Failed => Err(SinkFault),
    }
}
