// All the bytes of a source.
ghost use Rattle.std.specs.Prelude.{◌≡◌, ◌+◌, ◌≤◌, List, ℕ, length, IfOk, OnOk};
ghost use Rattle.std.specs.Io.KnownBytes.{Consumes, IsAtEnd};
ghost use Rattle.byte_streams.specs.Read.{HasWholeCause, TakesAtMost};

use crate::{ReadStep, Source};
use std::alloc::Global;

const PIECE: usize = 4096;

/// Why the bytes of a source are not there.
#[derive(Clone, Copy, Debug, PartialEq, Eq)]
pub enum ReadEnd {
    /// The source failed.
    Fault,
    /// The source gave more bytes than the limit.
    TooLong,
    /// Memory could not be had.
    WantMemory,
}

/// All the bytes that the source has left, at most `limit` of them. `Fault` comes exactly where the
/// source failed, after at most `limit` bytes, and then it is not read again; `TooLong` exactly where
/// `limit` bytes were taken and the source gave one more.
pub fn read_all<S: Source>(alloc: Global, src: &mut S, limit: usize) -> Result<Vec<u8>, ReadEnd>
    ensures taken { IfOk result (λ v. Consumes (S.left src.old) (S.left src.new) v.items) }
    ensures end { OnOk result (IsAtEnd (S.left src.new)) }
    ensures short { IfOk result (λ v. length v.items ≤ limit) }
    ensures too_long { result ≡ Err ReadEnd.TooLong → (bytes : List ℕ)
        × (length bytes ≡ limit + 1) × Consumes (S.left src.old) (S.left src.new) bytes }
    ensures cause { HasWholeCause (S.faults src.old) (S.faults src.new) result }
    ensures fault_taken { result ≡ Err ReadEnd.Fault
        → TakesAtMost limit (S.left src.old) (S.left src.new) }

    // Whatever the answer is, no more than one byte past the limit was taken, and each read but the
    // last gave one byte at least.
    ensures given { TakesAtMost (limit + 1) (S.left src.old) (S.left src.new) }
    ensures most_calls { S.calls src.new ≤ S.calls src.old + (limit + 1) }
    ensures calls { IfOk result (λ v. S.calls src.new ≤ S.calls src.old + (length v.items + 1)) }
{
    let mut bytes = Vec::new(alloc);
    let mut chunk = [0u8; PIECE];
    while bytes.len() <= limit {
        let room = (limit - bytes.len()).min(PIECE - 1) + 1;
        let piece = &mut chunk[..room];
        match src.read(piece) {
            ReadStep::Got(n) => {
                if bytes.extend_from_slice(&piece[..n]).is_err() {
                    return Err(ReadEnd::WantMemory);
                }
            }
            ReadStep::End => return Ok(bytes),
            ReadStep::Failed => return Err(ReadEnd::Fault),
        }
    }
    Err(ReadEnd::TooLong)
}
