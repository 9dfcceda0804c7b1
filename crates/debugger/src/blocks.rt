// The blocks of a machine.
ghost use Rattle.std.specs.Prelude.{◌≡◌, ◌<◌, ◌+◌, ◌^◌};
ghost use Rattle.byte_streams.specs.Pending.{Gathers};
ghost use Rattle.byte_streams.specs.Sinks.{FailsBySink, GathersFor};
ghost use Rattle.kernel_model.specs.KernelRecord.HoldsLists.{HoldsLists};
ghost use Rattle.kernel_model.specs.KernelRecord.Lists.{Lists};
ghost use Rattle.debugger.specs.Texts.{block_line, block_lines, blocks_text, use_name};

use byte_streams::Piece::{Decimal, Text};
use byte_streams::{Output, Sink, SinkFault, gather_pieces};
use kernel_calls::use_of;
use kernel_lists::{Block, blocks};
use kernel_model::Use;
use tripos_machine::Machine;
use word_store::Store;

/// Gathers a line for each block, in rising order; none on a machine without a kernel.
pub fn gather_blocks<K: Sink>(
    machine: &Machine,
    out: &mut K,
    pending: &mut Output,
) -> Result<(), SinkFault>
    ensures text { GathersFor K.Sink out.old out.new pending.old pending.new
        (blocks_text machine.now.state) result }
    ensures cause { FailsBySink K.Sink out.old out.new result }
{
    match machine.kernel_parts() {
        Some(parts) => gather_lines(&parts.store, out, pending),
        None => Ok(()),
    }
}

fn gather_lines<K: Sink>(store: &Store, out: &mut K, pending: &mut Output) -> Result<(), SinkFault>
    requires { (l : Lists) × HoldsLists store.now l }
    ensures text { (l : Lists) → HoldsLists store.now l
        → GathersFor K.Sink out.old out.new pending.old pending.new
        (block_lines l l.blocks) result }
    ensures cause { FailsBySink K.Sink out.old out.new result }
{
    for block in blocks(store) {
        gather_block(block, use_of(store, block), out, pending)?;
    }
    Ok(())
}

fn gather_block<K: Sink>(
    block: Block,
    used: Use,
    out: &mut K,
    pending: &mut Output,
) -> Result<(), SinkFault>
    ensures text { GathersFor K.Sink out.old out.new pending.old pending.new
        (block_line block used) result }
    ensures cause { FailsBySink K.Sink out.old out.new result }
{
    gather_pieces(
        out,
        pending,
        &[
            Decimal(u64::from(block.start)),
            Text(b" "),
            Decimal(u64::from(block.size)),
            Text(b" "),
            Text(use_name(used)),
            Text(b"\n"),
        ],
    )
}

fn use_name(used: Use) -> &'static [u8]
    ensures { result.now ≡ use_name used }
{
    match used {
        Use::Free => b"free",
        Use::User => b"user",
        Use::OfTask => b"task",
        Use::OfModule => b"module",
        Use::OfCoroutine => b"coroutine",
        Use::OfResidents => b"resident",
    }
}
