// The requests for pipes are done.
ghost use Rattle.std.specs.Prelude.{◌≡◌, ◌≤◌, Ok, length, min, take, true, Some};
ghost use Rattle.kernel_model.specs.KernelRecord.Lists.{Lists};
ghost use Rattle.resident_tasks.specs.ResidentRequests.Buffers.{is_readable};
ghost use Rattle.resident_tasks.specs.ResidentRequests.Names.{name_at};
ghost use Rattle.resident_tasks.specs.PipeHandler.PipeCalls.{after_read, after_write};
ghost use Rattle.resident_tasks.specs.PipeHandler.PipeTurns.{after_open_named, bytes_of_buffer, call_outcome, pipe_request};
ghost use Rattle.kernel_model.specs.KernelRecord.ChangedStore.{HasKeeper};

use crate::pipe_handler::Pipes;
use crate::pipe_handler::calls::{PipeCall, pipe_call};
use crate::resident_requests::buffers::MOST_BYTES;
use crate::resident_requests::requests::UNKNOWN_TYPE;
use crate::resident_requests::{Request, can_read, can_write, name_at, read_buffer};
use arrayvec::ArrayVec;
use kernel_model::KindKeeper;
use word_store::Store;

/// Does what a request says. The answer is what the request is answered, and how many bytes it gives; they come first in `bytes`,
/// which has room for 4,096.
pub(crate) fn serve<Q: KindKeeper>(
    pipes: &mut Pipes,
    store: &Store,
    kinds: &Q,
    request: Request,
    bytes: &mut [u8],
) -> (Result<u32, u32>, usize)
    requires room { length bytes.old ≡ 4096 }
    requires keeper { (l : Lists) × HasKeeper store.now (Q.tells kinds.now) (Q.room kinds.now) l }
    ensures answer { (l : Lists) → HasKeeper store.now (Q.tells kinds.now) (Q.room kinds.now) l
        → result.0 ≡ (pipe_request pipes.old store.now l request).answer }
    ensures pipes { (l : Lists) → HasKeeper store.now (Q.tells kinds.now) (Q.room kinds.now) l
        → pipes.new ≡ (pipe_request pipes.old store.now l request).pipes }
    ensures bytes { (l : Lists) → HasKeeper store.now (Q.tells kinds.now) (Q.room kinds.now) l
        → take result.1 bytes.new ≡ (pipe_request pipes.old store.now l request).bytes }
    ensures few { result.1 ≤ 4096 }
{
    match pipe_call(request) {
        Some(call) => make(pipes, store, kinds, request.packet, call, bytes),
        None => (Err(UNKNOWN_TYPE), 0),
    }
}

// The same, of what is asked by the request whose packet this is.
fn make<Q: KindKeeper>(
    pipes: &mut Pipes,
    store: &Store,
    kinds: &Q,
    packet: u32,
    call: PipeCall,
    bytes: &mut [u8],
) -> (Result<u32, u32>, usize)
    requires room { length bytes.old ≡ 4096 }
    requires keeper { (l : Lists) × HasKeeper store.now (Q.tells kinds.now) (Q.room kinds.now) l }
    ensures answer { (l : Lists) → HasKeeper store.now (Q.tells kinds.now) (Q.room kinds.now) l
        → result.0 ≡ (call_outcome pipes.old store.now l packet (Some call)).answer }
    ensures pipes { (l : Lists) → HasKeeper store.now (Q.tells kinds.now) (Q.room kinds.now) l
        → pipes.new ≡ (call_outcome pipes.old store.now l packet (Some call)).pipes }
    ensures bytes { (l : Lists) → HasKeeper store.now (Q.tells kinds.now) (Q.room kinds.now) l
        → take result.1 bytes.new ≡ (call_outcome pipes.old store.now l packet (Some call)).bytes }
    ensures few { result.1 ≤ 4096 }
{
    match call {
        PipeCall::OpenEnd { name, end } => (open(pipes, store, name, end), 0),
        PipeCall::ReadBytes {
            handle,
            buffer,
            count,
        } => {
            let fits = can_write(store, kinds, packet, buffer, count);
            read(pipes, handle, fits, count, bytes)
        }
        PipeCall::WriteBytes {
            handle,
            buffer,
            count,
        } => (write(pipes, store, handle, buffer, count), 0),
        PipeCall::CloseEnd { handle } => (pipes.close(handle), 0),
    }
}

fn open(pipes: &mut Pipes, store: &Store, name: u32, end: u32) -> Result<u32, u32>
    ensures answer { result ≡ (after_open_named pipes.old (name_at store.now name) end).answer }
    ensures pipes { pipes.new ≡ (after_open_named pipes.old (name_at store.now name) end).pipes }
{
    match name_at(store, name) {
        Ok(name) => pipes.open(&name, end),
        Err(code) => Err(code),
    }
}

// So many bytes are read, where they fit into their buffer, which has at most 4,096.
fn read(
    pipes: &mut Pipes,
    handle: u32,
    fits: bool,
    count: u32,
    bytes: &mut [u8],
) -> (Result<u32, u32>, usize)
    requires room { length bytes.old ≡ 4096 }
    requires most { fits ≡ true → count ≤ 4096 }
    ensures answer { result.0 ≡ (after_read pipes.old handle fits count).answer }
    ensures pipes { pipes.new ≡ (after_read pipes.old handle fits count).pipes }
    ensures bytes { take result.1 bytes.new ≡ (after_read pipes.old handle fits count).bytes }
    ensures few { result.1 ≤ 4096 }
{
    let count = count.min(MOST_BYTES) as usize;
    read_into(pipes, handle, fits, &mut bytes[..count])
}

// Gives the next bytes of a pipe, and the answer, and how many bytes these are.
fn read_into(
    pipes: &mut Pipes,
    handle: u32,
    buffer: bool,
    into: &mut [u8],
) -> (Result<u32, u32>, usize)
    ensures answer { result.0 ≡ (after_read pipes.old handle buffer (length into.old)).answer }
    ensures pipes { pipes.new ≡ (after_read pipes.old handle buffer (length into.old)).pipes }
    ensures bytes { take result.1 into.new
        ≡ (after_read pipes.old handle buffer (length into.old)).bytes }
    ensures few { result.1 ≤ length into.old }
{
    match pipes.read(handle, buffer, into) {
        Ok(count) => (Ok(count), count as usize),
        Err(code) => (Err(code), 0),
    }
}

fn write(pipes: &mut Pipes, store: &Store, handle: u32, buffer: u32, count: u32) -> Result<u32, u32>
    ensures answer { result ≡ (after_write pipes.old handle (is_readable store.now buffer count)
        (bytes_of_buffer store.now buffer count)).answer }
    ensures pipes { pipes.new ≡ (after_write pipes.old handle (is_readable store.now buffer count)
        (bytes_of_buffer store.now buffer count)).pipes }
{
    if !can_read(store, buffer, count) {
        return pipes.write(handle, false, &[]);
    }
    let bytes = read_buffer(store, buffer, count);
    pipes.write(handle, true, bytes.as_slice())
}
