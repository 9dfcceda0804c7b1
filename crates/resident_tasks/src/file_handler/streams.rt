// Requests for streams: they are read, written and closed.
ghost use Rattle.std.specs.Prelude.{◌≡◌, ◌≤◌, [], true};
ghost use Rattle.std.specs.Option.{is_some};
ghost use Rattle.kernel_model.specs.KernelRecord.Lists.{Lists};
ghost use Rattle.ram_disc.specs.Disc.{stream_at};
ghost use Rattle.ram_disc.specs.DiscCalls.{after_read_on, bytes_read, is_reader, is_writer};
ghost use Rattle.resident_tasks.specs.FileHandler.FileRequests.{append, close, handled, handler_stream, read_on};
ghost use Rattle.kernel_model.specs.KernelRecord.ChangedStore.{HasKeeper};

use crate::file_handler::pieces::put_zeros;
use crate::resident_requests::{Request, can_read, can_write, read_buffer_into};
use arrayvec::ArrayVec;
use kernel_model::KindKeeper;
use ram_disc::Disc;
use ram_disc::codes::{BAD_BUFFER, NOT_OPEN, SHELL_STREAM};
use word_store::Store;

/// Puts the next bytes of the stream that is the first argument into `bytes`, for the buffer at the second one, as many as the third
/// one says or those that are left. The answer is their number. Refused where the stream is none that reads (46), or the buffer is bad
/// (48).
pub(crate) fn read_on<Q: KindKeeper>(
    disc: &mut Disc,
    store: &Store,
    kinds: &Q,
    request: Request,
    bytes: &mut ArrayVec<u8, 4096>,
) -> Result<u32, u32>
    requires keeper { (l : Lists) × HasKeeper store.now (Q.tells kinds.now) (Q.room kinds.now) l }
    requires empty { bytes.old.items ≡ [] }
    ensures { (l : Lists) → HasKeeper store.now (Q.tells kinds.now) (Q.room kinds.now) l
        → handled disc.new result bytes.new.items ≡ read_on disc.old store.now l request }
{
    if !is_reader(disc, request.first) {
        return Err(NOT_OPEN);
    }
    if !can_write(store, kinds, request.packet, request.second, request.third) {
        return Err(BAD_BUFFER);
    }
    read_bytes(disc, request.first, request.third, bytes)
}

// The next bytes of the stream, so many or those that are left.
fn read_bytes(
    disc: &mut Disc,
    stream: u32,
    count: u32,
    bytes: &mut ArrayVec<u8, 4096>,
) -> Result<u32, u32>
    requires reads { is_reader (stream_at disc.old stream) ≡ true }
    requires count { count ≤ 4096 }
    requires empty { bytes.old.items ≡ [] }
    ensures answer { result ≡ (after_read_on disc.old stream count).answer }
    ensures disc { disc.new ≡ (after_read_on disc.old stream count).disc }
    ensures bytes { bytes.new.items ≡ bytes_read disc.old stream count }
{
    put_zeros(bytes, count as usize);
    let read = disc.read_on(stream, bytes.as_mut_slice())?;
    bytes.truncate(read as usize);
    Ok(read)
}

/// Writes the bytes of the buffer at the second argument, of which the third one is the number, after those of the file of the stream
/// that is the first one. On their way they are in `bytes`. The answer is their number. Refused where the stream is none that writes
/// (46), the buffer is bad (48), or the disc is full (43).
pub(crate) fn append(
    disc: &mut Disc,
    store: &Store,
    request: Request,
    bytes: &mut ArrayVec<u8, 4096>,
) -> Result<u32, u32>
    requires empty { bytes.old.items ≡ [] }
    ensures { handled disc.new result bytes.new.items ≡ append disc.old store.now request }
{
    if !is_writer(disc, request.first) {
        return Err(NOT_OPEN);
    }
    if !can_read(store, request.second, request.third) {
        return Err(BAD_BUFFER);
    }
    read_buffer_into(store, request.second, request.third, bytes);
    let end = disc.append(request.first, bytes.as_slice());
    bytes.clear();
    end?;
    Ok(request.third)
}

/// Closes the stream that is the first argument. Refused where it is not open (46).
pub(crate) fn close(disc: &mut Disc, request: Request) -> Result<u32, u32>
    ensures { handled disc.new result [] ≡ close disc.old request }
{
    if !is_open(disc, request.first) {
        return Err(NOT_OPEN);
    }
    disc.close(request.first)?;
    Ok(0)
}

// Whether the stream is open, and not the shell's.
fn is_open(disc: &Disc, k: u32) -> bool
    ensures { result ≡ is_some (handler_stream disc.now k) }
{
    k != SHELL_STREAM && disc.stream(k).is_some()
}

// Whether it reads besides.
fn is_reader(disc: &Disc, k: u32) -> bool
    ensures { result ≡ is_reader (handler_stream disc.now k) }
{
    k != SHELL_STREAM && matches!(disc.stream(k), Some((_, _, false)))
}

// Whether it writes.
fn is_writer(disc: &Disc, k: u32) -> bool
    ensures { result ≡ is_writer (handler_stream disc.now k) }
{
    k != SHELL_STREAM && matches!(disc.stream(k), Some((_, _, true)))
}
