// Requests for files: they are opened, deleted, renamed and examined.
ghost use Rattle.std.specs.Prelude.{◌≡◌, []};
ghost use Rattle.kernel_model.specs.KernelRecord.Lists.{Lists};
ghost use Rattle.resident_tasks.specs.FileHandler.FileRequests.{delete, examine, handled, name_buffer, open_to_read, open_to_write, rename};
ghost use Rattle.kernel_model.specs.KernelRecord.ChangedStore.{HasKeeper};

use crate::file_handler::pieces::{put_all, put_zeros};
use crate::resident_requests::{Request, can_write, name_at};
use arrayvec::ArrayVec;
use kernel_model::KindKeeper;
use ram_disc::codes::{BAD_BUFFER, NO_FILE};
use ram_disc::{Disc, Name};
use word_store::Store;

/// The bytes of the buffer for a name.
const NAME_BYTES: u32 = 16;

/// Opens the file whose name is the first argument, to read. The answer is the stream. Refused where the name is bad (40), there
/// is no such file (41), a stream writes it (47), or no stream is free (45).
pub(crate) fn open_to_read(disc: &mut Disc, store: &Store, request: Request) -> Result<u32, u32>
    ensures { handled disc.new result [] ≡ open_to_read disc.old store.now request }
{
    let name = name_at(store, request.first)?;
    disc.open_read(&name, false)
}

/// Opens it to write, and empties it. The answer is the stream. Refused where the name is bad (40), any stream has the file (47), no
/// stream is free (45), or there are 64 files (44).
pub(crate) fn open_to_write(disc: &mut Disc, store: &Store, request: Request) -> Result<u32, u32>
    ensures { handled disc.new result [] ≡ open_to_write disc.old store.now request }
{
    let name = name_at(store, request.first)?;
    disc.open_write(&name)
}

/// Deletes it. Refused where the name is bad (40), there is no such file (41), or any stream has it (47).
pub(crate) fn delete(disc: &mut Disc, store: &Store, request: Request) -> Result<u32, u32>
    ensures { handled disc.new result [] ≡ delete disc.old store.now request }
{
    let name = name_at(store, request.first)?;
    disc.delete(&name)?;
    Ok(0)
}

/// Gives it the name that is the second argument. Refused where one of the names is bad (40), there is no such file (41), a file has
/// the new name (42), or any stream has the file (47).
pub(crate) fn rename(disc: &mut Disc, store: &Store, request: Request) -> Result<u32, u32>
    ensures { handled disc.new result [] ≡ rename disc.old store.now request }
{
    let name = name_at(store, request.first)?;
    let new_name = name_at(store, request.second)?;
    disc.rename(&name, &new_name)?;
    Ok(0)
}

/// Puts the name of the file whose place is the first argument into `bytes`, as a string with zeros after it, for the buffer at the
/// second one. The answer is the file's size. Refused where there is no such file (41), or the buffer is bad (48).
pub(crate) fn examine<Q: KindKeeper>(
    disc: &Disc,
    store: &Store,
    kinds: &Q,
    request: Request,
    bytes: &mut ArrayVec<u8, 4096>,
) -> Result<u32, u32>
    requires keeper { (l : Lists) × HasKeeper store.now (Q.tells kinds.now) (Q.room kinds.now) l }
    requires empty { bytes.old.items ≡ [] }
    ensures { (l : Lists) → HasKeeper store.now (Q.tells kinds.now) (Q.room kinds.now) l
        → handled disc.now result bytes.new.items ≡ examine disc.now store.now l request }
{
    let (name, size) = disc.nth(request.first).ok_or(NO_FILE)?;
    if !can_write(store, kinds, request.packet, request.second, NAME_BYTES) {
        return Err(BAD_BUFFER);
    }
    put_name(&name, bytes);
    Ok(size)
}

// The bytes of the buffer for a name.
fn put_name(name: &Name, bytes: &mut ArrayVec<u8, 4096>)
    requires { bytes.old.items ≡ [] }
    ensures { bytes.new.items ≡ name_buffer name.now }
{
    let name = name.bytes();
    bytes.push(name.len() as u8);
    put_all(bytes, name);
    put_zeros(bytes, NAME_BYTES as usize);
    bytes.truncate(NAME_BYTES as usize);
}
