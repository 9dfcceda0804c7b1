// Names of files and of pipes, which a request names by a word address.
ghost use Rattle.std.specs.Prelude.{◌≡◌, ◌≤◌};
ghost use Rattle.resident_tasks.specs.ResidentRequests.Buffers.{bytes_in};
ghost use Rattle.resident_tasks.specs.ResidentRequests.Names.{name_at};

use crate::resident_requests::buffers::{byte_in, lies_inside};
use arrayvec::ArrayVec;
use ram_disc::Name;
use ram_disc::codes::BAD_NAME;
use word_store::Store;

/// The most bytes of a name.
const MOST_NAME_BYTES: u32 = 12;

/// The name at word a: a byte with its length, and then its bytes. Refused where the length and these bytes do not all lie in
/// the store, or the bytes are no name of a file (40).
pub fn name_at(store: &Store, a: u32) -> Result<Name, u32>
    ensures { result ≡ name_at store.now a }
{
    let length = byte_in(store, a, 0) as u32;
    if length > MOST_NAME_BYTES {
        return Err(BAD_NAME);
    }
    if !lies_inside(store, a, length + 1) {
        return Err(BAD_NAME);
    }
    let bytes = name_bytes(store, a, length);
    Name::read(bytes.as_slice()).ok_or(BAD_NAME)
}

// The bytes of the name at word a, of which there are so many.
fn name_bytes(store: &Store, a: u32, length: u32) -> ArrayVec<u8, 12>
    requires { length ≤ 12 }
    ensures { result.items ≡ bytes_in store.now a 1 length }
{
    let mut bytes = ArrayVec::new();
    for i in 0..length {
        bytes.push(byte_in(store, a, i + 1));
    }
    bytes
}
