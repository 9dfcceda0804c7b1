// Bytes are put after those of a buffer.
ghost use Rattle.std.specs.Prelude.{◌≡◌, ◌+◌, ◌≤◌, ◌++◌, length, replicate};
ghost use Rattle.arrayvec.specs.ArrayVec.{array_vec_len};

use arrayvec::ArrayVec;

/// How many zeros are put at once.
const ZEROS: usize = 64;

/// Puts these bytes after those that are there.
pub(crate) fn put_all(bytes: &mut ArrayVec<u8, 4096>, more: &[u8])
    requires { array_vec_len bytes.old + length more.now ≤ 4096 }
    ensures items { bytes.new.items ≡ bytes.old.items ++ more.now }
    ensures count { array_vec_len bytes.new ≡ array_vec_len bytes.old + length more.now }
{
    bytes.try_extend_from_slice(more).unwrap();
}

/// Puts so many zeros after them.
pub(crate) fn put_zeros(bytes: &mut ArrayVec<u8, 4096>, count: usize)
    requires { array_vec_len bytes.old + count ≤ 4096 }
    ensures { bytes.new.items ≡ bytes.old.items ++ replicate count 0 }
{
    let zeros = [0; ZEROS];
    let mut done = 0;
    while done < count {
        let some = (count - done).min(ZEROS);
        put_all(bytes, &zeros[..some]);
        done += some;
    }
}
