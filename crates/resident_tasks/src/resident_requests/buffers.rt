// Buffers of bytes, which a request names by a word address and a count.
ghost use Rattle.std.specs.Prelude.{◌≡◌, ◌≤◌, ℕ, [], length, true};
ghost use Rattle.kernel_model.specs.KernelRecord.HoldsLists.{HoldsLists};
ghost use Rattle.kernel_model.specs.KernelRecord.Lists.{Lists};
ghost use Rattle.resident_tasks.specs.ResidentRequests.Buffers.{byte_in, bytes_in, covered, is_readable, is_unowned, is_writable, lies_beside, lies_inside, with_byte_in, with_bytes};
ghost use Rattle.resident_tasks.specs.ResidentRequests.Requests.{HasRequest};
ghost use Rattle.resident_tasks.specs.ResidentRequests.Turns.{HasWritten};
ghost use Rattle.resident_tasks.specs.declared.resident_requests.requests.Request.{Request};
ghost use Rattle.kernel_model.specs.KernelRecord.ChangedStore.{HasKeeper};

use arrayvec::ArrayVec;
use kernel_model::numbers::PACKET_WORDS;
use kernel_model::{KindKeeper, are_unowned};
use word_store::{Store, set_word_at, word_at};

/// The most bytes of a buffer.
pub const MOST_BYTES: u32 = 4096;

/// Whether the buffer of n bytes from word a on may be read: n is from 1 to 4,096, and the words that hold the bytes lie in the
/// store.
pub fn can_read(store: &Store, a: u32, n: u32) -> bool
    ensures { result ≡ is_readable store.now a n }
{
    if n == 0 || n > MOST_BYTES {
        return false;
    }
    lies_inside(store, a, n)
}

/// Whether the buffer may be written for the request whose packet is at p: it may be read, and none of its words is the
/// kernel's, as the first five of the packet are.
pub fn can_write<Q: KindKeeper>(store: &Store, kinds: &Q, p: u32, a: u32, n: u32) -> bool
    requires { (l : Lists) × HasKeeper store.now (Q.tells kinds.now) (Q.room kinds.now) l }
    ensures { (l : Lists) → HasKeeper store.now (Q.tells kinds.now) (Q.room kinds.now) l
        → result ≡ is_writable store.now l p a n }
{
    if !can_read(store, a, n) {
        return false;
    }
    if !lies_beside(p, a, n) {
        return false;
    }
    has_no_kernel_word(store, kinds, a, n)
}

// Whether none of the words of the buffer is the kernel's.
fn has_no_kernel_word<Q: KindKeeper>(store: &Store, kinds: &Q, a: u32, n: u32) -> bool
    requires keeper { (l : Lists) × HasKeeper store.now (Q.tells kinds.now) (Q.room kinds.now) l }
    requires count { n ≤ 4096 }
    ensures { (l : Lists) → HasKeeper store.now (Q.tells kinds.now) (Q.room kinds.now) l
        → result ≡ is_unowned l a n }
{
    are_unowned(store, kinds, a, covered(n))
}

// Whether none of the words of the buffer is one of the packet's.
fn lies_beside(p: u32, a: u32, n: u32) -> bool
    requires { n ≤ 4096 }
    ensures { result ≡ lies_beside p a n }
{
    if a as usize + covered(n) as usize <= p as usize {
        return true;
    }
    p as usize + PACKET_WORDS as usize <= a as usize
}

/// Whether the words that hold n bytes from word a on lie in the store.
pub(crate) fn lies_inside(store: &Store, a: u32, n: u32) -> bool
    requires { n ≤ 4096 }
    ensures { result ≡ lies_inside store.now a n }
{
    a as usize + covered(n) as usize <= store.size() as usize
}

// How many words hold n bytes.
fn covered(n: u32) -> u32
    requires { n ≤ 4096 }
    ensures { result ≡ covered n }
{
    (n + 3) / 4
}

/// The first n bytes of the words from a on. A byte outside the store is 0.
pub fn read_buffer(store: &Store, a: u32, n: u32) -> ArrayVec<u8, 4096>
    requires { n ≤ 4096 }
    ensures { result.items ≡ bytes_in store.now a 0 n }
{
    let mut bytes = ArrayVec::new();
    read_buffer_into(store, a, n, &mut bytes);
    bytes
}

/// Puts them into `bytes`, where there are none yet.
pub fn read_buffer_into(store: &Store, a: u32, n: u32, bytes: &mut ArrayVec<u8, 4096>)
    requires count { n ≤ 4096 }
    requires empty { bytes.old.items ≡ [] }
    ensures { bytes.new.items ≡ bytes_in store.now a 0 n }
{
    for i in 0..covered(n) {
        let word = word_at(store, a, i).to_le_bytes();
        bytes.try_extend_from_slice(&word).unwrap();
    }
    bytes.truncate(n as usize);
}

/// Byte i of the words from a on, or 0 where it is outside the store.
pub(crate) fn byte_in(store: &Store, a: u32, i: u32) -> u8
    ensures { result ≡ byte_in store.now a i }
{
    word_at(store, a, i / 4).to_le_bytes()[(i % 4) as usize]
}

/// Writes these bytes into the words from a on, of which it changes no other byte. In a buffer of n bytes or more that may be
/// written for a request, the lists stay, and so does the request.
pub fn write_buffer(store: &mut Store, a: u32, bytes: &[u8])
    requires { length bytes.now ≤ 4096 }
    ensures words { store.new ≡ with_bytes store.old a 0 bytes.now }
    ensures written { (l : Lists) (r : Request) (n : ℕ) → HoldsLists store.old l
        → HasRequest store.old l r → is_writable store.old l r.packet a n ≡ true
        → length bytes.now ≤ n → HasWritten store.old store.new l r a bytes.now }
{
    put_bytes(store, a, bytes);
}

fn put_bytes(store: &mut Store, a: u32, bytes: &[u8])
    requires { length bytes.now ≤ 4096 }
    ensures { store.new ≡ with_bytes store.old a 0 bytes.now }
{
    for (i, byte) in bytes.iter().enumerate() {
        set_byte_in(store, a, i as u32, *byte);
    }
}

// Sets byte i of the words from a on. Where it is outside the store, nothing changes.
fn set_byte_in(store: &mut Store, a: u32, i: u32, byte: u8)
    ensures { store.new ≡ with_byte_in store.old a i byte }
{
    let mut bytes = word_at(store, a, i / 4).to_le_bytes();
    bytes[(i % 4) as usize] = byte;
    set_word_at(store, a, i / 4, u32::from_le_bytes(bytes));
}
