// Former words: what stood at an address before another word came there.
ghost use Rattle.std.specs.Prelude.{◌≡◌, ◌-◌, ◌^◌, ◌<◌, ◌≤◌, drop, length, slice_range, take};
ghost use Rattle.std.specs.List.{range_with_len};
ghost use Rattle.std.specs.Str.{bytes_eq};
ghost use Rattle.circular_buffer.specs.Buffer.{buffer};
ghost use Rattle.debugger.specs.UndoJournal.FormerWords.{addresses_of, former_at, former_words, with_new_word, with_new_words, words_before};
ghost use Rattle.debugger.specs.UndoJournal.Private.Rings.{ring_with};

use circular_buffer::HeapCircularBuffer;
use word_store::{Store, word};

/// So many words are compared at once,
const AREA: u32 = 512;

/// and so many in an area in which some differ.
const BLOCK: u32 = 64;

/// A word, and where it stood.
#[derive(Drop)]
pub(crate) struct FormerWord {
    /// The address at which it stood.
    pub(crate) address: u32,
    /// The word.
    pub(crate) word: u32,
}

/// Takes the word at an address over from the store. Where another one stood there, it is noted. The answer is how many were noted.
pub(crate) fn note_word(
    latest: &mut Store,
    store: &Store,
    former: &mut HeapCircularBuffer<FormerWord>,
    address: u32,
) -> usize
    requires sizes { length latest.old ≡ length store.now }
    requires room { length former.old.items ≤ former.old.capacity }
    ensures latest { latest.new ≡ with_new_word latest.old store.now address }
    ensures former { former.new ≡
        ring_with former.old (former_at latest.old store.now address) }
    ensures count { result ≡ length (former_at latest.old store.now address) }
{
    let old = word(latest, address);
    let new = word(store, address);
    if old == new {
        return 0;
    }
    latest.set(address, new);
    former.push_back(FormerWord { address, word: old });
    1
}

/// The same at all addresses. Areas of words that are the same are passed over.
pub(crate) fn note_all_words(
    latest: &mut Store,
    store: &Store,
    former: &mut HeapCircularBuffer<FormerWord>,
) -> usize
    requires sizes { length latest.old ≡ length store.now }
    requires room { length former.old.items ≤ former.old.capacity }
    ensures latest { latest.new ≡
        with_new_words latest.old store.now (addresses_of store.now) }
    ensures former { former.new ≡
        ring_with former.old (former_words latest.old store.now (addresses_of store.now)) }
    ensures count { result ≡ length (former_words latest.old store.now (addresses_of store.now)) }
    ensures most { result < 2 ^ 32 }
{
    let areas = store.size() / AREA;
    let mut count = 0;
    for area in 0..areas {
        count += note_area(latest, store, former, area * AREA, (area + 1) * AREA);
    }
    count + note_area(latest, store, former, areas * AREA, store.size())
}

/// The same at the addresses from the first one up to the end. Blocks of words that are the same are passed over.
fn note_area(
    latest: &mut Store,
    store: &Store,
    former: &mut HeapCircularBuffer<FormerWord>,
    first: u32,
    end: u32,
) -> usize
    requires sizes { length latest.old ≡ length store.now }
    requires order { first ≤ end }
    requires inside { end ≤ length store.now }
    requires room { length former.old.items ≤ former.old.capacity }
    ensures latest { latest.new ≡ with_new_words latest.old store.now (range_with_len first (end - first)) }
    ensures former { former.new ≡
        ring_with former.old (former_words latest.old store.now (range_with_len first (end - first))) }
    ensures count { result ≡ length (former_words latest.old store.now (range_with_len first (end - first))) }
    ensures most { result ≤ end - first }
{
    if are_same_words(latest, store, first, end) {
        return 0;
    }
    note_blocks(latest, store, former, first, end)
}

// The same, block by block.
fn note_blocks(
    latest: &mut Store,
    store: &Store,
    former: &mut HeapCircularBuffer<FormerWord>,
    first: u32,
    end: u32,
) -> usize
    requires sizes { length latest.old ≡ length store.now }
    requires order { first ≤ end }
    requires inside { end ≤ length store.now }
    requires room { length former.old.items ≤ former.old.capacity }
    ensures latest { latest.new ≡ with_new_words latest.old store.now (range_with_len first (end - first)) }
    ensures former { former.new ≡
        ring_with former.old (former_words latest.old store.now (range_with_len first (end - first))) }
    ensures count { result ≡ length (former_words latest.old store.now (range_with_len first (end - first))) }
    ensures most { result ≤ end - first }
{
    let blocks = (end - first) / BLOCK;
    let mut count = 0;
    for block in 0..blocks {
        let start = first + block * BLOCK;
        count += note_block(latest, store, former, start, start + BLOCK);
    }
    count + note_block(latest, store, former, first + blocks * BLOCK, end)
}

/// The same at the addresses from the first one up to the end, one by one unless all words are the same.
fn note_block(
    latest: &mut Store,
    store: &Store,
    former: &mut HeapCircularBuffer<FormerWord>,
    first: u32,
    end: u32,
) -> usize
    requires sizes { length latest.old ≡ length store.now }
    requires order { first ≤ end }
    requires inside { end ≤ length store.now }
    requires room { length former.old.items ≤ former.old.capacity }
    ensures latest { latest.new ≡ with_new_words latest.old store.now (range_with_len first (end - first)) }
    ensures former { former.new ≡
        ring_with former.old (former_words latest.old store.now (range_with_len first (end - first))) }
    ensures count { result ≡ length (former_words latest.old store.now (range_with_len first (end - first))) }
    ensures most { result ≤ end - first }
{
    if are_same_words(latest, store, first, end) {
        return 0;
    }
    let mut count = 0;
    for address in first..end {
        count += note_word(latest, store, former, address);
    }
    count
}

// Whether both have the same words from the first address up to the end.
fn are_same_words(latest: &Store, store: &Store, first: u32, end: u32) -> bool
    requires order { first ≤ end }
    requires latest { end ≤ length latest.now }
    requires store { end ≤ length store.now }
    ensures { result ≡ bytes_eq (slice_range latest.now first end) (slice_range store.now first end) }
{
    let n = end - first;
    match (latest.words(first, n), store.words(first, n)) {
        (Some(old), Some(new)) => old == new,
        _ => false,
    }
}

/// The same at these addresses, one after another.
pub(crate) fn note_words(
    latest: &mut Store,
    store: &Store,
    former: &mut HeapCircularBuffer<FormerWord>,
    addresses: &[u32],
) -> usize
    requires sizes { length latest.old ≡ length store.now }
    requires room { length former.old.items ≤ former.old.capacity }
    ensures latest { latest.new ≡ with_new_words latest.old store.now addresses.now }
    ensures former { former.new ≡
        ring_with former.old (former_words latest.old store.now addresses.now) }
    ensures count { result ≡ length (former_words latest.old store.now addresses.now) }
    ensures most { result < 2 ^ 63 }
{
    let mut count = 0;
    for address in addresses {
        count += note_word(latest, store, former, *address);
    }
    count
}

/// Puts the last former words, so many, back into both stores, the last one first.
pub(crate) fn put_back(
    former: &mut HeapCircularBuffer<FormerWord>,
    count: usize,
    latest: &mut Store,
    store: &mut Store,
)
    requires enough { count ≤ length former.old.items }
    requires same { store.old ≡ latest.old }
    ensures former { former.new ≡ buffer
        (take (length former.old.items - count) former.old.items) former.old.capacity }
    ensures latest { latest.new ≡
        words_before (drop (length former.old.items - count) former.old.items) latest.old }
    ensures store { store.new ≡ latest.new }
{
    for _i in 0..count {
        let Some(last) = former.pop_back() else {
            return;
        };
        latest.set(last.address, last.word);
        store.set(last.address, last.word);
    }
}
