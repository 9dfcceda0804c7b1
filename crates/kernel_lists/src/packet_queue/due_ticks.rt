// The due tick of a packet, which is its word 4.
ghost use Rattle.std.specs.Prelude.{◌≡◌, slice_set};
ghost use Rattle.kernel_lists.specs.PacketQueue.Due as due;

use word_store::{Store, set_word_at, word_at};

/// Which word of a packet has its due tick.
pub const DUE: u32 = 4;

/// The due tick of the packet.
pub(crate) fn due_of(store: &Store, p: u32) -> u32
    ensures { result ≡ due.due_of store.now p }
{
    word_at(store, p, DUE)
}

/// Sets the due tick of the packet.
pub(crate) fn set_due(store: &mut Store, p: u32, tick: u32)
    ensures { store.new ≡ slice_set store.old (due.due_word p) tick }
{
    set_word_at(store, p, DUE, tick);
}
