// The members of a journal's past.
ghost use Rattle.std.specs.Prelude.{◌≡◌, length};
ghost use Rattle.circular_buffer.specs.Buffer.{buffer, keep_last};
ghost use Rattle.debugger.specs.UndoJournal.KeptPast.{newest_members, total_changed};

use crate::undo_journal::former_words::FormerWord;
use circular_buffer::HeapCircularBuffer;

/// A member of past.
#[derive(Drop)]
pub(crate) struct Member<T> {
    /// What was noted beside its words.
    pub(crate) side: T,
    /// How many words change from it to the next member, or from the last one to the words that are now.
    pub(crate) changed: usize,
}

/// Drops the oldest members until there are at most so many, in which at most so many words change. Their former words go with them.
/// `total` is how many words change in all members.
pub(crate) fn drop_oldest<T: Drop>(
    members: &mut HeapCircularBuffer<Member<T>>,
    former: &mut HeapCircularBuffer<FormerWord>,
    total: usize,
    steps: usize,
    changes: usize,
)
    requires { total ≡ total_changed members.old.items }
    ensures members { members.new ≡ buffer
        (newest_members steps changes members.old.items) members.old.capacity }
    ensures former { former.new ≡ buffer
        (keep_last (total_changed members.new.items) former.old.items) former.old.capacity }
{
    let mut left = total;
    while members.len() > steps || left > changes {
        let Some(oldest) = members.pop_front() else {
            return;
        };
        left -= oldest.changed;
    }
    former.truncate_front(left);
}
