// How many words the nodes of the kernel's lists have.
ghost use Rattle.kernel_lists.specs.PacketQueue.Queue.{packet_size};
ghost use Rattle.kernel_lists.specs.Coroutines.CoroutineWords.{coroutine_size};
ghost use Rattle.kernel_model.specs.KernelRecord.KernelRanges.{task_size_in};
ghost use Rattle.store_claims.specs.ListClaims.ListWords.{module_size_in};

use crate::word_claims::NodeKind;
use kernel_lists::{FIRST_GUEST, TcbField, field, head_words};
use kernel_model::numbers::{COROUTINE_WORDS, PACKET_WORDS, RESIDENT_WORDS};
use word_store::{Store, word_at};

/// The packets of a queue.
pub(crate) struct Packets;

impl NodeKind for Packets {
    ghost words_in = { λ _ _ p. packet_size p };

    fn words(&self, _store: &Store, _node: u32) -> u64 {
        u64::from(PACKET_WORDS)
    }
}

/// The coroutines of a task.
pub(crate) struct Coroutines;

impl NodeKind for Coroutines {
    ghost words_in = { λ _ _ c. coroutine_size c };

    fn words(&self, _store: &Store, _node: u32) -> u64 {
        u64::from(COROUTINE_WORDS)
    }
}

/// The modules, of each of which the link, the number of its hunks and their lengths are claimed.
pub(crate) struct Modules;

impl NodeKind for Modules {
    ghost words_in = { λ _ s m. module_size_in s m };

    fn words(&self, store: &Store, node: u32) -> u64 {
        2 + u64::from(word_at(store, node, 1))
    }
}

/// The chain of tasks.
pub(crate) struct TaskBlocks;

impl NodeKind for TaskBlocks {
    ghost words_in = { λ _ s t. task_size_in s t };

    fn words(&self, store: &Store, node: u32) -> u64 {
        if field(store, node, TcbField::Id) < FIRST_GUEST {
            u64::from(RESIDENT_WORDS)
        } else {
            u64::from(head_words(store))
        }
    }
}
