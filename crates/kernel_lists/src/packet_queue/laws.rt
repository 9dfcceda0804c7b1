// Laws of queues.
ghost use Rattle.std.specs.Prelude.{◌≡◌, ℕ, List, [], ◌∷◌, ◌++◌, map};
ghost use Rattle.kernel_lists.specs.OwnedWords.Written.{IsWritten};
ghost use Rattle.kernel_lists.specs.PacketQueue.Queue.{CanQueue, HasQueue, appended, queue_at, unlinked};
ghost use Rattle.kernel_lists.specs.PacketQueue.Due.{with_due};
ghost use Rattle.kernel_lists.specs.PacketQueue.DueOrder.{ArrivesLast, NeverFalls};
ghost use Rattle.kernel_lists.specs.PacketQueue.QueueWords.{AppendExchange, CanAppend, DueExchange, HeldQueue, QueuedPacket, RemoveExchange, address_of, queue_words};

/// Where due ticks never fall along a queue, they never fall along it once a packet was appended by its due tick, and
/// packets that are due at one tick are in the order in which they came.
pub fn due_order_law()
    ensures never_falls { (s : List ℕ) (head p due : ℕ) → HasQueue s head → CanQueue s head p
        → NeverFalls s head
        → NeverFalls (with_due s head p due) head }
    ensures arrival { (s : List ℕ) (head p due : ℕ) → HasQueue s head → CanQueue s head p
        → NeverFalls s head
        → ArrivesLast s (with_due s head p due) head p due }
{}

/// Where a store holds the words of packets with the head that leads to them, they are queued there.
pub fn held_queue_law()
    ensures queue { (s : List ℕ) (head : ℕ) (ps : List QueuedPacket) → HeldQueue s head ps
        → HasQueue s head }
    ensures packets { (s : List ℕ) (head : ℕ) (ps : List QueuedPacket) → HeldQueue s head ps
        → queue_at s head ≡ map address_of ps }
{}

/// Where a store holds the words of a queue with its head, and those of one more packet but for its link, this packet may be
/// appended. Then the store holds the words of the longer queue, and every word that is none of these is as it was.
pub fn append_words_law()
    ensures queue { (s : List ℕ) (head : ℕ) (ps : List QueuedPacket) (p : QueuedPacket)
        → CanAppend s head ps p
        → HasQueue s head }
    ensures packet { (s : List ℕ) (head : ℕ) (ps : List QueuedPacket) (p : QueuedPacket)
        → CanAppend s head ps p
        → CanQueue s head p.address }
    ensures words { (s : List ℕ) (head : ℕ) (ps : List QueuedPacket) (p : QueuedPacket)
        → CanAppend s head ps p
        → IsWritten s (appended s head p.address) (queue_words head (ps ++ p ∷ [])) [] }
{}

/// What the calls do to the words of a queue.
pub fn queue_words_law()
    ensures append { (s : List ℕ) (head : ℕ) (ps : List QueuedPacket) (p : QueuedPacket)
        → HeldQueue s head ps
        → AppendExchange s (appended s head p.address) head ps p }
    ensures append_due { (s : List ℕ) (head : ℕ) (ps : List QueuedPacket) (p : QueuedPacket)
        → HeldQueue s head ps
        → DueExchange s (with_due s head p.address p.last) head ps p }
    ensures remove { (s : List ℕ) (head : ℕ) (ps : List QueuedPacket) (p : QueuedPacket)
        (qs : List QueuedPacket)
        → HeldQueue s head (ps ++ p ∷ qs)
        → RemoveExchange s (unlinked s head p.address) head ps p qs }
{}
