// Laws of changes: what keeps lists valid.
ghost use Rattle.std.specs.Prelude.{◌≡◌, ◌≢◌, ◌+◌, ◌<◌, ◌≤◌, ◌++◌, ◌∷◌, ℕ, None, Some, List, [], is_some, length, true, false};
ghost use Rattle.std.specs.List.{AllByRecursion};
ghost use Rattle.kernel_lists.specs.declared.getvec_chain.pieces.Run.{Run};
ghost use Rattle.kernel_lists.specs.GetvecChain.Give.{given};
ghost use Rattle.kernel_lists.specs.GetvecChain.Run.{first_run, need};
ghost use Rattle.kernel_lists.specs.GetvecChain.Take.{taken};
ghost use Rattle.kernel_lists.specs.HunkLoader.HeldModules.{LoadedModule};
ghost use Rattle.kernel_lists.specs.LinkedList.Places.{has};
ghost use Rattle.kernel_lists.specs.OwnedWords.Owned.{owners};
ghost use Rattle.kernel_lists.specs.PacketQueue.QueueWords.{QueuedPacket};
ghost use Rattle.kernel_lists.specs.Coroutines.HeldCoroutines.{Coroutine};
ghost use Rattle.kernel_model.specs.KernelRecord.BlockUse.{use_of_data};
ghost use Rattle.kernel_model.specs.declared.kernel_record.uses.Use.TheVariants.{User};
ghost use Rattle.kernel_model.specs.KernelRecord.Changes.{AreUnowned, HasNoPacketsOut, HasPlace, IsIdleBlock, KeepsOrder, SameTask, queue_of, with_blocks, with_coroutines, with_fault_packet, with_key, with_modules, with_new_task, with_queue, with_tasks};
ghost use Rattle.kernel_model.specs.KernelRecord.Lists.{Lists, has_task};
ghost use Rattle.kernel_model.specs.KernelRecord.MovedTask.{with_moved_task};
ghost use Rattle.kernel_model.specs.KernelRecord.Owned.{owned};
ghost use Rattle.kernel_model.specs.KernelRecord.Residents.{fault_packet, key_packet};
ghost use Rattle.kernel_model.specs.KernelRecord.Task.{Task, is_guest_id, task_words};
ghost use Rattle.kernel_model.specs.KernelRecord.ValidBlocks.{HasBlock, last_module_word};
ghost use Rattle.kernel_model.specs.KernelRecord.ValidLists.{AreValid};
ghost use Rattle.kernel_model.specs.KernelRecord.ValidQueues.{IsFaultPacket, IsKeyPacket, IsValidPacket, Place, is_fault_packet, is_key_packet};
ghost use Rattle.kernel_model.specs.KernelRecord.ValidQueues.Place.{Work};
ghost use Rattle.kernel_model.specs.KernelRecord.ValidTasks.{AreValidCoroutines, IsCoroutine, IsTask};
ghost use Rattle.kernel_model.specs.KernelRecord.Versions.{head_words_of};

/// A block is taken: the lists are valid with it, its data begin after the front of the run, and nobody owns them.
pub fn taken_law()
    ensures valid { (l : Lists) (u : ℕ) → AreValid l
        → AreValid (with_blocks (taken (need u) l.blocks) l) }
    ensures block { (l : Lists) (u : ℕ) (run : Run) → AreValid l
        → first_run (need u) l.blocks ≡ Some run
        → HasBlock (taken (need u) l.blocks) (run.start + 1) u }
    ensures unowned { (l : Lists) (u : ℕ) (run : Run) → AreValid l
        → first_run (need u) l.blocks ≡ Some run
        → AreUnowned (with_blocks (taken (need u) l.blocks) l)
        (run.start + 1) (run.start + need u) }
{}

/// A user's block in which no queued packet lies is given back.
pub fn given_law()
    ensures { (l : Lists) (v : ℕ) → AreValid l → IsIdleBlock l v
        → AreValid (with_blocks (given v l.blocks) l) }
{}

/// A block whose first data word nobody owns is a user's, as one that was taken is, and that of a thing that went out.
pub fn users_law()
    ensures { (l : Lists) (v : ℕ) → AreValid l → owners v (owned l) ≡ 0 → use_of_data l v ≡ User }
{}

/// A task's words change, but for its number, its priority, its queue and which coroutines it has.
pub fn same_task_law()
    ensures { (l : Lists) (front back : List Task) (t u : Task) → AreValid l
        → l.tasks ≡ front ++ t ∷ back → SameTask t u → IsTask l u → AreValidCoroutines l u
        → AreValid (with_tasks (front ++ u ∷ back) l) }
{}

/// A guest has another priority, which no other task has, and its place in the chain by it.
pub fn moved_task_law()
    ensures { (l : Lists) (front back : List Task) (t : Task) (priority : ℕ) → AreValid l
        → l.tasks ≡ front ++ t ∷ back → is_guest_id t.id ≡ true
        → 1 ≤ priority → priority ≤ 10000
        → AllByRecursion (λ u. u.priority ≢ priority) (front ++ back)
        → AreValid (with_moved_task priority t (front ++ back) l) }
{}

/// A packet comes into a queue: anywhere, or, at the clock, where due ticks never fall.
pub fn queued_law()
    ensures { (l : Lists) (at : Place) (p : QueuedPacket) (front back : List QueuedPacket)
        → AreValid l → HasPlace l at → queue_of at l ≡ front ++ back
        → IsValidPacket l at p → AreUnowned l p.address (p.address + 5)
        → KeepsOrder at (front ++ p ∷ back)
        → AreValid (with_queue at (front ++ p ∷ back) l) }
{}

/// A packet goes out of a queue, and its words are nobody's then. It is none of the two that residents have of their own.
pub fn unqueued_law()
    ensures valid { (l : Lists) (at : Place) (p : QueuedPacket) (front back : List QueuedPacket)
        → AreValid l → queue_of at l ≡ front ++ p ∷ back
        → is_key_packet l p ≡ false → is_fault_packet l p ≡ false
        → AreValid (with_queue at (front ++ back) l) }
    ensures unowned { (l : Lists) (at : Place) (p : QueuedPacket) (front back : List QueuedPacket)
        → AreValid l → queue_of at l ≡ front ++ p ∷ back
        → AreUnowned (with_queue at (front ++ back) l) p.address (p.address + 5) }
{}

/// The console's key packet comes into a queue where it may be, off which it was; or it goes out of its queue, and its res1
/// is kept.
pub fn key_packet_law()
    ensures queued { (l : Lists) (at : Place) (p : QueuedPacket) (front back : List QueuedPacket)
        → AreValid l → queue_of at l ≡ front ++ back → is_some l.key ≡ true
        → p.address ≡ key_packet → IsKeyPacket at p
        → AreValid (with_key None (with_queue at (front ++ p ∷ back) l)) }
    ensures unqueued { (l : Lists) (at : Place) (p : QueuedPacket) (front back : List QueuedPacket)
        → AreValid l → queue_of at l ≡ front ++ p ∷ back → is_key_packet l p ≡ true
        → AreValid (with_key (Some p.res1) (with_queue at (front ++ back) l)) }
{}

/// The same for the packet of the task that reports faults, which is on its work queue alone.
pub fn fault_packet_law()
    ensures queued { (l : Lists) (p : QueuedPacket) (front back : List QueuedPacket)
        → AreValid l → queue_of (Work 2) l ≡ front ++ back → l.fault_packet_free ≡ true
        → p.address ≡ fault_packet → IsFaultPacket (Work 2) p → has_task p.sender l.tasks ≡ true
        → AreValid (with_fault_packet false (with_queue (Work 2) (front ++ p ∷ back) l)) }
    ensures unqueued { (l : Lists) (p : QueuedPacket) (front back : List QueuedPacket)
        → AreValid l → queue_of (Work 2) l ≡ front ++ p ∷ back → p.address ≡ fault_packet
        → AreValid (with_fault_packet true (with_queue (Work 2) (front ++ back) l)) }
{}

/// A guest comes in, without packets and coroutines, whose number and priority no task has, and whose words nobody owns.
pub fn new_task_law()
    ensures { (l : Lists) (t : Task) → AreValid l → IsTask l t → is_guest_id t.id ≡ true
        → has_task t.id l.tasks ≡ false → AllByRecursion (λ u. u.priority ≢ t.priority) l.tasks
        → t.queue ≡ [] → t.coroutines.list ≡ [] → t.coroutines.active ≡ []
        → AreUnowned l t.address (t.address + head_words_of l.version)
        → AreValid (with_new_task t l) }
{}

/// A guest goes out that does not run, and has sent no packet that a resident or a device still has. Its own packets and
/// coroutines go with it: whatever it owned is nobody's then.
pub fn gone_task_law()
    ensures valid { (l : Lists) (front back : List Task) (t : Task) → AreValid l
        → l.tasks ≡ front ++ t ∷ back → is_guest_id t.id ≡ true
        → l.running ≢ t.id → HasNoPacketsOut l t.id
        → AreValid (with_tasks (front ++ back) l) }
    ensures unowned { (l : Lists) (front back : List Task) (t : Task) → AreValid l
        → l.tasks ≡ front ++ t ∷ back → is_guest_id t.id ≡ true
        → (a : ℕ) → 0 < owners a (task_words l.version t 0)
        → owners a (owned (with_tasks (front ++ back) l)) ≡ 0 }
{}

/// A module comes in anywhere in the list, whose block is of its size, and whose words before its hunks nobody owns.
pub fn new_module_law()
    ensures { (l : Lists) (front back : List LoadedModule) (m : LoadedModule) → AreValid l
        → l.modules ≡ front ++ back → HasBlock l.blocks m.address (last_module_word m)
        → AreUnowned l m.address (m.address + 2 + length m.lengths)
        → AreValid (with_modules (front ++ m ∷ back) l) }
{}

/// A module goes out that no task has, and its words are nobody's then.
pub fn gone_module_law()
    ensures valid { (l : Lists) (front back : List LoadedModule) (m : LoadedModule) → AreValid l
        → l.modules ≡ front ++ m ∷ back
        → AllByRecursion (λ t. has m.address t.modules ≡ false) l.tasks
        → AreValid (with_modules (front ++ back) l) }
    ensures unowned { (l : Lists) (front back : List LoadedModule) (m : LoadedModule) → AreValid l
        → l.modules ≡ front ++ m ∷ back
        → AreUnowned (with_modules (front ++ back) l) m.address (m.address + 2 + length m.lengths) }
{}

/// A coroutine of a guest comes in anywhere in its list, whose first ten words nobody owns.
pub fn new_coroutine_law()
    ensures { (l : Lists) (before after : List Task) (t : Task)
        (front back : List Coroutine) (c : Coroutine) → AreValid l
        → l.tasks ≡ before ++ t ∷ after → t.coroutines.list ≡ front ++ back
        → is_guest_id t.id ≡ true → IsCoroutine l c → AreUnowned l c.address (c.address + 10)
        → AreValid (with_tasks (before ++ with_coroutines (front ++ c ∷ back) t ∷ after) l) }
{}

/// A coroutine of a task goes out that is not active, and its words are nobody's then.
pub fn gone_coroutine_law()
    ensures valid { (l : Lists) (before after : List Task) (t : Task)
        (front back : List Coroutine) (c : Coroutine) → AreValid l
        → l.tasks ≡ before ++ t ∷ after → t.coroutines.list ≡ front ++ c ∷ back
        → has c.address t.coroutines.active ≡ false
        → AreValid (with_tasks (before ++ with_coroutines (front ++ back) t ∷ after) l) }
    ensures unowned { (l : Lists) (before after : List Task) (t : Task)
        (front back : List Coroutine) (c : Coroutine) → AreValid l
        → l.tasks ≡ before ++ t ∷ after → t.coroutines.list ≡ front ++ c ∷ back
        → AreUnowned (with_tasks (before ++ with_coroutines (front ++ back) t ∷ after) l)
        c.address (c.address + 10) }
{}
