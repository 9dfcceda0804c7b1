// Laws of a task that is out of the chain, and of the words that tasks own.
ghost use Rattle.std.specs.Prelude.{◌≡◌, ◌<◌, ◌≤◌, ◌+◌, ◌++◌, ◌∷◌, ℕ, List, map, slice_set, true};
ghost use Rattle.kernel_lists.specs.LinkedList.Places.{has};
ghost use Rattle.kernel_lists.specs.TaskBlock.ChainWords.{BlockComesIn, BlockInsert, BlockUnlink, HeldBlocks, TaskBlock, block_address};
ghost use Rattle.kernel_lists.specs.TaskBlock.HeldTasks.{HasTheseTasks};
ghost use Rattle.kernel_lists.specs.TaskBlock.Moves.{HasNewPriority, StaysNew, with_priority, with_task, without_task};
ghost use Rattle.kernel_lists.specs.TaskBlock.TaskChain.{HasTasks, IsNewTask, tasks_in};

/// A word of a task block that may come into the chain, its link and its number aside, may be written: the chain and the table
/// are as they were, and the task may still come in.
pub fn new_task_law()
    ensures { (s : List ℕ) (t j w : ℕ) → HasTasks s → IsNewTask s t → 2 ≤ j → j < 23
        → StaysNew s (slice_set s (t + j) w) t }
{}

/// A task of the chain that went out, and has another priority, may come in again. Where no other task has this priority, its
/// priority is none of the chain's.
pub fn priority_law()
    ensures { (s : List ℕ) (t pri : ℕ) → HasTasks s → has t (tasks_in s) ≡ true
        → HasNewPriority s (with_priority s t pri) t pri }
{}

/// Where a store holds the words of task blocks, from the head of the chain on and apart from the root, and the table leads to
/// each by its number, these are its tasks.
pub fn held_tasks_law()
    ensures { (s : List ℕ) (bs : List TaskBlock) → HeldBlocks s bs
        → HasTheseTasks s (map block_address bs) }
{}

/// What an insert and an unlink do to the words that tasks own in the chain and in the table.
pub fn task_words_law()
    ensures insert { (s : List ℕ) (bs : List TaskBlock) (b : TaskBlock) → HeldBlocks s bs
        → BlockComesIn s b → BlockInsert s (with_task s b.address) bs b }
    ensures unlink { (s : List ℕ) (front : List TaskBlock) (b : TaskBlock)
        (back : List TaskBlock) → HeldBlocks s (front ++ b ∷ back)
        → BlockUnlink s (without_task s b.address) front b back }
{}
