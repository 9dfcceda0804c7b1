// Laws of the texts: how long they are, and what the largest run is.
ghost use Rattle.std.specs.Prelude.{◌≡◌, ◌<◌, ◌≤◌, ◌^◌, ◌-◌, ℕ, List, false, length};
ghost use Rattle.std.specs.List.{AllByRecursion};
ghost use Rattle.kernel_lists.specs.declared.getvec_chain.pieces.Block.{Block};
ghost use Rattle.kernel_lists.specs.declared.getvec_chain.pieces.Run.{Run};
ghost use Rattle.kernel_lists.specs.GetvecChain.Run.{IsMaximalRun};
ghost use Rattle.kernel_lists.specs.GetvecChain.Tiling.{IsTiled, blocks_in};
ghost use Rattle.ram_disc.specs.Disc.{Disc, IsDisc};
ghost use Rattle.kernel_model.specs.KernelRecord.Lists.{Lists};
ghost use Rattle.kernel_model.specs.KernelRecord.ValidLists.{AreValid};
ghost use Rattle.shell.specs.ShellListings.BlockLine.{block_line, largest_run, most_in_block_line};
ghost use Rattle.shell.specs.ShellListings.FileLines.{file_lines, most_in_files};
ghost use Rattle.shell.specs.ShellListings.NumberLines.{most_in_number_line, number_line};
ghost use Rattle.shell.specs.ShellListings.TaskLines.{most_in_tasks, task_lines};

/// The most bytes of the lines of a disc's files, of the tasks and of the blocks of valid lists, and of a line with one number.
pub fn lengths_law()
    ensures files { (d : Disc) → IsDisc d → length (file_lines d) ≤ most_in_files }
    ensures tasks { (l : Lists) → AreValid l → length (task_lines l.tasks) ≤ most_in_tasks }
    ensures blocks { (l : Lists) → AreValid l
        → length (block_line l.blocks) ≤ most_in_block_line }
    ensures number { (text : List ℕ) (n : ℕ) → length text ≤ 12 → n < 2 ^ 32
        → length (number_line text n) ≤ most_in_number_line }
{}

/// The largest run has as many words as the largest of the maximal runs of free blocks, and 0 where no block is free.
pub fn largest_run_law()
    ensures most { (s : List ℕ) (run : Run) → IsTiled s → IsMaximalRun (blocks_in s) run
        → run.end - run.start ≤ largest_run (blocks_in s) }
    ensures reached { (s : List ℕ) → IsTiled s → 0 < largest_run (blocks_in s)
        → (run : Run) × IsMaximalRun (blocks_in s) run
        × (run.end - run.start ≡ largest_run (blocks_in s)) }
    ensures none { (bs : List Block) → AllByRecursion (λ b. b.free ≡ false) bs
        → largest_run bs ≡ 0 }
{}
