// Steps in which no device acts.
ghost use Rattle.std.specs.Prelude.{◌≡◌, ◌≢◌, ◌%◌, ◌+◌, ◌/◌, ◌<◌, ◌≤◌, List, None, false, slice_set, suc, true, ℕ};
ghost use Rattle.instruction_set.specs.declared.Outcome.TheVariants.{Next};
ghost use Rattle.kernel_model.specs.KernelRecord.Ranges.{most_steps};
ghost use Rattle.kernel_lists.specs.TaskBlock.RootWords.{root_address};
ghost use Rattle.kernel_lists.specs.declared.task_block.roots.RootField.TheVariants.{Tick};
ghost use Rattle.kernel_model.specs.KernelRecord.Image.{IsImage};
ghost use Rattle.kernel_model.specs.KernelRecord.Kernel.{Kernel};
ghost use Rattle.kernel_model.specs.KernelRecord.Task.{is_guest_id};
ghost use Rattle.kernel_model.specs.KernelRecord.ValidKernel.{IsValid};
ghost use Rattle.kernel_calls.specs.PacketCalls.Returned.{unserved};
ghost use Rattle.kernel_machine.specs.KernelSteps.Quiet.{IsQuietFor, after_instruction_of, instruction_of, passed};
ghost use Rattle.kernel_machine.specs.KernelSteps.Step.{dispatch, run, served, step, with_step};
ghost use Rattle.kernel_machine.specs.KernelSteps.Stepped.{quietly};

/// A dispatch between steps changes nothing, and neither does a device that serves nobody.
pub fn settled_law()
    ensures dispatch { (k : Kernel) → IsValid k → k.stop ≡ None
        → dispatch k ≡ quietly k }
    ensures unserved { (k : Kernel) → IsValid k
        → served k (unserved k.lists) ≡ quietly k }
{}

/// Where nobody runs, a quiet span changes the number of steps and the ticks, and nothing else. It leaves a valid kernel,
/// and of the store the word of the ticks is the only one that changes.
pub fn idle_law()
    ensures run { (m : ℕ) (k : Kernel) → IsValid k → k.stop ≡ None
        → k.lists.running ≡ 0
        → IsQuietFor m k
        → run m k ≡ quietly (passed m k) }
    ensures valid { (m : ℕ) (k : Kernel) → IsValid k → k.stop ≡ None
        → k.lists.running ≡ 0
        → k.steps + m ≤ most_steps
        → IsQuietFor m k
        → IsValid (passed m k) }
    ensures image { (s : List ℕ) (m : ℕ) (k : Kernel) → IsValid k
        → IsImage s k
        → IsImage (slice_set s (root_address Tick) ((k.steps + m) / k.lists.period)) (passed m k) }
{}

/// Where a guest runs, a quiet step is its instruction and no more. It leaves a valid kernel, and the quiet span goes on
/// after it. Where the step is no tick, the ticks stay, and the store is the one that the instruction left.
pub fn guest_law()
    ensures step { (k : Kernel) → IsValid k → k.stop ≡ None
        → is_guest_id k.lists.running ≡ true
        → (instruction_of k).outcome ≡ Next
        → IsQuietFor 1 k
        → step k ≡ quietly (passed 1 (after_instruction_of k)) }
    ensures valid { (k : Kernel) → IsValid k → k.stop ≡ None
        → is_guest_id k.lists.running ≡ true
        → (instruction_of k).outcome ≡ Next
        → k.steps < most_steps
        → IsQuietFor 1 k
        → IsValid (passed 1 (after_instruction_of k)) }
    ensures behind { (m : ℕ) (k : Kernel) → IsValid k → k.stop ≡ None
        → IsQuietFor (suc m) k
        → IsQuietFor m (passed 1 (after_instruction_of k)) }
    ensures left { (m : ℕ) (k j : Kernel) → IsValid k → k.stop ≡ None
        → is_guest_id k.lists.running ≡ true
        → (instruction_of k).outcome ≡ Next
        → IsQuietFor (suc m) k
        → step k ≡ quietly j
        → IsQuietFor m j }
    ensures no_tick { (k : Kernel) → IsValid k → k.stop ≡ None
        → (k.steps + 1) % k.lists.period ≢ 0
        → passed 1 (after_instruction_of k) ≡ with_step (after_instruction_of k) }
    ensures image { (k : Kernel) → IsValid k → k.stop ≡ None
        → is_guest_id k.lists.running ≡ true
        → (instruction_of k).outcome ≡ Next
        → IsImage (instruction_of k).words (with_step (after_instruction_of k)) }
{}
