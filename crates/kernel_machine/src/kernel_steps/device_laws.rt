// What the devices leave.
ghost use Rattle.std.specs.Prelude.{◌≡◌, ◌+◌, ◌/◌, ◌<◌, ◌≤◌, length, ℕ};
ghost use Rattle.std.specs.List.{AllByRecursion};
ghost use Rattle.kernel_model.specs.KernelRecord.Ranges.{most_steps};
ghost use Rattle.kernel_model.specs.KernelRecord.Kernel.{Kernel};
ghost use Rattle.kernel_model.specs.KernelDispatch.Dispatch.{CanDispatch};
ghost use Rattle.guest_turns.specs.GuestTurn.{numbers_of};
ghost use Rattle.kernel_machine.specs.KernelSteps.Parts.{HasSameKeys, HasSameResidents, IsSameMachine, numbers_after_tick, tick_after};
ghost use Rattle.kernel_machine.specs.KernelSteps.Step.{key, output, tick};

/// After the clock was asked a dispatch may follow where it could before. The ticks are one more where it ticked, and the
/// whole periods of the steps once more; all else but the lists stays, and of them who runs, the period, the version and
/// whether there are residents.
pub fn tick_law()
    ensures dispatch { (k : Kernel) → CanDispatch k.lists k.regs
        → CanDispatch (tick k).kernel.lists (tick k).kernel.regs }
    ensures numbers { (k : Kernel) → CanDispatch k.lists k.regs
        → numbers_of (tick k).kernel.lists ≡ numbers_after_tick k }
    ensures periods { (k : Kernel) (n : ℕ) → 0 < k.lists.period → k.steps ≡ n + 1
        → k.lists.tick ≡ n / k.lists.period
        → tick_after k ≡ k.steps / k.lists.period }
    ensures same { (k : Kernel) → IsSameMachine k (tick k).kernel }
    ensures residents { (k : Kernel) → HasSameResidents k (tick k).kernel }
    ensures keys { (k : Kernel) → HasSameKeys k (tick k).kernel }
    ensures stop { (k : Kernel) → (tick k).kernel.stop ≡ k.stop }
{}

/// The keyboard leaves what the clock does, and the ticks too. The keys that are left are
/// due within the steps that a machine may take, and at most 128 bytes are typed ahead.
pub fn key_law()
    ensures dispatch { (k : Kernel) → CanDispatch k.lists k.regs
        → CanDispatch (key k).kernel.lists (key k).kernel.regs }
    ensures numbers { (k : Kernel) → CanDispatch k.lists k.regs
        → numbers_of (key k).kernel.lists ≡ numbers_of k.lists }
    ensures same { (k : Kernel) → IsSameMachine k (key k).kernel }
    ensures residents { (k : Kernel) → HasSameResidents k (key k).kernel }
    ensures keys { (k : Kernel) → AllByRecursion (λ key. key.0 ≤ most_steps) k.keys
        → AllByRecursion (λ key. key.0 ≤ most_steps) (key k).kernel.keys }
    ensures ahead { (k : Kernel) → length k.type_ahead ≤ 128
        → length (key k).kernel.type_ahead ≤ 128 }
    ensures stop { (k : Kernel) → (key k).kernel.stop ≡ k.stop }
{}

/// The output leaves what the clock does, and the ticks too.
pub fn output_law()
    ensures dispatch { (k : Kernel) → CanDispatch k.lists k.regs
        → CanDispatch (output k).kernel.lists (output k).kernel.regs }
    ensures numbers { (k : Kernel) → CanDispatch k.lists k.regs
        → numbers_of (output k).kernel.lists ≡ numbers_of k.lists }
    ensures same { (k : Kernel) → IsSameMachine k (output k).kernel }
    ensures residents { (k : Kernel) → HasSameResidents k (output k).kernel }
    ensures keys { (k : Kernel) → HasSameKeys k (output k).kernel }
    ensures stop { (k : Kernel) → (output k).kernel.stop ≡ k.stop }
{}
