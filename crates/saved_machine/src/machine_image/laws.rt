// The law of the machine that was saved.
ghost use Rattle.std.specs.Prelude.{◌≡◌, None};
ghost use Rattle.tripos_machine.specs.State.{IsSound, State, regs_of, steps_of, stop_of, words_of};
ghost use Rattle.saved_text.specs.Canonical.{IsLawful};
ghost use Rattle.saved_text.specs.declared.images.Image.{Image};
ghost use Rattle.saved_machine.specs.MachineImage.Machines.{IsMachineOf, state_in};

/// What was saved is one machine at most. It has not stopped, and has the words, the registers and the steps that were saved.
/// What holds of a machine at every moment between steps holds of it, where the fields are within the rules of the text.
pub fn machine_law()
    ensures one { (x : Image) (s : State) → IsMachineOf x s → s ≡ state_in x }
    ensures goes { (x : Image) (s : State) → IsMachineOf x s → stop_of s ≡ None }
    ensures words { (x : Image) (s : State) → IsMachineOf x s → words_of s ≡ x.store }
    ensures regs { (x : Image) (s : State) → IsMachineOf x s → regs_of s ≡ x.regs }
    ensures steps { (x : Image) (s : State) → IsMachineOf x s → steps_of s ≡ x.step }
    ensures sound { (x : Image) (s : State) → IsLawful x → IsMachineOf x s → IsSound s }
{}
