// The laws of the text of a machine.
ghost use Rattle.std.specs.Prelude.{◌≡◌, ℕ, None, Ok};
ghost use Rattle.saved_text.specs.Canonical.{IsLawful, canonical};
ghost use Rattle.saved_text.specs.ImageOfText.{image_of};
ghost use Rattle.saved_machine.specs.MachineImage.Machines.{IsMachineOf};
ghost use Rattle.tripos_machine.specs.State.{IsSound, State, stop_of};
ghost use Rattle.saved_machine.specs.ImagePrint.Numbers.{HasWordsAndBytes, IsSized, MayTake};
ghost use Rattle.saved_machine.specs.ImagePrint.SavedImage.{saved_image};

/// The text of a machine is within the rules of texts, and is read as what it says: where the machine is sound, its words are
/// words and its bytes bytes, as those of each machine are, and it may take the steps to go. One without a kernel needs besides
/// a store that the version may have.
pub fn saved_law()
    ensures lawful { (version : ℕ) (s : State) (go : ℕ) → IsSound s → HasWordsAndBytes s
        → IsSized version s → MayTake s go → IsLawful (saved_image version s go) }
    ensures read { (version : ℕ) (s : State) (go : ℕ) → IsSound s → HasWordsAndBytes s
        → IsSized version s → MayTake s go
        → image_of (canonical (saved_image version s go)) ≡ Ok (saved_image version s go) }
{}

/// The machine that a machine's text stands for is that machine, where it is sound and has not stopped.
pub fn resumed_law()
    ensures { (version : ℕ) (s : State) (go : ℕ) → IsSound s → stop_of s ≡ None
        → IsMachineOf (saved_image version s go) s }
{}
