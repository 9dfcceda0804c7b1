// Laws of saved machines and their texts.
ghost use Rattle.std.specs.Prelude.{◌≡◌, ◌↔◌, ◌≤◌, ◌⊎◌, ℕ, List, Ok};
ghost use Rattle.saved_text.specs.Canonical.{IsLawful, canonical};
ghost use Rattle.saved_text.specs.FirstError.{EndsEarly, IsFirstError};
ghost use Rattle.saved_text.specs.ImageForm.{IsImage};
ghost use Rattle.saved_text.specs.ImageOfText.{IsRefused, image_of};
ghost use Rattle.saved_text.specs.declared.images.Image.{Image};

/// What is read from a text is the saved machine whose text it is, and every text of a saved machine is read: so a text has
/// at most one.
pub fn image_law()
    ensures sound { (text : List ℕ) (x : Image) → image_of text ≡ Ok x → IsImage text x }
    ensures complete { (text : List ℕ) (x : Image) → IsImage text x → image_of text ≡ Ok x }
{}

/// The canonical text of a saved machine whose fields are within the rules is read as the same machine.
pub fn printed_law()
    ensures { (x : Image) → IsLawful x → image_of (canonical x) ≡ Ok x }
{}

/// A text is refused with code 1 or 2 exactly at its first line in error: some saved machine has a text that begins with the
/// lines before it, and none has one that begins with the lines up to it. Code 3 comes exactly where all lines begin a saved
/// machine's text, and are none. There is no other code.
pub fn refusal_law()
    ensures first { (text : List ℕ) (n : ℕ) →
        (IsRefused text n 1 ⊎ IsRefused text n 2) ↔ IsFirstError text n }
    ensures end { (text : List ℕ) (n : ℕ) → IsRefused text n 3 ↔ EndsEarly text n }
    ensures codes { (text : List ℕ) (n code : ℕ) →
        IsRefused text n code → (1 ≤ code) × (code ≤ 3) }
{}
