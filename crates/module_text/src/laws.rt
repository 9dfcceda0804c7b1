// Laws of modules and their texts.
ghost use Rattle.std.specs.Prelude.{◌≡◌, ◌↔◌, ◌≤◌, ◌⊎◌, ℕ, List, [], ◌∷◌, Ok, None};
ghost use Rattle.module_text.specs.FirstError.{BeginModule, EndsEarly, IsBegun, IsBeyond, IsFirstError, IsInsideItem, IsNoOffset, IsNoType, IsNoWord, IsOffsetDue, IsTypeDue};
ghost use Rattle.module_text.specs.Tokens.{tokens_of};
ghost use Rattle.module_text.specs.Places.{next_word};
ghost use Rattle.module_text.specs.ReadingOn.{Reads, ReadsOn};
ghost use Rattle.module_text.specs.ModuleForm.{AreWords, IsModule};
ghost use Rattle.module_text.specs.ModuleOfText.{IsRefused, module_of};
ghost use Rattle.module_text.specs.Canonical.{HasWords, IsPrintable, printed};
ghost use Rattle.module_text.specs.declared.modules.Module.{Module};

/// What is read from a text is the module whose text it is, and every text of a module is read: so a text has at most
/// one module.
pub fn module_law()
    ensures sound { (text : List ℕ) (m : Module) → module_of text ≡ Ok m → IsModule text m }
    ensures complete { (text : List ℕ) (m : Module) → IsModule text m → module_of text ≡ Ok m }
{}

/// A text is refused at its first token in error: the words before it are begun, as far as they go, and with it they are
/// not. The code is 1 exactly where the token is no word, 6 where the words before it are a whole module's, 4 where an
/// offset is due, and 3 where a type is. Code 2 comes exactly where the text ends inside an item, and 5 where it ends where
/// an item could begin.
pub fn refusal_law()
    ensures no_word { (text : List ℕ) (n : ℕ) → IsRefused text n 1 ↔ IsFirstError text n IsNoWord }
    ensures inside { (text : List ℕ) (n : ℕ) → IsRefused text n 2 ↔ EndsEarly text n IsInsideItem }
    ensures no_type { (text : List ℕ) (n : ℕ) → IsRefused text n 3 ↔ IsFirstError text n IsNoType }
    ensures no_offset { (text : List ℕ) (n : ℕ) →
        IsRefused text n 4 ↔ IsFirstError text n IsNoOffset }
    ensures between { (text : List ℕ) (n : ℕ) → IsRefused text n 5 ↔ EndsEarly text n IsTypeDue }
    ensures beyond { (text : List ℕ) (n : ℕ) → IsRefused text n 6 ↔ IsFirstError text n IsBeyond }
    ensures codes { (text : List ℕ) (n code : ℕ) → IsRefused text n code → (1 ≤ code) × (code ≤ 6) }
{}

/// Words that begin a module's words are begun. Begun words begin a module's words, or an offset is due after them: into
/// a hunk of no words there is none.
pub fn begun_law()
    ensures begin { (words : List ℕ) → BeginModule words → IsBegun words }
    ensures begun { (words : List ℕ) → IsBegun words → BeginModule words ⊎ IsOffsetDue words }
{}

/// The printed text of a module is read as the same module.
pub fn printed_law()
    ensures { (m : Module) → IsPrintable m → HasWords m → module_of (printed m) ≡ Ok m }
{}

/// A text whose tokens are words is read word after word: from place 0 on all of them are left; while some are left, the
/// next word is the first of these, and the others are left from its end on; and where none is left, there is no next word.
pub fn words_law()
    ensures all { (text words : List ℕ) → AreWords (tokens_of text) words → Reads text 0 words }
    ensures next { (text words : List ℕ) (place word : ℕ) →
        Reads text place (word ∷ words) → ReadsOn text place word words }
    ensures none { (text : List ℕ) (place : ℕ) → Reads text place [] → next_word text place ≡ None }
{}
