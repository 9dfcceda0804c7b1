// Assembly and listings: the module that an assembly text makes, the listing of a module, and how each leads back to the other. The functions
// here do nothing: their contracts are the laws.
#![tactic(auto)]

pub mod assembly_text;
pub mod module_listing;

ghost use Rattle.std.specs.Prelude.{◌≡◌, ◌++◌, ◌∷◌, ℕ, Bool, false, List, [], Ok, Option, codes, decimal};
ghost use Rattle.byte_streams.specs.Pieces.{joined};
ghost use Rattle.word_store.specs.Bytes.{byte_at};
ghost use Rattle.module_text.specs.Canonical.{printed};
ghost use Rattle.module_text.specs.declared.modules.Hunk.{Hunk};
ghost use Rattle.assembly.specs.AssemblyText.Assembly.{assembled};
ghost use Rattle.assembly.specs.AssemblyText.AssemblyForm.{Assembles};
ghost use Rattle.assembly.specs.AssemblyText.Places.{first_offset};
ghost use Rattle.assembly.specs.ModuleListing.Cover.{Follow, ListedLine, hunk_lines};
ghost use Rattle.assembly.specs.ModuleListing.Listing.{listed};
ghost use Rattle.assembly.specs.PlainCode.{IsPlainAt, IsPlainCode};
ghost use Rattle.assembly.specs.Source.{source, source_line};

/// The listing of plain code, with labels in the place of addresses, assembles to the hunk again: to its words, without
/// relocations. So `assemble` gives the printed module of the hunk.
pub fn listing_law()
    ensures again { (has_label : ℕ → Bool) (lines : List ListedLine) (h : Hunk) →
        IsPlainCode has_label lines h →
        Assembles (source has_label (byte_at h.words) lines) (record { hunks = h ∷ [] }) }
    ensures printed { (has_label : ℕ → Bool) (lines : List ListedLine) (h : Hunk) →
        IsPlainCode has_label lines h →
        assembled (source has_label (byte_at h.words) lines)
        ≡ Ok (printed (record { hunks = h ∷ [] })) }
{}

/// The lines that are assembled are those of the listing. Where a line of the hunk's listing begins with the code, they
/// are there; and one that leads to no target has its text there after the address.
pub fn listed_law()
    ensures lines { (has_label : ℕ → Bool) (lines front rest : List ListedLine) (h : Hunk) →
        IsPlainCode has_label lines h →
        hunk_lines h.words ≡ front ++ rest → Follow 0 first_offset front →
        (back : List ListedLine) × (rest ≡ lines ++ back) }
    ensures text { (code : ℕ → Option ℕ) (a : ℕ) → IsPlainAt (λ t. ⊥) code a →
        (listed code a).text
        ≡ joined (decimal a ∷ codes " " ∷ source_line false code a ∷ codes "\n" ∷ []) }
{}

pub use assembly_text::assemble;
pub use module_listing::disassemble_module;
pub use module_listing::lines::gather_line;
