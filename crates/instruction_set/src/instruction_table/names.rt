// Rows, found by their names.
ghost use Rattle.std.specs.Prelude.{◌≡◌, ◌≢◌, ◌↔◌, ℕ, Some, IfSome, IsNone};
ghost use Rattle.instruction_set.specs.InstructionTable.Names.{byte_named, has_name, name_at};

use crate::instruction_table::name as row_name;
use crate::instruction_table::places::kept_byte;

/// The byte whose row has the name, or `None` exactly where no row has it.
#[tactic(auto, using(crate::proofs::InstructionTable::NameLemmas::has_name_from, crate::proofs::InstructionTable::NameLemmas::byte_named_at, crate::proofs::InstructionTable::NameLemmas::never_named, crate::proofs::InstructionTable::NameLemmas::unnamed))]
pub fn byte_of(name: &str) -> Option<u8>
    ensures found { IfSome result (λ byte. name_at byte ≡ Some name.now) }
    ensures none { IsNone result ↔ ((byte : ℕ) → name_at byte ≢ Some name.now) }
    ensures value { result ≡ byte_named name.now }
{
    let byte = kept_byte(name.as_bytes());
    if is_named(byte, name) {
        Some(byte)
    } else {
        None
    }
}

fn is_named(byte: u8, name: &str) -> bool
    ensures { result ≡ has_name name.now byte }
{
    match row_name(byte) {
        Some(row_name) => row_name == name,
        None => false,
    }
}
