// Laws of maps and their texts.
ghost use Rattle.std.specs.Prelude.{◌≡◌, ℕ, List, Ok};
ghost use Rattle.program_places.specs.MapForm.{IsMap};
ghost use Rattle.program_places.specs.MapOfText.{map_of};
ghost use Rattle.program_places.specs.declared.maps.ProgramMap.{ProgramMap};

/// What is read from a text is the map whose text it is: its lines state the hunks of the map, one after another, and its places.
pub fn map_law()
    ensures { (text : List ℕ) (m : ProgramMap) → map_of text ≡ Ok m → IsMap text m }
{}
