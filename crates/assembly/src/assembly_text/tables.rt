// The labels that were found.
ghost use Rattle.std.specs.Prelude.{◌≡◌, Some, OnOk};
ghost use Rattle.std.specs.Map.{update};
ghost use Rattle.std.specs.Str.{bytes_eq};
ghost use Rattle.assembly.specs.AssemblyText.KeptLabels.{table_of};

use crate::assembly_text::places::Place;
use std::alloc::AllocError;
use std::collections::BTreeMap;

/// Gives a label its place.
pub fn define<'a>(
    labels: &mut BTreeMap<&'a [u8], Place>,
    name: &'a [u8],
    place: Place,
) -> Result<(), AllocError>
    ensures { let table = update bytes_eq (table_of labels.old) name.now (Some place) in
        OnOk result (table_of labels.new ≡ table) }
{
    labels.insert(name, place)?;
    Ok(())
}

/// The place of a label; `None` exactly where it has none.
pub fn look_up(labels: &BTreeMap<&[u8], Place>, name: &[u8]) -> Option<Place>
    ensures { result ≡ table_of labels.now name.now }
{
    labels.get(name).copied()
}
