// The values that names have.
ghost use Rattle.std.specs.Prelude.{◌≡◌, Some, OnOk};
ghost use Rattle.std.specs.Map.{update};
ghost use Rattle.std.specs.Option.{option_copied};
ghost use Rattle.std.specs.Str.{bytes_eq};
ghost use Rattle.lab_marks.specs.Known.{kept, name_worth};

use crate::arithmetic::short;
use crate::wrongs::Wrong;
use std::alloc::AllocError;
use std::collections::BTreeMap;
use tool_texts::Lent;

/// Values by their names.
pub type Known<'a> = BTreeMap<&'a [u8], i64>;

/// What a name is worth.
pub fn name_worth<'a>(known: &Known<'_>, name: Lent<'a>) -> Result<i64, Wrong<'a>>
    ensures { result ≡ name_worth (kept known.now) name.entry }
{
    match value_named(known, name.bytes()) {
        Some(value) => short(value),
        None => Err(Wrong::NoName(name)),
    }
}

// The value of this name; `None` exactly where it has none.
fn value_named(known: &Known<'_>, name: &[u8]) -> Option<i64>
    ensures { result ≡ kept known.now name.now }
{
    known.get(name).copied()
}

/// Gives a name a value, instead of the one that it may have.
pub fn set<'a>(known: &mut Known<'a>, name: &'a [u8], value: i64) -> Result<(), AllocError>
    ensures { let values = update bytes_eq (kept known.old) name.now (Some value) in
        OnOk result (kept known.new ≡ values) }
{
    known.insert(name, value)?;
    Ok(())
}
