// The names that the lines of a text define.
ghost use Rattle.std.specs.Prelude.{◌≡◌, Some, OnOk};
ghost use Rattle.std.specs.Map.{update};
ghost use Rattle.std.specs.Option.{option_copied};
ghost use Rattle.std.specs.Str.{bytes_eq};
ghost use Rattle.friendly_assembly.specs.KeptNames.{kept};

use crate::values::Value;
use std::alloc::AllocError;
use std::collections::BTreeMap;

/// A constant that is set.
#[derive(Drop)]
pub struct Constant<'a> {
    /// Its value.
    pub value: Value<'a>,
    /// The line on which it is set.
    pub line: u64,
}

/// The constants by their names.
pub type ConstantTable<'a> = BTreeMap<&'a [u8], Constant<'a>>;

/// The names that lines define.
#[derive(Clone, Copy)]
pub struct Names<'m, 'a> {
    /// The constants.
    pub constants: &'m ConstantTable<'a>,
    /// The first label of the line of each other label.
    pub firsts: &'m BTreeMap<&'a [u8], &'a [u8]>,
}

/// The constant of this name; `None` exactly where none is set.
pub fn constant_named<'m, 'a>(
    constants: &'m ConstantTable<'a>,
    name: &[u8],
) -> Option<&'m Constant<'a>>
    ensures { option_copied result ≡ kept constants.now name.now }
{
    constants.get(name)
}

/// Sets a constant.
pub fn set<'a>(
    constants: &mut ConstantTable<'a>,
    name: &'a [u8],
    constant: Constant<'a>,
) -> Result<(), AllocError>
    ensures { let table = update bytes_eq (kept constants.old) name.now (Some constant.entry) in
        OnOk result (kept constants.new ≡ table) }
{
    constants.insert(name, constant)?;
    Ok(())
}
