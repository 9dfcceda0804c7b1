// The ranges of the numbers and names of a session.
ghost use Rattle.std.specs.Prelude.{◌≡◌, ◌≤◌, Some, None, if◌then◌else◌, length, option_map};
ghost use Rattle.std.specs.List.{list_all};
ghost use Rattle.ram_disc.specs.Name.{is_name};
ghost use Rattle.kernel_model.specs.KernelRecord.Ranges.{is_period, is_store_size};
ghost use Rattle.session_text.specs.Ranges.{is_priority, is_stack, is_step, is_task};
ghost use Rattle.session_text.specs.Statements.{fields};

use crate::fields::split_at_blank;
use arrayvec::ArrayVec;
use ram_disc::Name;

/// Whether a store may have so many words.
pub fn is_store_size(version: u32, words: u64) -> bool
    ensures { result ≡ is_store_size version words }
{
    let most = if version == 1 { 262_144 } else { 4_194_304 };
    1024 <= words && words <= most && words % 2 == 0
}

/// Whether so many steps may lie between two ticks of the clock.
pub fn is_period(steps: u64) -> bool
    ensures { result ≡ is_period steps }
{
    1 <= steps && steps <= 1_000_000
}

/// Whether a session may have so many steps.
pub fn is_step(n: u64) -> bool
    ensures { result ≡ is_step n }
{
    n <= 4_000_000_000
}

/// Whether a session's task may have this number.
pub fn is_task(version: u32, id: u64) -> bool
    ensures { result ≡ is_task version id }
{
    let highest = if version == 1 { 20 } else { 63 };
    5 <= id && id <= highest
}

pub fn is_priority(pri: u64) -> bool
    ensures { result ≡ is_priority pri }
{
    1 <= pri && pri <= 10_000
}

/// Whether a stack may have this highest index.
pub fn is_stack(index: u64) -> bool
    ensures { result ≡ is_stack index }
{
    20 <= index && index <= 100_000
}

/// The name of these bytes; `None` exactly where they are no name.
pub fn name_of(bytes: &[u8]) -> Option<Name>
    ensures { result ≡ (if is_name bytes.now then Some bytes.now else None) }
{
    Name::read(bytes)
}

/// The names between blanks; `None` exactly where one of them is no name.
pub fn names_of(text: &[u8]) -> Option<ArrayVec<Name, 8>>
    requires { length (fields text.now) ≤ 8 }
    ensures { let parts = fields text.now in
        option_map (λ names. names.items) result ≡ (if list_all is_name parts then Some parts else None) }
{
    let mut names = ArrayVec::new();
    let mut rest = text;
    while let Some((first, others)) = split_at_blank(rest) {
        names.push(name_of(first)?);
        rest = others;
    }
    names.push(name_of(rest)?);
    Some(names)
}
