// Numbers in their ranges.
ghost use Rattle.std.specs.Prelude.{◌≡◌, ◌≤◌, IfSome};
ghost use Rattle.kernel_model.specs.KernelRecord.Ranges.{most_words};
ghost use Rattle.session_text.specs.Ranges.{highest_task};
ghost use Rattle.session_making.specs.Numbers.{period_in, priority_in, stack_in, steps_in, store_in, task_in, version_in};

use module_text::number;

/// The version that a word is, if it is one.
pub fn version_in(word: &[u8]) -> Option<u32>
    ensures { result ≡ version_in word.now }
{
    if word == b"1".as_slice() {
        Some(1)
    } else if word == b"2".as_slice() {
        Some(2)
    } else {
        None
    }
}

/// The most words that a store has.
pub fn most_words(version: u32) -> u64
    ensures value { result ≡ most_words version }
    ensures small { result ≤ 4194304 }
{
    if version == 1 { 262_144 } else { 4_194_304 }
}

/// The size of a store of this version that a word is, if it is one.
pub fn store_in(version: u32, word: &[u8]) -> Option<u32>
    ensures { result ≡ store_in version word.now }
{
    let words = number(word)?;
    if 1024 <= words && words <= most_words(version) && words % 2 == 0 {
        return Some(words as u32);
    }
    None
}

/// The number of steps that a word is, if it is one.
pub fn steps_in(word: &[u8]) -> Option<u64>
    ensures { result ≡ steps_in word.now }
{
    let steps = number(word)?;
    if steps <= 4_000_000_000 {
        return Some(steps);
    }
    None
}

/// The period of a clock that a word is, if it is one.
pub fn period_in(word: &[u8]) -> Option<u32>
    ensures { result ≡ period_in word.now }
{
    let steps = number(word)?;
    if 1 <= steps && steps <= 1_000_000 {
        return Some(steps as u32);
    }
    None
}

/// The highest number of a task.
pub fn highest_task(version: u32) -> u64
    ensures value { result ≡ highest_task version }
    ensures small { result ≤ 63 }
{
    if version == 1 { 20 } else { 63 }
}

/// The number of a task that a word is, if it is one.
pub fn task_in(version: u32, word: &[u8]) -> Option<u32>
    ensures { result ≡ task_in version word.now }
{
    let id = number(word)?;
    if 5 <= id && id <= highest_task(version) {
        return Some(id as u32);
    }
    None
}

/// The priority that a word is, if it is one.
pub fn priority_in(word: &[u8]) -> Option<u32>
    ensures { result ≡ priority_in word.now }
{
    let priority = number(word)?;
    if 1 <= priority && priority <= 10_000 {
        return Some(priority as u32);
    }
    None
}

/// The highest index of a stack that a word is, if it is one.
pub fn stack_in(word: &[u8]) -> Option<u32>
    ensures { result ≡ stack_in word.now }
{
    let stack = number(word)?;
    if 20 <= stack && stack <= 100_000 {
        return Some(stack as u32);
    }
    None
}
