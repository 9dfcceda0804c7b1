// The words of a task block by their names.
ghost use Rattle.std.specs.Prelude.{◌≡◌, ◌+◌, slice_index, slice_set};
ghost use Rattle.kernel_lists.specs.TaskBlock.TaskWords.{word_index};

use word_store::{Store, set_word_at, word_at};

/// The words 0 to 22 of a task block, in order. In version 2 a guest's has 30, the others of which have modules.
#[derive(Clone, Copy)]
pub enum TcbField {
    /// The next task block of the chain, or 0.
    Link,
    /// The number of the task, from 1.
    Id,
    /// Its priority, from 1 to 10,000.
    Pri,
    /// The first packet of its work queue, or 0.
    Queue,
    /// Its state.
    State,
    /// Its flags.
    Flags,
    /// The address of its stack.
    Stack,
    /// The highest index of the stack.
    StackTop,
    /// The address of its globals.
    Globals,
    /// The number of the task that made it, or 0.
    Maker,
    /// Its first module, or 0.
    Module,
    /// Its register A while it does not run.
    SavedA,
    /// Its register B while it does not run.
    SavedB,
    /// Its register C while it does not run.
    SavedC,
    /// Its register P while it does not run.
    SavedP,
    /// Its register G while it does not run.
    SavedG,
    /// Its register PC while it does not run.
    SavedPc,
    /// The newest of its coroutines, or 0.
    FirstCo,
    /// The coroutine that runs in it, or 0 in its root.
    CurrentCo,
    /// The root's P while a coroutine runs.
    RootP,
    /// The root's PC while a coroutine runs.
    RootPc,
    /// The code of its fault, or 0 where it has not faulted.
    Extra1,
    /// The address of its fault, or 0.
    Extra2,
}

impl TcbField {
    /// Which word of a task block it is, from 0.
    pub fn index(self) -> u32
        ensures { result ≡ word_index self }
    {
        match self {
            TcbField::Link => 0,
            TcbField::Id => 1,
            TcbField::Pri => 2,
            TcbField::Queue => 3,
            TcbField::State => 4,
            TcbField::Flags => 5,
            TcbField::Stack => 6,
            TcbField::StackTop => 7,
            TcbField::Globals => 8,
            TcbField::Maker => 9,
            TcbField::Module => 10,
            TcbField::SavedA => 11,
            TcbField::SavedB => 12,
            TcbField::SavedC => 13,
            TcbField::SavedP => 14,
            TcbField::SavedG => 15,
            TcbField::SavedPc => 16,
            TcbField::FirstCo => 17,
            TcbField::CurrentCo => 18,
            TcbField::RootP => 19,
            TcbField::RootPc => 20,
            TcbField::Extra1 => 21,
            TcbField::Extra2 => 22,
        }
    }
}

/// The word of the task block at t, or 0 where the store ends before it.
pub fn field(store: &Store, t: u32, f: TcbField) -> u32
    ensures { result ≡ slice_index store.now (t + word_index f) }
{
    word_at(store, t, f.index())
}

/// Sets the word of the task block at t, and no other. Where the store ends before it, nothing is written.
pub fn set_field(store: &mut Store, t: u32, f: TcbField, w: u32)
    ensures { store.new ≡ slice_set store.old (t + word_index f) w }
{
    set_word_at(store, t, f.index(), w);
}
