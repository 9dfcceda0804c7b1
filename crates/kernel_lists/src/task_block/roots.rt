// The words of the root node by their names.
ghost use Rattle.std.specs.Prelude.{◌≡◌, slice_index, slice_set};
ghost use Rattle.kernel_lists.specs.TaskBlock.RootWords.{root_address};

use word_store::{Store, word};

/// The words 100 to 112 of the store, in order.
#[derive(Clone, Copy)]
pub enum RootField {
    /// The address of the task table, 120.
    Table,
    /// The first task block of the chain, or 0.
    FirstTask,
    /// The task block of the running task, or 0.
    Running,
    /// The address of the first block, 200.
    FirstBlock,
    /// The newest module, or 0.
    FirstModule,
    /// The head of the clock's queue.
    ClockQueue,
    /// The head of the keyboard's queue.
    KeyQueue,
    /// The head of the output device's queue.
    OutputQueue,
    /// The number of ticks so far.
    Tick,
    /// The number of words of the store.
    Size,
    /// The number of steps from tick to tick.
    Period,
    /// The version of the layout, 1 or 2.
    Version,
    /// The data address of the block of the resident tasks, or 0.
    Residents,
}

impl RootField {
    /// Where it is in the store.
    pub fn address(self) -> u32
        ensures { result ≡ root_address self }
    {
        match self {
            RootField::Table => 100,
            RootField::FirstTask => 101,
            RootField::Running => 102,
            RootField::FirstBlock => 103,
            RootField::FirstModule => 104,
            RootField::ClockQueue => 105,
            RootField::KeyQueue => 106,
            RootField::OutputQueue => 107,
            RootField::Tick => 108,
            RootField::Size => 109,
            RootField::Period => 110,
            RootField::Version => 111,
            RootField::Residents => 112,
        }
    }
}

/// The word of the root node, or 0 where the store ends before it.
pub fn root(store: &Store, f: RootField) -> u32
    ensures { result ≡ slice_index store.now (root_address f) }
{
    word(store, f.address())
}

/// Sets the word of the root node, and no other. Where the store ends before it, nothing is written.
pub fn set_root(store: &mut Store, f: RootField, w: u32)
    ensures { store.new ≡ slice_set store.old (root_address f) w }
{
    store.set(f.address(), w);
}
