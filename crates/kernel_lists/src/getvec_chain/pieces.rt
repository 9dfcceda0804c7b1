// Blocks of a store, and runs of free blocks.
ghost use Rattle.std.specs.Prelude.{◌≡◌, ◌+◌, ◌<◌, ◌^◌};
ghost use Rattle.kernel_lists.specs.GetvecChain.Block.{block_end, block_of_word, has_data, is_used_at};

/// The address of the first block.
pub const FIRST_BLOCK: u32 = 200;

/// A block: the address of its size word, its size in words, the size word included, and whether it is free. Its data
/// are the words after the size word.
#[derive(Clone, Copy)]
pub struct Block {
    /// The address of its size word.
    pub start: u32,
    /// How many words it has, its size word among them.
    pub size: u32,
    /// Nobody has it.
    pub free: bool,
}

/// A run of adjacent free blocks: the address of its first word, and the address after its last.
#[derive(Clone, Copy)]
pub struct Run {
    /// The address of its first word.
    pub start: u32,
    /// The address after its last word.
    pub end: u32,
}

impl Block {
    /// The block that a size word makes at an address.
    pub fn of_word(start: u32, word: u32) -> Block
        ensures { result ≡ block_of_word start word }
    {
        Block {
            start,
            size: word - word % 2,
            free: word % 2 == 1,
        }
    }

    /// The address after the block's last word.
    pub fn end(self) -> u32
        requires { self.start + self.size < 2 ^ 32 }
        ensures { result ≡ block_end self }
    {
        self.start + self.size
    }

    /// Whether the word at address a is one of the block's data.
    pub fn has_data(self, a: u32) -> bool
        ensures { result ≡ has_data self a }
    {
        self.start < a && a - self.start < self.size
    }

    /// Whether the block is used and its data begin at address v.
    pub fn is_used_at(self, v: u32) -> bool
        ensures { result ≡ is_used_at v self }
    {
        !self.free && v.checked_sub(1) == Some(self.start)
    }
}
