// The blocks of a store, counted.
ghost use Rattle.std.specs.Prelude.{◌≡◌, ◌+◌, ◌<◌, ◌≤◌, ◌^◌, ◌++◌, length};
ghost use Rattle.kernel_lists.specs.GetvecChain.Tiling.{IsTiled, blocks_in};
ghost use Rattle.kernel_model.specs.KernelRecord.HoldsLists.{HoldsLists};
ghost use Rattle.kernel_model.specs.KernelRecord.Lists.{Lists};
ghost use Rattle.shell.specs.ShellListings.BlockLine.{block_line, count_text, line_of_counts, most_in_block_line};
ghost use Rattle.shell.specs.ShellListings.Private.BlockCounts.{MayCount, counted, counts_of};

use crate::shell_listings::columns::append_number;
use byte_streams::Output;
use kernel_lists::{Block, blocks};
use word_store::Store;

/// How many blocks are used and how many words they have, the same of free ones, and the words of free blocks that end the
/// blocks counted so far, and of the largest run among them.
#[derive(Clone, Copy)]
pub struct BlockCounts {
    /// How many used blocks.
    pub used: u32,
    /// How many words they have.
    pub used_words: u32,
    /// How many free blocks.
    pub free: u32,
    /// How many words they have.
    pub free_words: u32,
    /// The words of the free blocks that were counted last.
    pub run: u32,
    /// The words of the largest run of free blocks.
    pub largest: u32,
}

/// Writes how many blocks are used and how many words they have, the same of free ones, and the words of the largest run of
/// neighbouring free blocks.
pub fn write_blocks(store: &Store, bytes: &mut Output)
    requires lists { (l : Lists) × HoldsLists store.now l }
    requires room { length bytes.old + most_in_block_line ≤ 8192 }
    ensures text { (l : Lists) → HoldsLists store.now l
        → bytes.new ≡ bytes.old ++ block_line l.blocks }
    ensures short { length bytes.new ≤ length bytes.old + most_in_block_line }
{
    write_counts(count_blocks(store), bytes);
}

// The counts of all blocks.
fn count_blocks(store: &Store) -> BlockCounts
    requires { IsTiled store.now }
    ensures { result ≡ counts_of (blocks_in store.now) }
{
    let mut counts = BlockCounts {
        used: 0,
        used_words: 0,
        free: 0,
        free_words: 0,
        run: 0,
        largest: 0,
    };
    for block in blocks(store) {
        counts = counted(counts, block);
    }
    counts
}

// One more block is counted.
fn counted(counts: BlockCounts, block: Block) -> BlockCounts
    requires { MayCount counts block }
    ensures { result ≡ counted counts block }
{
    if !block.free {
        return BlockCounts {
            used: counts.used + 1,
            used_words: counts.used_words + block.size,
            run: 0,
            ..counts
        };
    }
    let run = counts.run + block.size;
    BlockCounts {
        free: counts.free + 1,
        free_words: counts.free_words + block.size,
        run,
        largest: counts.largest.max(run),
        ..counts
    }
}

fn write_counts(counts: BlockCounts, bytes: &mut Output)
    requires { length bytes.old + most_in_block_line ≤ 8192 }
    ensures text { bytes.new ≡ bytes.old ++ line_of_counts counts.used counts.used_words counts.free
        counts.free_words counts.largest }
    ensures short { length bytes.new ≤ length bytes.old + most_in_block_line }
{
    append_count(bytes, b"used ", counts.used, counts.used_words);
    append_count(bytes, b"free ", counts.free, counts.free_words);
    bytes.append(b"largest run ");
    append_number(bytes, counts.largest);
    bytes.append(b"\n");
}

// Adds the number of blocks of a kind, and their words.
fn append_count(bytes: &mut Output, kind: &[u8], count: u32, words: u32)
    requires few { length kind.now ≤ 5 }
    requires room { length bytes.old + 41 ≤ 8192 }
    ensures text { bytes.new ≡ bytes.old ++ count_text kind.now count words }
    ensures short { length bytes.new ≤ length bytes.old + 41 }
{
    bytes.append(kind);
    append_number(bytes, count);
    bytes.append(b" blocks ");
    append_number(bytes, words);
    bytes.append(b" words, ");
}
