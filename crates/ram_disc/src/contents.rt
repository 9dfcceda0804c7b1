// The bytes of a disc's files. Each slot has a chain of sectors, as many as its bytes take, and its bytes are in them.
ghost use Rattle.std.specs.Prelude.{◌≡◌, ◌≢◌, ◌+◌, ◌*◌, ◌/◌, ◌%◌, ◌^◌, ◌<◌, ◌≤◌, ◌↔◌, ℕ, [], ◌∷◌, ◌++◌, IfOk, IsTrue, drop, length, replicate, take, vec_len, slice_index, slice_index_or};
ghost use Rattle.ram_disc.specs.Contents.{Adds, Empties, Reserves, bytes_at, chain_at, with_piece};
ghost use Rattle.ram_disc.specs.Disc.{most_files, most_sectors, sectors_of};

use crate::file_bytes::FileBytes;
use crate::sectors::{SECTORS, SLOTS, Sectors};
use arrayvec::ArrayVec;
use byte_streams::WantMemory;
use std::alloc::Global;
use std::marker::Model;

/// The bytes of a sector.
pub(crate) const SECTOR_BYTES: u32 = 512;

/// The sectors of all slots, and what is in them.
#[derive(Drop)]
pub(crate) struct Contents {
    /// The chains of sectors of the slots.
    sectors: Sectors,
    /// The bytes of all sectors, 512 for each.
    bytes: Vec<u8>,
    /// How many bytes each slot has.
    sizes: [u32; SLOTS],
}

impl Model for Contents {
    ghost use Rattle.ram_disc.specs.Contents.{Area, IsArea, all_bytes};

    ghost Value = { Area };

    ghost view = { λ c. record {
      chains = c.sectors.chains;
      bytes = all_bytes c.bytes.items c.sectors.chains c.sizes;
      left = c.sectors.left;
    } };

    ghost invariant = { λ c. IsArea c.bytes.items c.sectors c.sizes };
}

impl Contents {
    /// Slots with no bytes.
    pub(crate) fn new(alloc: Global) -> Result<Contents, WantMemory>
        ensures { IfOk result (λ c. c ≡ record {
          chains = replicate most_files [];
          bytes = replicate most_files [];
          left = most_sectors;
        }) }
    {
        let sectors = Sectors::new(alloc)?;
        let bytes = zeros(alloc, SECTORS as usize * SECTOR_BYTES as usize)?;
        let _left = sectors.left();
        Ok(Contents {
            sectors,
            bytes,
            sizes: [0; SLOTS],
        })
    }

    /// The number of a slot's bytes.
    pub(crate) fn len(&self, slot: usize) -> u32
        requires { slot < most_files }
        ensures { result ≡ length (bytes_at self.now slot) }
    {
        self.sizes[slot]
    }

    /// Whether there are sectors enough for so many more bytes of a slot.
    pub(crate) fn has_room(&self, slot: usize, more: u32) -> bool
        requires slot { slot < most_files }
        requires few { more ≤ 4096 }
        ensures { IsTrue result ↔ (sectors_of (length (bytes_at self.now slot) + more)
            ≤ sectors_of (length (bytes_at self.now slot)) + self.now.left) }
    {
        let size = self.sizes[slot];
        sectors_for(size + more) <= sectors_for(size) + u32::from(self.sectors.left())
    }

    /// Adds bytes after those of a slot.
    pub(crate) fn append(&mut self, slot: usize, bytes: &[u8])
        requires slot { slot < most_files }
        requires slots { length self.old.bytes ≡ most_files }
        requires room { sectors_of (length (bytes_at self.old slot) + length bytes.now)
            ≤ sectors_of (length (bytes_at self.old slot)) + self.old.left }
        ensures { Adds self.old self.new slot bytes.now }
    {
        let mut done = 0;
        while done < bytes.len() {
            let room = SECTOR_BYTES - self.len(slot) % SECTOR_BYTES;
            let end = done + (bytes.len() - done).min(room as usize);
            self.push(slot, &bytes[done..end]);
            done = end;
        }
    }

    // Adds bytes after those of a slot, for which one sector has room.
    fn push(&mut self, slot: usize, bytes: &[u8])
        requires slot { slot < most_files }
        requires some { 0 < length bytes.now }
        requires fits { length (bytes_at self.old slot) % 512 + length bytes.now ≤ 512 }
        requires room { sectors_of (length (bytes_at self.old slot) + length bytes.now)
            ≤ sectors_of (length (bytes_at self.old slot)) + self.old.left }
        ensures { Adds self.old self.new slot bytes.now }
    {
        let size = self.sizes[slot];
        let sector = sector_to_write(&mut self.sectors, slot, size);
        put_at(self.bytes.as_mut_slice(), place(sector, size), bytes);
        self.sizes[slot] = size + bytes.len() as u32;
    }

    /// Takes all bytes from a slot.
    pub(crate) fn clear(&mut self, slot: usize)
        requires { slot < most_files }
        ensures { Empties self.old self.new slot }
    {
        self.sectors.release(slot);
        self.sizes[slot] = 0;
    }

    /// Gives the bytes of a slot from a position on, which is in this sector. The answer is the sector of the position
    /// after them.
    pub(crate) fn read(&self, slot: usize, position: u32, mut sector: u16, into: &mut [u8]) -> u16
        requires slot { slot < most_files }
        requires within { position + length into.old ≤ length (bytes_at self.now slot) }
        requires sector { position < length (bytes_at self.now slot)
            → sector ≡ slice_index (chain_at self.now slot) (position / 512) }
        ensures bytes { into.new ≡ take (length into.old) (drop position (bytes_at self.now slot)) }
        ensures sector { position + length into.old < length (bytes_at self.now slot)
            → result ≡ slice_index (chain_at self.now slot) ((position + length into.old) / 512) }
    {
        let mut at = position;
        let mut done = 0;
        while done < into.len() {
            let piece = self.piece(slot, at, sector, into.len() - done);
            put_at(into, done, piece);
            sector = self.sector_after(slot, at, sector, piece.len() as u32);
            at += piece.len() as u32;
            done += piece.len();
        }
        sector
    }

    // The bytes of a slot from a position on, which is in this sector: so many, or those up to the sector's end.
    fn piece(&self, slot: usize, position: u32, sector: u16, most: usize) -> &[u8]
        requires slot { slot < most_files }
        requires some { 0 < most }
        requires within { position + most ≤ length (bytes_at self.now slot) }
        requires sector { sector ≡ slice_index (chain_at self.now slot) (position / 512) }
        ensures some { 0 < length result.now }
        ensures most { length result.now ≤ most }
        ensures sector { position % 512 + length result.now ≤ 512 }
        ensures bytes { let left = drop position (bytes_at self.now slot) in
            result.now ≡ take (length result.now) left }
    {
        let count = most.min((SECTOR_BYTES - position % SECTOR_BYTES) as usize);
        let start = place(sector, position);
        &self.bytes[start..start + count]
    }

    // The sector of the position after so many bytes of this sector, of which the first is at the position.
    fn sector_after(&self, slot: usize, position: u32, sector: u16, count: u32) -> u16
        requires slot { slot < most_files }
        requires some { 0 < count }
        requires within { position + count ≤ length (bytes_at self.now slot) }
        requires inside { position % 512 + count ≤ 512 }
        requires sector { sector ≡ slice_index (chain_at self.now slot) (position / 512) }
        ensures sector { position + count < length (bytes_at self.now slot)
            → result ≡ slice_index (chain_at self.now slot) ((position + count) / 512) }
        ensures end { position + count < 2 ^ 32 }
    {
        let size = self.sizes[slot];
        let next = position + count;
        if next % SECTOR_BYTES == 0 && next < size {
            self.sectors.next(sector)
        } else {
            sector
        }
    }

    /// The sector of a position of a slot, where it is in the file. It costs a step for each sector before it.
    pub(crate) fn sector_at(&self, slot: usize, position: u32) -> u16
        requires { slot < most_files }
        ensures { position < length (bytes_at self.now slot)
            → result ≡ slice_index (chain_at self.now slot) (position / 512) }
    {
        if position >= self.sizes[slot] {
            return 0;
        }
        self.sectors.nth(slot, (position / SECTOR_BYTES) as u16)
    }

    /// The bytes of a slot, as a text. Its sectors are listed in `sectors`.
    pub(crate) fn text<'a>(
        &'a self,
        slot: usize,
        sectors: &'a mut ArrayVec<u16, 4096>,
    ) -> FileBytes<'a>
        requires { slot < most_files }
        ensures { result ≡ bytes_at self.now slot }
    {
        self.sectors.list(slot, sectors);
        FileBytes::new(self.bytes.as_slice(), sectors.as_slice(), self.sizes[slot])
    }

    /// Makes the slots those of the other.
    pub(crate) fn copy_from(&mut self, other: &Contents)
        ensures { self.new ≡ other.now }
    {
        self.sectors.copy_from(&other.sectors);
        self.bytes
            .as_mut_slice()
            .copy_from_slice(other.bytes.as_slice());
        self.sizes = other.sizes;
        let _left = self.sectors.left();
    }
}

// The sector for one more byte than the slot has: its last one, or where that is full, a new one.
fn sector_to_write(sectors: &mut Sectors, slot: usize, size: u32) -> u16
    requires slot { slot < most_files }
    requires slots { length sectors.old.chains ≡ most_files }
    requires size { length (slice_index_or sectors.old.chains slot []) ≡ sectors_of size }
    requires room { sectors_of (size + 1) ≤ sectors_of size + sectors.old.left }
    ensures { Reserves sectors.old sectors.new slot size result }
{
    if size % SECTOR_BYTES == 0 {
        sectors.grow(slot)
    } else {
        sectors.last(slot)
    }
}

// The sectors that so many bytes take.
fn sectors_for(size: u32) -> u32
    requires { size ≤ 4000000000 }
    ensures { result ≡ sectors_of size }
{
    size.div_ceil(SECTOR_BYTES)
}

// Where the byte at a position is, in its sector.
fn place(sector: u16, position: u32) -> usize
    ensures { result ≡ 512 * sector + position % 512 }
{
    sector as usize * SECTOR_BYTES as usize + (position % SECTOR_BYTES) as usize
}

// Puts bytes over those of a list, from a place on.
fn put_at(list: &mut [u8], at: usize, bytes: &[u8])
    requires { at + length bytes.now ≤ length list.old }
    ensures { list.new ≡ with_piece list.old at bytes.now }
{
    list[at..at + bytes.len()].copy_from_slice(bytes);
}

fn zeros(alloc: Global, n: usize) -> Result<Vec<u8>, WantMemory>
    ensures { IfOk result (λ v. vec_len v ≡ n) }
{
    match vec![in alloc; 0u8; n] {
        Ok(bytes) => Ok(bytes),
        Err(_) => Err(WantMemory),
    }
}
