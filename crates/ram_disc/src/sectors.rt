// The sectors of a disc: each is in the chain of a slot, or it is free. A sector has a link, which names the next one of
// its chain; the links of the free ones make a chain too.
ghost use Rattle.std.specs.Prelude.{◌≡◌, ◌+◌, ◌-◌, ◌<◌, ◌≤◌, ℕ, [], ◌∷◌, ◌++◌, IfOk, length, replicate, vec_len, slice_index, slice_index_or, slice_set};
ghost use Rattle.arrayvec.specs.ArrayVec.{array_vec_len};
ghost use Rattle.ram_disc.specs.Chain.{AreApart, sector_before, times_in, with_last};
ghost use Rattle.ram_disc.specs.Disc.{most_files, most_sectors};

use arrayvec::ArrayVec;
use byte_streams::WantMemory;
use std::alloc::Global;
use std::marker::Model;

/// The number of sectors.
pub(crate) const SECTORS: u16 = 4096;

/// The number of slots, each of which has a chain.
pub(crate) const SLOTS: usize = 64;

/// A chain: its first and its last sector, where it has any, and how many it has.
#[derive(Clone, Copy)]
pub(crate) struct Chain {
    /// The first sector, where there is one.
    first: u16,
    /// The last sector, where there is one.
    last: u16,
    /// How many sectors it has.
    length: u16,
}

const NO_SECTOR: Chain = Chain {
    first: 0,
    last: 0,
    length: 0,
};

impl Chain {
    // The sector whose link leads to this one, where it comes after the last one of the chain; it is this one itself
    // where the chain has none.
    fn before(self, sector: u16) -> u16
        ensures { result ≡ sector_before self sector }
    {
        if self.length == 0 { sector } else { self.last }
    }

    // The chain with this sector after its last one.
    fn with_last(self, sector: u16) -> Chain
        requires { self.length < most_sectors }
        ensures { result ≡ with_last self sector }
    {
        Chain {
            first: if self.length == 0 { sector } else { self.first },
            last: sector,
            length: self.length + 1,
        }
    }
}

/// The chains of all slots, and the sectors that are left for them.
#[derive(Drop)]
pub(crate) struct Sectors {
    /// For each sector the next one of its chain.
    links: Vec<u16>,
    /// The chain of each slot.
    chains: [Chain; SLOTS],
    /// The first sector that no slot has, where there is one.
    free: u16,
    /// How many sectors no slot has.
    left: u16,
}

impl Model for Sectors {
    ghost use Rattle.ram_disc.specs.Chain.{AreChained, Chains, chains_of};

    ghost Value = { Chains };

    ghost view = { λ s. record { chains = chains_of s.links.items s.chains; left = s.left } };

    ghost invariant = { λ s. AreChained s.links.items s.chains s.free s.left };
}

impl Sectors {
    /// Sectors, all of them free.
    pub(crate) fn new(alloc: Global) -> Result<Sectors, WantMemory>
        ensures { IfOk result (λ s. s ≡ record { chains = replicate most_files []; left = most_sectors }) }
    {
        Ok(Sectors {
            links: links_to_next(alloc, SECTORS)?,
            chains: [NO_SECTOR; SLOTS],
            free: 0,
            left: SECTORS,
        })
    }

    /// The number of sectors that are left.
    pub(crate) fn left(&self) -> u16
        ensures value { result ≡ self.now.left }
        ensures apart { AreApart self.now }
    {
        self.left
    }

    /// Adds a sector to the chain of a slot, after its last one.
    pub(crate) fn grow(&mut self, slot: usize) -> u16
        requires slot { slot < most_files }
        requires room { 0 < self.old.left }
        ensures chain { self.new.chains ≡ slice_set self.old.chains slot
            (slice_index_or self.old.chains slot [] ++ result ∷ []) }
        ensures left { self.new.left + 1 ≡ self.old.left }
        ensures fresh { times_in result self.old.chains ≡ 0 }
        ensures apart { AreApart self.new }
    {
        let sector = self.free;
        let chain = self.chains[slot];
        let before = chain.before(sector);
        self.free = self.links[sector as usize];
        self.left -= 1;
        self.links[before as usize] = sector;
        self.chains[slot] = chain.with_last(sector);
        sector
    }

    /// Gives the chain of a slot back.
    pub(crate) fn release(&mut self, slot: usize)
        requires { slot < most_files }
        ensures chain { self.new.chains ≡ slice_set self.old.chains slot [] }
        ensures left { self.new.left ≡
            self.old.left + length (slice_index_or self.old.chains slot []) }
        ensures apart { AreApart self.new }
    {
        let chain = self.chains[slot];
        if chain.length == 0 {
            return;
        }
        self.links[chain.last as usize] = self.free;
        self.free = chain.first;
        self.left += chain.length;
        self.chains[slot] = NO_SECTOR;
    }

    /// The last sector of a chain.
    pub(crate) fn last(&self, slot: usize) -> u16
        requires slot { slot < most_files }
        requires some { 0 < length (slice_index_or self.now.chains slot []) }
        ensures last { result ≡ slice_index (slice_index_or self.now.chains slot [])
            (length (slice_index_or self.now.chains slot []) - 1) }
        ensures apart { AreApart self.now }
    {
        self.chains[slot].last
    }

    /// The sector after this one, in whatever chain it is not the last.
    pub(crate) fn next(&self, sector: u16) -> u16
        requires { sector < most_sectors }
        ensures { (slot k : ℕ) → slot < most_files
            → k + 1 < length (slice_index_or self.now.chains slot [])
            → slice_index (slice_index_or self.now.chains slot []) k ≡ sector
            → slice_index (slice_index_or self.now.chains slot []) (k + 1) ≡ result }
    {
        self.links[sector as usize]
    }

    /// The k-th sector of a chain, from 0. It costs k steps.
    pub(crate) fn nth(&self, slot: usize, k: u16) -> u16
        requires slot { slot < most_files }
        requires within { k < length (slice_index_or self.now.chains slot []) }
        ensures { result ≡ slice_index (slice_index_or self.now.chains slot []) k }
    {
        let mut sector = self.chains[slot].first;
        for i in 0..k {
            sector = self.links[sector as usize];
        }
        sector
    }

    /// Puts the sectors of a chain, in order, into `sectors` in the place of what is there.
    pub(crate) fn list(&self, slot: usize, sectors: &mut ArrayVec<u16, 4096>)
        requires { slot < most_files }
        ensures sectors { sectors.new.items ≡ slice_index_or self.now.chains slot [] }
        ensures apart { AreApart self.now }
    {
        let chain = self.chains[slot];
        sectors.clear();
        let mut sector = chain.first;
        for i in 0..chain.length {
            sectors.push(sector);
            sector = self.links[sector as usize];
        }
    }

    /// Makes the chains those of the other.
    pub(crate) fn copy_from(&mut self, other: &Sectors)
        ensures { self.new ≡ other.now }
    {
        self.links
            .as_mut_slice()
            .copy_from_slice(other.links.as_slice());
        self.chains = other.chains;
        self.free = other.free;
        self.left = other.left;
    }
}

// So many links, each to the next sector.
fn links_to_next(alloc: Global, n: u16) -> Result<Vec<u16>, WantMemory>
    requires { n ≤ most_sectors }
    ensures size { IfOk result (λ v. vec_len v ≡ n) }
    ensures next { IfOk result (λ v. (k : ℕ) → k < n → slice_index v.items k ≡ k + 1) }
{
    let mut links = Vec::new(alloc);
    for sector in 0..n {
        if links.push(sector + 1).is_err() {
            return Err(WantMemory);
        }
    }
    Ok(links)
}
