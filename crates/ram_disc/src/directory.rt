// The names of a disc's files. A slot is used by a file, or it is not; the used ones are in byte order of their names.
ghost use Rattle.std.specs.Prelude.{◌≡◌, ◌≢◌, ◌<◌, ◌≤◌, ◌++◌, ◌∷◌, ℕ, [], None, IfOk, MatchOption, MatchResult, length, vec_len, slice_index, slice_set};
ghost use Rattle.std.specs.List.{insert, range_with_len, remove};
ghost use Rattle.arrayvec.specs.ArrayVec.{array_vec_len};
ghost use Rattle.ram_disc.specs.Disc.{most_files};
ghost use Rattle.ram_disc.specs.Name.{IsName};
ghost use Rattle.ram_disc.specs.Slots.{AreSlots, HasPlace, IsAt, name_in};

use crate::Name;
use crate::sectors::SLOTS;
use arrayvec::ArrayVec;
use byte_streams::WantMemory;
use std::alloc::Global;
use std::cmp::Ordering;

/// A name for each slot, the slots that are used, in byte order of their names, and those that are not.
#[derive(Drop)]
pub(crate) struct Directory {
    /// A name for each slot, which counts where the slot is used.
    pub(crate) names: Vec<Name>,
    /// The slots that are used, in byte order of their names.
    pub(crate) used: ArrayVec<u8, 64>,
    /// The slots that are not used.
    pub(crate) unused: ArrayVec<u8, 64>,
}

impl Directory {
    /// A directory in which no slot is used.
    pub(crate) fn new(alloc: Global) -> Result<Directory, WantMemory>
        ensures names { IfOk result (λ d. vec_len d.names ≡ most_files) }
        ensures used { IfOk result (λ d. d.used.items ≡ []) }
        ensures unused { IfOk result (λ d. d.unused.items ≡ range_with_len 0 64) }
    {
        Ok(Directory {
            names: blank_names(alloc)?,
            used: ArrayVec::new(),
            unused: all_slots(),
        })
    }

    /// The place of a name among the slots that are used; or the place where it would come in.
    pub(crate) fn place_of(&self, name: &Name) -> Result<usize, usize>
        requires { AreSlots self.now.names.items self.now.used.items self.now.unused.items }
        ensures place { MatchResult result
            (IsAt self.now.names.items self.now.used.items name.now)
            (HasPlace self.now.names.items self.now.used.items name.now) }
        ensures lawful { IsName name.now }
    {
        let bytes = name.bytes();
        for (i, slot) in self.used.as_slice().iter().enumerate() {
            match self.names[*slot as usize].bytes().cmp(bytes) {
                Ordering::Less => {}
                Ordering::Equal => return Ok(i),
                Ordering::Greater => return Err(i),
            }
        }
        Err(self.used.len())
    }

    /// The used slot at a place.
    pub(crate) fn slot_at(&self, place: usize) -> u8
        requires { place < length self.now.used.items }
        ensures { result ≡ slice_index self.now.used.items place }
    {
        self.used.as_slice()[place]
    }

    /// The name of a slot.
    pub(crate) fn name_of(&self, slot: u8) -> Name
        requires { slot < length self.now.names.items }
        ensures { result ≡ name_in self.now.names.items slot }
    {
        self.names[slot as usize].copy()
    }

    /// Gives a slot this name, at its place, where one is left.
    pub(crate) fn add(&mut self, name: &Name, place: usize) -> Option<u8>
        requires slots { AreSlots self.old.names.items self.old.used.items self.old.unused.items }
        requires place { place ≤ length self.old.used.items }
        ensures names { MatchOption result (self.new.names.items ≡ self.old.names.items)
            (λ s. self.new.names.items ≡ slice_set self.old.names.items s name.now) }
        ensures used { MatchOption result (self.new.used.items ≡ self.old.used.items)
            (λ s. self.new.used.items ≡ insert self.old.used.items place s) }
        ensures unused { MatchOption result
            ((self.old.unused.items ≡ []) × (self.new.unused.items ≡ []))
            (λ s. self.old.unused.items ≡ self.new.unused.items ++ s ∷ []) }
    {
        let slot = self.unused.pop()?;
        self.names[slot as usize] = name.copy();
        self.used.insert(place, slot);
        Some(slot)
    }

    /// Makes the slot at a place one that is not used.
    pub(crate) fn remove(&mut self, place: usize) -> u8
        requires slots { AreSlots self.old.names.items self.old.used.items self.old.unused.items }
        requires place { place < length self.old.used.items }
        ensures slot { result ≡ slice_index self.old.used.items place }
        ensures names { self.new.names.items ≡ self.old.names.items }
        ensures used { self.new.used.items ≡ remove self.old.used.items place }
        ensures unused { self.new.unused.items ≡ self.old.unused.items ++ result ∷ [] }
    {
        let slot = self.used.remove(place);
        self.unused.push(slot);
        slot
    }

    /// Gives the slot at a place another name, which no slot has. It comes to the place that is the name's then.
    pub(crate) fn rename(&mut self, place: usize, name: &Name, to: usize)
        requires slots { AreSlots self.old.names.items self.old.used.items self.old.unused.items }
        requires place { place < length self.old.used.items }
        requires to { to < length self.old.used.items }
        ensures names { self.new.names.items
            ≡ slice_set self.old.names.items (slice_index self.old.used.items place) name.now }
        ensures used { self.new.used.items ≡ insert (remove self.old.used.items place) to
            (slice_index self.old.used.items place) }
        ensures unused { self.new.unused.items ≡ self.old.unused.items }
    {
        let slot = self.used.remove(place);
        self.names[slot as usize] = name.copy();
        self.used.insert(to, slot);
    }

    /// Makes the directory what the other is.
    pub(crate) fn copy_from(&mut self, other: &Directory)
        requires old { length self.old.names.items ≡ most_files }
        requires other { length other.now.names.items ≡ most_files }
        ensures names { self.new.names.items ≡ other.now.names.items }
        ensures used { self.new.used.items ≡ other.now.used.items }
        ensures unused { self.new.unused.items ≡ other.now.unused.items }
    {
        for i in 0..SLOTS {
            self.names[i] = other.names[i].copy();
        }
        self.used = copy_of(&other.used);
        self.unused = copy_of(&other.unused);
    }
}

fn copy_of(slots: &ArrayVec<u8, 64>) -> ArrayVec<u8, 64>
    ensures { result.items ≡ slots.now.items }
{
    let mut copy = ArrayVec::new();
    for slot in slots.as_slice() {
        copy.push(*slot);
    }
    copy
}

fn all_slots() -> ArrayVec<u8, 64>
    ensures { result.items ≡ range_with_len 0 64 }
{
    let mut slots = ArrayVec::new();
    for slot in 0..64 {
        slots.push(slot);
    }
    slots
}

fn blank_names(alloc: Global) -> Result<Vec<Name>, WantMemory>
    ensures { IfOk result (λ names. vec_len names ≡ most_files) }
{
    let mut names = Vec::new(alloc);
    for _i in 0..SLOTS {
        if names.push(Name::default()).is_err() {
            return Err(WantMemory);
        }
    }
    Ok(names)
}
