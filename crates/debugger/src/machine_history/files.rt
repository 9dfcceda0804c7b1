// The files and pipes of a machine with a kernel, as they were and as they are.
ghost use Rattle.std.specs.Prelude.{◌≡◌, ◌<◌, ◌≤◌, ◌++◌, [], ◌∷◌, IfOk, drop, length, replicate};
ghost use Rattle.circular_buffer.specs.Buffer.{buffer, last_item};
ghost use Rattle.debugger.specs.MachineHistory.FilesBefore.{front_from_last, gone_back, is_later, second_since};

use byte_streams::WantMemory;
use circular_buffer::HeapCircularBuffer;
use kernel_machine::Parts as KernelParts;
use ram_disc::Disc;
use resident_tasks::Pipes;
use std::alloc::Global;

/// How many are kept: those that 16 turns have left, and those before them.
const PLACES: usize = 17;

/// Files and pipes, and how many steps had been taken when they came to be so.
#[derive(Drop)]
pub(crate) struct KeptFiles {
    /// The steps taken then; 0 where they had been so from the start on, or are no moment's.
    pub(crate) since: u64,
    /// The files, and the streams that are open on them.
    pub(crate) disc: Disc,
    /// The pipes.
    pub(crate) pipes: Pipes,
}

impl KeptFiles {
    // Those of a machine. `WantMemory` comes only where memory could not be had.
    fn of_parts(alloc: Global, parts: &KernelParts) -> Result<KeptFiles, WantMemory>
        ensures { IfOk result (λ f. f ≡ record { since = 0; disc = parts.now.disc; pipes = parts.now.pipes }) }
    {
        let mut files = KeptFiles {
            since: 0,
            disc: Disc::new(alloc)?,
            pipes: Pipes::new(alloc)?,
        };
        files.set(0, parts);
        Ok(files)
    }

    // Makes them those of a machine, since so many steps.
    fn set(&mut self, since: u64, parts: &KernelParts)
        ensures { self.new ≡ record { since = since; disc = parts.now.disc; pipes = parts.now.pipes } }
    {
        self.since = since;
        self.disc.copy_from(&parts.disc);
        self.pipes.copy_from(&parts.pipes);
    }
}

/// The files and pipes of a machine, for as many moments as there are places. `WantMemory` comes only where memory could not be had.
pub(crate) fn first_files(
    alloc: Global,
    parts: &KernelParts,
) -> Result<HeapCircularBuffer<KeptFiles>, WantMemory>
    ensures { IfOk result (λ b. b ≡ buffer
        (replicate 17 (record { since = 0; disc = parts.now.disc; pipes = parts.now.pipes })) 17) }
{
    let Ok(mut ring) = HeapCircularBuffer::with_capacity(alloc, PLACES) else {
        return Err(WantMemory);
    };
    for _i in 0..PLACES {
        ring.push_back(KeptFiles::of_parts(alloc, parts)?);
    }
    Ok(ring)
}

/// How many steps had been taken when the second of them came to be.
pub(crate) fn second_since(ring: &HeapCircularBuffer<KeptFiles>) -> u64
    ensures { result ≡ second_since ring.now.items }
{
    match ring.get(1) {
        Some(files) => files.since,
        None => 0,
    }
}

/// The oldest go, and those of the machine come, since so many steps.
pub(crate) fn note_files(ring: &mut HeapCircularBuffer<KeptFiles>, since: u64, parts: &KernelParts)
    requires some { 0 < length ring.old.items }
    requires room { length ring.old.items ≤ ring.old.capacity }
    ensures { ring.new ≡ buffer
        (drop 1 ring.old.items ++ (record { since = since; disc = parts.now.disc; pipes = parts.now.pipes }) ∷ [])
        ring.old.capacity }
{
    let Some(mut files) = ring.pop_front() else {
        return;
    };
    files.set(since, parts);
    ring.push_back(files);
}

/// Those that came to be after n steps are no moment's any more.
pub(crate) fn go_back(ring: &mut HeapCircularBuffer<KeptFiles>, n: u64)
    requires { length ring.old.items ≤ ring.old.capacity }
    ensures { ring.new ≡ buffer (gone_back 17 n ring.old.items) ring.old.capacity }
{
    for _i in 0..PLACES {
        forget_last(ring, n);
    }
}

// The last goes to the front, where it came to be after n steps.
fn forget_last(ring: &mut HeapCircularBuffer<KeptFiles>, n: u64)
    requires { length ring.old.items ≤ ring.old.capacity }
    ensures { ring.new ≡ buffer
        (front_from_last n (last_item ring.old.items) ring.old.items) ring.old.capacity }
{
    if !is_later(ring, n) {
        return;
    }
    if let Some(files) = ring.pop_back() {
        ring.push_front(KeptFiles { since: 0, ..files });
    }
}

/// Whether the last came to be after n steps.
pub(crate) fn is_later(ring: &HeapCircularBuffer<KeptFiles>, n: u64) -> bool
    ensures { result ≡ is_later n (last_item ring.now.items) }
{
    match ring.back() {
        Some(files) => files.since > n,
        None => false,
    }
}
