// A disc: files in memory, and the streams that are open on them.
ghost use Rattle.std.specs.Prelude.{◌≡◌, ◌<◌, ◌≤◌, ◌++◌, ◌-◌, None, IfOk, IsTrue, drop, length, nat_lt, if◌then◌else◌};
ghost use Rattle.std.specs.Option.{option_map};
ghost use Rattle.ram_disc.specs.Disc.{IsDisc, empty_disc, file_named, shell_stream, stream_at};
ghost use Rattle.ram_disc.specs.DiscCalls.{after_append, after_close, after_delete, after_open_read, after_open_write, after_read_on, after_rename, after_restore, bytes_read, can_restore, nth_of, size_of, stream_of};

use crate::Name;
use crate::codes::{DIRECTORY_FULL, DISC_FULL, IN_USE, NAME_TAKEN, NO_FILE, NO_STREAM, NOT_OPEN};
use crate::contents::Contents;
use crate::directory::Directory;
use crate::file_bytes::FileBytes;
use crate::places::{
    Place, STREAMS, free_stream, is_free, is_open, is_written, may_be_placed, place_at,
    stream_to_open, writer,
};
use arrayvec::ArrayVec;
use byte_streams::WantMemory;
use std::alloc::Global;
use std::marker::Model;

/// One more than the most files: before it ends a walk over the files, which are counted from 1.
pub const END_OF_FILES: u32 = 65;

/// One more than the number of the last stream.
pub const END_OF_STREAMS: u32 = 18;

/// A disc of 64 files at most and 4,096 sectors of 512 bytes, on which 17 streams may be open.
#[derive(Drop)]
pub struct Disc {
    /// The bytes of the slots.
    contents: Contents,
    /// The names of the slots.
    directory: Directory,
    /// Where the streams are, from stream 1 on; `None` where one is not open.
    streams: [Option<Place>; STREAMS],
}

impl Model for Disc {
    ghost use Rattle.ram_disc.specs.Disc.{Disc};
    ghost use Rattle.ram_disc.specs.Slots.{AreKept, disc_in};

    ghost Value = { Disc };

    ghost view = { λ d. disc_in d.directory.names.items d.contents.bytes d.directory.used.items
        d.streams };

    ghost invariant = { λ d. AreKept d.directory.names.items d.contents d.directory.used.items
        d.directory.unused.items d.streams };
}

impl Disc {
    /// An empty disc.
    pub fn new(alloc: Global) -> Result<Disc, WantMemory>
        ensures { IfOk result (λ d. d ≡ empty_disc) }
    {
        Ok(Disc {
            contents: Contents::new(alloc)?,
            directory: Directory::new(alloc)?,
            streams: [None; STREAMS],
        })
    }

    /// The size of the file of this name, where there is one.
    pub fn size(&self, name: &Name) -> Option<u32>
        ensures value { result ≡ size_of self.now name.now }
        ensures valid { IsDisc self.now }
    {
        let Ok(place) = self.directory.place_of(name) else {
            return None;
        };
        let slot = self.directory.slot_at(place);
        Some(self.contents.len(slot as usize))
    }

    /// The name and the size of the k-th file in byte order, from 1.
    pub fn nth(&self, k: u32) -> Option<(Name, u32)>
        ensures { result ≡ nth_of self.now k }
    {
        if k == 0 || k as usize > self.directory.used.len() {
            return None;
        }
        let slot = self.directory.slot_at(k as usize - 1);
        Some((
            self.directory.name_of(slot),
            self.contents.len(slot as usize),
        ))
    }

    /// The bytes of the file of this name, lent, where there is one. What was in `sectors` is dropped, and the file's sectors are listed
    /// there.
    pub fn file<'a>(
        &'a self,
        name: &Name,
        sectors: &'a mut ArrayVec<u16, 4096>,
    ) -> Option<FileBytes<'a>>
        ensures { result ≡ option_map (λ f. f.bytes) (file_named self.now name.now) }
    {
        let Ok(place) = self.directory.place_of(name) else {
            return None;
        };
        let slot = self.directory.slot_at(place);
        Some(self.contents.text(slot as usize, sectors))
    }

    /// Where stream k is open: the name of its file, its position, and whether it writes.
    pub fn stream(&self, k: u32) -> Option<(Name, u32, bool)>
        ensures value { result ≡ stream_of self.now k }
        ensures valid { IsDisc self.now }
    {
        let Some(place) = place_at(&self.streams, k) else {
            return None;
        };
        Some((
            self.directory.name_of(place.slot),
            place.position,
            place.writes,
        ))
    }

    /// Opens a file to read, from its start: for the shell by its own stream, which is not open, else by the lowest free one.
    /// The answer is the stream. Refused where there is no such file (41), where a stream writes it (47), and where no stream
    /// is free (45).
    pub fn open_read(&mut self, name: &Name, shell: bool) -> Result<u32, u32>
        requires { IsTrue shell → stream_at self.old shell_stream ≡ None }
        ensures answer { result ≡ (after_open_read self.old name.now shell).answer }
        ensures disc { self.new ≡ (after_open_read self.old name.now shell).disc }
    {
        let Ok(place) = self.directory.place_of(name) else {
            return Err(NO_FILE);
        };
        let slot = self.directory.slot_at(place);
        if is_written(&self.streams, slot) {
            return Err(IN_USE);
        }
        let Some(k) = stream_to_open(&self.streams, shell) else {
            return Err(NO_STREAM);
        };
        let sector = self.contents.sector_at(slot as usize, 0);
        self.streams[k] = Some(Place {
            slot,
            position: 0,
            sector,
            writes: false,
        });
        Ok(k as u32 + 1)
    }

    /// Opens a file to write, by the lowest free stream. The file is emptied, or made. The answer is the stream. Refused where
    /// a stream is open on the file (47), where no stream is free (45), and where it has to be made and there are 64 files (44).
    pub fn open_write(&mut self, name: &Name) -> Result<u32, u32>
        ensures answer { result ≡ (after_open_write self.old name.now).answer }
        ensures disc { self.new ≡ (after_open_write self.old name.now).disc }
    {
        match self.directory.place_of(name) {
            Ok(place) => {
                let slot = self.directory.slot_at(place);
                if is_open(&self.streams, slot) {
                    return Err(IN_USE);
                }
                let Some(k) = free_stream(&self.streams) else {
                    return Err(NO_STREAM);
                };
                self.contents.clear(slot as usize);
                self.streams[k] = Some(writer(slot));
                Ok(k as u32 + 1)
            }
            Err(place) => {
                let Some(k) = free_stream(&self.streams) else {
                    return Err(NO_STREAM);
                };
                let Some(slot) = self.directory.add(name, place) else {
                    return Err(DIRECTORY_FULL);
                };
                self.streams[k] = Some(writer(slot));
                Ok(k as u32 + 1)
            }
        }
    }

    /// Gives the next bytes of a stream that reads, as many as there is room for, and how many they are. At the end of
    /// the file there are none. Refused where no such stream is open to read (46).
    pub fn read_on(&mut self, stream: u32, into: &mut [u8]) -> Result<u32, u32>
        ensures answer { result ≡ (after_read_on self.old stream (length into.old)).answer }
        ensures disc { self.new ≡ (after_read_on self.old stream (length into.old)).disc }
        ensures bytes { into.new ≡ bytes_read self.old stream (length into.old)
            ++ drop (length (bytes_read self.old stream (length into.old))) into.old }
    {
        let Some(place) = place_at(&self.streams, stream) else {
            return Err(NOT_OPEN);
        };
        if place.writes {
            return Err(NOT_OPEN);
        }
        let slot = place.slot as usize;
        let left = self.contents.len(slot) - place.position;
        let count = into.len().min(left as usize);
        let piece = &mut into[..count];
        let sector = self
            .contents
            .read(slot, place.position, place.sector, piece);
        self.streams[stream as usize - 1] = Some(place.after(count as u32, sector));
        Ok(count as u32)
    }

    /// Writes bytes after those of the file of a stream that writes. Refused where no such stream is open to write (46), and
    /// where the files would take more than 4,096 sectors (43).
    pub fn append(&mut self, stream: u32, bytes: &[u8]) -> Result<(), u32>
        requires { length bytes.now ≤ 4096 }
        ensures answer { result ≡ (after_append self.old stream bytes.now).answer }
        ensures disc { self.new ≡ (after_append self.old stream bytes.now).disc }
    {
        let Some(place) = place_at(&self.streams, stream) else {
            return Err(NOT_OPEN);
        };
        if !place.writes {
            return Err(NOT_OPEN);
        }
        let slot = place.slot as usize;
        if !self.contents.has_room(slot, bytes.len() as u32) {
            return Err(DISC_FULL);
        }
        self.contents.append(slot, bytes);
        self.streams[stream as usize - 1] = Some(place.after(bytes.len() as u32, place.sector));
        Ok(())
    }

    /// Deletes a file on which no stream is open. Refused where there is no such file (41), and where one is open (47).
    pub fn delete(&mut self, name: &Name) -> Result<(), u32>
        ensures answer { result ≡ (after_delete self.old name.now).answer }
        ensures disc { self.new ≡ (after_delete self.old name.now).disc }
    {
        let Ok(place) = self.directory.place_of(name) else {
            return Err(NO_FILE);
        };
        if is_open(&self.streams, self.directory.slot_at(place)) {
            return Err(IN_USE);
        }
        let slot = self.directory.remove(place);
        self.contents.clear(slot as usize);
        Ok(())
    }

    /// Gives a file, on which no stream is open, a name that no file has. Refused where there is no such file (41), where a file
    /// has that name (42), and where a stream is open (47).
    pub fn rename(&mut self, from: &Name, to: &Name) -> Result<(), u32>
        ensures answer { result ≡ (after_rename self.old from.now to.now).answer }
        ensures disc { self.new ≡ (after_rename self.old from.now to.now).disc }
    {
        let Ok(place) = self.directory.place_of(from) else {
            return Err(NO_FILE);
        };
        let Err(end) = self.directory.place_of(to) else {
            return Err(NAME_TAKEN);
        };
        if is_open(&self.streams, self.directory.slot_at(place)) {
            return Err(IN_USE);
        }
        self.directory.rename(place, to, place_without(end, place));
        Ok(())
    }

    /// Closes a stream. Refused where it is not open (46).
    pub fn close(&mut self, stream: u32) -> Result<(), u32>
        ensures answer { result ≡ (after_close self.old stream).answer }
        ensures disc { self.new ≡ (after_close self.old stream).disc }
    {
        if place_at(&self.streams, stream).is_none() {
            return Err(NOT_OPEN);
        }
        self.streams[stream as usize - 1] = None;
        Ok(())
    }

    /// Sets stream k on a place of a file, as `stream` told it. The answer is false where the stream may not be there;
    /// then nothing changes.
    pub fn restore_stream(&mut self, k: u32, name: &Name, pos: u32, write: bool) -> bool
        ensures answer { result ≡ can_restore self.old k name.now pos write }
        ensures disc { self.new ≡ after_restore self.old k name.now pos write }
    {
        if !is_free(&self.streams, k) {
            return false;
        }
        let Ok(place) = self.directory.place_of(name) else {
            return false;
        };
        let slot = self.directory.slot_at(place);
        let size = self.contents.len(slot as usize);
        if !may_be_placed(&self.streams, k, slot, pos, size, write) {
            return false;
        }
        let sector = self.contents.sector_at(slot as usize, pos);
        self.streams[k as usize - 1] = Some(Place {
            slot,
            position: pos,
            sector,
            writes: write,
        });
        true
    }

    /// Makes the disc what the other is.
    pub fn copy_from(&mut self, other: &Disc)
        ensures { self.new ≡ other.now }
    {
        self.contents.copy_from(&other.contents);
        self.directory.copy_from(&other.directory);
        self.streams = other.streams;
    }
}

// A place in a list, once the one at another place has gone out of it.
fn place_without(place: usize, gone: usize) -> usize
    ensures { result ≡ (if nat_lt gone place then place - 1 else place) }
{
    if gone < place { place - 1 } else { place }
}
