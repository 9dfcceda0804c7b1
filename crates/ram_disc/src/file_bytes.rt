// The bytes of a file, lent by the disc.
ghost use Rattle.std.specs.Prelude.{◌≡◌, ◌<◌, ◌≤◌, ◌*◌, ℕ, length};
ghost use Rattle.ram_disc.specs.Contents.{bytes_in, place_in};

use module_text::TextBytes;
use std::marker::Model;

/// The bytes of a file, seen as their list. A look at any of them costs the same: the file's sectors were listed when the
/// file was asked for.
#[derive(Drop)]
pub struct FileBytes<'a> {
    /// The bytes of all sectors of the disc.
    bytes: &'a [u8],
    /// The file's sectors, in the order of its bytes.
    sectors: &'a [u16],
    /// How many bytes the file has.
    size: u32,
}

impl<'a> Model for FileBytes<'a> {
    ghost use Rattle.std.specs.Prelude.{ℕ, List, length, ◌<◌, ◌≤◌, ◌*◌};
    ghost use Rattle.ram_disc.specs.Contents.{bytes_in, place_in};

    ghost Value = { List ℕ };

    ghost view = { λ f. bytes_in f.bytes.now f.sectors.now f.size };

    ghost invariant = { λ f. (f.size ≤ 512 * length f.sectors.now)
        × ((p : ℕ) → p < f.size → place_in f.sectors.now p < length f.bytes.now) };
}

impl<'a> FileBytes<'a> {
    // So many bytes of these sectors of the disc's bytes.
    pub(crate) fn new(bytes: &'a [u8], sectors: &'a [u16], size: u32) -> FileBytes<'a>
        requires size { size ≤ 512 * length sectors.now }
        requires inside { (p : ℕ) → p < size → place_in sectors.now p < length bytes.now }
        ensures { result ≡ bytes_in bytes.now sectors.now size }
    {
        FileBytes {
            bytes,
            sectors,
            size,
        }
    }
}

impl TextBytes for FileBytes<'_> {
    ghost text = { λ f. f };

    fn len(&self) -> u32 {
        self.size
    }

    fn at(&self, i: u32) -> Option<u8> {
        if i >= self.size {
            return None;
        }
        let sector = self.sectors[(i / 512) as usize];
        Some(self.bytes[sector as usize * 512 + (i % 512) as usize])
    }
}
