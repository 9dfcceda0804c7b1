// The names of files.
ghost use Rattle.std.specs.Prelude.{◌≡◌, ◌↔◌, IsTrue, codes};
ghost use Rattle.std.specs.List.{AllPass};
ghost use Rattle.std.specs.Option.{SomeIff};
ghost use Rattle.ram_disc.specs.Name.{IsName, is_name_byte};

use arrayvec::ArrayVec;
use std::marker::Model;

/// The name of a file: 1 to 12 bytes, each a letter, a digit, `-`, `.` or `_`. It is seen as their list.
#[derive(Clone, Drop)]
pub struct Name {
    /// The name's bytes.
    bytes: ArrayVec<u8, 12>,
}

impl Model for Name {
    ghost use Rattle.std.specs.Prelude.{ℕ, List};
    ghost use Rattle.ram_disc.specs.Name.{IsName};

    ghost Value = { List ℕ };

    ghost view = { λ n. n.bytes.items };

    ghost invariant = { λ n. IsName n.bytes.items };

    ghost inverse = { λ bytes. record { bytes = record { items = bytes } } };
}

/// The name `-`, which is in the unused places of a list of names.
impl Default for Name {
    ghost is_default = { λ n. n ≡ codes "-" };

    fn default() -> Name {
        let mut bytes = ArrayVec::new();
        bytes.push(b'-');
        Name { bytes }
    }
}

impl Name {
    /// The name of these bytes, or `None` exactly where they are no lawful name.
    pub fn read(bytes: &[u8]) -> Option<Name>
        ensures { SomeIff result (IsName bytes.now) bytes.now }
    {
        if bytes.is_empty() || !are_name_bytes(bytes) {
            return None;
        }
        let bytes = ArrayVec::try_from(bytes).ok()?;
        Some(Name { bytes })
    }

    /// The same name again. It takes no memory.
    pub fn copy(&self) -> Name
        ensures { result ≡ self.now }
    {
        let mut bytes = ArrayVec::new();
        for byte in self.bytes.as_slice() {
            bytes.push(*byte);
        }
        Name { bytes }
    }

    /// The bytes of the name, lent.
    pub fn bytes(&self) -> &[u8]
        ensures value { result.now ≡ self.now }
        ensures lawful { IsName self.now }
    {
        self.bytes.as_slice()
    }
}

fn are_name_bytes(bytes: &[u8]) -> bool
    ensures { IsTrue result ↔ AllPass is_name_byte bytes.now }
{
    bytes.iter().all(|b| b.is_ascii_alphanumeric() || matches!(*b, b'-' | b'.' | b'_'))
}
