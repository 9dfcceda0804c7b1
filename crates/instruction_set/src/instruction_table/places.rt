// The function bytes of the names. The letters of a name make a number, and that a place, at which its byte is kept; the names of the
// rows make places of their own, so that one look finds a name.
ghost use Rattle.std.specs.Prelude.{◌≡◌, ◌<◌};
ghost use Rattle.instruction_set.specs.InstructionTable.Private.Places.{byte_at, kept_byte, key_of, key_with, place_by, shift_at};

/// How many places there are.
const PLACES: u32 = 256;

/// How many shifts there are.
const CHOICES: u32 = 64;

/// By how much a place is shifted, by the lowest bits of the number.
pub static SHIFTS: [u8; 64] = [
    116, 195, 202, 36, 42, 94, 153, 26, 37, 112, 87, 89, 6, 4, 105, 0, 87, 2, 4, 0, 104, 6, 76, 20,
    53, 5, 0, 6, 1, 86, 221, 150, 96, 0, 0, 138, 1, 91, 53, 141, 203, 4, 0, 184, 0, 207, 230, 223,
    4, 226, 40, 100, 1, 53, 143, 113, 120, 129, 3, 15, 1, 94, 131, 0,
];

/// The function byte at each place, or 0 where there is none.
pub static BYTES: [u8; 256] = [
    252, 237, 5, 130, 25, 205, 95, 96, 16, 116, 163, 217, 201, 167, 52, 171, 229, 114, 189, 102,
    129, 78, 56, 82, 11, 181, 2, 91, 117, 101, 122, 173, 220, 98, 175, 133, 248, 31, 172, 215, 145,
    194, 245, 92, 100, 22, 179, 0, 62, 43, 68, 61, 221, 198, 250, 66, 73, 63, 222, 156, 75, 99,
    153, 227, 170, 70, 235, 42, 174, 242, 15, 64, 65, 124, 34, 168, 231, 209, 182, 28, 158, 206,
    131, 232, 37, 36, 0, 17, 186, 236, 32, 71, 233, 211, 18, 135, 213, 203, 38, 108, 210, 246, 136,
    85, 176, 76, 230, 94, 180, 188, 185, 137, 113, 0, 154, 234, 0, 123, 139, 69, 204, 57, 0, 159,
    55, 134, 35, 226, 54, 164, 212, 219, 169, 192, 141, 53, 151, 143, 149, 115, 150, 140, 27, 0,
    187, 0, 202, 33, 207, 58, 9, 87, 8, 88, 67, 162, 120, 253, 118, 93, 191, 152, 238, 51, 190,
    183, 157, 138, 48, 225, 119, 142, 3, 251, 23, 84, 49, 111, 26, 44, 47, 166, 199, 4, 19, 24,
    241, 110, 247, 125, 20, 214, 195, 200, 249, 10, 224, 216, 196, 148, 184, 97, 109, 45, 160, 81,
    208, 144, 77, 193, 41, 218, 39, 30, 178, 46, 29, 60, 146, 165, 228, 112, 105, 79, 12, 13, 107,
    80, 40, 83, 89, 59, 90, 6, 14, 7, 126, 104, 147, 132, 243, 106, 21, 72, 128, 86, 244, 74, 161,
    121, 197, 50, 177, 127, 103, 155,
];

/// The function byte that is kept for a name: that of its row, where a row has it.
#[tactic(auto, unfolding(crate::specs::InstructionTable::Private::Places::kept_byte))]
pub(crate) fn kept_byte(name: &[u8]) -> u8
    ensures { result ≡ kept_byte name.now }
{
    byte_at(place_by(key_of(name)))
}

fn byte_at(place: u32) -> u8
    requires { place < 256 }
    ensures { result ≡ byte_at place }
{
    BYTES[place as usize]
}

fn shift_at(choice: u32) -> u8
    requires { choice < 64 }
    ensures { result ≡ shift_at choice }
{
    SHIFTS[choice as usize]
}

// The place of a number.
fn place_by(key: u32) -> u32
    ensures value { result ≡ place_by key }
    ensures within { result < 256 }
{
    (key / CHOICES + u32::from(shift_at(key % CHOICES))) % PLACES
}

// The letters of a name as one number.
fn key_of(name: &[u8]) -> u32
    ensures { result ≡ key_of name.now }
{
    name.iter().fold(0, |key, letter| key_with(key, *letter))
}

fn key_with(key: u32, letter: u8) -> u32
    ensures { result ≡ key_with key letter }
{
    key.wrapping_mul(124).wrapping_add(u32::from(letter))
}
