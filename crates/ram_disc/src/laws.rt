// What the codes are that definitions cite by name. The function does nothing: its contract is the law.
ghost use Rattle.std.specs.Prelude.{◌≡◌};

use crate::codes::{
    BAD_BUFFER, BAD_NAME, DIRECTORY_FULL, DISC_FULL, IN_USE, NAME_TAKEN, NO_FILE, NO_STREAM,
    NOT_OPEN,
};

/// Each code with which what is asked of files and of pipes is refused.
pub fn code_law()
    ensures names { (BAD_NAME ≡ 40) × (NO_FILE ≡ 41) × (NAME_TAKEN ≡ 42) }
    ensures room { (DISC_FULL ≡ 43) × (DIRECTORY_FULL ≡ 44) × (NO_STREAM ≡ 45) }
    ensures streams { (NOT_OPEN ≡ 46) × (IN_USE ≡ 47) × (BAD_BUFFER ≡ 48) }
{}
