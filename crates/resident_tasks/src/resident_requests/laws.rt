// What the code is that definitions cite by name. The function does nothing: its contract is the law.
ghost use Rattle.std.specs.Prelude.{◌≡◌};

use crate::resident_requests::requests::UNKNOWN_TYPE;

/// The code of a request of a type that its handler does not know.
pub fn code_law()
    ensures { UNKNOWN_TYPE ≡ 31 }
{}
