// What the constant of sessions is.
ghost use Rattle.std.specs.Prelude.{◌≡◌};
ghost use Rattle.tripos_run.specs.SessionGenerator.Generated.{longest};

use crate::session_generator::sessions::LONGEST;

/// The room that a session is given is that of the longest one.
pub fn longest_law()
    ensures { LONGEST ≡ longest }
{}
