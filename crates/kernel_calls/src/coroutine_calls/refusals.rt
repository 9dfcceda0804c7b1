// A refusal of a call on coroutines, with its code.
ghost use Rattle.std.specs.Prelude.{◌≡◌};
ghost use Rattle.kernel_calls.specs.CoroutineCalls.Private.Refusals.{code_of, coded};

use crate::call_answers::codes::{HAS_PARENT, NO_COROUTINE, NO_PARENT};
use kernel_lists::CoEnd;

// The answer, with the code in place of the reason.
pub(crate) fn coded(answer: Result<(), CoEnd>) -> Result<(), u32>
    ensures { result ≡ coded answer }
{
    match answer {
        Ok(()) => Ok(()),
        Err(reason) => Err(code_of(reason)),
    }
}

fn code_of(reason: CoEnd) -> u32
    ensures { result ≡ code_of reason }
{
    match reason {
        CoEnd::Unknown => NO_COROUTINE,
        CoEnd::HasParent => HAS_PARENT,
        CoEnd::NoParent => NO_PARENT,
    }
}
