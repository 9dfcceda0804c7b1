// Faults of decoding.
ghost use Rattle.std.specs.Prelude.{◌≡◌};
ghost use Rattle.instruction_set.specs.Instruction.{decode_fault};
ghost use Rattle.instruction_set.specs.declared.Outcome.TheVariants.{Fault as Faulted};

use crate::operand_forms::DecodeEnd;
use crate::{Fault, Outcome};

#[inline(always)]
pub fn undecoded(end: DecodeEnd) -> Outcome
    ensures { result ≡ Faulted (decode_fault end) }
{
    Outcome::Fault(match end {
        DecodeEnd::Outside(address) => Fault { code: 8, address },
        DecodeEnd::Undefined(address) => Fault { code: 1, address },
        DecodeEnd::Halfword(address) => Fault {
            code: 3,
            address: address / 4,
        },
    })
}
