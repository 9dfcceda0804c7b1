// What the numbers are that definitions cite by name. The function does nothing: its contract is the law.
ghost use Rattle.std.specs.Prelude.{◌≡◌, ◌-◌, ◌^◌};
ghost use Rattle.kernel_lists.specs.TaskBlock.TaskWords.{word_index};

use crate::kernel_record::numbers::{
    CLOCK, CONSOLE, FAULT_ADDRESS, FAULT_KIND, FAULT_WORD, FILE_HANDLER, FIRST, KEYBOARD, KIND,
    OUTPUT, PACKET_WORDS, PENDING, REPORTED, REPORTER, RES1, RES2, SECOND, SENDER, SHELL,
    SHELL_PACKET, THIRD, WAITS,
};

/// Each number of the kernel that a definition cites by its name: of the residents, of the devices, of the queue of reads that wait, of
/// a task that waits, of what is kept of a fault, and of the words of a packet.
pub fn number_law()
    ensures residents { (SHELL ≡ 1) × (REPORTER ≡ 2) × (CONSOLE ≡ 3) × (FILE_HANDLER ≡ 4) }
    ensures devices { (CLOCK ≡ 2 ^ 32 - 1) × (KEYBOARD ≡ 2 ^ 32 - 2) × (OUTPUT ≡ 2 ^ 32 - 3) }
    ensures pending { PENDING ≡ 103 }
    ensures shell_packet { SHELL_PACKET ≡ 279 }
    ensures waits { WAITS ≡ 4 }
    ensures faults { (word_index FAULT_WORD ≡ 21) × (word_index FAULT_ADDRESS ≡ 22)
        × (FAULT_KIND ≡ 40) × (REPORTED ≡ 256) }
    ensures packet { (SENDER ≡ 1) × (KIND ≡ 2) × (RES1 ≡ 3) × (RES2 ≡ 4) × (PACKET_WORDS ≡ 5) }
    ensures arguments { (FIRST ≡ 5) × (SECOND ≡ 6) × (THIRD ≡ 7) }
{}
