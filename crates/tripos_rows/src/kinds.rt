// The quick answer to which words are the kernel's, tried against a walk over its lists.

use crate::same::same;
use kernel_model::{Walk, packet_in};
use session_text::read_session;
use std::process::Abort;
use std::test::Fail;
use tripos_machine::{Machine, boot};
use word_store::Guard;

// A coroutine, in which the task waits.
const COROUTINE: &[u8] =
    b"TRIPOS 1\nSTORE 4096\nTICK 100\nFILE P\n:3e8 12 12 a42b0cd0 60a52860 3191a30e 14310f28 1115310f 14321931 a30b60a4 a4283091 1060a519 323191a3 ba3331b5 a31ad0ff 7b91 0 1 4 1 3ea\nTASK 5 100 50 P\nGO 500\n";

// Packets wait for the clock.
const CLOCK: &[u8] =
    b"TRIPOS 1\nSTORE 4096\nTICK 200\nFILE P\n:3e8 17 17 746c60d0 453103e0 30746c60 ffa5c45 310f1431 19311215 f1e310f 31121f31 28310f23 1129310f 14322d31 a30b60a4 a41e3291 91a30b60 60a42832 1a91a30b 323191a3 f8ba3230 0 1 4 1 3ea\nTASK 5 100 50 P\nGO 2000\n";

// And for keys.
const KEYBOARD: &[u8] =
    b"TRIPOS 1\nSTORE 4096\nTICK 100\nFILE P\n:3e8 f f 14310fd0 1531020e e1e310f 321f3102 b60a414 1e3291a3 a30b60a4 91a31a91 ba91a31a ff 0 1 4 1 3ea\nTASK 5 100 50 P\nKEY 100 41\nKEY 150 42\nGO 300\n";

// And for the output.
const OUTPUT: &[u8] =
    b"TRIPOS 1\nSTORE 4096\nTICK 100\nFILE P\n:3e8 11 11 14310fd0 1531030e 19314160 e1e310f 601f3103 32233142 b60a414 1e3291a3 a30b60a4 91a31a91 ba91a31a ff 0 1 4 1 3ea\nTASK 5 100 50 P\nGO 300\n";

// A read waits for a line.
const READS: &[u8] =
    b"TRIPOS 1\nSTORE 4096\nTICK 50\nRESIDENT\nFILE P\n:3e8 12 12 75746660 f1c1c16 1f311e31 32233112 b60a41e a31a91a3 14a41691 31b591a3 310f7b28 15311314 32163111 b60a414 7b91a3 0 1 4 1 3ea\nTASK 5 2000 50 P\nTASK 6 1500 50 P\nGO 300\n";

// Faults are reported.
const FAULTS: &[u8] =
    b"TRIPOS 1\nSTORE 4096\nTICK 50\nRESIDENT\nDEBUG\nFILE P\n:3e8 6 6 2 0 1 4 1 3ea\nTASK 5 4500 50 P\nTASK 6 4600 50 P\nTASK 7 100 50 P\nGO 100\n";

// Modules of tasks, and one that the shell starts.
const MODULES: &[u8] =
    b"TRIPOS 2\nSTORE 8192\nTICK 50\nRESIDENT\nFILE FILL\n:3e8 c c e0746660 60a4740a fb61a514 a313a601 86061e91 f9baa6d1 7b 0 1 4 1 3ea\nTASK 5 1500 50 FILL FILL\nAT 100 :RUN FILL\nGO 1000\n";

// The words that a walk over its lists finds are the ones that are marked, and packets are among them.
fn has_marks<R: Abort>(rt: &R, machine: &Machine) {
    let Some(parts) = machine.kernel_parts() else {
        return;
    };
    let walk = Walk::new();
    for a in 0..parts.store.size() {
        let found = walk.is_kernel(&parts.store, a);
        same(rt, parts.kinds.is_kernel(&parts.store, a), found);
        same(rt, packet_in(&parts.store, a, 1) && !found, false);
    }
}

#[test]
fn marks_what_a_walk_finds(rt: HostRuntime) -> Result<(), Fail> {
    for text in [COROUTINE, CLOCK, KEYBOARD, OUTPUT, READS, FAULTS, MODULES] {
        let session = read_session(rt.alloc(), text)?;
        let mut machine = boot(rt.alloc(), &session)?;
        for _ in 0..40 {
            has_marks(&rt, &machine);
            if machine.steps() < 1000 {
                machine.run_unheard(23);
            }
        }
    }
    Ok(())
}
