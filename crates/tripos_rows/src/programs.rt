// The program's answers where a source or a sink fails.
use crate::same::same;
use byte_streams::{MemorySink, MemorySource};
use program_answers::Status;
use std::process::Abort;
use std::test::Fail;
use tripos_run::{generate, tripos};

const LETTER: &[u8] = b"TRIPOS 1\nSTORE 1024\nBARE\n:6013a0036041a004916000a003a00491\nGO 100\n";

// Lines are typed to the shell of a machine with residents, which starts a program and finishes the machine.
const TYPED: &[u8] =
    b"TRIPOS 1\nSTORE 8192\nTICK 50\nRESIDENT\nFILE HELLO\n:3e8 b b a31360a6 91a44860 91a46960 8691a41a 60de11a4 7b91a30b 0 1 4 1 3ea\nFILE NOTE\n:one\nKEY 1 45\nKEY 1 59\nKEY 1 08\nKEY 1 58\nKEY 1 0d\nAT 200 :HELLO\nAT 1000 :STATUS\nAT 2000 :FINISH\nGO 10000\n";

const TYPED_RUN: &[u8] =
    b"> EY\x08 \x08X\nHELLO              74\nNOTE                4\n> HELLO\nHi\n> STATUS\n  3  6000 wait\n  4  5000 wait\n  1  1000 run\n> FINISH\n\n* stopped after 2008 steps: finish\n";

// Writes a letter at every second step from the fifth on.
const LETTERS: &[u8] = b"TRIPOS 1\nSTORE 1024\nBARE\n:6013a0036041a00491bafe\nGO 20004\n";

// Before it writes its letter.
const STARTED: &[u8] = b"TRIPOS 1\nSTORE 1024\nBARE\n:6013a0036041a004916000a003a00491\nGO 4\n";

const SAVED: &[u8] =
    b"TRIPOS-IMAGE 1\nSTORE 1024\nBARE\nSTEP 4\nREGS 65 19 0 100 20 808\nW 103 00000013\nW 104 00000041\nW 200 03a01360\nW 201 04a04160\nW 202 a0006091\nW 203 9104a003\nGO 4\n";

const RESUMED: &[u8] = b"A\n* stopped after 4 steps: steps\n";

const RING: &[u8] =
    b"RING 20 4\nLINK :D\nACKS :D\nLEFT\nTRIPOS 1\nSTORE 1024\nBARE\n:6013a0036041a004916000a003a00491\nGO 100\nRIGHT\nTRIPOS 1\nSTORE 1024\nTICK 10\nGO 100\n";

const ROUNDS: &[u8] = b"\n* ring after 20 rounds: sent 1 delivered 1 acknowledged 1\n";

const USAGE: &[u8] =
    b"* usage: tripos run, dump, trace, asm, disasm, debug, save, resume, ring or gen N\n";

fn words_of<R: Abort + AllocGlobal>(rt: &R, words: &[&str]) -> Result<Vec<String>, Fail> {
    let mut list = Vec::new(rt.alloc());
    for word in words {
        list.push(String::from_str(rt.alloc(), word)?)?;
    }
    Ok(list)
}

#[test]
fn tells_faults_of_source_and_sink(rt: HostRuntime) -> Result<(), Fail> {
    let front = [b'A'; 8192];
    let command = ["run"].as_slice();
    let save = ["save"].as_slice();
    let resume = ["resume"].as_slice();
    let ring = ["ring"].as_slice();
    let other = ["run", "x"].as_slice();
    // The words and the input, the read and the write that fail, the status and the bytes written.
    let rows: [(&[&str], &[u8], u32, u32, Status, &[u8]); 17] = [
        (command, TYPED, 0, 2, Status::Done, TYPED_RUN),
        (command, TYPED, 1, 0, Status::ReadFault, b""),
        (command, TYPED, 2, 0, Status::ReadFault, b""),
        (command, TYPED, 0, 1, Status::WriteFault, b""),
        (command, LETTERS, 0, 2, Status::WriteFault, &front),
        (command, b"", 0, 1, Status::WriteFault, b""),
        (save, STARTED, 0, 2, Status::Done, SAVED),
        (save, STARTED, 1, 0, Status::ReadFault, b""),
        (save, STARTED, 0, 1, Status::WriteFault, b""),
        (resume, SAVED, 0, 2, Status::Done, RESUMED),
        (resume, SAVED, 1, 0, Status::ReadFault, b""),
        (resume, SAVED, 0, 1, Status::WriteFault, b""),
        (ring, RING, 0, 2, Status::Done, ROUNDS),
        (ring, RING, 1, 0, Status::ReadFault, b""),
        (ring, RING, 0, 1, Status::WriteFault, b""),
        (other, LETTER, 1, 0, Status::Usage, USAGE),
        (other, LETTER, 1, 1, Status::WriteFault, b""),
    ];
    for (words, input, read, write, status, bytes) in rows {
        let words = words_of(&rt, words)?;
        let mut src = MemorySource::new(rt.alloc(), input, &[read]).map_err(|_| "memory")?;
        let mut out = MemorySink::new(rt.alloc(), 65536, &[write]).map_err(|_| "memory")?;
        same(
            &rt,
            tripos(rt.alloc(), words.as_slice(), &mut src, &mut out),
            status,
        );
        same(&rt, out.bytes(), bytes);
    }
    Ok(())
}

#[test]
fn runs_the_session_that_a_number_makes(rt: HostRuntime) -> Result<(), Fail> {
    let text = generate(rt.alloc(), 7).map_err(|_| "memory")?;
    let words = words_of(&rt, &["gen", "7"])?;
    let mut src = MemorySource::new(rt.alloc(), b"", &[1]).map_err(|_| "memory")?;
    let mut out = MemorySink::new(rt.alloc(), 256, &[0]).map_err(|_| "memory")?;
    same(
        &rt,
        tripos(rt.alloc(), words.as_slice(), &mut src, &mut out),
        Status::Done,
    );
    let length = text.len();
    let wanted = format!(in rt.alloc(); "session {length} bytes\n")?;
    assert!(rt; out.bytes().starts_with(wanted.as_bytes()));
    Ok(())
}
