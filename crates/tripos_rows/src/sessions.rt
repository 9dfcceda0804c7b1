// What no command shows of a session: its text printed, and the front of a text.
use crate::same::same;
use byte_streams::MemorySink;
use session_text::{print_session, read_front, read_session};
use std::test::Fail;

#[test]
fn reads_and_prints(rt: HostRuntime) -> Result<(), Fail> {
    for (text, printed) in [
        // CR LF and LF, hex in either case, a line of no bytes, zeros that lead, and no end at the last line.
        (
            "TRIPOS 2\r\nSTORE 4194304\nBARE\r\n:6013A0\n:\n:Ff\nGO 0000000100",
            "TRIPOS 2\nSTORE 4194304\nBARE\n:6013a0\n:\n:ff\nGO 100\n",
        ),
        // Files with and without text, a task, typed text, keys in the order of their lines.
        (
            "TRIPOS 1\nSTORE 8192\nTICK 0050\nRESIDENT\nDEBUG\nFILE HELLO\n:3e8 ~\r\n:\nTASK 0005 100 50 HELLO\n\
AT 200 :Hi\nFILE NOTE\nKEY 1 fF\nAT 7 :\nGO 10000",
            "TRIPOS 1\nSTORE 8192\nTICK 50\nRESIDENT\nDEBUG\nFILE HELLO\n:3e8 ~\n:\nTASK 5 100 50 HELLO\nFILE NOTE\n\
KEY 200 48\nKEY 200 69\nKEY 200 0a\nKEY 1 ff\nKEY 7 0a\nGO 10000\n",
        ),
        // Eight names, and no residents.
        (
            "TRIPOS 2\nSTORE 1024\nTICK 1\nTASK 63 1 20 A B C D E F G H\nGO 0\n",
            "TRIPOS 2\nSTORE 1024\nTICK 1\nTASK 63 1 20 A B C D E F G H\nGO 0\n",
        ),
    ] {
        let session = read_session(rt.alloc(), text.as_bytes())?;
        let Ok(mut out) = MemorySink::new(rt.alloc(), 300, &[]) else {
            return Err(Fail::from("memory"));
        };
        assert!(rt; print_session(&session, &mut out).is_ok());
        same(&rt, out.bytes(), printed.as_bytes());
    }
    Ok(())
}

#[test]
fn reads_fronts(rt: HostRuntime) -> Result<(), Fail> {
    for (text, steps, end, lines) in [
        ("TRIPOS 1\nSTORE 1024\nBARE\nGO 1\nSTEP 1\nGO 2\n", 1, 30, 4),
        ("TRIPOS 1\r\nSTORE 1024\r\nBARE\r\nGO 20\r\n\r\n", 20, 35, 4),
        (
            "TRIPOS 1\nSTORE 1024\nTICK 1\nFILE GO\n:GO 1\nGO 3",
            3,
            45,
            6,
        ),
    ] {
        let front = read_front(rt.alloc(), text.as_bytes())?;
        same(&rt, front.session.go, steps);
        same(&rt, front.end, end);
        same(&rt, front.lines, lines);
    }
    assert!(rt; read_front(rt.alloc(), b"TRIPOS 1\nGO 1\nSTORE 1024\nBARE\nGO 1\n").is_err());
    Ok(())
}
