// What no command shows: a module printed, its shape, and its words one by one.
use crate::same::same;
use byte_streams::MemorySink;
use module_text::{NextWord, Shape, SliceText, check_module, next_word, print_module, read_module};
use std::test::Fail;

const EXAMPLE: &[u8] = b"000003e8 00000007\n\
00000007 03a01360 0000007b 00000000 00000001 00000004 00000001\n000003ea\n";

const TWO_HUNKS: &[u8] = b"000003e8 00000000\n000003e8 0000000a\n\
00000001 00000002 00000003 00000004 00000005 00000006 00000007 00000008\n00000009 ffffffff\n\
000003e9 00000003\n00000009 00000000 00000000\n000003ea\n";

#[test]
fn reads_and_prints(rt: HostRuntime) -> Result<(), Fail> {
    let rows: [(&[u8], &[u8]); 4] = [
        (b"3ea", b"000003ea\n"),
        (b"3E8 1 Ab 3ea", b"000003e8 00000001\n000000ab\n000003ea\n"),
        (b" 03e8\r\n\n7 7 3a01360 7B 0 1 4 1\n3ea\n", EXAMPLE),
        (
            b"3e8 0 3e9 0 3e8 a 1 2 3 4 5 6 7 8 9 ffffffff 3e9 1 9 3e9 2 0 0 3ea",
            TWO_HUNKS,
        ),
    ];
    for (text, printed) in rows {
        assert!(rt; text.len() < 1000);
        let module = read_module(rt.alloc(), text)?;
        let mut out = MemorySink::new(rt.alloc(), 1000, &[])?;
        same(&rt, print_module(&module, &mut out), Ok(()));
        same(&rt, out.bytes(), printed);
    }
    Ok(())
}

#[test]
fn tells_the_shape(rt: HostRuntime) {
    let text = SliceText::new(b"3e8 2 0 0 3e9 1 1 3e8 0 3e8 1 0 3ea");
    same(&rt, check_module(&text), Ok(Shape { hunks: 3, words: 3 }));
    same(
        &rt,
        check_module(&SliceText::new(b"3e8 1 0 3e9 1 1 3ea")),
        Err(4),
    );
}

#[test]
fn gives_word_after_word(rt: HostRuntime) {
    let text = SliceText::new(b" 3E8\n00000010 123456789");
    for (from, wanted) in [
        (0, Some(NextWord { word: 1000, end: 4 })),
        (2, Some(NextWord { word: 232, end: 4 })),
        (4, Some(NextWord { word: 16, end: 13 })),
        (13, None),
        (23, None),
        (4_000_000_000, None),
    ] {
        same(&rt, next_word(&text, from), wanted);
    }
}
