// What no run shows of a disc: a stream that is set up anew, its place, and the byte at a place of a file.
use crate::same::same;
use arrayvec::ArrayVec;
use module_text::TextBytes;
use ram_disc::{Disc, Name};
use std::process::Abort;
use std::test::Fail;

#[test]
fn sets_up_streams(rt: HostRuntime) -> Result<(), Fail> {
    let name = Name::read(b"f").ok_or("name")?;
    let absent = Name::read(b"g").ok_or("name")?;
    let mut disc = Disc::new(rt.alloc()).map_err(|_| "memory")?;
    writes_a_file(&rt, &mut disc, &name)?;
    restores_streams(&rt, &mut disc, &name, &absent)
}

// A file of two sectors.
fn writes_a_file<R: Abort>(rt: &R, disc: &mut Disc, name: &Name) -> Result<(), Fail> {
    same(rt, disc.open_write(name), Ok(1));
    same(rt, disc.append(1, &[b'f'; 512]), Ok(()));
    same(rt, disc.append(1, b"x"), Ok(()));
    same(rt, disc.close(1), Ok(()));
    let mut sectors = ArrayVec::new();
    let file = disc.file(name, &mut sectors).ok_or("file")?;
    let bytes = [file.at(511), file.at(512), file.at(513)];
    same(rt, bytes, [Some(b'f'), Some(b'x'), None]);
    Ok(())
}

// The streams of the rows, one after another.
fn restores_streams<R: Abort>(
    rt: &R,
    disc: &mut Disc,
    name: &Name,
    absent: &Name,
) -> Result<(), Fail> {
    for (k, name, place, writes, set) in [
        (0, name, 0, false, false),
        (18, name, 0, false, false),
        (3, absent, 0, false, false),
        (3, name, 514, false, false),
        (3, name, 512, true, false),
        (17, name, 513, true, false),
        (17, name, 511, false, true),
        (17, name, 511, false, false),
        (3, name, 513, true, false),
    ] {
        let got = disc.restore_stream(k, name, place, writes);
        same(rt, (k, place, got), (k, place, set));
    }
    same(rt, disc.stream(17).map(|stream| stream.1), Some(511));
    same(rt, disc.close(17), Ok(()));
    assert!(rt; disc.restore_stream(3, name, 513, true));
    assert!(rt; !disc.restore_stream(4, name, 0, false));
    same(rt, disc.append(3, b"!"), Ok(()));
    same(rt, disc.stream(3).map(|stream| stream.1), Some(514));
    Ok(())
}
