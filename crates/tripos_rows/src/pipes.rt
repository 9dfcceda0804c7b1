// What no run shows of pipes: one set up anew, and the byte at a place.
use crate::same::same;
use ram_disc::Name;
use resident_tasks::Pipes;
use std::test::Fail;

#[test]
fn sets_up_pipes(rt: HostRuntime) -> Result<(), Fail> {
    let name = Name::read(b"q").ok_or("name")?;
    let other = Name::read(b"r").ok_or("name")?;
    let mut pipes = Pipes::new(rt.alloc()).map_err(|_| "memory")?;
    same(&rt, pipes.open(&name, 0), Ok(1));
    for (k, name, wanted) in [
        (1, &other, false),
        (2, &name, false),
        (9, &other, false),
        (2, &other, true),
    ] {
        let set = pipes.restore(k, (true, false, true), name, b"held");
        same(&rt, (k, set), (k, wanted));
    }
    for (place, wanted) in [(0, Some(b'h')), (3, Some(b'd')), (4, None)] {
        let got = pipes.pipe(2).and_then(|pipe| pipe.at(place));
        same(&rt, (place, got), (place, wanted));
    }
    let mut into = [0; 5];
    same(&rt, pipes.read(3, true, &mut into), Ok(4));
    same(&rt, into, *b"held\0");
    Ok(())
}
