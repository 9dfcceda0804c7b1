// Logs of events: the lines that are printed, and the events that are kept.
use crate::same::same;
use byte_streams::{MemorySink, SinkFault};
use kernel_lists::{EventLog, KernelEvent, ListLog, SinkLog};
use program_answers::trace_log::print_events;
use std::test::Fail;

#[test]
fn a_line_for_each_event(rt: HostRuntime) -> Result<(), Fail> {
    let mut sink = MemorySink::new(rt.alloc(), 256, &[]).map_err(|_| "memory")?;
    let mut log = SinkLog::new(&mut sink);
    for event in [
        KernelEvent::Accepted {
            queue: -2147483648,
            packet: 4294967295,
            sender: 3,
        },
        KernelEvent::Taken {
            queue: 3,
            packet: 1000,
            sender: -2,
        },
        KernelEvent::Dequeued {
            queue: -1,
            packet: 120,
        },
        KernelEvent::Runs { task: 12 },
    ] {
        log.note(event);
    }
    assert!(rt; !log.failed());
    same(
        &rt,
        sink.bytes(),
        b"accept -2147483648 4294967295 3\ntake 3 1000 -2\ndequeue -1 120\nrun 12\n".as_slice(),
    );
    Ok(())
}

#[test]
fn a_list_log_keeps_what_it_has_room_for(rt: HostRuntime) -> Result<(), Fail> {
    let mut log = ListLog::make(rt.alloc(), 2).map_err(|_| "memory")?;
    for (task, failed) in [(7, false), (8, false), (9, true)] {
        log.note(KernelEvent::Runs { task });
        same(&rt, (task, log.failed()), (task, failed));
    }
    let kept = [KernelEvent::Runs { task: 7 }, KernelEvent::Runs { task: 8 }];
    same(&rt, log.events(), kept.as_slice());
    Ok(())
}

#[test]
fn lines_go_out_when_there_are_many(rt: HostRuntime) -> Result<(), Fail> {
    let events = [KernelEvent::Runs { task: 4294967295 }; 600];
    let line = b"run 4294967295\n".as_slice();
    let cut = Err(SinkFault);
    for (fails, answer, lines) in [(0, Ok(()), 600), (1, cut, 0), (2, cut, 546)] {
        let mut sink = MemorySink::new(rt.alloc(), 16384, &[fails]).map_err(|_| "memory")?;
        let got = print_events(&mut sink, &events);
        let length = lines * line.len();
        same(
            &rt,
            (fails, got, sink.bytes().len()),
            (fails, answer, length),
        );
        assert!(rt; sink.bytes().chunks(line.len()).all(|l| l == line));
    }
    Ok(())
}
