// The lines that the program writes besides the console bytes.
ghost use Rattle.byte_streams.specs.Sinks.{FailsBySink, GathersFor, PrintsTo};
ghost use Rattle.tripos_run.specs.Texts.{closing_text, usage_text};

use byte_streams::Piece::{Decimal, Text};
use byte_streams::{Output, Sink, SinkFault, gather_pieces, write_text};
use kernel_model::Stop;

const STOPPED: &[u8] = b"\n* stopped after ";

/// The commands that there are.
pub fn write_usage<K: Sink>(out: &mut K) -> Result<(), SinkFault>
    ensures text { PrintsTo K.Sink out.old out.new usage_text result }
    ensures cause { FailsBySink K.Sink out.old out.new result }
{
    write_text(
        out,
        b"* usage: tripos run, dump, trace, asm, disasm, debug, save, resume, ring or gen N\n",
    )
}

/// The steps taken, and why the machine has stopped.
pub fn gather_closing<K: Sink>(
    steps: u64,
    stop: Stop,
    out: &mut K,
    pending: &mut Output,
) -> Result<(), SinkFault>
    ensures text { GathersFor K.Sink out.old out.new pending.old pending.new
        (closing_text steps stop) result }
    ensures cause { FailsBySink K.Sink out.old out.new result }
{
    match stop {
        Stop::Steps => gather_steps(steps, out, pending),
        Stop::Quit(code) => gather_quit(steps, code, out, pending),
        Stop::Finish => gather_finish(steps, out, pending),
        Stop::Fault {
            code,
            address,
            task,
        } => gather_fault(steps, code, address, task, out, pending),
    }
}

fn gather_steps<K: Sink>(steps: u64, out: &mut K, pending: &mut Output) -> Result<(), SinkFault>
    ensures text { GathersFor K.Sink out.old out.new pending.old pending.new
        (closing_text steps Stop.Steps) result }
    ensures cause { FailsBySink K.Sink out.old out.new result }
{
    gather_pieces(
        out,
        pending,
        &[Text(STOPPED), Decimal(steps), Text(b" steps: steps\n")],
    )
}

fn gather_finish<K: Sink>(steps: u64, out: &mut K, pending: &mut Output) -> Result<(), SinkFault>
    ensures text { GathersFor K.Sink out.old out.new pending.old pending.new
        (closing_text steps Stop.Finish) result }
    ensures cause { FailsBySink K.Sink out.old out.new result }
{
    gather_pieces(
        out,
        pending,
        &[Text(STOPPED), Decimal(steps), Text(b" steps: finish\n")],
    )
}

fn gather_quit<K: Sink>(
    steps: u64,
    code: u32,
    out: &mut K,
    pending: &mut Output,
) -> Result<(), SinkFault>
    ensures text { GathersFor K.Sink out.old out.new pending.old pending.new
        (closing_text steps (Stop.Quit code)) result }
    ensures cause { FailsBySink K.Sink out.old out.new result }
{
    gather_pieces(
        out,
        pending,
        &[
            Text(STOPPED),
            Decimal(steps),
            Text(b" steps: quit "),
            Decimal(code as u64),
            Text(b"\n"),
        ],
    )
}

fn gather_fault<K: Sink>(
    steps: u64,
    code: u32,
    address: u32,
    task: u32,
    out: &mut K,
    pending: &mut Output,
) -> Result<(), SinkFault>
    ensures text { GathersFor K.Sink out.old out.new pending.old pending.new
        (closing_text steps (Stop.Fault code address task)) result }
    ensures cause { FailsBySink K.Sink out.old out.new result }
{
    gather_pieces(
        out,
        pending,
        &[
            Text(STOPPED),
            Decimal(steps),
            Text(b" steps: fault "),
            Decimal(code as u64),
            Text(b" at "),
            Decimal(address as u64),
            Text(b" in task "),
            Decimal(task as u64),
            Text(b"\n"),
        ],
    )
}
