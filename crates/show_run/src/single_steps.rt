// Steps of a machine, some without a word, others one at a time with their lines.
ghost use Rattle.std.specs.Prelude.{◌≡◌, ◌+◌, ◌<◌, ◌≤◌, length, IfOk, OnOk};
ghost use Rattle.kernel_model.specs.KernelRecord.Ranges.{most_steps};
ghost use Rattle.tripos_machine.specs.State.{steps_of};

use crate::step_log::gather_steps;
use byte_streams::{NoSink, Output, SinkFault, pass_on};
use kernel_lists::EventLog;
use run_names::PacketsOut;
use std::alloc::{AllocError, Global};
use text_sinks::TextSink;
use tripos_machine::Machine;
use word_store::{NoStoreMemory, Store};

/// Takes so many steps, and notes which packets are out.
pub(crate) fn take_unheard(
    count: u64,
    machine: &mut Machine,
    out: &mut PacketsOut,
) -> Result<(), AllocError>
    requires { steps_of machine.old.state + count ≤ most_steps }
    ensures { OnOk result (steps_of machine.new.state ≤ steps_of machine.old.state + count) }
{
    if out.failed() {
        return Err(AllocError);
    }
    match machine.run(count, &mut NoSink, &mut Output::new(), out) {
        Ok(_) => Ok(()),
        Err(SinkFault) => Err(AllocError),
    }
}

/// A store of so many words.
pub(crate) fn former_store(alloc: Global, size: u32) -> Result<Store, AllocError>
    ensures { IfOk result (λ s. length s ≡ size) }
{
    match Store::new(alloc, size) {
        Ok(store) => Ok(store),
        Err(NoStoreMemory) => Err(AllocError),
    }
}

// Makes the store one of so many words, where it is not.
fn fit(alloc: Global, former: &mut Store, size: u32) -> Result<(), AllocError>
    ensures { OnOk result (length former.new ≡ size) }
{
    if former.size() == size {
        return Ok(());
    }
    *former = former_store(alloc, size)?;
    Ok(())
}

/// Takes a step, and adds its lines to what the sink has. The words of the other store are of no use before and after.
pub(crate) fn take_step(
    alloc: Global,
    machine: &mut Machine,
    former: &mut Store,
    sink: &mut TextSink,
    pending: &mut Output,
) -> Result<(), AllocError>
    requires { steps_of machine.old.state < most_steps }
    ensures { OnOk result (steps_of machine.new.state ≤ steps_of machine.old.state + 1) }
{
    fit(alloc, former, machine.store().size())?;
    match gather_steps(machine, 1, former, sink, pending) {
        Ok(()) => keep_all(sink, pending),
        Err(SinkFault) => Err(AllocError),
    }
}

// Makes the sink keep what is pending.
fn keep_all(sink: &mut TextSink, pending: &mut Output) -> Result<(), AllocError> {
    match pass_on(sink, pending) {
        Ok(()) => Ok(()),
        Err(SinkFault) => Err(AllocError),
    }
}
