// The kernel call that the running guest makes.
ghost use Rattle.std.specs.Prelude.{◌≡◌, ◌<◌, ◌∷◌, Ok, [], length};
ghost use Rattle.kernel_model.specs.KernelRecord.Lists.{Lists};
ghost use Rattle.kernel_calls.specs.CallAnswers.Callers.{HasCaller};
ghost use Rattle.kernel_calls.specs.CallAnswers.CallChange.{IsMade, plain_answer};
ghost use Rattle.kernel_calls.specs.TaskCalls.CreateTask.{create_task};
ghost use Rattle.kernel_calls.specs.CallAnswers.Outside.{outside};
ghost use Rattle.kernel_calls.specs.Calls.{IsCalled, answered, kernel_call, made, regs_of_switch};
ghost use Rattle.kernel_model.specs.KernelRecord.ChangedStore.{HasKeeper};

use crate::block_calls::{freevec, getvec};
use crate::call_answers::caller;
use crate::call_numbers::{CallOutcome, KernelCall, read_call};
use crate::coroutine_calls::{callco, cowait, createco, deleteco, resumeco};
use crate::module_calls::{add_module, unload_module};
use crate::packet_calls::{dqpkt, qpkt, taskwait};
use crate::task_calls::{
    change_pri, create_task, delete_task, hold_task, release_task, set_flags, test_flags,
};
use byte_streams::Output;
use kernel_lists::{EventLog, TcbField, field};
use kernel_model::KindKeeper;
use word_store::{Regs, Store, add, mul_div};

/// Makes the call that the running guest asks for: its number is the word P!3, and its arguments follow. An accepted call sets A
/// to its answer, or to -1 where it has none, and B to 0; a refused one sets A to 0 and B to its code, and changes nothing else.
/// PC is past the SYS then. Where there is no such call, or an argument is outside the store, nothing changes.
pub fn call<Q: KindKeeper, L: EventLog>(
    store: &mut Store,
    regs: &mut Regs,
    kinds: &mut Q,
    bytes: &mut Output,
    log: &mut L,
) -> CallOutcome
    requires caller { (l : Lists)
        × HasKeeper store.old (Q.tells kinds.old) (Q.room kinds.old) l × HasCaller l }
    requires room_for_byte { length bytes.old < 8192 }
    ensures called { (l : Lists) → HasKeeper store.old (Q.tells kinds.old) (Q.room kinds.old) l
        → HasCaller l
        → IsCalled store.old store.new regs.new (Q.tells kinds.new)
        (outside bytes.old (L.noted log.old) (L.has_failed log.old))
        (outside bytes.new (L.noted log.new) (L.has_failed log.new))
        result (kernel_call store.old l regs.old) }
    ensures room { Q.room kinds.new ≡ Q.room kinds.old }
{
    match read_call(store, *regs) {
        Ok(call) => {
            regs.pc = add(regs.pc, 1);
            make(store, regs, kinds, bytes, log, call)
        }
        Err(end) => end,
    }
}

// Makes the call, with PC past the SYS.
fn make<Q: KindKeeper, L: EventLog>(
    store: &mut Store,
    regs: &mut Regs,
    kinds: &mut Q,
    bytes: &mut Output,
    log: &mut L,
    call: KernelCall,
) -> CallOutcome
    requires caller { (l : Lists)
        × HasKeeper store.old (Q.tells kinds.old) (Q.room kinds.old) l × HasCaller l }
    requires room_for_byte { length bytes.old < 8192 }
    ensures called { (l : Lists) → HasKeeper store.old (Q.tells kinds.old) (Q.room kinds.old) l
        → HasCaller l
        → IsCalled store.old store.new regs.new (Q.tells kinds.new)
        (outside bytes.old (L.noted log.old) (L.has_failed log.old))
        (outside bytes.new (L.noted log.new) (L.has_failed log.new))
        result (made store.old l regs.old call) }
    ensures room { Q.room kinds.new ≡ Q.room kinds.old }
{
    match call {
        KernelCall::Quit { result } => {
            answer(regs, Ok(u32::MAX));
            CallOutcome::Quit(result)
        }
        KernelCall::Getvec { highest } => answer(regs, getvec(store, kinds, highest)),
        KernelCall::Freevec { block } => accept(regs, freevec(store, kinds, block)),
        KernelCall::CreateTask {
            module,
            highest,
            priority,
        } => answer(regs, create(store, kinds, module, highest, priority)),
        KernelCall::DeleteTask { id } => accept(regs, delete_task(store, kinds, id)),
        KernelCall::ChangePri { id, priority } => accept(regs, change_pri(store, id, priority)),
        KernelCall::SetFlags { id, flags } => accept(regs, set_flags(store, id, flags)),
        KernelCall::TestFlags { mask } => answer(regs, Ok(test_flags(store, mask))),
        KernelCall::Hold { id } => accept(regs, hold_task(store, id)),
        KernelCall::Release { id } => accept(regs, release_task(store, id)),
        KernelCall::TaskWait => match taskwait(store, kinds, log) {
            Some(packet) => answer(regs, Ok(packet)),
            None => CallOutcome::Waits,
        },
        KernelCall::Qpkt { packet } => accept(regs, qpkt(store, kinds, packet, log)),
        KernelCall::Dqpkt { id, packet } => answer(regs, dqpkt(store, kinds, id, packet, log)),
        KernelCall::Unload { module } => accept(regs, unload_module(store, kinds, module)),
        KernelCall::CreateCo { function, highest } => {
            answer(regs, createco(store, kinds, function, highest))
        }
        KernelCall::DeleteCo { coroutine } => accept(regs, deleteco(store, kinds, coroutine)),
        KernelCall::CallCo { coroutine, value } => {
            let switch = callco(store, regs, coroutine, value);
            go_on(regs, switch)
        }
        KernelCall::ResumeCo { coroutine, value } => {
            let switch = resumeco(store, regs, coroutine, value);
            go_on(regs, switch)
        }
        KernelCall::CoWait { value } => {
            let switch = cowait(store, regs, value);
            go_on(regs, switch)
        }
        KernelCall::Wrch { character } => {
            bytes.append(&[(character % 256) as u8]);
            answer(regs, Ok(character))
        }
        KernelCall::MulDiv { a, b, c } => {
            let (quotient, remainder) = mul_div(a, b, c);
            regs.a = quotient;
            regs.b = remainder;
            CallOutcome::Done
        }
        KernelCall::AddModule { id, module } => answer(regs, add_module(store, kinds, id, module)),
    }
}

// Creates a task of the module, which the caller has made.
fn create<Q: KindKeeper>(
    store: &mut Store,
    kinds: &mut Q,
    module: u32,
    highest: u32,
    priority: u32,
) -> Result<u32, u32>
    requires { (l : Lists)
        × HasKeeper store.old (Q.tells kinds.old) (Q.room kinds.old) l × HasCaller l }
    ensures made { (l : Lists) → HasKeeper store.old (Q.tells kinds.old) (Q.room kinds.old) l
        → HasCaller l
        → IsMade store.old store.new (Q.tells kinds.new) result
        (create_task store.old l 0 («module» ∷ []) highest priority l.running) }
    ensures room { Q.room kinds.new ≡ Q.room kinds.old }
{
    let maker = field(store, caller(store), TcbField::Id);
    create_task(store, kinds, 0, module, highest, priority, maker)
}

// The registers answer.
fn answer(regs: &mut Regs, answer: Result<u32, u32>) -> CallOutcome
    ensures regs { regs.new ≡ answered regs.old answer }
    ensures done { result ≡ CallOutcome.Done }
{
    match answer {
        Ok(word) => {
            regs.a = word;
            regs.b = 0;
        }
        Err(code) => {
            regs.a = 0;
            regs.b = code;
        }
    }
    CallOutcome::Done
}

// They answer for a call without an answer of its own, by -1.
fn accept(regs: &mut Regs, outcome: Result<(), u32>) -> CallOutcome
    ensures regs { regs.new ≡ answered regs.old (plain_answer outcome) }
    ensures done { result ≡ CallOutcome.Done }
{
    answer(regs, outcome.map(|()| u32::MAX))
}

// A coroutine goes on, with the registers that it has, or its call was refused.
fn go_on(regs: &mut Regs, switch: Result<(), u32>) -> CallOutcome
    ensures regs { regs.new ≡ regs_of_switch regs.old switch }
    ensures done { result ≡ CallOutcome.Done }
{
    match switch {
        Ok(()) => CallOutcome::Done,
        Err(code) => answer(regs, Err(code)),
    }
}
