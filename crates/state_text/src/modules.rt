// The modules of a kernel in words.
ghost use Rattle.std.specs.List.{flat_map};
ghost use Rattle.byte_streams.specs.Pending.{Gathers};
ghost use Rattle.byte_streams.specs.Sinks.{FailsBySink, GathersFor};
ghost use Rattle.kernel_model.specs.KernelRecord.KernelRanges.{CanWalkLists, IsModuleIn};
ghost use Rattle.kernel_model.specs.KernelRecord.Recovered.{lists_in, module_in};
ghost use Rattle.state_text.specs.ModuleTexts.{module_line, module_place, modules_text};
ghost use Rattle.state_text.specs.ProgramNames.{name_in};

use crate::names::gather_line_end;
use crate::programs::{Program, name_in};
use byte_streams::Piece::{Decimal, Text};
use byte_streams::{Output, Sink, SinkFault, gather, gather_pieces};
use kernel_lists::modules;
use word_store::{Store, word_at};

/// The word of a module that has the number of its hunks.
const HUNK_COUNT: u32 = 1;

/// The words of a module before the lengths of its hunks.
const HEAD_WORDS: u64 = 2;

/// Gathers a line for each module, the newest first.
#[tactic(auto, unfolding(crate::specs::ModuleTexts::modules_text))]
pub(crate) fn gather_modules<K: Sink>(
    store: &Store,
    programs: &[Program],
    out: &mut K,
    pending: &mut Output,
) -> Result<(), SinkFault>
    requires { CanWalkLists store.now }
    ensures text { GathersFor K.Sink out.old out.new pending.old pending.new
        (modules_text (name_in programs.now store.now) (lists_in store.now)) result }
    ensures cause { FailsBySink K.Sink out.old out.new result }
{
    gather(out, pending, b"modules\n")?;
    gather_list(store, programs, out, pending)
}

// The line of each module.
fn gather_list<K: Sink>(
    store: &Store,
    programs: &[Program],
    out: &mut K,
    pending: &mut Output,
) -> Result<(), SinkFault>
    requires { CanWalkLists store.now }
    ensures text { GathersFor K.Sink out.old out.new pending.old pending.new
        (flat_map (module_line (name_in programs.now store.now))
        (lists_in store.now).modules) result }
    ensures cause { FailsBySink K.Sink out.old out.new result }
{
    for m in modules(store) {
        gather_module(store, programs, m, out, pending)?;
    }
    Ok(())
}

// The line of the module at m.
fn gather_module<K: Sink>(
    store: &Store,
    programs: &[Program],
    m: u32,
    out: &mut K,
    pending: &mut Output,
) -> Result<(), SinkFault>
    requires { IsModuleIn store.now m }
    ensures text { GathersFor K.Sink out.old out.new pending.old pending.new
        (module_line (name_in programs.now store.now) (module_in store.now m)) result }
    ensures cause { FailsBySink K.Sink out.old out.new result }
{
    gather_place(store, m, out, pending)?;
    gather_line_end(name_in(programs, store, m), out, pending)
}

// Its address, how many hunks it has, and where the first of them begins.
fn gather_place<K: Sink>(
    store: &Store,
    m: u32,
    out: &mut K,
    pending: &mut Output,
) -> Result<(), SinkFault>
    requires { IsModuleIn store.now m }
    ensures text { GathersFor K.Sink out.old out.new pending.old pending.new
        (module_place (module_in store.now m)) result }
    ensures cause { FailsBySink K.Sink out.old out.new result }
{
    let hunks = u64::from(word_at(store, m, HUNK_COUNT));
    let first_byte = 4 * (u64::from(m) + HEAD_WORDS + hunks);
    gather_pieces(
        out,
        pending,
        &[
            Text(b"module at "),
            Decimal(u64::from(m)),
            Text(b", hunks "),
            Decimal(hunks),
            Text(b", from byte "),
            Decimal(first_byte),
        ],
    )
}
