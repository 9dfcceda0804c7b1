// The names of programs in words.
ghost use Rattle.std.specs.Prelude.{◌≡◌, ◌+◌, ◌==◌, filter, if◌then◌else◌, not, slice_range, None};
ghost use Rattle.std.specs.Option.{option_copied};
ghost use Rattle.byte_streams.specs.Pending.{Gathers};
ghost use Rattle.byte_streams.specs.Sinks.{FailsBySink, GathersFor};
ghost use Rattle.kernel_model.specs.KernelRecord.Recovered.{modules_of};
ghost use Rattle.kernel_lists.specs.TaskBlock.Versions.{head_words};
ghost use Rattle.state_text.specs.ProgramNames.{first_name, line_end, name_in};

use crate::programs::{Program, name_in};
use byte_streams::Piece::Text;
use byte_streams::{Output, Sink, SinkFault, gather, gather_pieces};
use kernel_lists::{FIRST_GUEST, TcbField, field, module_at, most_modules};
use word_store::Store;

/// The first name that one of the modules of the task at t has.
pub(crate) fn name_of_task<'a>(programs: &'a [Program], store: &Store, t: u32) -> Option<&'a [u8]>
    ensures { option_copied result
        ≡ first_name (name_in programs.now store.now) (modules_of store.now t) }
{
    let first = name_of_module(programs, store, field(store, t, TcbField::Module));
    if first.is_some() || field(store, t, TcbField::Id) < FIRST_GUEST {
        return first;
    }
    name_of_further(programs, store, t)
}

// The first name that one of a guest's modules after the first has.
fn name_of_further<'a>(programs: &'a [Program], store: &Store, t: u32) -> Option<&'a [u8]>
    ensures { option_copied result ≡ first_name (name_in programs.now store.now)
        (filter (λ m. not (m == 0))
        (slice_range store.now (t + 23) (t + head_words store.now))) }
{
    for i in 2..most_modules(store) + 1 {
        let name = name_of_module(programs, store, module_at(store, t, i));
        if name.is_some() {
            return name;
        }
    }
    None
}

// The name of the module at m, where that is no 0.
fn name_of_module<'a>(programs: &'a [Program], store: &Store, m: u32) -> Option<&'a [u8]>
    ensures { option_copied result
        ≡ (if m == 0 then None else name_in programs.now store.now m) }
{
    if m == 0 {
        return None;
    }
    name_in(programs, store, m)
}

/// Gathers the end of a line, with the name of a program where there is one.
pub(crate) fn gather_line_end<K: Sink>(
    name: Option<&[u8]>,
    out: &mut K,
    pending: &mut Output,
) -> Result<(), SinkFault>
    ensures text { GathersFor K.Sink out.old out.new pending.old pending.new
        (line_end (option_copied name.entry)) result }
    ensures cause { FailsBySink K.Sink out.old out.new result }
{
    match name {
        Some(name) => gather_pieces(
            out,
            pending,
            &[Text(b", program "), Text(name), Text(b"\n")],
        ),
        None => gather(out, pending, b"\n"),
    }
}
