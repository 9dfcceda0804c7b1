// The modules of a store with the names of their programs, and the programs of a task.
ghost use Rattle.std.specs.Prelude.{◌≡◌, ◌+◌};
ghost use Rattle.std.specs.Option.{option_copied};
ghost use Rattle.run_names.specs.Modules.{block_of_task, name_at, name_in};

use crate::programs::{KnownProgram, is_loaded};
use kernel_lists::{RootField, TABLE, TcbField, field, highest_id, module_at, most_modules, root};
use std::alloc::{AllocError, Global};
use tool_texts::Said::Bytes;
use tool_texts::push_sentence;
use word_store::{Store, word, word_at};

/// The most tasks that are looked at.
const MOST_TASKS: u32 = 100;

/// The most modules that are looked at.
const MOST_MODULES: u32 = 1000;

/// The name of a module that is none of the programs.
const UNNAMED: &[u8] = b"module";

/// A module of a store, with its name.
#[derive(Clone, Copy)]
pub struct NamedModule<'a> {
    /// The address of its first word.
    pub at: u32,
    /// The name of its program, or `module` where it is none of them.
    pub name: &'a [u8],
}

/// The modules of a store, the newest first, at most 1,000.
pub fn modules_of<'a>(
    alloc: Global,
    programs: &'a [KnownProgram],
    store: &Store,
) -> Result<Vec<NamedModule<'a>>, AllocError> {
    let mut modules = Vec::new(alloc);
    let mut m = root(store, RootField::FirstModule);
    for _ in 0..MOST_MODULES {
        if m == 0 {
            break;
        }
        let name = program_name(programs, store, m).unwrap_or(UNNAMED);
        modules.push(NamedModule { at: m, name })?;
        m = word(store, m);
    }
    Ok(modules)
}

// The name of the first of the programs that is at m, if one is.
fn program_name<'a>(programs: &'a [KnownProgram], store: &Store, m: u32) -> Option<&'a [u8]>
    ensures { option_copied result ≡ name_in programs.now store.now m }
{
    for program in programs {
        if is_loaded(program, store, m) {
            return Some(program.name());
        }
    }
    None
}

/// The addresses of the blocks of the tasks, in the order of their chain, at most 100.
pub fn task_blocks(alloc: Global, store: &Store) -> Result<Vec<u32>, AllocError> {
    let mut blocks = Vec::new(alloc);
    let mut t = root(store, RootField::FirstTask);
    for _ in 0..MOST_TASKS {
        if t == 0 {
            break;
        }
        blocks.push(t)?;
        t = field(store, t, TcbField::Link);
    }
    Ok(blocks)
}

/// The address of the block of a task, or 0 where no task has the number.
pub fn block_of_task(store: &Store, id: u32) -> u32
    ensures { result ≡ block_of_task store.now id }
{
    if id == 0 || id > highest_id(store) {
        return 0;
    }
    word_at(store, TABLE, id)
}

/// Adds the names of the programs of the task whose block is at t, with `+` between them; nothing where it has none of these modules.
pub fn push_programs(
    text: &mut Vec<u8>,
    store: &Store,
    modules: &[NamedModule],
    t: u32,
) -> Result<(), AllocError> {
    if let Some(name) = name_at(modules, field(store, t, TcbField::Module)) {
        push_sentence(text, &[Bytes(name)])?;
    }
    for i in 2..most_modules(store).saturating_add(1) {
        if let Some(name) = name_at(modules, module_at(store, t, i)) {
            push_sentence(text, &[Bytes(b"+"), Bytes(name)])?;
        }
    }
    Ok(())
}

/// The name of the module at m; `None` exactly where none of these is there.
pub fn name_at<'a>(modules: &[NamedModule<'a>], m: u32) -> Option<&'a [u8]>
    ensures { option_copied result ≡ name_at modules.now m }
{
    for module in modules {
        if module.at == m {
            return Some(module.name);
        }
    }
    None
}
