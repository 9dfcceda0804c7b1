// What tells the steps of a run: what is wanted, what is known, and the text so far.
ghost use Rattle.std.specs.Prelude.{◌↔◌, IsTrue};
ghost use Rattle.log_words.specs.Kinds.{HasLine};

use crate::kinds::{Kind, Wanted};
use crate::step_texts::Moment;
use crate::tasks::KnownTasks;
use kernel_lists::FIRST_GUEST;
use run_names::{
    KnownProgram, NamedHunk, PacketsOut, Party, block_of_task, hunks_of, modules_of,
    push_comma_place, push_programs,
};
use session_text::Session;
use std::alloc::{AllocError, Global};
use word_store::Store;

/// What tells the steps of a run.
#[derive(Drop)]
pub struct Teller<'a> {
    /// The memory.
    pub alloc: Global,
    /// Whether the machine has no kernel.
    pub is_bare: bool,
    /// Which lines are wanted.
    pub wanted: Wanted,
    /// The programs of the session.
    pub programs: &'a [KnownProgram],
    /// What is known of the tasks.
    pub tasks: KnownTasks,
    /// The packets that have not come back.
    pub out: PacketsOut,
    /// The hunks of the modules, as they were when a task began that was not known.
    pub hunks: Vec<NamedHunk<'a>>,
    /// The lines so far.
    pub text: Vec<u8>,
}

impl<'a> Teller<'a> {
    /// One that has told nothing.
    pub fn new(
        alloc: Global,
        session: &Session,
        wanted: Wanted,
        programs: &'a [KnownProgram],
    ) -> Result<Teller<'a>, AllocError> {
        Ok(Teller {
            alloc,
            is_bare: session.bare,
            wanted,
            programs,
            tasks: KnownTasks::new(alloc, session)?,
            out: PacketsOut::new(alloc),
            hunks: Vec::new(alloc),
            text: Vec::new(alloc),
        })
    }

    /// Looks for the modules of the store.
    pub fn find_modules(&mut self, store: &Store) -> Result<(), AllocError> {
        if self.is_bare {
            return Ok(());
        }
        let modules = modules_of(self.alloc, self.programs, store)?;
        self.hunks = hunks_of(self.alloc, store, modules.as_slice())?;
        Ok(())
    }

    /// Names a task by the words of its modules. A module that is none of the session's files has no name here.
    pub fn name_task(&mut self, store: &Store, id: u32) -> Result<(), AllocError> {
        let modules = modules_of(self.alloc, self.programs, store)?;
        let mut names = Vec::new(self.alloc);
        push_programs(
            &mut names,
            store,
            modules.as_slice(),
            block_of_task(store, id),
        )?;
        if names.as_slice() == b"module".as_slice() {
            names.clear();
        }
        self.tasks.name(id, names.as_slice())
    }

    /// A task that begins has its program's name from the words of its modules then.
    pub fn find_program(&mut self, store: &Store, id: u32) -> Result<(), AllocError> {
        if id < FIRST_GUEST || !self.begins(id) {
            return Ok(());
        }
        self.find_modules(store)?;
        if !self.wanted.has_kind(Kind::Run) {
            return Ok(());
        }
        self.name_task(store, id)
    }

    // Whether the program of a guest is to be looked for, which is done once.
    fn begins(&mut self, id: u32) -> bool {
        match self.tasks.task_mut(id) {
            Some(task) => {
                let begins = !task.is_of_session && !task.is_known;
                task.is_known = true;
                begins
            }
            None => false,
        }
    }

    /// Adds where the guest of a step is, for a line of this kind, after a comma.
    pub fn push_here(
        &mut self,
        words: &mut Vec<u8>,
        kind: Kind,
        moment: Moment,
        store: &Store,
    ) -> Result<(), AllocError> {
        if moment.task < FIRST_GUEST || !self.wanted.has_kind(kind) {
            return Ok(());
        }
        push_comma_place(words, store, self.hunks.as_slice(), moment.pc)?;
        Ok(())
    }

    /// Whether a line of the kind is wanted, that is about these besides the task of the step.
    pub fn wants(&self, kind: Kind, moment: Moment, about: &[Party]) -> bool
        ensures { IsTrue result ↔ HasLine self.now.wanted kind moment.task about.now }
    {
        self.wanted.has_line(kind, moment.task, about)
    }
}
