// What is known of the tasks by their numbers: the names of their programs, and what they did last.
use ram_disc::Name;
use session_text::{LineForm, Session};
use std::alloc::{AllocError, Global};
use tool_texts::Said::Bytes;
use tool_texts::push_sentence;

/// More than the highest number of a task.
const TASKS: usize = 64;

/// What is known of a task.
#[derive(Drop)]
pub struct KnownTask {
    /// The names of its programs, with `+` between them; nothing where none is known.
    pub program: Vec<u8>,
    /// Whether it is one that the session names.
    pub is_of_session: bool,
    /// Whether its program was looked for since it began.
    pub is_known: bool,
    /// The address and the text of its last instruction; nothing where there was none.
    pub last_done: Vec<u8>,
}

/// What is known of all tasks.
#[derive(Drop)]
pub struct KnownTasks {
    /// The task of each number. A bare machine has number 0.
    list: Vec<KnownTask>,
}

impl KnownTasks {
    /// What a session says of its tasks.
    pub fn new(alloc: Global, session: &Session) -> Result<KnownTasks, AllocError> {
        let mut list = Vec::new(alloc);
        for _ in 0..TASKS {
            list.push(KnownTask {
                program: Vec::new(alloc),
                is_of_session: false,
                is_known: false,
                last_done: Vec::new(alloc),
            })?;
        }
        let mut tasks = KnownTasks { list };
        tasks.name_guests(session)?;
        if session.resident {
            tasks.name_residents(session.debug)?;
        }
        Ok(tasks)
    }

    // The tasks that a session begins.
    fn name_guests(&mut self, session: &Session) -> Result<(), AllocError> {
        for line in session.lines.as_slice() {
            if let LineForm::Task { id, names, .. } = &line.form {
                self.name_guest(*id, names.as_slice())?;
            }
        }
        Ok(())
    }

    // A task that a session begins, with the files of its modules.
    fn name_guest(&mut self, id: u32, names: &[Name]) -> Result<(), AllocError> {
        let Some(task) = self.task_mut(id) else {
            return Ok(());
        };
        task.is_of_session = true;
        task.program.clear();
        for name in names {
            if !task.program.is_empty() {
                push_sentence(&mut task.program, &[Bytes(b"+")])?;
            }
            push_sentence(&mut task.program, &[Bytes(name.bytes())])?;
        }
        Ok(())
    }

    // The residents.
    fn name_residents(&mut self, has_reporter: bool) -> Result<(), AllocError> {
        self.name(1, b"shell")?;
        self.name(3, b"console")?;
        self.name(4, b"files")?;
        if has_reporter {
            self.name(2, b"reporter")?;
        }
        Ok(())
    }

    /// Gives a task this name.
    pub fn name(&mut self, id: u32, name: &[u8]) -> Result<(), AllocError> {
        if let Some(task) = self.task_mut(id) {
            task.program.clear();
            push_sentence(&mut task.program, &[Bytes(name)])?;
        }
        Ok(())
    }

    /// Notes the last instruction of a task.
    pub fn note_done(&mut self, id: u32, done: &[u8]) -> Result<(), AllocError> {
        if let Some(task) = self.task_mut(id) {
            task.last_done.clear();
            task.last_done.extend_from_slice(done)?;
        }
        Ok(())
    }

    /// A task by its number; `None` where none can have it.
    pub fn task(&self, id: u32) -> Option<&KnownTask> {
        self.list.get(id as usize)
    }

    /// The same, to be changed.
    pub fn task_mut(&mut self, id: u32) -> Option<&mut KnownTask> {
        self.list.get_mut(id as usize)
    }
}
