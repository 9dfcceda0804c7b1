// Where a machine is, and why it has stopped.
use crate::absent::absent_instruction;
use crate::lists::SeenTask;
use crate::scenes::Scene;
use kernel_lists::{FIRST_GUEST, RootField, root};
use kernel_model::{Stop, is_held_state};
use log_words::heads::is_dead;
use run_names::{Party, fault_meaning};
use std::alloc::AllocError;
use tool_texts::Said::{Bytes, Number};
use tool_texts::push_sentence;

/// How many tasks are held, dead, or wait.
#[derive(Clone, Copy)]
struct Idle {
    /// Those that are held.
    held: u64,
    /// The other ones that are dead.
    dead: u64,
    /// All others.
    waiting: u64,
}

impl Scene<'_> {
    /// Adds the first line: the session, the moment, and the size of the machine.
    pub fn push_head(&self, text: &mut Vec<u8>) -> Result<(), AllocError> {
        let view = &self.view;
        push_sentence(
            text,
            &[
                Bytes(view.name),
                Bytes(b": after step "),
                Number(view.steps),
            ],
        )?;
        let store = u64::from(view.session.store);
        if view.session.bare {
            return push_sentence(
                text,
                &[
                    Bytes(b", a bare machine of "),
                    Number(store),
                    Bytes(b" words\n"),
                ],
            );
        }
        let tasks = self.lists.tasks.len();
        let tick = root(view.store, RootField::Tick);
        push_sentence(
            text,
            &[
                Bytes(b", tick "),
                Number(u64::from(tick)),
                Bytes(b", of a machine of "),
                Number(store),
                Bytes(b" words with "),
                Number(tasks as u64),
                Bytes(if tasks == 1 { b" task\n" } else { b" tasks\n" }),
            ],
        )
    }

    /// Adds why the machine has stopped, or is looked at.
    pub fn push_why(&self, text: &mut Vec<u8>) -> Result<(), AllocError> {
        match self.view.stop {
            None | Some(Stop::Steps) => self.push_steps(text),
            Some(Stop::Finish) => push_sentence(text, &[Bytes(b"it stopped by finish\n")]),
            Some(Stop::Quit(code)) => self.push_quit(text, code),
            Some(Stop::Fault { code, address, .. }) => push_sentence(
                text,
                &[
                    Bytes(b"it stopped by fault "),
                    Number(u64::from(code)),
                    Bytes(b" at "),
                    Number(u64::from(address)),
                    Bytes(b": "),
                    Bytes(fault_meaning(code)),
                    Bytes(b"\n"),
                ],
            ),
        }
    }

    // That no more steps were taken.
    fn push_steps(&self, text: &mut Vec<u8>) -> Result<(), AllocError> {
        let why: &[u8] = if self.view.is_cut {
            b"the run is looked at after step "
        } else {
            b"the steps of the session are used up: "
        };
        push_sentence(text, &[Bytes(why), Number(self.view.steps), Bytes(b"\n")])
    }

    // That it has quit with a code.
    fn push_quit(&self, text: &mut Vec<u8>, code: u32) -> Result<(), AllocError> {
        if self.has_returned() {
            return push_sentence(text, &[Bytes(b"it stopped with 0, since PC became 0\n")]);
        }
        push_sentence(
            text,
            &[
                Bytes(b"it stopped by quit("),
                Number(u64::from(code)),
                Bytes(b")\n"),
            ],
        )
    }

    // Whether it is a bare machine whose PC is 0.
    fn has_returned(&self) -> bool {
        self.view.session.bare && self.view.regs.pc == 0
    }

    /// Adds who runs or ran last, and where, or why nobody runs; and how PC came to where a fault was met.
    pub fn push_where(&self, text: &mut Vec<u8>) -> Result<(), AllocError> {
        match self.view.stop {
            Some(Stop::Quit(_)) => self.push_last(text),
            Some(Stop::Finish) => push_sentence(text, &[Bytes(b"the shell has ended the run\n")]),
            Some(Stop::Fault { code, task, .. }) => {
                self.push_runner(text, b" ran last\n")?;
                self.push_way(text, b"", task, self.view.regs.pc, code)
            }
            None | Some(Stop::Steps) => self.push_runner(text, b" runs\n"),
        }
    }

    // Who ran last, and where PC is after the call that stopped the machine.
    fn push_last(&self, text: &mut Vec<u8>) -> Result<(), AllocError> {
        if !self.view.session.bare {
            self.push_name(text, Party::Task(self.view.running))?;
            push_sentence(text, &[Bytes(b" ran last; ")])?;
        }
        self.push_pc(text)?;
        push_sentence(
            text,
            &[Bytes(if self.has_returned() {
                b"\n"
            } else {
                b", after the SYS\n"
            })],
        )
    }

    // Who runs, with these words, and where a guest is.
    fn push_runner(&self, text: &mut Vec<u8>, words: &[u8]) -> Result<(), AllocError> {
        if self.view.session.bare {
            return self.push_next(text);
        }
        let running = self.view.running;
        if running == 0 {
            return self.push_nobody(text);
        }
        self.push_name(text, Party::Task(running))?;
        push_sentence(text, &[Bytes(words)])?;
        if running < FIRST_GUEST {
            return Ok(());
        }
        self.push_next(text)
    }

    // Where PC is.
    fn push_pc(&self, text: &mut Vec<u8>) -> Result<(), AllocError> {
        push_sentence(text, &[Bytes(b"PC is ")])?;
        self.push_place(text, self.view.regs.pc)
    }

    // Where PC is, and the instruction there. One that is none here may be one of Cintcode.
    fn push_next(&self, text: &mut Vec<u8>) -> Result<(), AllocError> {
        self.push_pc(text)?;
        let next = self.plain.next;
        if !next.is_empty() {
            push_sentence(text, &[Bytes(b"; the instruction there is "), Bytes(next)])?;
        }
        let absent = absent_instruction(next);
        if !absent.is_empty() {
            push_sentence(text, &[Bytes(b": "), Bytes(absent)])?;
        }
        push_sentence(text, &[Bytes(b"\n")])
    }

    // Why nobody runs.
    fn push_nobody(&self, text: &mut Vec<u8>) -> Result<(), AllocError> {
        push_sentence(text, &[Bytes(b"nobody runs: ")])?;
        let tasks = self.lists.tasks.as_slice();
        let idle = idle_of(tasks);
        if idle.dead == tasks.len() as u64 {
            return push_sentence(text, &[Bytes(b"all tasks are dead\n")]);
        }
        let before_held = idle.waiting.saturating_add(idle.dead);
        push_count(text, 0, idle.waiting, b" task waits", b" tasks wait")?;
        push_count(text, idle.waiting, idle.dead, b" is dead", b" are dead")?;
        push_count(text, before_held, idle.held, b" is held", b" are held")?;
        if self.plain.is_over {
            push_sentence(
                text,
                &[Bytes(
                    b"; nothing can ever come: no packet is at the clock, and no key is to come",
                )],
            )?;
        }
        push_sentence(text, &[Bytes(b"\n")])
    }
}

// How many of some tasks are held, dead, or wait.
fn idle_of(tasks: &[SeenTask]) -> Idle {
    let mut idle = Idle {
        held: 0,
        dead: 0,
        waiting: 0,
    };
    for task in tasks {
        if is_held_state(task.state) {
            idle.held = idle.held.saturating_add(1);
        } else if is_dead(task.state) {
            idle.dead = idle.dead.saturating_add(1);
        } else {
            idle.waiting = idle.waiting.saturating_add(1);
        }
    }
    idle
}

// Adds how many do something, where some do; after a comma where some were counted before.
fn push_count(
    text: &mut Vec<u8>,
    before: u64,
    count: u64,
    one: &[u8],
    many: &[u8],
) -> Result<(), AllocError> {
    if count == 0 {
        return Ok(());
    }
    if before > 0 {
        push_sentence(text, &[Bytes(b", ")])?;
    }
    let does = if count == 1 { one } else { many };
    push_sentence(text, &[Number(count), Bytes(does)])
}
