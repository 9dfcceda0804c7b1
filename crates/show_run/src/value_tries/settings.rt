// What is set anew in a session, and that it is set.
ghost use Rattle.std.specs.Prelude.{◌≡◌, IsTrue, map};
ghost use Rattle.std.specs.List.{list_any};
ghost use Rattle.show_run.specs.ValueTries.Settings.{is_in_range, is_line_of, is_there, keys_with, line_with_priority, line_with_stack, session_with};

use session_text::{Keys, LineForm, Lines, Session, SessionLine};
use std::alloc::Global;
use std::mem;

/// What is set anew in a session.
#[derive(Clone, Copy)]
pub enum Setting {
    /// The period of the clock.
    Tick,
    /// The step of the key with this number, from 1.
    Key(u64),
    /// The priority of the task with this number.
    Priority(u64),
    /// The stack of the task with this number: its highest index, in words.
    Stack(u64),
}

/// Whether a session has what is set anew: a clock, such a key or such a task.
pub fn is_there(setting: Setting, session: &Session) -> bool
    ensures { result ≡ is_there setting session.now }
{
    match setting {
        Setting::Tick => !session.bare,
        Setting::Key(number) => 1 <= number && number <= session.keys.as_slice().len() as u64,
        Setting::Priority(task) | Setting::Stack(task) => has_task(task, session.lines.as_slice()),
    }
}

// Whether one of the lines is that of the task.
fn has_task(task: u64, lines: &[SessionLine]) -> bool
    ensures { result ≡ list_any (is_line_of task) lines.now }
{
    for line in lines {
        if is_line_of(task, line) {
            return true;
        }
    }
    false
}

fn is_line_of(task: u64, line: &SessionLine) -> bool
    ensures { result ≡ is_line_of task line.now }
{
    match &line.form {
        LineForm::Task { id, .. } => u64::from(*id) == task,
        LineForm::Code(_) | LineForm::File { .. } => false,
    }
}

/// Whether a session may have such a value there.
pub fn is_in_range(setting: Setting, value: u64) -> bool
    ensures { result ≡ is_in_range setting value }
{
    match setting {
        Setting::Tick => 1 <= value && value <= 1_000_000,
        Setting::Key(_) => value <= 4_000_000_000,
        Setting::Priority(_) => 1 <= value && value <= 10_000,
        Setting::Stack(_) => 20 <= value && value <= 100_000,
    }
}

/// Sets a value of a session anew.
pub fn set(alloc: Global, setting: Setting, value: u64, session: &mut Session)
    requires { IsTrue (is_in_range setting value) }
    ensures { session.new ≡ session_with setting value session.old }
{
    match setting {
        Setting::Tick => session.period = value as u32,
        Setting::Key(number) => set_key(alloc, number, value as u32, &mut session.keys),
        Setting::Priority(task) => set_priority(alloc, task, value as u32, &mut session.lines),
        Setting::Stack(task) => set_stack(alloc, task, value as u32, &mut session.lines),
    }
}

fn set_key(alloc: Global, number: u64, step: u32, keys: &mut Keys)
    ensures { keys.new ≡ keys_with number step keys.old }
{
    let mut list = mem::replace(keys, Keys::new(Vec::new(alloc))).into_vec();
    set_step(number, step, list.as_mut_slice());
    *keys = Keys::new(list);
}

// Sets the step of the key with this number, where there is one.
fn set_step(number: u64, step: u32, keys: &mut [(u32, u8)])
    ensures { keys.new ≡ keys_with number step keys.old }
{
    if 1 <= number && number <= keys.len() as u64 {
        keys[number as usize - 1].0 = step;
    }
}

fn set_priority(alloc: Global, task: u64, priority: u32, lines: &mut Lines)
    ensures { lines.new ≡ map (line_with_priority task priority) lines.old }
{
    let mut list = mem::replace(lines, Lines::new(Vec::new(alloc))).into_vec();
    set_priorities(task, priority, list.as_mut_slice());
    *lines = Lines::new(list);
}

fn set_priorities(task: u64, priority: u32, lines: &mut [SessionLine])
    ensures { lines.new ≡ map (line_with_priority task priority) lines.old }
{
    for line in lines.iter_mut() {
        set_line_priority(task, priority, line);
    }
}

fn set_line_priority(task: u64, priority: u32, line: &mut SessionLine)
    ensures { line.new ≡ line_with_priority task priority line.old }
{
    if let LineForm::Task { id, pri, .. } = &mut line.form {
        if u64::from(*id) == task {
            *pri = priority;
        }
    }
}

fn set_stack(alloc: Global, task: u64, highest: u32, lines: &mut Lines)
    ensures { lines.new ≡ map (line_with_stack task highest) lines.old }
{
    let mut list = mem::replace(lines, Lines::new(Vec::new(alloc))).into_vec();
    set_stacks(task, highest, list.as_mut_slice());
    *lines = Lines::new(list);
}

fn set_stacks(task: u64, highest: u32, lines: &mut [SessionLine])
    ensures { lines.new ≡ map (line_with_stack task highest) lines.old }
{
    for line in lines.iter_mut() {
        set_line_stack(task, highest, line);
    }
}

fn set_line_stack(task: u64, highest: u32, line: &mut SessionLine)
    ensures { line.new ≡ line_with_stack task highest line.old }
{
    if let LineForm::Task { id, stack, .. } = &mut line.form {
        if u64::from(*id) == task {
            *stack = highest;
        }
    }
}
