// What the shell does next.

/// It prompts, or it has asked the console for a line, it waits for the task with a number, or it types a file.
#[derive(Clone, Copy)]
pub enum Mode {
    Prompt,
    Reading,
    Waiting(u32),
    Typing,
}
