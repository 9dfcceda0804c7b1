// The lines of what residents keep beside files and pipes.
ghost use Rattle.std.specs.Prelude.{◌≡◌, ◌∷◌, ◌++◌, []};
ghost use Rattle.module_text.specs.TextReader.Lines.{text_of_lines};
ghost use Rattle.saved_text.specs.ImageForm.{awaited, flag, mode_number};
ghost use Rattle.byte_streams.specs.Sinks.{FailsBySink, GathersFor};
ghost use Rattle.shell.specs.Modes.{mode_of};
ghost use Rattle.saved_machine.specs.ImagePrint.SavedImage.{saved_mode};
ghost use Rattle.saved_machine.specs.ImagePrint.Private.Texts.{console_line, resident_lines, shell_line};

use byte_streams::{Output, Sink, SinkFault};
use kernel_machine::Parts as KernelParts;
use module_text::SliceText;
use resident_tasks::console_handler::ConsoleState;
use saved_text::saved_lines::{print_console, print_ring, print_shell};
use shell::{Mode, ShellState};

/// Adds the lines of the type-ahead, the console and the shell to what is pending.
pub(crate) fn print_residents<K: Sink>(
    parts: &KernelParts,
    out: &mut K,
    pending: &mut Output,
) -> Result<(), SinkFault>
    ensures text { GathersFor K.Sink out.old out.new pending.old pending.new
        (text_of_lines (resident_lines parts.now.tty parts.now.console parts.now.shell)) result }
    ensures cause { FailsBySink K.Sink out.old out.new result }
{
    let ahead = parts.tty.bytes();
    print_ring(&SliceText::new(ahead.as_slice()), out, pending)?;
    print_console_line(&parts.console, out, pending)?;
    print_shell_line(&parts.shell, out, pending)
}

fn print_console_line<K: Sink>(
    console: &ConsoleState,
    out: &mut K,
    pending: &mut Output,
) -> Result<(), SinkFault>
    ensures text { GathersFor K.Sink out.old out.new pending.old pending.new
        (console_line console.now ++ 10 ∷ []) result }
    ensures cause { FailsBySink K.Sink out.old out.new result }
{
    let line = SliceText::new(console.line());
    print_console(flag(console.is_finished()), &line, out, pending)
}

fn print_shell_line<K: Sink>(
    shell: &ShellState,
    out: &mut K,
    pending: &mut Output,
) -> Result<(), SinkFault>
    ensures text { GathersFor K.Sink out.old out.new pending.old pending.new
        (shell_line shell.now ++ 10 ∷ []) result }
    ensures cause { FailsBySink K.Sink out.old out.new result }
{
    let line = SliceText::new(shell.line());
    let (number, awaited) = mode_numbers(shell.mode());
    print_shell(number, awaited, &line, out, pending)
}

// The number of a mode, and that of the task that is waited for, else 0.
fn mode_numbers(mode: Mode) -> (u64, u64)
    ensures { result ≡ (
      mode_number (saved_mode (mode_of mode)),
      awaited (saved_mode (mode_of mode)),
    ) }
{
    match mode {
        Mode::Prompt => (0, 0),
        Mode::Reading => (1, 0),
        Mode::Waiting(id) => (2, u64::from(id)),
        Mode::Typing => (3, 0),
    }
}

/// 1 where it is so, 0 where it is not.
pub(crate) fn flag(holds: bool) -> u64
    ensures { result ≡ flag holds }
{
    if holds { 1 } else { 0 }
}
