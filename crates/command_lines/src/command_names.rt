// The words that name commands.
ghost use Rattle.std.specs.Prelude.{◌≡◌};
ghost use Rattle.std.specs.Str.{str_eq_ignore_ascii_case};
ghost use Rattle.command_lines.specs.CommandNames.{command_named};

/// What a word names.
#[derive(Clone, Copy)]
pub enum CommandName {
    /// TYPE
    TypeFile,
    /// EX
    ListFiles,
    /// DELETE
    DeleteFile,
    /// RENAME
    RenameFile,
    /// STATUS
    ListTasks,
    /// MAP
    CountBlocks,
    /// HOLD
    HoldTask,
    /// RELEASE
    ReleaseTask,
    /// CHANGEPRI
    SetPriority,
    /// BREAK
    SetFlags,
    /// RUN
    RunProgram,
    /// FINISH
    FinishMachine,
}

/// The command that a word names, ASCII case ignored; `None` exactly where it names none.
pub fn command_named(word: &[u8]) -> Option<CommandName>
    ensures { result ≡ command_named word.now }
{
    if names(b"TYPE", word) {
        return Some(CommandName::TypeFile);
    }
    if names(b"EX", word) {
        return Some(CommandName::ListFiles);
    }
    if names(b"DELETE", word) {
        return Some(CommandName::DeleteFile);
    }
    if names(b"RENAME", word) {
        return Some(CommandName::RenameFile);
    }
    if names(b"STATUS", word) {
        return Some(CommandName::ListTasks);
    }
    if names(b"MAP", word) {
        return Some(CommandName::CountBlocks);
    }
    if names(b"HOLD", word) {
        return Some(CommandName::HoldTask);
    }
    if names(b"RELEASE", word) {
        return Some(CommandName::ReleaseTask);
    }
    if names(b"CHANGEPRI", word) {
        return Some(CommandName::SetPriority);
    }
    if names(b"BREAK", word) {
        return Some(CommandName::SetFlags);
    }
    if names(b"RUN", word) {
        return Some(CommandName::RunProgram);
    }
    if names(b"FINISH", word) {
        return Some(CommandName::FinishMachine);
    }
    None
}

fn names(name: &[u8], word: &[u8]) -> bool
    ensures { result ≡ str_eq_ignore_ascii_case name.now word.now }
{
    name.eq_ignore_ascii_case(word)
}
