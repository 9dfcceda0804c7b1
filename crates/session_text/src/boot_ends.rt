// Why a session does not boot, whatever machine it asks for.
use thiserror::Error;
use word_store::NoStoreMemory;

/// Why a session does not boot.
#[derive(Clone, Copy, Debug, Error)]
pub enum BootEnd {
    /// What this line of the session puts into the machine has no place there. On a bare machine the code is 1, where its bytes pass the
    /// store's end; for a kernel it is the code of the call that refused the file or the task.
    #[error("no boot: line {line} code {code}")]
    Line { line: u32, code: u32 },
    /// Memory could not be had.
    #[error("memory could not be had")]
    WantMemory,
}

impl From<NoStoreMemory> for BootEnd {
    ghost use Rattle.std.specs.Prelude.{◌≡◌};
    ghost use Rattle.session_text.specs.declared.boot_ends.BootEnd.TheVariants.{WantMemory};

    ghost from_gives = { λ _ e. e ≡ WantMemory };

    fn from(_: NoStoreMemory) -> BootEnd {
        BootEnd::WantMemory
    }
}
