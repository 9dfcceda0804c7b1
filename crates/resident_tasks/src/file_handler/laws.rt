// What holds of all requests for files.
ghost use Rattle.std.specs.Prelude.{◌≡◌, ℕ, Err, List};
ghost use Rattle.kernel_model.specs.KernelRecord.Lists.{Lists};
ghost use Rattle.ram_disc.specs.Disc.{Disc, shell_stream, stream_at};
ghost use Rattle.resident_tasks.specs.declared.resident_requests.requests.Request.{Request};
ghost use Rattle.resident_tasks.specs.FileHandler.FileRequests.{file_request, refused};
ghost use Rattle.resident_tasks.specs.FileHandler.FileTurn.{disc_after_turn};

/// A request that is refused changes no file and no stream, and puts no bytes into its buffer.
pub fn refusal_law()
    ensures { (d : Disc) (s : List ℕ) (l : Lists) (r : Request) (code : ℕ)
        → (file_request d s l r).answer ≡ Err code → file_request d s l r ≡ refused d code }
{}

/// A turn leaves the shell's stream where it is, or closed.
pub fn shell_law()
    ensures { (d : Disc) (s : List ℕ) (l : Lists)
        → stream_at (disc_after_turn d s l) shell_stream ≡ stream_at d shell_stream }
{}
