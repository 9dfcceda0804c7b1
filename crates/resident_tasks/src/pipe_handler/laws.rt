// Laws of pipes, whatever requests are made.
ghost use Rattle.std.specs.Prelude.{◌≡◌, ◌≤◌, ℕ, List, Option, Some, Ok, length};
ghost use Rattle.kernel_model.specs.KernelRecord.Kernel.{Pipe};
ghost use Rattle.kernel_model.specs.KernelRecord.Lists.{Lists};
ghost use Rattle.kernel_model.specs.KernelRecord.Pipes.{ArePipes, most_held, pipe_at};
ghost use Rattle.resident_tasks.specs.declared.resident_requests.requests.Request.{Request};
ghost use Rattle.resident_tasks.specs.PipeHandler.Histories.{History, IsHistoryOf, IsLawful, PipeRequest, after, history_after, pipes_after};
ghost use Rattle.resident_tasks.specs.PipeHandler.PacketRequests.{asked, outcome_of, requests_in_turn};
ghost use Rattle.resident_tasks.specs.PipeHandler.PipeTurns.{pipe_request, pipes_after_turn};

/// For every list of requests, from any pipes: where all that was written to a pipe was what was read from it and then what it
/// held, it is so again, with what the requests wrote and read; a pipe holds at most 1,024 bytes. So what was read is a prefix of
/// what was written.
pub fn pipe_law()
    ensures bytes { (ps : List (Option Pipe)) (i : ℕ) (h : History) (rs : List PipeRequest)
        → IsHistoryOf h (pipe_at ps i)
        → IsHistoryOf (history_after i ps h rs) (pipe_at (pipes_after ps rs) i) }
    ensures room { (ps : List (Option Pipe)) (i : ℕ) (rs : List PipeRequest) (p : Pipe)
        → ArePipes ps → pipe_at (pipes_after ps rs) i ≡ Some p → length p.held ≤ most_held }
{}

/// What a packet comes to in a turn is a request of `pipe_law`, by a lawful name, or it is refused and changes nothing: its name
/// is bad, or its type is none of these. So a turn leaves the pipes that its requests leave, one or none.
pub fn step_law()
    ensures request { (ps : List (Option Pipe)) (s : List ℕ) (l : Lists) (r : Request)
        → pipe_request ps s l r ≡ outcome_of ps (asked s l r) }
    ensures lawful { (s : List ℕ) (l : Lists) (r : Request) (q : PipeRequest) → asked s l r ≡ Ok q
        → IsLawful q }
    ensures turn { (ps : List (Option Pipe)) (s : List ℕ) (l : Lists)
        → pipes_after_turn ps s l ≡ pipes_after ps (requests_in_turn s l) }
{}

/// A request of lawful names leaves lawful pipes with distinct names.
pub fn kept_law()
    ensures { (ps : List (Option Pipe)) (r : PipeRequest) → ArePipes ps → IsLawful r
        → ArePipes (after ps r).pipes }
{}

/// A turn of the file handler leaves lawful pipes with distinct names, whatever is in the store.
pub fn turn_law()
    ensures { (ps : List (Option Pipe)) (s : List ℕ) (l : Lists) → ArePipes ps
        → ArePipes (pipes_after_turn ps s l) }
{}
