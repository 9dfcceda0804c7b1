// Histories of queues.
ghost use Rattle.std.specs.Prelude.{◌++◌, List};
ghost use Rattle.tripos_machine.specs.EventHistory.Ledger.{AreOnce, Follows, Ledger, NeverFall, Timed, clock};
ghost use Rattle.tripos_machine.specs.EventHistory.QueueHistory.{QueueHistory};

/// Histories may be joined.
pub fn join_law()
    ensures { (xs ys : List Timed) (b m a : Ledger) → Follows xs b m → Follows ys m a
        → Follows (xs ++ ys) b a }
{}

/// Events that lead from queues with no packet twice to others are a history of them.
pub fn history_law()
    ensures { (xs : List Timed) (b a : Ledger) → AreOnce b → NeverFall (b clock) → Follows xs b a
        → QueueHistory b xs a }
{}
