// A law of sessions.
ghost use Rattle.session_text.specs.Canonical.{IsLawful};
ghost use Rattle.session_text.specs.declared.sessions.Session.{Session};
ghost use Rattle.kernel_boot.specs.BootTasks.{AreBootLines};

/// In a lawful session, as each one is that was read, a task's number is a guest's, and it has from one to as many files as a
/// task may have modules. So its tasks may be started.
pub fn boot_lines_law()
    ensures { (s : Session) → IsLawful s → AreBootLines s.version s.lines }
{}
