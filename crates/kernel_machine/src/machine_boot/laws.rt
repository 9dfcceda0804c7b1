// A law of boots.
ghost use Rattle.std.specs.Prelude.{◌≡◌, Ok};
ghost use Rattle.session_text.specs.declared.sessions.Session.{Session};
ghost use Rattle.kernel_machine.specs.KernelSteps.Step.{boot_events};
ghost use Rattle.kernel_machine.specs.KernelSteps.Stepped.{Stepped};
ghost use Rattle.kernel_machine.specs.MachineBoot.Boot.{HasKernel, boot};

/// The events of a boot: where there are residents, the console sends its key packet, and the shell gets its own; then the running task
/// runs, where there is one.
pub fn boot_events_law()
    ensures { (s : Session) (x : Stepped) → HasKernel s → boot s ≡ Ok x
        → x.events ≡ boot_events x.kernel }
{}
