// The states of a task.
ghost use Rattle.std.specs.Prelude.{◌≡◌};
ghost use Rattle.run_pictures.specs.States.{after_hold};

/// What a task does.
#[derive(Clone, Copy, PartialEq, Eq)]
pub enum State {
    /// It is dead, or not there yet.
    Dead,
    /// It could run.
    Ready,
    /// It runs.
    Runs,
    /// It waits for a packet.
    Waits,
    /// It is held.
    Held,
}

impl State {
    /// The state of a task that is no longer held, where this was its state when it was held.
    pub fn after_hold(self) -> State
        ensures { result ≡ after_hold self }
    {
        match self {
            State::Runs => State::Ready,
            other => other,
        }
    }
}
