// The history law: whatever happens in a step, it leaves a valid kernel and moves packets from queue to queue as its events say, so the
// events of a run say what became of its packets. The functions do nothing: their contracts are the laws.

pub mod boot_histories;
pub mod guest_moves;
pub mod pipe_runs;
pub mod queue_moves;
pub mod resident_moves;
pub mod run_histories;
pub mod step_moves;
pub mod valid_calls;
pub mod valid_discs;
pub mod valid_steps;
pub mod valid_turns;
