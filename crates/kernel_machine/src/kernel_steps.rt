// What a step of a machine with a kernel does, and a run. The functions do nothing: their contracts are the laws.

pub mod device_laws;
pub mod dispatch_laws;
pub mod quiet_laws;
pub mod run_laws;
pub mod step_laws;
pub mod turn_laws;
