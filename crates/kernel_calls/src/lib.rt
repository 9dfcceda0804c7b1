// The kernel call: a guest asks, by number and arguments, and its registers answer.
#![tactic(auto)]

pub mod block_calls;
pub mod call_answers;
pub mod call_numbers;
pub mod calls;
pub mod coroutine_calls;
pub mod laws;
pub mod module_calls;
pub mod packet_calls;
pub mod task_calls;

pub use block_calls::use_of;
pub use call_answers::{caller, guest};
pub use call_numbers::{CallOutcome, KernelCall, read_call};
pub use calls::call;
pub use coroutine_calls::ended;
pub use module_calls::{load_module, unload_module};
pub use packet_calls::events::{accepted, taken};
pub use packet_calls::packets::send;
pub use packet_calls::queues::{first, has_packet, head, unqueue};
pub use packet_calls::{Device, Queue, reply, return_first, send_own};
pub use task_calls::{
    change_pri, create_task, create_task_of, delete_task, hold_task, release_task, set_flags,
};
