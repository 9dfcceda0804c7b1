// The lists in the store: blocks, tasks, queues of packets, modules and coroutines, and whose words these are.
#![tactic(auto)]

pub mod coroutine_lists;
pub mod getvec_chain;
pub mod hunk_loader;
pub mod linked_list;
pub mod owned_words;
pub mod packet_queue;
pub mod task_block;

pub use coroutine_lists::{
    CoEnd, LEAST_HIGHEST, call as call_coroutine, check_idle, create as create_coroutine,
    delete as delete_coroutine, ended as coroutine_ended, resume as resume_coroutine,
    wait as wait_in_coroutine,
};
pub use getvec_chain::{
    Block, FIRST_BLOCK, Run, block_of, blocks, blocks_from, first_run, give, give_block, make,
    take_from,
};
pub use hunk_loader::{MOST_GLOBALS, globals_fit, init_globals, load, unload};
pub use packet_queue::{
    DUE, EventLog, KernelEvent, ListLog, NO_QUEUE, NoLog, PACKET_LINK, SinkLog, append, append_due,
    packets, remove, take,
};
pub use task_block::{
    FIRST_GUEST, RootField, TABLE, TcbField, coroutine_list, field, find, free_id, head_words,
    highest_id, insert, module_at, modules, most_modules, priority_used, root, set_field,
    set_module_at, set_root, tasks, unlink,
};
