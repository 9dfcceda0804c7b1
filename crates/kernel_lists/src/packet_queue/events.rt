// What the kernel notes.

/// Something that the kernel did. A task is named by its number, a device by its number below 0, and a packet by its
/// address. A queue has the number of its task or device, and the console's pending queue has the number 103.
#[derive(Clone, Copy, Debug, PartialEq, Eq)]
pub enum KernelEvent {
    /// A packet came into a queue.
    Accepted {
        /// The queue.
        queue: i32,
        /// The packet.
        packet: u32,
        /// The task or device that sent it.
        sender: i32,
    },
    /// A packet was taken from a queue by the task or device that serves it.
    Taken {
        /// The queue.
        queue: i32,
        /// The packet.
        packet: u32,
        /// The task or device that sent it.
        sender: i32,
    },
    /// A packet was removed from a queue unserved.
    Dequeued {
        /// The queue.
        queue: i32,
        /// The packet.
        packet: u32,
    },
    /// Another task runs, or the same one is resumed.
    Runs {
        /// The task, or 0 where nobody runs.
        task: u32,
    },
}
