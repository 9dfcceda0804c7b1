// What the events of a kernel say of its queues of packets. The functions do nothing: their contracts are the laws.

pub mod laws;
