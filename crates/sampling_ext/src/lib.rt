//! The sampling ports of all partitions: channels that hold one message each.
#![tactic(auto)]

mod calls;
mod channel;
mod port;
mod ports;

pub use calls::sampling_call;
pub use ports::Ports;
