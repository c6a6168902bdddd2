//! The services' state while a script is carried out: stored trees with their handles, logbooks, sampling ports and the
//! partitions' modes, over one device.
#![tactic(auto)]

mod partitions;
mod session;

pub use session::Session;
