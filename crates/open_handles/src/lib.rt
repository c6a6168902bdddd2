//! The handles that each partition has open on files and directories.
#![tactic(auto)]

mod handles;
mod slots;

pub use handles::Handles;
