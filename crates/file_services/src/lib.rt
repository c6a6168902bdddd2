//! The file services over the stores of trees and the handles of partitions.
#![tactic(auto)]

mod calls;
mod changing;
mod closing;
mod making;
mod naming;
mod reading;
mod removing;
mod renaming;
mod seeking;
mod volumes;

pub use calls::file_call;
