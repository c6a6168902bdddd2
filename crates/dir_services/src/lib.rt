//! The directory services over the stores of trees and the handles of partitions.
#![tactic(auto)]

mod calls;
mod listing;
mod making;
mod opening;
mod removing;

pub use calls::dir_call;
