//! Fixed nodes in lists by index, and buffers of blocks that stand in such lists.
#![tactic(auto)]

mod buffers;
mod links;
mod lists;
mod pool;

pub use lists::IndexLists;
pub use pool::Pool;
