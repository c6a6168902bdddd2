//! The image of a device is mounted for a table: its superblock, then each tree, then the logbooks, with reads alone.
#![tactic(auto)]

mod mounting;
mod store;
mod trees;

pub use mounting::mount;
pub use store::Store;
