//! The present contents of a tree's files, over the data blocks of its region and buffers of blocks that were changed, which go
//! to data blocks of their own.
#![tactic(auto)]

mod blocks;
mod holding;
mod placing;
mod present;
mod reading;
mod resizing;
mod stored;
mod writing;

pub use blocks::buffer;
pub use holding::stand;
pub use placing::write_present;
pub use present::{Present, PresentSize};
pub use reading::read;
pub use resizing::{release_file, resize};
pub use writing::write;
