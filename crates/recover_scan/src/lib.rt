//! A device is formatted for a table: from then on it has the image in which nothing was ever stored. And the superblock
//! of an image is read: whether it is one of a table.
#![tactic(auto)]

mod errors;
mod formatting;
mod gates;
mod metadata;
mod regions;
mod runs;
mod superblock;

pub use errors::{FormatError, MountError};
pub use formatting::format;
pub use superblock::read_superblock;
