//! How many blocks the files of a tree are charged for, and which blocks of a tree are used.
#![tactic(auto)]

mod blocks;
mod charges;

pub use blocks::Blocks;
pub use charges::Charges;
