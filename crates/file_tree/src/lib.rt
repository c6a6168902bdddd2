//! The names and entries of one tree: directories and files below a root.
#![tactic(auto)]

mod bodies;
mod checks;
mod child;
mod entries;
mod kind;
mod laws;
mod least;
mod places;
mod stored;
mod tree;

pub use laws::{body_agrees_with_image, only_blocks_are_left};
pub use tree::Tree;
