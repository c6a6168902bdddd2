//! Loads of script lines that are drawn from a seed.
#![tactic(auto)]

mod draws;
mod generator;
mod kinds;
mod own;

pub use generator::generate;
