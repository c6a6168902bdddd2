//! A script on an empty image in memory, with the power cut at every call of the device: each image that is left is
//! mounted.
#![tactic(auto)]

mod counted;
mod empty;
mod fused;
mod mounted;
mod sweeping;

pub use sweeping::{Swept, sweep};
