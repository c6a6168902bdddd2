//! Gates, and slots that are changed as one under power cuts.
#![tactic(auto)]

mod gate;
mod slots;

pub use gate::{gate_read, gate_set, gate_write, write_settled};
pub use slots::Slots;
