//! The lines of a script carried out one after the other: each reply told, or those to one partition, or none.
#![tactic(auto)]

mod chosen;
mod lines;
mod tally;
mod upstream;

pub use chosen::{Halt, carry_out_for, carry_out_heard};
pub use lines::{LineStop, carry_out};
pub use tally::Tally;
pub use upstream::own_script;
