//! What services have in common: where paths lead, replies, and what a mode allows.
#![tactic(auto)]

mod modes;
mod places;
mod replies;

pub use modes::{is_idle, is_normal};
pub use places::{Place, Right, last_name, place_of};
pub use replies::{bytes_of, refusal, refused, refused_with, success};
