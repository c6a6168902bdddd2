//! The calls of logbooks, over the logbooks of a device and marks of those that were created.
#![tactic(auto)]

mod calls;
mod finding;
mod made;

pub use calls::logbook_call;
pub use made::MadeMarks;
