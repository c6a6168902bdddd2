//! Logbooks on a device: what was logged is read from it, and what is in progress is in memory.
#![tactic(auto)]

mod book;
mod errors;
mod laws;
mod logs;
mod message;
mod moving;
mod pending;
mod places;

pub use book::Book;
pub use errors::LogError;
pub use laws::{
    a_logbook_moves_once_its_next_place_is_open, a_logbook_stays_while_its_next_place_is_closed,
};
pub use logs::Logs;
pub use moving::move_on_device;
