// Why the logbooks of a device are not mounted.
use thiserror::Error;

/// Why the logbooks of a device are not mounted.
#[derive(Clone, Copy, Debug, Error)]
pub enum LogError {
    /// The region of this logbook, counted from 1 in the table's order, is the first that spells no logbook.
    #[error("logbook {logbook} is bad")]
    Bad { logbook: u32 },
    /// A read failed.
    #[error("the device failed")]
    Device,
    /// No memory was left.
    #[error("no memory is left")]
    Memory,
}
