// Why a device is not formatted, and why its image isn't mounted.
use thiserror::Error;

/// Why a device is not formatted.
#[derive(Clone, Copy, Debug, Error)]
pub enum FormatError {
    /// The device has fewer bytes than the table's image. Nothing was written.
    #[error("the device is too small: {wanted} bytes are wanted")]
    TooSmall { wanted: u64 },
    /// A read, a write or a sync failed.
    #[error("the device failed")]
    Device,
    /// No memory was left. Nothing was written.
    #[error("no memory is left")]
    Memory,
}

/// Why the image of a device isn't mounted for a table. The first reason counts, in this order.
#[derive(Clone, Copy, Debug, Error)]
pub enum MountError {
    /// The device has fewer bytes than the table's image.
    #[error("the device is too small: {wanted} bytes are wanted")]
    TooSmall { wanted: u64 },
    /// The image isn't formatted.
    #[error("the image is not formatted")]
    NotFormatted,
    /// The image is one of another table. The place is the first at which its superblock differs, counted from 0.
    #[error("the image is of another table: place {place}")]
    OtherTable { place: u32 },
    /// The region of a tree stands for no tree. The first such is told, counted from 1 in the table's order.
    #[error("tree {tree} is bad")]
    BadTree { tree: u32 },
    /// The region of a logbook stands for none. The first such is told, counted from 1 in the table's order.
    #[error("logbook {logbook} is bad")]
    BadLogbook { logbook: u32 },
    /// A read failed.
    #[error("the device failed")]
    Device,
    /// No memory was left.
    #[error("no memory is left")]
    Memory,
}
