//! The places of an image, and the readers and writers of its fields.
#![tactic(auto)]

mod entries;
mod headers;
mod messages;
mod pieces;
mod places;
mod records;
mod tables;

pub use entries::{entry_at, put_entry};
pub use headers::{block_at, body_header, header_at, put_block, put_body_header, put_header};
pub use messages::{message_at, put_message};
pub use places::Layout;
pub use records::{put_record, record_at};
pub use tables::layout;
