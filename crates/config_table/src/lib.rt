//! The module table, read from its text, and its canonical bytes.
#![tactic(auto)]

mod bytes;
mod document;
mod lists;
mod repeats;
mod resolve;
mod room;
mod rows;
mod table;
mod values;
mod written_rows;

pub use bytes::table_bytes;
pub use table::read_table;
pub use table_model::TableError;
