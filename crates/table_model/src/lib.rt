//! What the text of a module table says: its rows, or why it is refused.
//!
//! The definitions stand in `specs/`: `Document` (keys, kinds, limits, and the conditions on a whole document), `Table`
//! (repeats, names that stand for rows, room, and the table of a text), `Reading` (the rows one after the other).
//! What is proved of them stands below: each function's contract is a law, and nothing runs.
#![tactic(auto)]

ghost use Rattle.table_model.specs.Laws.{TablesAreAccepted, ReadingIsTheTable, BytesTellTables, AcceptedAreReady};

mod errors;
mod written;

pub use errors::TableError;
pub use written::{
    PortNames, ReaderNames, WrittenChannel, WrittenLogbook, WrittenPort, WrittenTree,
};

/// The table that a text says is accepted.
pub fn tables_are_accepted()
    ensures { TablesAreAccepted }
{}

/// Reading the rows one after the other, with the least refusal of all places, gives what the conditions on the whole
/// document give.
pub fn reading_is_the_table()
    ensures { ReadingIsTheTable }
{}

/// Two accepted tables with the same canonical bytes are the same.
pub fn bytes_tell_tables()
    ensures { BytesTellTables }
{}

/// An accepted table has what scripts need of one.
pub fn accepted_are_ready()
    ensures { AcceptedAreReady }
{}
