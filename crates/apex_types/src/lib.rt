//! The plain types of the file, logbook and sampling port services.
#![tactic(auto)]

mod calls;
mod codes;
mod fields;
mod kinds;
mod lists;
mod names;
mod numbers;
mod paths;
mod replies;
mod rows;
mod text;

pub use calls::{
    Call, Context, Deed, DirCall, FileCall, Line, LogbookCall, Mode, OpenMode, SamplingCall, Whence,
};
pub use codes::{Errno, OutOfMemory, ReturnCode, code_of};
pub use fields::{DirHandle, FileEntryField, FileHandle, LogCounts, RecordField, Spot};
pub use kinds::CallKind;
pub use lists::{FailList, NumberList, Words};
pub use names::Name;
pub use numbers::{DirNode, FileNode, PartitionId};
pub use paths::{Path, PathNames};
pub use replies::{EntryState, Reply, Updated, Validity, Values};
pub use rows::{
    ChannelRow, Destinations, LogbookRow, PartitionRow, PortRow, Readers, Table, TreeRow, VolumeRow,
};
pub use text::{ByteList, Bytes, Token};
