//! The system as the outside of the host: the command line, standard input, files and standard output.
#![tactic(auto)]

mod arguments;
mod disk_file;
mod file_rig;
mod file_source;
mod input_source;
mod reading;
mod streams;

pub use arguments::command_words;
pub use disk_file::{DiskFile, read_padded};
pub use file_rig::FileRig;
pub use file_source::FileSource;
pub use input_source::InputSource;
pub use streams::StreamHolders;
