//! A stored tree: what is kept of it in memory, and all that is done with it on its region of a device. It is mounted, its
//! contents change, its buffers are written back, its files are synchronised, and its names change.
#![tactic(auto)]

mod changing;
mod charging;
mod copying;
mod flushing;
mod making;
mod mounting;
mod node;
mod refusal;
mod refusing;
mod releasing;
mod removing;
mod renaming;
mod resizing;
mod state;
mod storing;
mod syncing;
mod writing;

pub use flushing::{write_back, write_back_file};
pub use making::{make_dir, make_file};
pub use mounting::mount_state;
pub use refusal::StateRefusal;
pub use removing::{remove_dir, remove_file};
pub use renaming::rename;
pub use resizing::resize;
pub use state::TreeState;
pub use storing::store_present;
pub use syncing::sync_file;
pub use writing::write;
