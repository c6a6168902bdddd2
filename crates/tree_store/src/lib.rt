//! A tree that is stored in a region of a device, as the owner of its row of the table and of its place: what it holds
//! of names and contents goes by values, whatever the rig tells of its bytes.
#![tactic(auto)]

mod flushing;
mod laws;
mod looking;
mod making;
mod mounting;
mod reading;
mod refusal;
mod removing;
mod renaming;
mod resizing;
mod store;
mod syncing;
mod trees;
mod writing;

pub use refusal::StoreRefusal;
pub use store::TreeStore;
pub use trees::Trees;
