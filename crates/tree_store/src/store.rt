// A tree that is stored in a region of a device.
use apex_types::TreeRow;
use tree_state::TreeState;

/// A tree that is stored in a region of a device: its row of the table, the first byte of its region, and all that is
/// kept of it in memory.
#[derive(Drop)]
pub struct TreeStore {
    pub(crate) row: TreeRow,
    pub(crate) start: u64,
    pub(crate) state: TreeState,
}
