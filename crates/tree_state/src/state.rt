// What is kept in memory of a stored tree.
use block_quota::Charges;
use present_files::Present;
use tree_region::TreeRegion;

/// What is kept in memory of a tree that is stored in a region of a device.
#[derive(Drop)]
pub struct TreeState {
    /// What is durable: the names, and of each file its synchronised size, change count and block numbers.
    pub kept: TreeRegion,
    /// The present contents.
    pub present: Present,
    /// The blocks that each file is charged for.
    pub charges: Charges,
    /// Room for the body of a slot, in whole blocks.
    pub body: Vec<u8>,
    /// The zeros of an empty journal.
    pub tail: Vec<u8>,
}
