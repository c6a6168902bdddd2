// The present contents of a tree's files.
use block_pool::Pool;
use tree_region::BlockNumbers;

/// The present size of a file in bytes, and how often it was changed.
#[derive(Clone, Copy)]
pub struct PresentSize {
    pub size: u32,
    pub changes: u32,
}

/// The present contents of a tree's files. A block of a file is in a buffer of the pool once it was changed, and in
/// the data block of its number elsewhere; number 0 is a block of zeros.
#[derive(Drop)]
pub struct Present {
    pub sizes: Vec<PresentSize>,
    pub numbers: Vec<BlockNumbers>,
    pub pool: Pool,
}
