// Why a region is not mounted.

/// Why a tree's region is not mounted.
#[derive(Clone, Copy)]
pub enum MountStop {
    /// The region stands for no tree.
    Bad,
    /// A read failed.
    Device,
    /// No memory was left.
    Memory,
}
