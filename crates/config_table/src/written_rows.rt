//! The rows of a document, with names in the place of indexes.

use apex_types::{PartitionRow, VolumeRow};
use table_model::{WrittenChannel, WrittenLogbook, WrittenTree};

/// The rows of a document, with names in the place of indexes.
#[derive(Drop)]
pub struct WrittenRows {
    pub partitions: Vec<PartitionRow>,
    pub volumes: Vec<VolumeRow>,
    pub trees: Vec<WrittenTree>,
    pub logbooks: Vec<WrittenLogbook>,
    pub channels: Vec<WrittenChannel>,
}
