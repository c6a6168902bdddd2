// What is mounted of an image.
use logbook_store::Logs;
use tree_store::Trees;

/// What is mounted of the image of a table: its trees and its logbooks, in the table's order.
#[derive(Drop)]
pub struct Store {
    pub trees: Trees,
    pub logs: Logs,
}
