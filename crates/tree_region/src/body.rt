// The body of a slot: names, sizes and change counts, and the block numbers of files.
ghost use Rattle.std.specs.Prelude.{◌≡◌, ◌+◌, ◌*◌, ◌≤◌, length, IfOk, IfSome};
ghost use Rattle.file_tree.specs.Entries.{no_entries};
ghost use Rattle.tree_region.specs.Bodies.{IsBody};
ghost use Rattle.tree_region.specs.GoodNumbers.{HasGoodNumbers};
ghost use Rattle.tree_region.specs.Numbers.{HasNumbers, HasRooms};

use crate::table::{BlockTable, read_table};
use apex_types::{OutOfMemory, TreeRow};
use file_tree::Tree;
use image_format::body_header;
use std::alloc::Global;

/// What the body of a slot has.
#[derive(Drop)]
pub struct SlotBody {
    pub version: u8,
    pub tree: Tree,
    pub table: BlockTable,
}

/// A root with nothing in it; there are no more entries than a byte counts.
fn no_names(alloc: Global, files: u8, directories: u8) -> Result<Tree, OutOfMemory>
    ensures tree { IfOk result (λ tree. tree ≡ no_entries files directories) }
    ensures few { IfOk result (λ tree. (files ≤ 255) × (directories ≤ 255)) }
{
    let tree = Tree::new(alloc, files, directories)?;
    Ok(tree)
}

/// Reads a slot's body. None comes exactly where its header, an entry, the tree that they make or what is spelled
/// behind them is invalid. The block numbers that are read are good ones for the sizes that are read.
pub fn read_slot_body(
    alloc: Global,
    row: &TreeRow,
    bytes: &[u8],
) -> Result<Option<SlotBody>, OutOfMemory>
    requires { 64 + 128 * (row.now.files + row.now.directories) + 4 * row.now.quota ≤ length bytes.now }
    ensures body { IfOk result (IsBody row.now bytes.now) }
    ensures rooms { IfOk result (λ body. IfSome body (λ b. HasRooms row.now b.table)) }
    ensures numbers { IfOk result (λ body. IfSome body (λ b. HasNumbers row.now b.table)) }
    ensures good { IfOk result (λ body. IfSome body (λ b. HasGoodNumbers row.now b.tree b.table.files.items)) }
    ensures files { IfOk result (λ body. IfSome body (λ b. (length b.tree.files ≡ row.now.files) × (row.now.files ≤ 255))) }
    ensures directories { IfOk result (λ body. IfSome body (λ b. (length b.tree.directories ≡ row.now.directories) × (row.now.directories ≤ 255))) }
{
    let Some((_, version)) = body_header(&bytes[..64]) else {
        return Ok(None);
    };
    let mut tree = no_names(alloc, row.files, row.directories)?;
    if !tree.read_body(bytes) {
        return Ok(None);
    }
    let Some(table) = read_table(alloc, row, bytes, version)? else {
        return Ok(None);
    };
    Ok(Some(SlotBody {
        version,
        tree,
        table,
    }))
}
