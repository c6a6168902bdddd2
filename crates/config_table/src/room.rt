//! Whether the trees fit their volumes, and the layout fits an image.

ghost use Rattle.std.specs.Prelude.{◌≡◌, ◌+◌, ◌-◌, ◌<◌, ◌==◌, nat_le, sum_by, filter, MatchOption};
ghost use Rattle.apex_model.specs.Accepted.{fits_volumes, fits_image};
ghost use Rattle.apex_model.specs.Layout.{tree_blocks, logbook_blocks};

use apex_types::{LogbookRow, Table, TreeRow};

/// The most blocks of an image.
const IMAGE_BLOCKS: u32 = 131_072;

/// The blocks of the superblock area.
const SUPERBLOCK_BLOCKS: u32 = 33;

/// Whether the quotas of a volume's trees sum to at most so many blocks.
fn has_room(trees: &[TreeRow], volume: usize, blocks: u32) -> bool
    ensures { result ≡ nat_le (sum_by (λ row. row.quota) (filter (λ row. row.volume == volume) trees.now)) blocks }
{
    let mut left = blocks;
    for tree in trees {
        if tree.volume as usize == volume {
            let quota = tree.quota as u32;
            if quota > left {
                return false;
            }
            left -= quota;
        }
    }
    true
}

/// Whether each volume has room for its trees.
pub fn volumes_fit(table: &Table) -> bool
    ensures { result ≡ fits_volumes table.now }
{
    let trees = table.trees();
    table
        .volumes()
        .iter()
        .enumerate()
        .all(|(place, volume)| has_room(trees, place, volume.blocks))
}

/// The blocks of a tree's region.
fn tree_blocks(tree: &TreeRow) -> u32
    ensures { result ≡ tree_blocks tree.now }
{
    let entries = tree.files as u32 + tree.directories as u32;
    let quota = tree.quota as u32;
    let body = (64 + 128 * entries + 4 * quota + 511) / 512;
    2 * (1 + body + 64) + 2 * quota
}

/// The blocks of a logbook's region.
fn logbook_blocks(logbook: &LogbookRow) -> u32
    ensures { result ≡ logbook_blocks logbook.now }
{
    4 + 2 * (logbook.logged as u32 + 1)
}

/// What is left of so many blocks behind the trees, if they have that many.
pub fn left_by_trees(trees: &[TreeRow], blocks: u32) -> Option<u32>
    ensures { MatchOption result (blocks < sum_by tree_blocks trees.now) (λ left. left + sum_by tree_blocks trees.now ≡ blocks) }
{
    let mut left = blocks;
    for tree in trees {
        left = left.checked_sub(tree_blocks(tree))?;
    }
    Some(left)
}

/// The same behind the logbooks.
pub fn left_by_logbooks(logbooks: &[LogbookRow], blocks: u32) -> Option<u32>
    ensures { MatchOption result (blocks < sum_by logbook_blocks logbooks.now) (λ left. left + sum_by logbook_blocks logbooks.now ≡ blocks) }
{
    let mut left = blocks;
    for logbook in logbooks {
        left = left.checked_sub(logbook_blocks(logbook))?;
    }
    Some(left)
}

/// Whether the layout fits the largest image.
pub fn image_fits(table: &Table) -> bool
    ensures { result ≡ fits_image table.now }
{
    match left_by_trees(table.trees(), IMAGE_BLOCKS - SUPERBLOCK_BLOCKS) {
        Some(left) => left_by_logbooks(table.logbooks(), left).is_some(),
        None => false,
    }
}
