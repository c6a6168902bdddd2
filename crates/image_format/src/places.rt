// Where the regions of an image stand.
ghost use Rattle.std.specs.Prelude.{◌≡◌, ◌+◌, ◌*◌, ◌≤◌, map, length, sum_by, slice_get, IfSome};
ghost use Rattle.apex_types.specs.Rows.{Rows};
ghost use Rattle.apex_model.specs.Layout.{tree_blocks, logbook_blocks, layout_blocks};
ghost use Rattle.apex_model.specs.Layout.{body_blocks as body_blocks_of, tree_start as tree_start_of, logbook_start as logbook_start_of};
ghost use Rattle.image_format.specs.Places.{starts_from, places_for, places_of};

use apex_types::{LogbookRow, TreeRow};
use arrayvec::ArrayVec;
use std::marker::Model;

/// The places of an image, in blocks of 512 bytes: the first block of each tree and logbook, and the
/// blocks of each tree's body.
#[derive(Drop)]
pub struct Layout {
    tree_places: ArrayVec<u32, 32>,
    body_sizes: ArrayVec<u32, 32>,
    trees_end: u32,
    logbook_places: ArrayVec<u32, 32>,
    end: u32,
}

impl Model for Layout {
    ghost use Rattle.image_format.specs.Places.{Places};

    ghost Value = { Places };

    ghost view = { λ t. record {
      trees = t.tree_places.items;
      bodies = t.body_sizes.items;
      trees_end = t.trees_end;
      logbooks = t.logbook_places.items;
      blocks = t.end;
    } };
}

/// The blocks of a slot's body.
fn body_size(row: &TreeRow) -> u32
    ensures value { result ≡ body_blocks_of row.now }
    ensures few { result ≤ 640 }
{
    let quota = u32::from(row.quota);
    let entries = u32::from(row.files) + u32::from(row.directories);
    (64 + 128 * entries + 4 * quota).div_ceil(512)
}

/// The blocks of a tree's region.
fn tree_size(row: &TreeRow) -> u32
    ensures { result ≡ tree_blocks row.now }
{
    2 * (1 + body_size(row) + 64) + 2 * u32::from(row.quota)
}

/// The blocks of a logbook's region.
fn logbook_size(row: &LogbookRow) -> u32
    ensures { result ≡ logbook_blocks row.now }
{
    4 + 2 * (u32::from(row.logged) + 1)
}

fn trees_from(start: u32, rows: &[TreeRow]) -> ArrayVec<u32, 32>
    requires few { length rows.now ≤ 32 }
    requires small { start + sum_by tree_blocks rows.now ≤ 131072 }
    ensures { result.items ≡ starts_from tree_blocks start rows.now }
{
    let mut places = ArrayVec::new();
    let mut end = start;
    for row in rows {
        places.push(end);
        end += tree_size(row);
    }
    places
}

fn logbooks_from(start: u32, rows: &[LogbookRow]) -> ArrayVec<u32, 32>
    requires few { length rows.now ≤ 32 }
    requires small { start + sum_by logbook_blocks rows.now ≤ 131072 }
    ensures { result.items ≡ starts_from logbook_blocks start rows.now }
{
    let mut places = ArrayVec::new();
    let mut end = start;
    for row in rows {
        places.push(end);
        end += logbook_size(row);
    }
    places
}

fn sizes_of_bodies(rows: &[TreeRow]) -> ArrayVec<u32, 32>
    requires { length rows.now ≤ 32 }
    ensures { result.items ≡ map body_blocks_of rows.now }
{
    let mut sizes = ArrayVec::new();
    for row in rows {
        sizes.push(body_size(row));
    }
    sizes
}

fn size_of_trees(rows: &[TreeRow]) -> u32
    requires { sum_by tree_blocks rows.now ≤ 131072 }
    ensures { result ≡ sum_by tree_blocks rows.now }
{
    rows.iter().map(|row| tree_size(row)).sum()
}

fn size_of_logbooks(rows: &[LogbookRow]) -> u32
    requires { sum_by logbook_blocks rows.now ≤ 131072 }
    ensures { result ≡ sum_by logbook_blocks rows.now }
{
    rows.iter().map(|row| logbook_size(row)).sum()
}

/// The places of an image of these trees and logbooks.
pub(crate) fn places(trees: &[TreeRow], logbooks: &[LogbookRow]) -> Layout
    requires few_trees { length trees.now ≤ 32 }
    requires few_logbooks { length logbooks.now ≤ 32 }
    requires small { 33 + sum_by tree_blocks trees.now + sum_by logbook_blocks logbooks.now ≤ 131072 }
    ensures { result ≡ places_for trees.now logbooks.now }
{
    let trees_end = 33 + size_of_trees(trees);
    Layout {
        tree_places: trees_from(33, trees),
        body_sizes: sizes_of_bodies(trees),
        trees_end,
        logbook_places: logbooks_from(trees_end, logbooks),
        end: trees_end + size_of_logbooks(logbooks),
    }
}

fn place_at(places: &[u32], k: u32) -> Option<u32>
    ensures { result ≡ slice_get places.now k }
{
    places.get(k as usize).copied()
}

/// The first byte of a block.
fn byte_of(block: u32) -> u64
    ensures { result ≡ 512 * block }
{
    512 * u64::from(block)
}

impl Layout {
    /// The number of blocks.
    pub fn blocks(&self) -> u32
        ensures { (table : Rows) → self.now ≡ places_of table → result ≡ layout_blocks table }
    {
        self.end
    }

    /// The first byte of a tree's region, and behind the last one the end of them all.
    pub fn tree_start(&self, tree: u32) -> u64
        ensures { (table : Rows) → self.now ≡ places_of table → result ≡ 512 * tree_start_of table tree }
    {
        match place_at(self.tree_places.as_slice(), tree) {
            Some(place) => byte_of(place),
            None => byte_of(self.trees_end),
        }
    }

    /// The first byte of a logbook's region, and behind the last one the end of them all.
    pub fn logbook_start(&self, logbook: u32) -> u64
        ensures { (table : Rows) → self.now ≡ places_of table → result ≡ 512 * logbook_start_of table logbook }
    {
        match place_at(self.logbook_places.as_slice(), logbook) {
            Some(place) => byte_of(place),
            None => byte_of(self.end),
        }
    }

    /// The blocks of a tree's body, and 0 where there is no such tree.
    pub fn body_blocks(&self, tree: u32) -> u32
        ensures { (table : Rows) → self.now ≡ places_of table → IfSome (slice_get table.trees tree) (λ row. result ≡ body_blocks_of row) }
    {
        match self.body_sizes.as_slice().get(tree as usize) {
            Some(size) => *size,
            None => 0,
        }
    }
}
