// The block numbers of each file, where the data blocks that a body spells are good ones.
ghost use Rattle.std.specs.Prelude.{◌≡◌, ◌+◌, ◌*◌, ◌≤◌, length, drop, sum_by, IfOk};
ghost use Rattle.apex_model.specs.Files.{blocks_of};
ghost use Rattle.apex_model.specs.Image.{size_of_field, has_good_blocks};
ghost use Rattle.tree_region.specs.Numbers.{numbers_by_file, numbers_in, AreGoodBlocks, IsTableOf};

use crate::checks::{all_blocks, are_within, are_zero, blocks_in, have_good_sizes, is_zero};
use crate::fields::{read_fields, read_numbers};
use crate::numbers::BlockNumbers;
use crate::used::used_blocks;
use apex_types::{FileEntryField, OutOfMemory, TreeRow};
use block_quota::Blocks;
use std::alloc::Global;

/// The blocks of the longest file.
const MOST_BLOCKS: u16 = 2048;

/// The numbers of each file's blocks, by the number of its entry, and which blocks they name.
#[derive(Drop)]
pub struct BlockTable {
    pub files: Vec<BlockNumbers>,
    pub used: Blocks,
}

/// Which blocks are named by what a body spells behind its entries. None comes exactly where a size, their sum, a
/// number or padding isn't as it has to be.
fn named_blocks(
    alloc: Global,
    row: &TreeRow,
    fields: &[FileEntryField],
    numbers: &[u32],
    rest: &[u8],
) -> Result<Option<Blocks>, OutOfMemory>
    requires few { length fields.now ≤ 255 }
    requires many { length numbers.now ≡ row.now.quota }
    ensures { IfOk result (AreGoodBlocks row.now fields.now numbers.now rest.now) }
{
    if !have_good_sizes(fields) {
        return Ok(None);
    }
    let count = all_blocks(fields);
    if count > u32::from(row.quota) {
        return Ok(None);
    }
    if !are_within(numbers, 2 * u32::from(row.quota)) {
        return Ok(None);
    }
    if !are_zero(&numbers[count as usize..]) {
        return Ok(None);
    }
    if !is_zero(rest) {
        return Ok(None);
    }
    used_blocks(alloc, row.quota, numbers)
}

/// The numbers of each file's blocks, with room for so many.
fn numbers_of_files(
    alloc: Global,
    fields: &[FileEntryField],
    numbers: &[u32],
    room: usize,
) -> Result<Vec<BlockNumbers>, OutOfMemory>
    requires { sum_by (λ field. blocks_of (size_of_field field)) fields.now ≤ length numbers.now }
    ensures { IfOk result (λ files. files.items ≡ numbers_by_file room fields.now numbers.now) }
{
    let mut files = Vec::with_capacity(alloc, fields.len())?;
    let mut at = 0;
    for k in 0..fields.len() {
        let end = at + blocks_in(&fields[k]) as usize;
        let file = BlockNumbers::with_room(alloc, &numbers[at..end], room)?;
        files.push(file)?;
        at = end;
    }
    Ok(files)
}

/// The block numbers of the files in a body of a version. None comes exactly where an entry of a file isn't
/// spelled, or what is spelled behind the entries isn't good.
pub fn read_table(
    alloc: Global,
    row: &TreeRow,
    body: &[u8],
    version: u8,
) -> Result<Option<BlockTable>, OutOfMemory>
    requires { 64 + 128 * (row.now.files + row.now.directories) + 4 * row.now.quota ≤ length body.now }
    ensures { IfOk result (IsTableOf version row.now body.now) }
{
    let Some(fields) = read_fields(alloc, body, version, row.files)? else {
        return Ok(None);
    };
    let entries = row.files as usize + row.directories as usize;
    let numbers = read_numbers(alloc, body, entries, row.quota)?;
    let rest = &body[64 + 128 * entries + 4 * row.quota as usize..];
    let Some(used) = named_blocks(alloc, row, &fields, &numbers, rest)? else {
        return Ok(None);
    };
    let room = usize::from(row.quota.min(MOST_BLOCKS));
    let files = numbers_of_files(alloc, &fields, &numbers, room)?;
    Ok(Some(BlockTable { files, used }))
}
