// The body of a slot, written as a whole.
ghost use Rattle.std.specs.Prelude.{◌≡◌, ◌*◌, ◌≤◌, ℕ, [], Some, length, take, slice_set};
ghost use Rattle.apex_model.specs.Fields.{header_of};
ghost use Rattle.apex_model.specs.Layout.{body_blocks};
ghost use Rattle.tree_region.specs.Numbers.{numbers_in, with_room};
ghost use Rattle.tree_region.specs.Region.{Spells};
ghost use Rattle.tree_region.specs.GoodNumbers.{numbers_of_files, HasGoodNumbers};

use crate::listing::put_numbers;
use crate::table::BlockTable;
use apex_types::TreeRow;
use file_tree::Tree;

/// Writes the body of a slot, in version 2: the names, sizes and change counts of a tree, and the numbers of its files'
/// data blocks, each file's behind those of the file before it. The body has as many blocks of 512 bytes as the row
/// gives it. All is written but the sequence number in the first byte: with any one there, the body is that of the tree.
pub fn put_slot_body(row: &TreeRow, tree: &Tree, table: &BlockTable, body: &mut [u8])
    requires long { length body.old ≡ 512 * body_blocks row.now }
    requires files { length tree.now.files ≡ row.now.files }
    requires directories { length tree.now.directories ≡ row.now.directories }
    requires table { length table.now.files.items ≡ row.now.files }
    requires good { HasGoodNumbers row.now tree.now table.now.files.items }
    ensures long { length body.new ≡ length body.old }
    ensures header { (sequence : ℕ) → sequence ≤ 2 → header_of (take 64 (slice_set body.new 0 sequence)) ≡ Some (sequence, 2) }
    ensures spelled { (sequence : ℕ) → sequence ≤ 2 → Spells row.now (slice_set body.new 0 sequence) [] 2 tree.now table.now.files.items }
    ensures numbers { numbers_in row.now body.new ≡ with_room row.now.quota (numbers_of_files tree.now table.now.files.items) }
{
    let entries = row.files as usize + row.directories as usize;
    put_numbers(&mut body[64 + 128 * entries..], tree, &table.files);
    tree.put_body(body);
}
