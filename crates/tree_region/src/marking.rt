// The marks of used blocks, made anew from rows of block numbers.
ghost use Rattle.std.specs.Prelude.{ℕ, ◌≤◌, length, slice_index_or};
ghost use Rattle.tree_region.specs.Marking.{IsNumberMarked, IsRowMarked, AreRowsMarked};
ghost use Rattle.tree_region.specs.OwnedRows.{number_at};

use crate::numbers::BlockNumbers;
use block_quota::Blocks;

/// Marks the block of a number as used, where it is one.
fn mark_number(used: &mut Blocks, number: u32)
    requires { number ≤ length used.old }
    ensures { IsNumberMarked number used.old used.new }
{
    if number == 0 {
        return;
    }
    used.mark(number);
}

/// Marks the blocks of a file's numbers as used.
fn mark_row(used: &mut Blocks, row: &BlockNumbers)
    requires { (k : ℕ) → slice_index_or row.now k 0 ≤ length used.old }
    ensures { IsRowMarked row.now (length row.now) used.old used.new }
{
    for k in 0..row.len() {
        mark_number(used, row.at(k));
    }
}

/// Marks the blocks of all files' numbers as used. Only those that weren't used before are counted anew.
pub fn mark_rows(used: &mut Blocks, rows: &[BlockNumbers])
    requires { (f k : ℕ) → number_at rows.now f k ≤ length used.old }
    ensures { AreRowsMarked rows.now (length rows.now) used.old used.new }
{
    for f in 0..rows.len() {
        mark_row(used, &rows[f]);
    }
}
