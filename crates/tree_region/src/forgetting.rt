// Block numbers behind the durable content of files are forgotten.
ghost use Rattle.std.specs.Prelude.{◌≡◌, ◌≢◌, ◌≤◌, ℕ, length};
ghost use Rattle.tree_region.specs.Rows.{Forgets, EndsWithContent, row_of};

use crate::region::TreeRegion;
use apex_types::FileNode;

/// Forgets the numbers that stand behind the last block of a file's durable content: all of them where the entry has no
/// file. Nothing else changes, and a region that is in step with what is kept stays so.
pub fn forget_row(kept: &mut TreeRegion, file: FileNode)
    ensures forgets { Forgets kept.old kept.new }
    ensures ends { EndsWithContent kept.new file.0 }
    ensures others { (f : ℕ) → f ≢ file.0 → row_of kept.new f ≡ row_of kept.old f }
{
    let (size, _changes) = kept.tree.stored(file);
    let count = size.div_ceil(512) as usize;
    let place = file.0 as usize;
    if place < kept.table.files.len() {
        kept.table.files[place].keep_first(count);
    }
}

/// Forgets the numbers that stand behind the last block of each file's durable content. Nothing else changes, and a
/// region that is in step with what is kept stays so.
pub fn forget_rows(kept: &mut TreeRegion)
    requires few { length kept.old.table.files.items ≤ 255 }
    ensures forgets { Forgets kept.old kept.new }
    ensures ends { (f : ℕ) → EndsWithContent kept.new f }
{
    for place in 0..kept.table.files.len() {
        forget_row(kept, FileNode(place as u8));
    }
}
