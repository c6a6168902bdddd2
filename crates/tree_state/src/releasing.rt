// All that is present of a file is given up.
ghost use Rattle.std.specs.Prelude.{◌≡◌, ◌≢◌, ◌<◌, ℕ, List, [], slice_index_or, slice_set};
ghost use Rattle.block_pool.specs.Lists.{node_count};
ghost use Rattle.present_files.specs.Present.{IsPresent, content_of, never_changed, number_of};

use apex_types::{FileNode, TreeRow};
use present_files::{Present, PresentSize};

/// Gives up all that is present of a file that is removed: it has no bytes and was never changed, no buffer holds a
/// block of it, and all its numbers are 0. No other file changes, and the pool has as many buffers as before.
pub(crate) fn give_up(present: &mut Present, row: &TreeRow, file: FileNode)
    requires present { IsPresent row.now present.old }
    requires file { file.0 < row.now.files }
    ensures sizes { present.new.sizes.items ≡ slice_set present.old.sizes.items file.0 never_changed }
    ensures numbers { (k : ℕ) → number_of present.new file k ≡ 0 }
    ensures rows { (g : ℕ) → g ≢ file.0 → slice_index_or present.new.numbers.items g [] ≡ slice_index_or present.old.numbers.items g [] }
    ensures present { IsPresent row.now present.new }
    ensures buffers { node_count present.new.pool.lists ≡ node_count present.old.pool.lists }
    ensures others { (blocks : List ℕ) (g : FileNode) → g.0 ≢ file.0 → content_of blocks present.new g ≡ content_of blocks present.old g }
{
    let place = file.0 as usize;
    present.pool.release_file(file);
    present.numbers[place].keep_first(0);
    present.sizes[place] = PresentSize {
        size: 0,
        changes: 0,
    };
}
