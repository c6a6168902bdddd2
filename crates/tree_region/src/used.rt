// Which data blocks are used by the files of a body.
ghost use Rattle.std.specs.Prelude.{◌≡◌, ◌*◌, ◌≤◌, true, IfOk, None, Some, MatchBool, length, nat_le};
ghost use Rattle.std.specs.List.{list_all};
ghost use Rattle.tree_region.specs.Marks.{marked_next};
ghost use Rattle.tree_region.specs.Numbers.{AreMarked};

use apex_types::OutOfMemory;
use block_quota::Blocks;
use std::alloc::Global;

/// Marks the block of a number, where it is one. False comes exactly where the block was used already.
fn mark_number(used: &mut Blocks, number: u32) -> bool
    requires { number ≤ length used.old }
    ensures next { MatchBool result (marked_next used.old number ≡ Some used.new) (marked_next used.old number ≡ None) }
    ensures long { length used.new ≡ length used.old }
{
    if number == 0 {
        return true;
    }
    used.mark(number)
}

/// Which of twice as many blocks as a quota has are named by these numbers. None comes exactly where one but 0
/// stands twice.
pub fn used_blocks(
    alloc: Global,
    quota: u16,
    numbers: &[u32],
) -> Result<Option<Blocks>, OutOfMemory>
    requires { list_all (λ n. nat_le n (2 * quota)) numbers.now ≡ true }
    ensures { IfOk result (AreMarked quota numbers.now) }
{
    let mut used = Blocks::new(alloc, quota)?;
    for k in 0..numbers.len() {
        if !mark_number(&mut used, numbers[k]) {
            return Ok(None);
        }
    }
    Ok(Some(used))
}
