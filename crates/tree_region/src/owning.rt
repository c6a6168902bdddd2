// A present block gets a data block of its own.
ghost use Rattle.std.specs.Prelude.{◌≡◌, ℕ, ◌+◌, ◌<◌, ◌≤◌, true, false, [], length, slice_index_or, IfSome, IfNone};
ghost use Rattle.tree_region.specs.OwnedRows.{AreApart, AreNamedUsed, AreOthers, named_count, fresh_count, number_at, is_fresh, is_new, with_number};

use crate::numbers::BlockNumbers;
use crate::table::BlockTable;
use crate::taking::take_free;
use apex_types::FileNode;

/// The number at a place of a file, where the place is fresh.
fn fresh_number(durable: &BlockNumbers, present: &BlockNumbers, k: usize) -> Option<u32>
    ensures number { IfSome result (λ n. n ≡ slice_index_or present.now k 0) }
    ensures fresh { IfSome result (λ n. is_new (slice_index_or durable.now k 0) n ≡ true) }
    ensures old { IfNone result (is_new (slice_index_or durable.now k 0) (slice_index_or present.now k 0) ≡ false) }
{
    let number = present.at(k);
    if number == 0 || number == durable.at(k) {
        return None;
    }
    Some(number)
}

/// Gives a present block a data block of its own, by its place in a file, where it has none: then a free block's number
/// stands there. Where it has one, nothing changes. The number is from 1 on; no durable content has it, and no other
/// place of the present one. Neither do other fresh blocks share theirs. Room is wanted only where the place isn't fresh.
pub fn own_block(
    table: &mut BlockTable,
    present: &mut [BlockNumbers],
    file: FileNode,
    k: usize,
) -> u32
    requires durable { AreNamedUsed table.old.used table.old.files.items }
    requires present { AreNamedUsed table.old.used present.old }
    requires apart { AreApart table.old.files.items present.old }
    requires room { is_fresh table.old.files.items present.old file.0 k ≡ false → named_count table.old.files.items + fresh_count table.old.files.items present.old < length table.old.used }
    requires file { file.0 < length present.old }
    requires durable_file { file.0 < length table.old.files.items }
    requires place { k < length (slice_index_or present.old file.0 []) }
    ensures first { 1 ≤ result }
    ensures last { result ≤ length table.old.used }
    ensures not_durable { AreOthers result table.old.files.items }
    ensures placed { present.new ≡ with_number present.old file.0 k result }
    ensures once { (g j : ℕ) → number_at present.new g j ≡ result → (g ≡ file.0) × (j ≡ k) }
    ensures fresh { is_fresh table.old.files.items present.new file.0 k ≡ true }
    ensures apart { AreApart table.old.files.items present.new }
    ensures files { table.new.files ≡ table.old.files }
    ensures long { length table.new.used ≡ length table.old.used }
    ensures durable { AreNamedUsed table.new.used table.old.files.items }
    ensures present { AreNamedUsed table.new.used present.new }
{
    let at = file.0 as usize;
    if let Some(number) = fresh_number(&table.files[at], &present[at], k) {
        return number;
    }
    let number = take_free(table, present);
    present[at].put(k, number);
    number
}
