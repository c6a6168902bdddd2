// A data block that no content has is taken.
ghost use Rattle.std.specs.Prelude.{◌≡◌, ◌+◌, ◌<◌, ◌≤◌, true, length};
ghost use Rattle.block_quota.specs.Blocks.{is_used};
ghost use Rattle.tree_region.specs.Marking.{count_used};
ghost use Rattle.tree_region.specs.OwnedRows.{AreNamedUsed, AreOthers, named_count, fresh_count};

use crate::marking::mark_rows;
use crate::numbers::BlockNumbers;
use crate::table::BlockTable;

/// Makes the marks anew: those blocks are used that the durable or the present numbers name. So not all are.
fn mark_anew(table: &mut BlockTable, present: &[BlockNumbers])
    requires durable { AreNamedUsed table.old.used table.old.files.items }
    requires present { AreNamedUsed table.old.used present.now }
    requires room { named_count table.old.files.items + fresh_count table.old.files.items present.now < length table.old.used }
    ensures files { table.new.files ≡ table.old.files }
    ensures long { length table.new.used ≡ length table.old.used }
    ensures durable { AreNamedUsed table.new.used table.old.files.items }
    ensures present { AreNamedUsed table.new.used present.now }
    ensures few { count_used table.new.used < length table.old.used }
{
    table.used.clear();
    mark_rows(&mut table.used, &table.files);
    mark_rows(&mut table.used, present);
}

/// Takes a data block, by its number from 1 on, that neither the durable nor the present content of a file has; it
/// is used from then on. The durable numbers are those of the table, with marks of used blocks that may name more
/// than are in use. Where none is free by the marks, they are made anew, and one is free then.
pub fn take_free(table: &mut BlockTable, present: &[BlockNumbers]) -> u32
    requires durable { AreNamedUsed table.old.used table.old.files.items }
    requires present { AreNamedUsed table.old.used present.now }
    requires room { named_count table.old.files.items + fresh_count table.old.files.items present.now < length table.old.used }
    ensures first { 1 ≤ result }
    ensures last { result ≤ length table.old.used }
    ensures not_durable { AreOthers result table.old.files.items }
    ensures not_present { AreOthers result present.now }
    ensures files { table.new.files ≡ table.old.files }
    ensures long { length table.new.used ≡ length table.old.used }
    ensures taken { is_used table.new.used result ≡ true }
    ensures durable { AreNamedUsed table.new.used table.old.files.items }
    ensures present { AreNamedUsed table.new.used present.now }
{
    if let Some(number) = table.used.take() {
        return number;
    }
    mark_anew(table, present);
    match table.used.take() {
        Some(number) => number,
        None => unreachable!(),
    }
}
