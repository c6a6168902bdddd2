// The empty image of a table, in memory.
ghost use Rattle.std.specs.Prelude.{IfOk};
ghost use Rattle.apex_model.specs.Accepted.{IsAccepted};
ghost use Rattle.recover_scan.specs.Format.{IsFormatted};

use apex_types::{ByteList, OutOfMemory, Table};
use image_format::layout;
use recover_scan::format;
use rig_core::PlainRig;
use std::alloc::Global;

/// The image of a table in which nothing was ever stored. It has as many bytes as the table wants.
pub(crate) fn empty_image(alloc: Global, table: &Table) -> Result<ByteList, OutOfMemory>
    requires accepted { IsAccepted table.now }
    ensures formatted { IfOk result (IsFormatted table.now) }
{
    let size = 512 * layout(table).blocks() as usize;
    let Ok(zeros) = vec![in alloc; 0u8; size] else {
        return Err(OutOfMemory);
    };
    let mut rig = PlainRig::new(ByteList::from_vec(zeros));
    match format(alloc, &mut rig, table) {
        Ok(()) => Ok(rig.into_image()),
        // No call of such a rig fails, and it has room.
        Err(_) => Err(OutOfMemory),
    }
}
