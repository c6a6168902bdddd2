// The statuses of volumes.
ghost use Rattle.std.specs.Prelude.{◌≡◌, List, length};
ghost use Rattle.apex_model.specs.Accepted.{IsAccepted};
ghost use Rattle.apex_model.specs.FileStep.{get_volume_status as status_step};
ghost use Rattle.store_model.specs.Stores.{StoreValue};
ghost use Rattle.open_handles.specs.NodeHandles.{AllHandles};
ghost use Rattle.service_parts.specs.Serving.{AllOutline, Serves};

use apex_types::{Errno, PartitionId, Reply, Table, Values};
use service_parts::{Right, place_of, refusal, success};
use tree_store::Trees;

/// The quota, the charge and the number of files of the tree whose root is at a path.
pub fn get_volume_status(table: &Table, trees: &Trees, p: PartitionId, path: &[u8]) -> Reply
    requires accepted { IsAccepted table.now }
    requires long { length trees.now ≡ length table.now.trees }
    ensures { (stores : List StoreValue) (handles : AllHandles) → AllOutline trees.now stores
        → Serves (λ fs. status_step table.now fs p.0 path.now) stores handles stores handles result }
{
    let place = match place_of(table, Right::OwnerOrReader, p, path) {
        Err(errno) => return refusal(errno),
        Ok(place) => place,
    };
    if place.path.names.len() != 0 {
        return refusal(Errno::Einval);
    }
    let quota = table.trees()[place.tree as usize].quota as u32;
    let charge = trees.charge(place.tree);
    let files = trees.tree(place.tree).files();
    success(Values::VolumeStatus {
        quota,
        charge,
        files,
    })
}
