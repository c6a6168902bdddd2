// Closing files.
ghost use Rattle.std.specs.Prelude.{◌<◌, List, length};
ghost use Rattle.apex_model.specs.FileStep.{close_file as close_step};
ghost use Rattle.store_model.specs.Stores.{StoreValue};
ghost use Rattle.service_parts.specs.Serving.{Serves};

use apex_types::{Errno, PartitionId, Reply, Values};
use open_handles::Handles;
use service_parts::{refusal, success};

/// Closes an open file, also a stale one.
pub fn close_file(handles: &mut Handles, p: PartitionId, id: u32) -> Reply
    requires { p.0 < length handles.old }
    ensures { (stores : List StoreValue)
        → Serves (λ fs. close_step fs p.0 id) stores handles.old stores handles.new result }
{
    if handles.close_file(p, id) {
        success(Values::Empty)
    } else {
        refusal(Errno::Ebadf)
    }
}
