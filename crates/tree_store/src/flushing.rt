// All buffers are written back.
ghost use Rattle.std.specs.Prelude.{◌≡◌, ◌≤◌, OnOk, OnErr};
ghost use Rattle.rig_core.specs.Causes.{Rose};
ghost use Rattle.tree_store.specs.Answers.{StaysHeld, Acts, PassesAll};

use crate::store::TreeStore;
use rig_core::{DeviceFault, Rig};

impl TreeStore {
    ghost use Rattle.tree_store.specs.Stored.{row_of, buffers_of, free_of, IsStored};

    /// Writes all buffers back, so that all are free, and makes no sync. All contents stay, and all that is durable
    /// stays, also after a fault, which comes only where the write faults rose.
    pub fn write_back<R: Rig>(&mut self, rig: &mut R) -> Result<(), DeviceFault>
        requires stored { IsStored R.tells_view (R.state rig.old) self.old }
        ensures done { StaysHeld R.tells_view
            (R.state rig.old) (R.state rig.new) self.old self.new }
        ensures free { OnOk result (buffers_of self.old ≤ free_of self.new) }
        ensures moments { PassesAll R.tells_view self.old (λ v. v)
            (R.state rig.old) (R.state rig.new) }
        ensures stored { IsStored R.tells_view (R.state rig.new) self.new }
        ensures acts { Acts R.tells_view (row_of self.old).dirty 0
            (R.state rig.old) (R.state rig.new) self.old self.new }
        ensures cause { OnErr result
            (Rose (R.state rig.old).write_faults (R.state rig.new).write_faults) }
    {
        let buffers = u32::from(self.row.dirty);
        tree_state::write_back(&mut self.state, rig, &self.row, self.start, buffers)?;
        Ok(())
    }
}
