// The modes and contexts of the partitions.
ghost use Rattle.std.specs.Prelude.{◌≡◌, ◌<◌, length, replicate, IfOk, slice_set};
ghost use Rattle.apex_model.specs.World.{started, is_ordinary, is_ready as is_ready_in};
ghost use Rattle.module_session.specs.Partitions.{partition_at};

use apex_types::{Context, Mode, OutOfMemory, PartitionId};
use service_parts::is_idle;
use std::alloc::Global;
use std::marker::Model;

/// The mode of a partition, and the context that its calls come from.
#[derive(Drop)]
struct PartitionState {
    mode: Mode,
    context: Context,
}

impl Model for PartitionState {
    ghost use Rattle.apex_model.specs.World.{Partition};

    ghost Value = { Partition };

    ghost view = { λ state. record { mode = state.mode; context = state.context } };
}

/// The modes and contexts of all partitions, in the table's order.
#[derive(Drop)]
pub struct Partitions {
    states: Vec<PartitionState>,
}

impl Model for Partitions {
    ghost use Rattle.std.specs.Prelude.{List};
    ghost use Rattle.apex_model.specs.World.{Partition};

    ghost Value = { List Partition };

    ghost view = { λ all. all.states.items };
}

/// Whether calls come from a partition's ordinary processes.
fn is_ordinary(context: Context) -> bool
    ensures { result ≡ is_ordinary context }
{
    context == Context::Ordinary
}

impl Partitions {
    /// So many partitions, each as it is started: in COLD_START, with calls from ordinary processes.
    pub fn started(alloc: Global, count: usize) -> Result<Partitions, OutOfMemory>
        ensures { IfOk result (λ all. all ≡ replicate count started) }
    {
        let mut states = Vec::new(alloc);
        for _ in 0..count {
            states.push(PartitionState {
                mode: Mode::ColdStart,
                context: Context::Ordinary,
            })?;
        }
        Ok(Partitions { states })
    }

    /// The mode of a partition.
    pub fn mode(&self, p: PartitionId) -> Mode
        requires { p.0 < length self.now }
        ensures { result ≡ (partition_at self.now p.0).mode }
    {
        self.states[p.0 as usize].mode
    }

    /// The context of a partition.
    pub fn context(&self, p: PartitionId) -> Context
        requires { p.0 < length self.now }
        ensures { result ≡ (partition_at self.now p.0).context }
    {
        self.states[p.0 as usize].context
    }

    /// Whether a partition may make calls of files and directories: it isn't idle, and its calls
    /// come from ordinary processes.
    pub fn is_ready(&self, p: PartitionId) -> bool
        requires { p.0 < length self.now }
        ensures { result ≡ is_ready_in (partition_at self.now p.0) }
    {
        let idle = is_idle(self.mode(p));
        let ordinary = is_ordinary(self.context(p));
        !idle && ordinary
    }

    /// Puts a partition into a mode and a context.
    pub fn set(&mut self, p: PartitionId, mode: Mode, context: Context)
        requires { p.0 < length self.old }
        ensures { self.new ≡ slice_set self.old p.0 (record { mode = mode; context = context }) }
    {
        self.states[p.0 as usize] = PartitionState { mode, context };
    }
}
