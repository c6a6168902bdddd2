// The channels and the created ports of all partitions.
ghost use Rattle.std.specs.Prelude.{◌≡◌, ℕ, ◌<◌, ◌≤◌, ◌==◌, ◌&&◌, not, length, map, replicate, false, true, IfOk, IfSome, Some, slice_get, slice_set};
ghost use Rattle.apex_types.specs.Rows.{Rows};
ghost use Rattle.apex_model.specs.Channels.{PortSystem, channel_in, with_channel, is_made, sampled, consumed_at};
ghost use Rattle.apex_model.specs.Durable.{unused_channel};
ghost use Rattle.apex_model.specs.World.{marks_without};
ghost use Rattle.sampling_ext.specs.Places.{numbered_in, named_in};
ghost use Rattle.sampling_ext.specs.Standing.{Stands, IsServing, unused_ports, forgotten};

use crate::channel::Channel;
use crate::port::{Port, PortList};
use apex_types::{OutOfMemory, PartitionId, Table};
use std::alloc::Global;
use std::marker::Model;

/// The channels of a module, and which ports are created.
#[derive(Drop)]
pub struct Ports {
    list: PortList,
    channels: Vec<Channel>,
    created: Vec<bool>,
}

impl Model for Ports {
    ghost use Rattle.std.specs.Prelude.{◌≡◌, length};
    ghost use Rattle.sampling_ext.specs.Standing.{PortsValue};

    ghost Value = { PortsValue };

    ghost view = { λ p. record {
      ports = p.list;
      system = record { channels = p.channels.items; created = p.created.items };
    } };

    ghost invariant = { λ p. length p.created.items ≡ length p.list };
}

/// A channel without a message for each of the table.
fn unused_channels(alloc: Global, table: &Table) -> Result<Vec<Channel>, OutOfMemory>
    ensures { IfOk result (λ channels. channels.items ≡ map unused_channel table.now.channels) }
{
    let mut channels = Vec::new(alloc);
    for row in table.channels() {
        channels.push(Channel::unused(row))?;
    }
    Ok(channels)
}

/// So many marks, none of which is set.
fn unset_marks(alloc: Global, count: usize) -> Result<Vec<bool>, OutOfMemory>
    ensures { IfOk result (λ marks. marks.items ≡ replicate count false) }
{
    let mut marks = Vec::new(alloc);
    for _ in 0..count {
        marks.push(false)?;
    }
    Ok(marks)
}

/// A port's mark, or none where the port is this partition's.
fn mark_without(port: &Port, p: PartitionId, mark: bool) -> bool
    ensures { result ≡ not (port.now.partition == p.0) && mark }
{
    if port.is_of(p) {
        return false;
    }
    mark
}

/// Takes back the marks of a partition's ports.
fn forget(list: &PortList, created: &mut [bool], p: PartitionId)
    requires { length created.old ≡ length list.now }
    ensures { created.new ≡ marks_without (λ port. port.partition) p.0 list.now created.old }
{
    for (k, mark) in created.iter_mut().enumerate() {
        *mark = mark_without(list.at(k), p, *mark);
    }
}

impl Ports {
    /// The ports of a table: no channel holds a message, and no port is created. It takes all memory that is needed, and
    /// `OutOfMemory` says that it isn't there; no later call takes any.
    pub fn new(alloc: Global, table: &Table) -> Result<Ports, OutOfMemory>
        ensures unused { IfOk result (λ ports. Stands table.now ports (unused_ports table.now)) }
        ensures valid { IfOk result (λ ports. (now : ℕ) → IsServing table.now now ports) }
    {
        let list = PortList::of_table(alloc, table)?;
        let channels = unused_channels(alloc, table)?;
        let created = unset_marks(alloc, list.len())?;
        Ok(Ports {
            list,
            channels,
            created,
        })
    }

    /// Forgets which ports a partition created. Those of the others, and all messages with their marks, stay.
    pub fn restart(&mut self, p: PartitionId)
        ensures state { (table : Rows) (system : PortSystem) → Stands table self.old system → Stands table self.new (forgotten table p.0 system) }
        ensures valid { (table : Rows) (now : ℕ) → IsServing table now self.old → IsServing table now self.new }
    {
        self.forget_created(p);
    }

    fn forget_created(&mut self, p: PartitionId)
        ensures ports { self.new.ports ≡ self.old.ports }
        ensures channels { self.new.system.channels ≡ self.old.system.channels }
        ensures created { self.new.system.created ≡ marks_without (λ port. port.partition) p.0 self.old.ports self.old.system.created }
    {
        forget(&self.list, &mut self.created, p);
    }

    /// The place among a partition's ports, counted from 0, of the one with this name.
    pub(crate) fn place_named(&self, p: PartitionId, name: &[u8]) -> Option<usize>
        ensures value { result ≡ named_in self.now.ports p.0 name.now }
        ensures within { IfSome result (λ place. place < length self.now.ports) }
    {
        self.list.place_named(p, name)
    }

    /// The number among all ports of the one at a place among a partition's.
    pub(crate) fn number_of(&self, p: PartitionId, place: usize) -> Option<usize>
        ensures value { result ≡ numbered_in self.now.ports p.0 place }
        ensures within { IfSome result (λ k. k < length self.now.ports) }
    {
        self.list.number_of(p, place)
    }

    /// The port of a number.
    pub(crate) fn port(&self, k: usize) -> &Port
        requires { k < length self.now.ports }
        ensures { slice_get self.now.ports k ≡ Some result.now }
    {
        self.list.at(k)
    }

    /// Whether the port of a number is created.
    pub(crate) fn is_created(&self, k: usize) -> bool
        requires { k < length self.now.ports }
        ensures { result ≡ is_made self.now.system k }
    {
        let _list = &self.list;
        self.created[k]
    }

    /// Marks the port of a number as created.
    pub(crate) fn mark_created(&mut self, k: usize)
        requires { k < length self.old.ports }
        ensures ports { self.new.ports ≡ self.old.ports }
        ensures system { self.new.system ≡ record { channels = self.old.system.channels; created = slice_set self.old.system.created k true } }
    {
        self.created[k] = true;
    }

    /// The channel at a place in the table.
    pub(crate) fn channel(&self, k: usize) -> &Channel
        requires { k < length self.now.system.channels }
        ensures { result.now ≡ channel_in self.now.system k }
    {
        &self.channels[k]
    }

    /// Puts a message into a channel, with the present time.
    pub(crate) fn write(&mut self, k: usize, now: u32, bytes: &[u8])
        requires within { k < length self.old.system.channels }
        requires few { length bytes.now ≤ 1024 }
        ensures ports { self.new.ports ≡ self.old.ports }
        ensures system { self.new.system ≡ with_channel self.old.system k (sampled (channel_in self.old.system k) now bytes.now) }
    {
        self.channels[k].write(now, bytes);
    }

    /// Marks the message of a channel as read by a destination.
    pub(crate) fn consume(&mut self, k: usize, d: usize)
        requires { k < length self.old.system.channels }
        ensures ports { self.new.ports ≡ self.old.ports }
        ensures system { self.new.system ≡ with_channel self.old.system k (consumed_at (channel_in self.old.system k) d) }
    {
        self.channels[k].consume(d);
    }
}
