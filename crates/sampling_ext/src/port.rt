// The ports of the table, in the order of their numbers.
ghost use Rattle.std.specs.Prelude.{◌≡◌, ◌∷◌, ◌++◌, [], ◌<◌, ◌==◌, length, OnOk, IfOk, IfSome, Some, slice_get};
ghost use Rattle.apex_model.specs.Tables.{ports_of_channel, ports};
ghost use Rattle.sampling_ext.specs.Places.{numbered_in, named_in};
ghost use Rattle.sampling_ext.specs.Ends.{end_of};

use apex_types::{ChannelRow, Name, OutOfMemory, PartitionId, PortRow, Table};
use std::alloc::Global;
use std::marker::Model;

/// Which end of a channel a port is: its source, or one of its destinations, by its place among them.
#[derive(Clone, Copy)]
pub enum ChannelEnd {
    Source,
    Destination(usize),
}

/// A port of the table: whose it is, its name there, and its channel's place in the table.
#[derive(Drop)]
pub struct Port {
    partition: PartitionId,
    name: Name,
    channel: usize,
    end: ChannelEnd,
}

impl Model for Port {
    ghost use Rattle.apex_model.specs.Tables.{Port};
    ghost use Rattle.sampling_ext.specs.Ends.{end_of};

    ghost Value = { Port };

    ghost view = { λ p. record {
      partition = p.partition.0;
      name = p.name;
      channel = p.channel;
      end = end_of p.end;
    } };
}

impl Port {
    fn new(row: &PortRow, channel: usize, end: ChannelEnd) -> Port
        ensures { result ≡ record { partition = row.now.partition.0; name = row.now.name; channel = channel; end = end_of end } }
    {
        Port {
            partition: row.partition,
            name: row.name.copy(),
            channel,
            end,
        }
    }

    /// Whether the port is a partition's.
    pub fn is_of(&self, p: PartitionId) -> bool
        ensures { result ≡ self.now.partition == p.0 }
    {
        self.partition == p
    }

    /// The channel's place in the table.
    pub fn channel(&self) -> usize
        ensures { result ≡ self.now.channel }
    {
        self.channel
    }

    /// Which end of the channel the port is.
    pub fn end(&self) -> ChannelEnd
        ensures { end_of result ≡ self.now.end }
    {
        self.end
    }
}

/// The ports of a table: channel by channel, in each the source and then the destinations.
#[derive(Drop)]
pub struct PortList {
    content: Vec<Port>,
}

impl Model for PortList {
    ghost use Rattle.std.specs.Prelude.{List};
    ghost use Rattle.apex_model.specs.Tables.{Port};

    ghost Value = { List Port };

    ghost view = { λ l. l.content.items };
}

impl PortList {
    fn push(&mut self, port: Port) -> Result<(), OutOfMemory>
        ensures { OnOk result (self.new ≡ self.old ++ port ∷ []) }
    {
        Ok(self.content.push(port)?)
    }

    /// Adds the ports of a channel.
    fn push_ends(&mut self, channel: usize, row: &ChannelRow) -> Result<(), OutOfMemory>
        ensures { OnOk result (self.new ≡ self.old ++ ports_of_channel channel row.now) }
    {
        self.push(Port::new(&row.source, channel, ChannelEnd::Source))?;
        for d in 0..row.destinations.len() {
            let end = ChannelEnd::Destination(d);
            self.push(Port::new(row.destinations.at(d), channel, end))?;
        }
        Ok(())
    }

    /// The ports of a table.
    pub fn of_table(alloc: Global, table: &Table) -> Result<PortList, OutOfMemory>
        ensures { IfOk result (λ list. list ≡ ports table.now) }
    {
        let mut list = PortList {
            content: Vec::new(alloc),
        };
        for (channel, row) in table.channels().iter().enumerate() {
            list.push_ends(channel, row)?;
        }
        Ok(list)
    }

    pub fn len(&self) -> usize
        ensures { result ≡ length self.now }
    {
        self.content.len()
    }

    /// The port of a number.
    pub fn at(&self, k: usize) -> &Port
        requires { k < length self.now }
        ensures { slice_get self.now k ≡ Some result.now }
    {
        &self.content[k]
    }

    /// The number of the port at a place among a partition's, which are counted from 0 on.
    pub fn number_of(&self, p: PartitionId, place: usize) -> Option<usize>
        ensures value { result ≡ numbered_in self.now p.0 place }
        ensures within { IfSome result (λ k. k < length self.now) }
    {
        let mut before = place;
        for (k, port) in self.content.iter().enumerate() {
            if port.is_of(p) {
                if before == 0 {
                    return Some(k);
                }
                before -= 1;
            }
        }
        None
    }

    /// The place among a partition's ports of the first with this name.
    pub fn place_named(&self, p: PartitionId, name: &[u8]) -> Option<usize>
        ensures value { result ≡ named_in self.now p.0 name.now }
        ensures within { IfSome result (λ place. place < length self.now) }
    {
        let mut place = 0;
        for port in &self.content {
            if port.is_of(p) {
                if port.name.bytes() == name {
                    return Some(place);
                }
                place += 1;
            }
        }
        None
    }
}
