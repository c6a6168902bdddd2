// A channel: its message, and which destinations have read it.
ghost use Rattle.std.specs.Prelude.{◌≡◌, ◌≤◌, length, map, option_map, IfSome, false};
ghost use Rattle.apex_model.specs.Channels.{sampled, updated_at, consumed_at};
ghost use Rattle.apex_model.specs.Durable.{unused_channel};

use apex_types::{ChannelRow, Updated};
use arrayvec::ArrayVec;
use std::marker::Model;

/// The message of a channel, if it has one, with the time when it was written, and of each destination whether it read it.
#[derive(Drop)]
pub struct Channel {
    bytes: ArrayVec<u8, 1024>,
    written: Option<u32>,
    consumed: ArrayVec<bool, 8>,
}

impl Model for Channel {
    ghost use Rattle.std.specs.Prelude.{◌≤◌, length, option_map};
    ghost use Rattle.apex_model.specs.Channels.{Channel};

    ghost Value = { Channel };

    ghost view = { λ c. record {
      sample = option_map (λ time. record { bytes = c.bytes.items; time = time }) c.written;
      consumed = c.consumed.items;
    } };

    ghost invariant = { λ c. length c.bytes.items ≤ 1024 };
}

/// Takes back all marks.
fn take_back(marks: &mut [bool])
    ensures { marks.new ≡ map (λ mark. false) marks.old }
{
    for mark in marks.iter_mut() {
        *mark = false;
    }
}

impl Channel {
    /// A channel of the table that never had a message.
    pub fn unused(row: &ChannelRow) -> Channel
        ensures { result ≡ unused_channel row.now }
    {
        let mut consumed = ArrayVec::new();
        for _ in 0..row.destinations.len() {
            consumed.push(false);
        }
        Channel {
            bytes: ArrayVec::new(),
            written: None,
            consumed,
        }
    }

    /// Replaces the message by this one, which is new for each destination.
    pub fn write(&mut self, now: u32, bytes: &[u8])
        requires { length bytes.now ≤ 1024 }
        ensures { self.new ≡ sampled self.old now bytes.now }
    {
        self.bytes.clear();
        // 1,024 bytes have room
        let _ = self.bytes.try_extend_from_slice(bytes);
        self.written = Some(now);
        take_back(self.consumed.as_mut_slice());
    }

    /// When the message was written, if there is one.
    pub fn time(&self) -> Option<u32>
        ensures { result ≡ option_map (λ sample. sample.time) self.now.sample }
    {
        self.written
    }

    /// The message, where there is one: at most 1,024 bytes.
    pub fn bytes(&self) -> &[u8]
        ensures value { IfSome self.now.sample (λ sample. result.now ≡ sample.bytes) }
        ensures few { length result.now ≤ 1024 }
    {
        let _bytes = &self.bytes;
        self.bytes.as_slice()
    }

    /// Whether a destination has read the message.
    pub fn updated(&self, d: usize) -> Updated
        ensures { result ≡ updated_at self.now d }
    {
        match self.consumed.as_slice().get(d) {
            Some(true) => Updated::ConsumedMessage,
            _ => Updated::NewMessage,
        }
    }

    /// A destination has read the message.
    pub fn consume(&mut self, d: usize)
        ensures { self.new ≡ consumed_at self.old d }
    {
        if d < self.consumed.len() {
            self.consumed[d] = true;
        }
    }
}
