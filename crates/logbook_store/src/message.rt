// A message in memory.
ghost use Rattle.std.specs.Prelude.{◌≡◌, ◌≤◌, length};

use apex_types::Bytes;
use arrayvec::ArrayVec;
use std::marker::Model;

/// A message of a logbook: at most 480 bytes.
#[derive(Drop)]
pub(crate) struct Message {
    content: ArrayVec<u8, 480>,
}

impl Model for Message {
    ghost use Rattle.std.specs.Prelude.{List, ℕ, length, ◌≤◌};

    ghost Value = { List ℕ };

    ghost view = { λ t. t.content.items };

    ghost invariant = { λ t. length t.content.items ≤ 480 };
}

/// An empty message for the unused room of a list of fixed size.
impl Default for Message {
    fn default() -> Message {
        Message {
            content: ArrayVec::new(),
        }
    }
}

fn copied(bytes: &[u8]) -> Bytes
    requires { length bytes.now ≤ 480 }
    ensures { result ≡ bytes.now }
{
    let mut content = Bytes::new();
    for b in bytes {
        content.push(*b);
    }
    content
}

impl Message {
    /// The message of these bytes.
    pub(crate) fn of(bytes: &[u8]) -> Message
        requires { length bytes.now ≤ 480 }
        ensures { result ≡ bytes.now }
    {
        let mut content = ArrayVec::new();
        for b in bytes {
            content.push(*b);
        }
        Message { content }
    }

    /// The bytes of the message.
    pub(crate) fn bytes(&self) -> Bytes
        ensures { result ≡ self.now }
    {
        let _content = &self.content;
        copied(self.content.as_slice())
    }
}
