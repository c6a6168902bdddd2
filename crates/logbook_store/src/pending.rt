// The messages in progress of one logbook.
ghost use Rattle.std.specs.Prelude.{◌≡◌, ◌+◌, ◌-◌, ◌<◌, ◌≤◌, ◌++◌, ◌∷◌, [], length, take, drop, slice_get, Some};

use crate::message::Message;
use apex_types::Bytes;
use arrayvec::ArrayVec;
use std::marker::Model;

/// Messages in progress, oldest first: at most 16.
#[derive(Drop)]
pub(crate) struct Pending {
    content: ArrayVec<Message, 16>,
}

impl Model for Pending {
    ghost use Rattle.std.specs.Prelude.{List, ℕ, length, ◌≤◌};

    ghost Value = { List (List ℕ) };

    ghost view = { λ t. t.content.items };

    ghost invariant = { λ t. length t.content.items ≤ 16 };
}

impl Pending {
    /// No messages.
    pub(crate) fn new() -> Pending
        ensures { result ≡ [] }
    {
        Pending {
            content: ArrayVec::new(),
        }
    }

    /// How many messages there are.
    pub(crate) fn count(&self) -> u32
        ensures value { result ≡ length self.now }
        ensures few { length self.now ≤ 16 }
    {
        let _content = &self.content;
        self.content.len() as u32
    }

    /// Adds a message as the newest.
    pub(crate) fn push(&mut self, bytes: &[u8])
        requires room { length self.old < 16 }
        requires few { length bytes.now ≤ 480 }
        ensures { self.new ≡ self.old ++ bytes.now ∷ [] }
    {
        self.content.push(Message::of(bytes));
    }

    /// Puts a message in place of the newest.
    pub(crate) fn replace_newest(&mut self, bytes: &[u8])
        requires some { 0 < length self.old }
        requires few { length bytes.now ≤ 480 }
        ensures { self.new ≡ take (length self.old - 1) self.old ++ bytes.now ∷ [] }
    {
        self.content.pop();
        self.content.push(Message::of(bytes));
    }

    /// The message at a place, counted from the oldest, from 0 on.
    pub(crate) fn at(&self, place: u32) -> Bytes
        requires { place < length self.now }
        ensures { slice_get self.now place ≡ Some result }
    {
        self.content[place as usize].bytes()
    }

    /// Takes the oldest message out.
    pub(crate) fn remove_oldest(&mut self)
        requires { 0 < length self.old }
        ensures { self.new ≡ drop 1 self.old }
    {
        self.content.remove(0);
    }
}
