ghost use Rattle.std.specs.Prelude.{◌≡◌, ◌≤◌};

use std::marker::Model;

/// What the durable body has of a file: its size in bytes, at most 1,048,576, and its change count.
#[derive(Drop)]
pub struct Stored {
    size: u32,
    changes: u32,
}

impl Model for Stored {
    ghost use Rattle.std.specs.Prelude.{ℕ, ◌≤◌};

    ghost Value = { ℕ × ℕ };

    ghost view = { λ s. (s.size, s.changes) };

    ghost invariant = { λ s. s.size ≤ 1048576 };
}

impl Stored {
    /// A size and a change count.
    pub fn new(size: u32, changes: u32) -> Stored
        requires { size ≤ 1048576 }
        ensures { result ≡ (size, changes) }
    {
        Stored { size, changes }
    }

    /// Of a new file nothing is stored.
    pub fn nothing() -> Stored
        ensures { result ≡ (0, 0) }
    {
        Stored {
            size: 0,
            changes: 0,
        }
    }

    /// The size and the change count.
    pub fn both(&self) -> (u32, u32)
        ensures value { result ≡ self.now }
        ensures fits { self.now.0 ≤ 1048576 }
    {
        let _size = &self.size;
        (self.size, self.changes)
    }

    /// The same size and change count.
    pub fn copy(&self) -> Stored
        ensures { result ≡ self.now }
    {
        let (size, changes) = self.both();
        Stored::new(size, changes)
    }
}
