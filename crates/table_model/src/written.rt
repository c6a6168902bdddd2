//! Rows of a module table as they are written: with names in the place of indexes.

ghost use Rattle.std.specs.Prelude.{◌≡◌, [], ◌∷◌, ◌++◌, ◌<◌, ◌≤◌, length};

use apex_types::Name;
use arrayvec::ArrayVec;
use std::marker::Model;

/// The names of a tree's readers: at most 15.
#[derive(Drop)]
pub struct ReaderNames {
    content: ArrayVec<Name, 15>,
}

impl Model for ReaderNames {
    ghost use Rattle.std.specs.Prelude.{List, ℕ, length, ◌≤◌};

    ghost Value = { List (List ℕ) };

    ghost view = { λ t. t.content.items };

    ghost invariant = { λ t. length t.content.items ≤ 15 };
}

impl ReaderNames {
    /// No names.
    pub fn new() -> ReaderNames
        ensures { result ≡ [] }
    {
        ReaderNames {
            content: ArrayVec::new(),
        }
    }

    /// Adds a name at the end.
    pub fn push(&mut self, name: Name)
        requires { length self.old < 15 }
        ensures { self.new ≡ self.old ++ name ∷ [] }
    {
        self.content.push(name);
    }

    /// The names in their order.
    pub fn as_slice(&self) -> &[Name]
        ensures value { result.now ≡ self.now }
        ensures few { length self.now ≤ 15 }
    {
        let _content = &self.content;
        self.content.as_slice()
    }
}

/// A port as it is written: the names of its partition and of the port.
#[derive(Default, Drop)]
pub struct WrittenPort {
    pub partition: Name,
    pub port: Name,
}

impl WrittenPort {
    /// An equal port.
    pub fn copy(&self) -> WrittenPort
        ensures { result ≡ self.now }
    {
        WrittenPort {
            partition: self.partition.copy(),
            port: self.port.copy(),
        }
    }
}

/// The destinations of a channel: at most 8.
#[derive(Drop)]
pub struct PortNames {
    content: ArrayVec<WrittenPort, 8>,
}

impl Model for PortNames {
    ghost use Rattle.std.specs.Prelude.{List, length, ◌≤◌};
    ghost use Rattle.table_model.specs.declared.written.WrittenPort.{WrittenPort};

    ghost Value = { List WrittenPort };

    ghost view = { λ t. t.content.items };

    ghost invariant = { λ t. length t.content.items ≤ 8 };
}

impl PortNames {
    /// No ports.
    pub fn new() -> PortNames
        ensures { result ≡ [] }
    {
        PortNames {
            content: ArrayVec::new(),
        }
    }

    /// Adds a port at the end.
    pub fn push(&mut self, port: WrittenPort)
        requires { length self.old < 8 }
        ensures { self.new ≡ self.old ++ port ∷ [] }
    {
        self.content.push(port);
    }

    /// The ports in their order.
    pub fn as_slice(&self) -> &[WrittenPort]
        ensures value { result.now ≡ self.now }
        ensures few { length self.now ≤ 8 }
    {
        let _content = &self.content;
        self.content.as_slice()
    }
}

/// A tree as it is written.
#[derive(Drop)]
pub struct WrittenTree {
    pub volume: Name,
    pub owner: Name,
    pub readers: ReaderNames,
    /// In blocks.
    pub quota: u16,
    pub files: u8,
    pub directories: u8,
    /// In blocks.
    pub dirty: u8,
}

/// A logbook as it is written.
#[derive(Drop)]
pub struct WrittenLogbook {
    pub name: Name,
    pub partition: Name,
    /// In bytes.
    pub message_size: u16,
    pub logged: u16,
    pub in_progress: u8,
}

/// A channel as it is written.
#[derive(Drop)]
pub struct WrittenChannel {
    pub source: WrittenPort,
    pub destinations: PortNames,
    /// In bytes.
    pub size: u16,
    /// In ticks.
    pub refresh: u32,
}
