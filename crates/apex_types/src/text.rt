ghost use Rattle.std.specs.Prelude.{◌≡◌, [], ◌∷◌, ◌++◌, ◌<◌, ◌≤◌, length, IfOk, OnOk, OnErr};

use crate::codes::OutOfMemory;
use arrayvec::ArrayVec;
use std::alloc::Global;
use std::marker::Model;

/// A word of a script: any bytes.
#[derive(Drop)]
pub struct Token {
    content: Vec<u8>,
}

impl Model for Token {
    ghost use Rattle.std.specs.Prelude.{List, ℕ};

    ghost Value = { List ℕ };

    ghost view = { λ t. t.content.items };
}

impl Token {
    /// The word of these bytes.
    pub fn read(alloc: Global, bytes: &[u8]) -> Result<Token, OutOfMemory>
        ensures { IfOk result (λ token. token ≡ bytes.now) }
    {
        let content = Vec::from_slice(alloc, bytes)?;
        Ok(Token { content })
    }

    pub fn bytes(&self) -> &[u8]
        ensures { result.now ≡ self.now }
    {
        self.content.as_slice()
    }
}

/// A list of bytes that grows.
#[derive(Drop)]
pub struct ByteList {
    content: Vec<u8>,
}

impl Model for ByteList {
    ghost use Rattle.std.specs.Prelude.{List, ℕ};

    ghost Value = { List ℕ };

    ghost view = { λ t. t.content.items };
}

impl ByteList {
    pub fn new(alloc: Global) -> ByteList
        ensures { result ≡ [] }
    {
        ByteList {
            content: Vec::new(alloc),
        }
    }

    /// Adds a byte at the end. Without memory the list is as it was.
    pub fn push(&mut self, byte: u8) -> Result<(), OutOfMemory>
        ensures ok { OnOk result (self.new ≡ self.old ++ byte ∷ []) }
        ensures err { OnErr result (self.new ≡ self.old) }
    {
        self.content.push(byte)?;
        Ok(())
    }

    /// Adds bytes at the end. Without memory the list is as it was.
    pub fn extend(&mut self, bytes: &[u8]) -> Result<(), OutOfMemory>
        ensures ok { OnOk result (self.new ≡ self.old ++ bytes.now) }
        ensures err { OnErr result (self.new ≡ self.old) }
    {
        self.content.extend_from_slice(bytes)?;
        Ok(())
    }

    /// An equal list.
    pub fn copy(&self) -> Result<ByteList, OutOfMemory>
        ensures { IfOk result (λ list. list ≡ self.now) }
    {
        let content = Vec::from_slice(*self.content.allocator(), self.content.as_slice())?;
        Ok(ByteList { content })
    }

    pub fn bytes(&self) -> &[u8]
        ensures { result.now ≡ self.now }
    {
        self.content.as_slice()
    }

    /// The list of these bytes.
    pub fn from_vec(content: Vec<u8>) -> ByteList
        ensures { result ≡ content.items }
    {
        ByteList { content }
    }

    /// The bytes of the list.
    pub fn into_vec(self) -> Vec<u8>
        ensures { result.items ≡ self }
    {
        self.content
    }
}

/// The data of a reply: at most 4,096 bytes.
#[derive(Drop)]
pub struct Bytes {
    content: ArrayVec<u8, 4096>,
}

impl Model for Bytes {
    ghost use Rattle.std.specs.Prelude.{List, ℕ, length, ◌≤◌};

    ghost Value = { List ℕ };

    ghost view = { λ t. t.content.items };

    ghost invariant = { λ t. length t.content.items ≤ 4096 };
}

impl Bytes {
    pub fn new() -> Bytes
        ensures { result ≡ [] }
    {
        Bytes {
            content: ArrayVec::new(),
        }
    }

    pub fn push(&mut self, byte: u8)
        requires { length self.old < 4096 }
        ensures { self.new ≡ self.old ++ byte ∷ [] }
    {
        self.content.push(byte);
    }

    pub fn bytes(&self) -> &[u8]
        ensures value { result.now ≡ self.now }
        ensures few { length self.now ≤ 4096 }
    {
        let _content = &self.content;
        self.content.as_slice()
    }
}
