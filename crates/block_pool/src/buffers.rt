ghost use Rattle.std.specs.Prelude.{◌≡◌, ◌<◌, length, replicate, IfOk};
ghost use Rattle.std.specs.Borrow.{sem};

use apex_types::{FileNode, OutOfMemory};
use std::alloc::Global;
use std::marker::Model;

/// A block of a file.
#[derive(Clone, Copy)]
pub struct Block {
    pub file: FileNode,
    pub index: u32,
}

/// The bytes of one block.
#[derive(Drop)]
pub struct Buffer {
    bytes: Vec<u8>,
}

impl Model for Buffer {
    ghost use Rattle.std.specs.Prelude.{List, ℕ};

    ghost Value = { List ℕ };

    ghost view = { λ b. b.bytes.items };
}

impl Buffer {
    ghost use Rattle.block_pool.specs.Lending.{LendsBytes};

    /// 512 bytes of zero.
    pub fn new(alloc: Global) -> Result<Buffer, OutOfMemory>
        ensures { IfOk result (λ buffer. buffer ≡ replicate 512 0) }
    {
        let bytes = vec![in alloc; 0; 512]?;
        Ok(Buffer { bytes })
    }

    pub fn bytes(&self) -> &[u8]
        ensures { result.now ≡ self.now }
    {
        &self.bytes
    }

    pub fn bytes_mut(&mut self) -> &mut [u8]
        ensures* lends { sem 𝓛 (LendsBytes self.entry result) }
        ensures value { result.now ≡ self.old }
    {
        &mut self.bytes
    }
}
