// The charges of the files of a tree, with their sum.
ghost use Rattle.std.specs.Prelude.{◌≡◌, ◌<◌, ◌≤◌, length, replicate, nat_le, IfOk};
ghost use Rattle.std.specs.Bool.{OnTrue, OnFalse};
ghost use Rattle.block_quota.specs.Quota.{charge_of, total, with_charge, raised_to};

use apex_types::{FileNode, OutOfMemory};
use std::alloc::Global;
use std::marker::Model;

/// The blocks that each file of a tree is charged for: together never more than the quota.
#[derive(Drop)]
pub struct Charges {
    by_file: Vec<u32>,
    quota: u16,
    sum: u32,
}

impl Model for Charges {
    ghost use Rattle.std.specs.Prelude.{◌≡◌, ◌≤◌, sum_by};
    ghost use Rattle.block_quota.specs.Quota.{ChargesValue};

    ghost Value = { ChargesValue };

    ghost view = { λ c. record { by_file = c.by_file.items; quota = c.quota } };

    ghost invariant = { λ c. (c.sum ≡ sum_by (λ blocks. blocks) c.by_file.items) × (c.sum ≤ c.quota) };
}

impl Charges {
    /// So many files, each of which is charged for nothing.
    pub fn new(alloc: Global, quota: u16, files: u8) -> Result<Charges, OutOfMemory>
        ensures { IfOk result (λ charges. charges ≡ record { by_file = replicate files 0; quota = quota }) }
    {
        let mut by_file = Vec::new(alloc);
        for _ in 0..files {
            by_file.push(0)?;
        }
        Ok(Charges {
            by_file,
            quota,
            sum: 0,
        })
    }

    /// The blocks that a file is charged for.
    pub fn of(&self, file: FileNode) -> u32
        requires { file.0 < length self.now.by_file }
        ensures { result ≡ charge_of self.now file.0 }
    {
        self.by_file[file.0 as usize]
    }

    /// The blocks of all files together.
    pub fn total(&self) -> u32
        ensures value { result ≡ total self.now }
        ensures within { total self.now ≤ self.now.quota }
    {
        self.sum
    }

    /// Whether the quota has room for at least so many blocks for a file.
    pub fn fits(&self, file: FileNode, blocks: u32) -> bool
        requires { file.0 < length self.now.by_file }
        ensures { result ≡ nat_le (total (raised_to self.now file.0 blocks)) self.now.quota }
    {
        let had = self.by_file[file.0 as usize];
        let more = blocks.saturating_sub(had);
        self.sum as u64 + more as u64 <= self.quota as u64
    }

    /// Charges a file for at least so many blocks.
    /// False comes exactly where the quota has no room for them; nothing changes then.
    pub fn raise(&mut self, file: FileNode, blocks: u32) -> bool
        requires { file.0 < length self.old.by_file }
        ensures room { result ≡ nat_le (total (raised_to self.old file.0 blocks)) self.old.quota }
        ensures raised { OnTrue result (self.new ≡ raised_to self.old file.0 blocks) }
        ensures same { OnFalse result (self.new ≡ self.old) }
    {
        let had = self.by_file[file.0 as usize];
        let more = blocks.saturating_sub(had);
        let all = self.sum as u64 + more as u64;
        if all > self.quota as u64 {
            return false;
        }
        self.by_file[file.0 as usize] = had + more;
        self.sum = all as u32;
        true
    }

    /// Charges a file for fewer blocks, or as many.
    pub fn settle(&mut self, file: FileNode, blocks: u32)
        requires entry { file.0 < length self.old.by_file }
        requires fewer { blocks ≤ charge_of self.old file.0 }
        ensures { self.new ≡ with_charge self.old file.0 blocks }
    {
        let had = self.by_file[file.0 as usize];
        self.by_file[file.0 as usize] = blocks;
        self.sum -= had - blocks;
    }
}
