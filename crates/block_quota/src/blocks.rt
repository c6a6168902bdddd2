// Which blocks of a tree are used.
ghost use Rattle.std.specs.Prelude.{◌≡◌, ◌*◌, ◌≤◌, true, false, length, replicate, IfOk, IfSome, IfNone};
ghost use Rattle.std.specs.Bool.{OnTrue, OnFalse};
ghost use Rattle.block_quota.specs.Blocks.{is_used, with_mark, AllUsedBefore, IsFirstFree, IsLeastFree};

use apex_types::OutOfMemory;
use std::alloc::Global;
use std::marker::Model;

/// The blocks of a tree, by the numbers from 1 on.
#[derive(Drop)]
pub struct Blocks {
    used: Vec<bool>,
    // all places before this one are used
    from: usize,
}

impl Model for Blocks {
    ghost use Rattle.std.specs.Prelude.{Bool, List, length, ◌≤◌};

    ghost Value = { List Bool };

    ghost use Rattle.block_quota.specs.Blocks.{AllUsedBefore};

    ghost view = { λ b. b.used.items };

    ghost invariant = { λ b. (length b.used.items ≤ 131070) × (b.from ≤ length b.used.items) × AllUsedBefore b.used.items b.from };
}

/// The first free place, where all before this one are used.
fn first_free(used: &[bool], from: usize) -> Option<usize>
    requires { AllUsedBefore used.now from }
    ensures { IsFirstFree used.now result }
{
    for k in from..used.len() {
        if !used[k] {
            return Some(k);
        }
    }
    None
}

impl Blocks {
    /// Twice as many blocks as a quota has, all of them free.
    pub fn new(alloc: Global, quota: u16) -> Result<Blocks, OutOfMemory>
        ensures { IfOk result (λ blocks. blocks ≡ replicate (2 * quota) false) }
    {
        let used = vec![in alloc; false; 2 * quota as usize]?;
        Ok(Blocks { used, from: 0 })
    }

    /// Makes all blocks free.
    pub fn clear(&mut self)
        ensures { self.new ≡ replicate (length self.old) false }
    {
        self.used.fill(false);
        self.from = 0;
    }

    /// Takes the free block with the least number; it is used from then on.
    /// None comes exactly where all are used; nothing changes then.
    pub fn take(&mut self) -> Option<u32>
        ensures number { IsLeastFree self.old result }
        ensures taken { IfSome result (λ block. self.new ≡ with_mark self.old block true) }
        ensures full { IfNone result (self.new ≡ self.old) }
    {
        let k = first_free(&self.used, self.from)?;
        self.used[k] = true;
        self.from = k + 1;
        Some(k as u32 + 1)
    }

    /// Marks a block as used. False comes exactly where it was used already; nothing changes then.
    pub fn mark(&mut self, block: u32) -> bool
        requires number { 1 ≤ block }
        requires within { block ≤ length self.old }
        ensures used { OnFalse result (is_used self.old block ≡ true) }
        ensures same { OnFalse result (self.new ≡ self.old) }
        ensures free { OnTrue result (is_used self.old block ≡ false) }
        ensures marked { OnTrue result (self.new ≡ with_mark self.old block true) }
    {
        let k = block as usize - 1;
        if self.used[k] {
            return false;
        }
        self.used[k] = true;
        true
    }

    /// Gives a used block back; it is free from then on.
    pub fn give(&mut self, block: u32)
        requires number { 1 ≤ block }
        requires within { block ≤ length self.old }
        requires used { is_used self.old block ≡ true }
        ensures { self.new ≡ with_mark self.old block false }
    {
        let k = block as usize - 1;
        self.used[k] = false;
        if k < self.from {
            self.from = k;
        }
    }
}
