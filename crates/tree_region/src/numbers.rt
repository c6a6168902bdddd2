ghost use Rattle.std.specs.Prelude.{◌≡◌, ◌<◌, ◌≤◌, length, take, IfOk, slice_set, slice_index_or, vec_capacity};
ghost use Rattle.tree_region.specs.Numbers.{with_room};

use apex_types::OutOfMemory;
use std::alloc::Global;
use std::marker::Model;

/// The numbers of one file's data blocks of 512 bytes, in the order of its bytes. Number 0 stands for a block of
/// zeros. Memory for all of them is there from the start, and those behind the last one that was put aren't written.
#[derive(Drop)]
pub struct BlockNumbers {
    content: Vec<u32>,
    room: usize,
}

impl Model for BlockNumbers {
    ghost use Rattle.std.specs.Prelude.{◌≤◌, ◌-◌, ◌++◌, List, ℕ, length, replicate, vec_capacity};

    ghost Value = { List ℕ };

    ghost view = { λ t. t.content.items ++ replicate (t.room - length t.content.items) 0 };

    ghost invariant = { λ t. (length t.content.items ≤ t.room) × (t.room ≤ vec_capacity t.content) };
}

/// Appends zeros up to so many numbers.
fn reach(content: &mut Vec<u32>, count: usize)
    requires { count ≤ vec_capacity content.old }
    ensures numbers { content.new.items ≡ with_room count content.old.items }
    ensures room { vec_capacity content.old ≤ vec_capacity content.new }
{
    if content.len() >= count {
        return;
    }
    let Ok(()) = content.resize(count, 0) else {
        unreachable!();
    };
}

/// Replaces numbers where there is room for them.
fn replace(content: &mut Vec<u32>, numbers: &[u32])
    requires { length numbers.now ≤ vec_capacity content.old }
    ensures numbers { content.new.items ≡ numbers.now }
    ensures room { vec_capacity content.old ≤ vec_capacity content.new }
{
    content.clear();
    let Ok(()) = content.extend_from_slice(numbers) else {
        unreachable!();
    };
}

impl BlockNumbers {
    /// These numbers, and 0 behind them up to so many.
    pub fn with_room(
        alloc: Global,
        numbers: &[u32],
        room: usize,
    ) -> Result<BlockNumbers, OutOfMemory>
        ensures { IfOk result (λ list. list ≡ with_room room numbers.now) }
    {
        let room = room.max(numbers.len());
        let mut content = Vec::with_capacity(alloc, room)?;
        replace(&mut content, numbers);
        Ok(BlockNumbers { content, room })
    }

    /// How many blocks there is room for.
    pub fn len(&self) -> usize
        ensures { result ≡ length self.now }
    {
        self.room
    }

    /// The number of a block, by its place in the file. Behind the last one all blocks are of zeros.
    pub fn at(&self, k: usize) -> u32
        ensures { result ≡ slice_index_or self.now k 0 }
    {
        match self.content.get(k) {
            None => 0,
            Some(number) => *number,
        }
    }

    /// Gives a block of the file another number.
    pub fn put(&mut self, k: usize, number: u32)
        requires { k < length self.old }
        ensures { self.new ≡ slice_set self.old k number }
    {
        reach(&mut self.content, k + 1);
        self.content[k] = number;
    }

    /// Takes over the numbers of a list for as many blocks.
    pub fn copy_from(&mut self, numbers: &BlockNumbers)
        requires { length self.old ≡ length numbers.now }
        ensures { self.new ≡ numbers.now }
    {
        replace(&mut self.content, &numbers.content);
    }

    /// Makes all numbers 0 but the first so many. There is room for as many blocks as before.
    pub fn keep_first(&mut self, count: usize)
        ensures { self.new ≡ with_room (length self.old) (take count self.old) }
    {
        self.content.truncate(count);
    }
}
