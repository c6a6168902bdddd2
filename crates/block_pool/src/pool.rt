ghost use Rattle.std.specs.Prelude.{◌≡◌, ◌+◌, ◌<◌, ◌≤◌, length, map, count_by, is_none, option_map, None, replicate, slice_index_or, position, IfOk, IfSome, IfNone};
ghost use Rattle.std.specs.Borrow.{sem};
ghost use Rattle.block_pool.specs.Lists.{first_of, list_at, node_count};
ghost use Rattle.block_pool.specs.Buffers.{AreBuffers, all_free, block_at, holds_block, node_of, with_file_released, with_released, with_taken, without_file};

use crate::buffers::{Block, Buffer};
use crate::lists::IndexLists;
use apex_types::{FileNode, OutOfMemory};
use std::alloc::Global;
use std::marker::Model;

/// Buffers for the blocks of files, a fixed number of them.
#[derive(Drop)]
pub struct Pool {
    // List 0 has the free nodes, and list f + 1 those of file f.
    lists: IndexLists,
    blocks: Vec<Option<Block>>,
    contents: Vec<Buffer>,
}

impl Model for Pool {
    ghost use Rattle.block_pool.specs.Buffers.{Buffers, AreBuffers};

    ghost Value = { Buffers };

    ghost view = { λ p. record { lists = p.lists; blocks = p.blocks.items; contents = p.contents.items } };

    ghost invariant = { λ p. AreBuffers (record { lists = p.lists; blocks = p.blocks.items; contents = p.contents.items }) };
}

impl Pool {
    ghost use Rattle.block_pool.specs.PoolLending.{LendsNode};

    /// Free buffers, with bytes of zero.
    pub fn new(alloc: Global, buffers: u32, files: u8) -> Result<Pool, OutOfMemory>
        ensures fresh { IfOk result (λ pool. pool ≡ all_free buffers files) }
        ensures buffers { IfOk result (λ pool. node_count pool.lists ≡ buffers) }
        ensures files { IfOk result (λ pool. length pool.lists ≡ files + 1) }
    {
        let lists = IndexLists::new(alloc, buffers, u32::from(files) + 1)?;
        let mut blocks = Vec::new(alloc);
        let mut contents = Vec::new(alloc);
        for _ in 0..buffers {
            blocks.push(None)?;
            contents.push(Buffer::new(alloc)?)?;
        }
        Ok(Pool {
            lists,
            blocks,
            contents,
        })
    }

    /// How many buffers are free.
    pub fn free_count(&self) -> u32
        ensures { result ≡ length (list_at self.now.lists 0) }
    {
        count_free(&self.blocks) as u32
    }

    /// What holds of every pool; a caller learns it here.
    pub fn stand(&self)
        ensures { AreBuffers self.now }
    {
        let _blocks = &self.blocks;
    }

    /// The node that holds a block.
    pub fn find(&self, file: FileNode, index: u32) -> Option<u32>
        ensures found { result ≡ node_of self.now file index }
        ensures within { IfSome result (λ node. node < node_count self.now.lists) }
        ensures sound { AreBuffers self.now }
    {
        match place_of(&self.blocks, file, index) {
            Some(node) => Some(node as u32),
            None => None,
        }
    }

    /// The index of the block that a node holds.
    pub fn index_of(&self, node: u32) -> Option<u32>
        requires { node < node_count self.now.lists }
        ensures { result ≡ option_map (λ block. block.index) (block_at self.now.blocks node) }
    {
        match self.blocks[node as usize] {
            Some(block) => Some(block.index),
            None => None,
        }
    }

    /// Takes the first free buffer for a block, with the bytes that it has. Where none is free, nothing changes.
    pub fn take(&mut self, file: FileNode, index: u32) -> Option<u32>
        requires file_within { file.0 + 1 < length self.old.lists }
        requires absent { node_of self.old file index ≡ None }
        ensures first { result ≡ first_of (list_at self.old.lists 0) }
        ensures taken { IfSome result (λ node. self.new ≡ with_taken self.old node file index) }
        ensures full { IfNone result (self.new ≡ self.old) }
        ensures within { IfSome result (λ node. node < node_count self.old.lists) }
        ensures buffers { node_count self.new.lists ≡ node_count self.old.lists }
        ensures files { length self.new.lists ≡ length self.old.lists }
    {
        let node = self.lists.front(0)?;
        self.lists.move_to(node, u32::from(file.0) + 1);
        self.blocks[node as usize] = Some(Block { file, index });
        Some(node)
    }

    /// The buffer of a file that was taken first.
    pub fn front(&self, file: FileNode) -> Option<u32>
        requires { file.0 + 1 < length self.now.lists }
        ensures first { result ≡ first_of (list_at self.now.lists (file.0 + 1)) }
        ensures within { IfSome result (λ node. node < node_count self.now.lists) }
        ensures sound { AreBuffers self.now }
    {
        self.lists.front(u32::from(file.0) + 1)
    }

    /// Makes a buffer free, behind the others that are.
    pub fn release(&mut self, node: u32)
        requires { node < node_count self.old.lists }
        ensures released { self.new ≡ with_released self.old node }
        ensures buffers { node_count self.new.lists ≡ node_count self.old.lists }
        ensures files { length self.new.lists ≡ length self.old.lists }
    {
        self.lists.move_to(node, 0);
        self.blocks[node as usize] = None;
    }

    /// Makes all buffers of a file free, behind the others that are.
    pub fn release_file(&mut self, file: FileNode)
        requires { file.0 + 1 < length self.old.lists }
        ensures released { self.new ≡ with_file_released self.old file }
        ensures buffers { node_count self.new.lists ≡ node_count self.old.lists }
        ensures files { length self.new.lists ≡ length self.old.lists }
    {
        self.lists.move_all(u32::from(file.0) + 1, 0);
        forget_file(&mut self.blocks, file);
    }

    /// The bytes of a node.
    pub fn bytes(&self, node: u32) -> &[u8]
        requires { node < node_count self.now.lists }
        ensures value { result.now ≡ slice_index_or self.now.contents node (replicate 512 0) }
        ensures size { length result.now ≡ 512 }
    {
        self.contents[node as usize].bytes()
    }

    /// The bytes of a node, to be written.
    pub fn bytes_mut(&mut self, node: u32) -> &mut [u8]
        requires { node < node_count self.old.lists }
        ensures* lends { sem 𝓛 (LendsNode self.entry node result) }
        ensures value { result.now ≡ slice_index_or self.old.contents node (replicate 512 0) }
        ensures size { length result.now ≡ 512 }
    {
        let buffer = &mut self.contents[node as usize];
        buffer.bytes_mut()
    }
}

/// Whether a node holds a block.
fn holds(block: &Option<Block>, file: FileNode, index: u32) -> bool
    ensures { result ≡ holds_block file index block.now }
{
    match block {
        Some(held) => held.file.0 == file.0 && held.index == index,
        None => false,
    }
}

/// The first node that holds a block.
fn place_of(blocks: &[Option<Block>], file: FileNode, index: u32) -> Option<usize>
    ensures found { result ≡ position (holds_block file index) blocks.now }
    ensures within { IfSome result (λ node. node < length blocks.now) }
{
    blocks.iter().position(|block| holds(block, file, index))
}

/// How many nodes hold no block.
fn count_free(blocks: &[Option<Block>]) -> usize
    ensures count { result ≡ count_by is_none blocks.now }
    ensures within { result ≤ length blocks.now }
{
    blocks.iter().filter(|block| block.is_none()).count()
}

/// A node of a file holds no block any more.
fn forget(block: &mut Option<Block>, file: FileNode)
    ensures { block.new ≡ without_file file block.old }
{
    if let Some(held) = block {
        if held.file.0 == file.0 {
            *block = None;
        }
    }
}

/// The nodes of a file hold no block any more.
fn forget_file(blocks: &mut [Option<Block>], file: FileNode)
    ensures { blocks.new ≡ map (without_file file) blocks.old }
{
    for block in blocks.iter_mut() {
        forget(block, file);
    }
}
