//! Nodes in lists, and buffers that are taken and released.
ghost use Rattle.std.specs.Prelude.{◌≡◌, ◌<◌, ◌+◌, length};
ghost use Rattle.block_pool.specs.Lists.{node_count};

use apex_types::{FileNode, OutOfMemory};
use block_pool::{IndexLists, Pool};
use std::alloc::Global;
use std::test::Fail;

const A: FileNode = FileNode(0);

const B: FileNode = FileNode(1);

/// The first node of list 1, which goes to the end of list 2.
fn next_node(lists: &mut IndexLists) -> Option<u32>
    requires { length lists.old ≡ 3 }
    ensures { length lists.new ≡ 3 }
{
    let node = lists.front(1)?;
    lists.move_to(node, 2);
    Some(node)
}

/// Whether list 1 begins with these nodes.
fn drains(lists: &mut IndexLists, expected: &[u32]) -> bool
    requires { length lists.old ≡ 3 }
{
    for node in expected {
        if next_node(lists) != Some(*node) {
            return false;
        }
    }
    true
}

/// Whether nodes stand in the order in which they were moved, one by one and as a list.
fn moves_keep_order(alloc: Global) -> Result<bool, OutOfMemory> {
    let mut lists = IndexLists::new(alloc, 5, 3)?;
    lists.move_to(3, 1);
    lists.move_to(0, 1);
    lists.move_to(3, 1);
    lists.move_to(1, 0);
    lists.move_all(0, 0);
    lists.move_all(0, 1);
    Ok(lists.front(0).is_none() && drains(&mut lists, &[0, 3, 2, 4, 1]))
}

/// The buffer that holds a block; where none does, one is taken.
fn held(pool: &mut Pool, file: FileNode, index: u32) -> Option<u32>
    requires { file.0 + 1 < length pool.old.lists }
    ensures buffers { node_count pool.new.lists ≡ node_count pool.old.lists }
    ensures files { length pool.new.lists ≡ length pool.old.lists }
{
    match pool.find(file, index) {
        Some(node) => Some(node),
        None => pool.take(file, index),
    }
}

/// The buffers that hold blocks of two files, of two buffers, before and after one was released, and then those of B.
fn buffers_held(alloc: Global) -> Result<[Option<u32>; 7], OutOfMemory> {
    let mut pool = Pool::new(alloc, 2, 2)?;
    let first = held(&mut pool, A, 4);
    let second = held(&mut pool, B, 4);
    let found = held(&mut pool, A, 4);
    let full = held(&mut pool, A, 5);
    pool.release(0);
    let released = held(&mut pool, A, 5);
    pool.release_file(B);
    let other = held(&mut pool, A, 6);
    Ok([first, second, found, full, released, other, pool.front(A)])
}

/// Whether a buffer's bytes stay until they are written again, and those of others stay as they were.
fn bytes_stay(alloc: Global) -> Result<bool, OutOfMemory> {
    let mut pool = Pool::new(alloc, 2, 1)?;
    pool.bytes_mut(1)[511] = 7;
    pool.release(1);
    pool.release_file(A);
    Ok(pool.bytes(1)[511] == 7 && pool.bytes(0)[511] == 0 && pool.free_count() == 2)
}

#[test]
fn nodes_stand_in_the_order_of_their_moves(rt: HostRuntime) -> Result<(), Fail> {
    assert!(rt; moves_keep_order(rt.alloc())?);
    Ok(())
}

#[test]
fn the_first_free_buffer_is_taken(rt: HostRuntime) -> Result<(), Fail> {
    let expected = [Some(0), Some(1), Some(0), None, Some(0), Some(1), Some(0)];
    assert!(rt; buffers_held(rt.alloc())? == expected);
    Ok(())
}

#[test]
fn bytes_stay_until_they_are_written(rt: HostRuntime) -> Result<(), Fail> {
    assert!(rt; bytes_stay(rt.alloc())?);
    Ok(())
}
