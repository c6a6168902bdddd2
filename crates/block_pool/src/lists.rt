ghost use Rattle.std.specs.Prelude.{◌≡◌, ◌<◌, ◌-◌, length, IfOk, IfSome};
ghost use Rattle.block_pool.specs.Lists.{HoldsEachOnce, all_in_first, first_of, list_at, moved, moved_all, node_count};
ghost use Rattle.block_pool.specs.Links.{IsLinked};

use crate::links::{move_list, move_node, place_before, place_behind, push_link};
use apex_types::OutOfMemory;
use std::alloc::Global;
use std::marker::Model;

/// Nodes with the numbers from 0 on, in lists: each node is in one list, at one place.
#[derive(Drop)]
pub struct IndexLists {
    nodes: u32,
    lists: u32,
    // The place behind each node, and behind the anchor of each list: `nodes + list`.
    next: Vec<u32>,
    previous: Vec<u32>,
}

impl Model for IndexLists {
    ghost use Rattle.std.specs.Prelude.{List, ℕ};
    ghost use Rattle.block_pool.specs.Links.{IsLinked, lists_of};

    ghost Value = { List (List ℕ) };

    ghost view = { λ a. lists_of a.nodes a.lists a.next.items };

    ghost invariant = { λ a. IsLinked a.nodes a.lists a.next.items a.previous.items (lists_of a.nodes a.lists a.next.items) };
}

impl IndexLists {
    /// All nodes in list 0, in order, and the other lists empty.
    pub fn new(alloc: Global, nodes: u32, lists: u32) -> Result<IndexLists, OutOfMemory>
        requires { 0 < lists }
        ensures fresh { IfOk result (λ made. made ≡ all_in_first nodes lists) }
        ensures nodes { IfOk result (λ made. node_count made ≡ nodes) }
        ensures lists { IfOk result (λ made. length made ≡ lists) }
        ensures each_once { IfOk result (λ made. HoldsEachOnce made) }
    {
        let Some(places) = nodes.checked_add(lists) else {
            return Err(OutOfMemory);
        };
        let mut next = Vec::new(alloc);
        let mut previous = Vec::new(alloc);
        for k in 0..places {
            push_link(&mut next, place_behind(nodes, k))?;
            push_link(&mut previous, place_before(nodes, k))?;
        }
        Ok(IndexLists {
            nodes,
            lists,
            next,
            previous,
        })
    }

    /// The first node of a list.
    pub fn front(&self, list: u32) -> Option<u32>
        requires { list < length self.now }
        ensures first { result ≡ first_of (list_at self.now list) }
        ensures within { IfSome result (λ node. node < node_count self.now) }
        ensures each_once { HoldsEachOnce self.now }
    {
        let first = self.next[(self.nodes + list) as usize];
        if first < self.nodes {
            Some(first)
        } else {
            None
        }
    }

    /// Moves a node out of its list and to the end of a list, which may be the same one.
    pub fn move_to(&mut self, node: u32, list: u32)
        requires node_within { node < node_count self.old }
        requires list_within { list < length self.old }
        ensures moved { self.new ≡ moved node list self.old }
        ensures each_once { HoldsEachOnce self.new }
        ensures nodes { node_count self.new ≡ node_count self.old }
        ensures lists { length self.new ≡ length self.old }
    {
        move_node(&mut self.next, &mut self.previous, self.nodes, node, list);
    }

    /// Moves all nodes of a list, in their order, to the end of another. Nothing changes where both are one list.
    pub fn move_all(&mut self, from: u32, to: u32)
        requires from_within { from < length self.old }
        requires to_within { to < length self.old }
        ensures moved { self.new ≡ moved_all from to self.old }
        ensures each_once { HoldsEachOnce self.new }
        ensures nodes { node_count self.new ≡ node_count self.old }
        ensures lists { length self.new ≡ length self.old }
    {
        let nodes = self.nodes;
        if from == to {
            return;
        }
        move_list(&mut self.next, &mut self.previous, nodes, from, to);
    }
}
