ghost use Rattle.std.specs.Prelude.{◌≡◌, ◌<◌, ◌≤◌, length, replicate, None, IfOk, IfSome, IsTrue, position, count_by, is_some, option_map, slice_set};
ghost use Rattle.apex_types.specs.Naming.{is_name};
ghost use Rattle.file_tree.specs.Table.{stored_at as stored_at_place, entry_with};
ghost use Rattle.file_tree.specs.Entries.{slot};
ghost use Rattle.apex_model.specs.Handles.{free_from};
ghost use Rattle.file_tree.specs.Table.{is_child};

use crate::stored::Stored;
use apex_types::{DirNode, Name, OutOfMemory};
use std::alloc::Global;

/// An entry in use: a name in a directory, and of a file what the durable body has of it.
#[derive(Drop)]
pub struct Entry {
    pub parent: DirNode,
    pub name: Name,
    pub stored: Stored,
}

impl Entry {
    /// An entry of this name in a directory, of which this is stored.
    pub fn new(parent: DirNode, name: Name, stored: Stored) -> Entry
        ensures value { result ≡ record { parent = parent; name = name; stored = stored } }
        ensures name { IsTrue (is_name name) }
    {
        let _bytes = name.bytes();
        Entry {
            parent,
            name,
            stored,
        }
    }
}

/// So many unused entries.
pub fn unused_entries(alloc: Global, count: u8) -> Result<Vec<Option<Entry>>, OutOfMemory>
    ensures { IfOk result (λ entries. entries.items ≡ replicate count None) }
{
    let mut entries = Vec::new(alloc);
    for _ in 0..count {
        let Ok(()) = entries.push(None) else {
            return Err(OutOfMemory);
        };
    }
    Ok(entries)
}

/// The least unused place.
pub fn free_place(entries: &[Option<Entry>]) -> Option<usize>
    ensures least { result ≡ free_from 0 entries.now }
    ensures within { IfSome result (λ k. k < length entries.now) }
{
    for (k, place) in entries.iter().enumerate() {
        if place.is_none() {
            return Some(k);
        }
    }
    None
}

/// Whether a place has the entry of this name in this directory.
fn has_child(place: &Option<Entry>, parent: DirNode, name: &Name) -> bool
    ensures { result ≡ is_child parent.0 name.now place.now }
{
    match place {
        None => false,
        Some(entry) => {
            if entry.parent.0 != parent.0 {
                return false;
            }
            entry.name.bytes() == name.bytes()
        }
    }
}

/// The place of this name in this directory.
pub fn child_place(entries: &[Option<Entry>], parent: DirNode, name: &Name) -> Option<usize>
    ensures place { result ≡ position (is_child parent.0 name.now) entries.now }
    ensures within { IfSome result (λ k. k < length entries.now) }
{
    entries
        .iter()
        .position(|place| has_child(place, parent, name))
}

/// What is stored of the entry at this place; of an unused one, and past the end, nothing is.
pub fn stored_at(entries: &[Option<Entry>], k: usize) -> Stored
    ensures { result ≡ stored_at_place (slot entries.now k) }
{
    match entries.get(k) {
        None => Stored::nothing(),
        Some(None) => Stored::nothing(),
        Some(Some(entry)) => entry.stored.copy(),
    }
}

/// Changes what is stored of the entry at this place, if it is used.
pub fn set_stored_at(entries: &mut [Option<Entry>], k: usize, stored: Stored)
    requires { k < length entries.old }
    ensures { entries.new ≡ slice_set entries.old k (option_map (entry_with stored) (slot entries.old k)) }
{
    match &mut entries[k] {
        None => {}
        Some(entry) => entry.stored = stored,
    }
}

/// How many entries are in use.
pub fn used_entries(entries: &[Option<Entry>]) -> usize
    ensures value { result ≡ count_by is_some entries.now }
    ensures within { result ≤ length entries.now }
{
    entries.iter().filter(|place| place.is_some()).count()
}

/// Makes each entry unused.
pub fn clear(entries: &mut [Option<Entry>])
    ensures { entries.new ≡ replicate (length entries.old) None }
{
    for k in 0..entries.len() {
        entries[k] = None;
    }
}
