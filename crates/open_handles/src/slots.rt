ghost use Rattle.std.specs.Prelude.{◌≡◌, ◌≤◌, length, replicate, map, option_map, None, Some, IfOk, IfSome, IfNone, IsSome};
ghost use Rattle.std.specs.Option.{option_copied};
ghost use Rattle.apex_model.specs.Handles.{handle_at, with_slot, least_free, any_open};
ghost use Rattle.open_handles.specs.Nodes as nodes;

use apex_types::{DirHandle, DirNode, FileHandle, FileNode, OpenMode, OutOfMemory};
use std::alloc::Global;
use std::marker::Model;

/// Places for handles, with the numbers 1 to N: at most 24.
#[derive(Drop)]
pub struct Slots<H, const N: usize> {
    places: Vec<Option<H>>,
}

impl<H, const N: usize> Model for Slots<H, N> {
    ghost use Rattle.std.specs.Prelude.{List, Option, ◌≡◌, ◌≤◌, length};

    ghost Value = { List (Option H) };

    ghost view = { λ s. s.places.items };

    ghost invariant = { λ s. (length s.places.items ≡ N) × (N ≤ 24) };
}

/// The least number whose place is free.
fn least_free_number<H>(places: &[Option<H>]) -> Option<u32>
    requires { length places.now ≤ 24 }
    ensures number { result ≡ least_free places.now }
    ensures within { IfSome result (λ id. (1 ≤ id) × (id ≤ length places.now)) }
{
    for (k, place) in places.iter().enumerate() {
        if place.is_none() {
            return Some(k as u32 + 1);
        }
    }
    None
}

impl<H: Drop, const N: usize> Slots<H, N> {
    /// Free places.
    pub fn new(alloc: Global) -> Result<Slots<H, N>, OutOfMemory>
        requires { N ≤ 24 }
        ensures { IfOk result (λ slots. slots ≡ replicate N None) }
    {
        let mut places = Vec::new(alloc);
        for _ in 0..N {
            places.push(None)?;
        }
        Ok(Slots { places })
    }

    /// The handle of a number, where it is open.
    pub fn at(&self, id: u32) -> Option<&H>
        ensures { option_copied result ≡ handle_at self.now id }
    {
        if id == 0 {
            return None;
        }
        match self.places.get(id as usize - 1) {
            Some(place) => place.as_ref(),
            None => None,
        }
    }

    /// The least free number, if there is one.
    pub fn free(&self) -> Option<u32>
        ensures { result ≡ least_free self.now }
    {
        let _places = &self.places;
        least_free_number(&self.places)
    }

    /// Opens a handle at the least free number. Where none is free, nothing changes.
    pub fn open(&mut self, handle: H) -> Option<u32>
        ensures number { result ≡ least_free self.old }
        ensures opened { IfSome result (λ id. self.new ≡ with_slot self.old id (Some handle)) }
        ensures full { IfNone result (self.new ≡ self.old) }
    {
        let id = least_free_number(&self.places)?;
        self.places[id as usize - 1] = Some(handle);
        Some(id)
    }

    /// Takes the handle of a number out, where it is open.
    pub fn take(&mut self, id: u32) -> Option<H>
        ensures handle { result ≡ handle_at self.old id }
        ensures freed { IfSome result (λ _. self.new ≡ with_slot self.old id None) }
        ensures kept { IfNone result (self.new ≡ self.old) }
    {
        if id == 0 {
            return None;
        }
        let k = id as usize - 1;
        if k >= self.places.len() {
            return None;
        }
        self.places[k].take()
    }

    /// Closes all handles.
    pub fn close_all(&mut self)
        ensures { self.new ≡ replicate N None }
    {
        for place in self.places.iter_mut() {
            *place = None;
        }
    }

    /// Puts another handle in the place of an open one.
    pub fn replace(&mut self, id: u32, handle: H)
        requires { IsSome (handle_at self.old id) }
        ensures { self.new ≡ with_slot self.old id (Some handle) }
    {
        self.places[id as usize - 1] = Some(handle);
    }
}

/// Whether a handle holds this file of this tree.
fn holds_file(handle: &FileHandle, tree: u32, file: FileNode) -> bool
    ensures { result ≡ nodes.holds_file tree file handle.now }
{
    if handle.tree != tree {
        return false;
    }
    match handle.file {
        Some(held) => held.0 == file.0,
        None => false,
    }
}

/// Whether a handle may write to this file of this tree.
fn writes_file(handle: &FileHandle, tree: u32, file: FileNode) -> bool
    ensures { result ≡ nodes.writes_file tree file handle.now }
{
    match handle.mode {
        OpenMode::ReadOnly => false,
        OpenMode::ReadWrite => holds_file(handle, tree, file),
    }
}

/// Whether a handle holds this directory of this tree.
fn holds_directory(handle: &DirHandle, tree: u32, directory: DirNode) -> bool
    ensures { result ≡ nodes.holds_directory tree directory handle.now }
{
    if handle.tree != tree {
        return false;
    }
    match handle.directory {
        Some(held) => held.0 == directory.0,
        None => false,
    }
}

/// Makes the handle at a place stale, if it holds this file.
fn lose_file(place: &mut Option<FileHandle>, tree: u32, file: FileNode)
    ensures { place.new ≡ option_map (nodes.without_file tree file) place.old }
{
    if let Some(handle) = place {
        if holds_file(handle, tree, file) {
            handle.file = None;
        }
    }
}

/// Makes the handle at a place stale, if it holds this directory.
fn lose_directory(place: &mut Option<DirHandle>, tree: u32, directory: DirNode)
    ensures { place.new ≡ option_map (nodes.without_directory tree directory) place.old }
{
    if let Some(handle) = place {
        if holds_directory(handle, tree, directory) {
            handle.directory = None;
        }
    }
}

impl<const N: usize> Slots<FileHandle, N> {
    /// Whether a handle holds this file.
    pub fn any_on(&self, tree: u32, file: FileNode) -> bool
        ensures { result ≡ any_open (nodes.holds_file tree file) self.now }
    {
        for place in &self.places {
            if let Some(handle) = place {
                if holds_file(handle, tree, file) {
                    return true;
                }
            }
        }
        false
    }

    /// Whether a handle may write to this file.
    pub fn any_writing(&self, tree: u32, file: FileNode) -> bool
        ensures { result ≡ any_open (nodes.writes_file tree file) self.now }
    {
        for place in &self.places {
            if let Some(handle) = place {
                if writes_file(handle, tree, file) {
                    return true;
                }
            }
        }
        false
    }

    /// Makes each handle stale that holds this file.
    pub fn lose(&mut self, tree: u32, file: FileNode)
        ensures { self.new ≡ map (option_map (nodes.without_file tree file)) self.old }
    {
        for place in self.places.iter_mut() {
            lose_file(place, tree, file);
        }
    }
}

impl<const N: usize> Slots<DirHandle, N> {
    /// Whether a handle holds this directory.
    pub fn any_on_directory(&self, tree: u32, directory: DirNode) -> bool
        ensures { result ≡ any_open (nodes.holds_directory tree directory) self.now }
    {
        for place in &self.places {
            if let Some(handle) = place {
                if holds_directory(handle, tree, directory) {
                    return true;
                }
            }
        }
        false
    }

    /// Makes each handle stale that holds this directory.
    pub fn lose_directory(&mut self, tree: u32, directory: DirNode)
        ensures { self.new ≡ map (option_map (nodes.without_directory tree directory)) self.old }
    {
        for place in self.places.iter_mut() {
            lose_directory(place, tree, directory);
        }
    }
}
