ghost use Rattle.std.specs.Prelude.{◌≡◌, ◌<◌, length, replicate, map, None, Some, IsSome, IfOk, IfSome, IfNone, slice_set, is_some};
ghost use Rattle.std.specs.Bool.{OnTrue, OnFalse};
ghost use Rattle.apex_model.specs.Handles.{handle_at, least_free, any_open};
ghost use Rattle.open_handles.specs.NodeHandles as nodes;
ghost use Rattle.open_handles.specs.Nodes as node;

use crate::slots::Slots;
use apex_types::{
    DirHandle, DirNode, FileHandle, FileNode, Name, OpenMode, OutOfMemory, PartitionId,
};
use std::alloc::Global;
use std::marker::Model;

/// The handles of one partition: 24 numbers for files and 8 for directories.
#[derive(Drop)]
pub struct PartitionHandles {
    pub files: Slots<FileHandle, 24>,
    pub directories: Slots<DirHandle, 8>,
}

/// The handles of all partitions. File handles have the numbers 1 to 24, directory handles 1 to 8.
#[derive(Drop)]
pub struct Handles {
    partitions: Vec<PartitionHandles>,
}

impl Model for Handles {
    ghost use Rattle.std.specs.Prelude.{List};
    ghost use Rattle.open_handles.specs.declared.handles.PartitionHandles.{PartitionHandles};

    ghost Value = { List PartitionHandles };

    ghost view = { λ h. h.partitions.items };
}

/// A partition's handles, none of which is open.
fn closed_handles(alloc: Global) -> Result<PartitionHandles, OutOfMemory>
    ensures { IfOk result (λ handles. handles ≡ nodes.none_open) }
{
    let files = Slots::new(alloc)?;
    let directories = Slots::new(alloc)?;
    Ok(PartitionHandles { files, directories })
}

impl Handles {
    /// For so many partitions, none of which has a handle open.
    pub fn new(alloc: Global, partitions: u32) -> Result<Handles, OutOfMemory>
        ensures { IfOk result (λ handles. handles ≡ replicate partitions nodes.none_open) }
    {
        let mut all = Vec::new(alloc);
        for _ in 0..partitions {
            let handles = closed_handles(alloc)?;
            all.push(handles)?;
        }
        Ok(Handles { partitions: all })
    }

    /// Opens a handle on a file, at its first byte, with the least free number. None comes exactly where all are used.
    pub fn open_file(
        &mut self,
        p: PartitionId,
        tree: u32,
        file: FileNode,
        mode: OpenMode,
    ) -> Option<u32>
        requires { p.0 < length self.old }
        ensures number { result ≡ least_free (nodes.handles_of self.old p.0).files }
        ensures opened { IfSome result (λ id. self.new ≡ nodes.with_file_slot self.old p.0 id (Some (node.opened_file tree file mode))) }
        ensures full { IfNone result (self.new ≡ self.old) }
    {
        let handles = &mut self.partitions[p.0 as usize];
        handles.files.open(FileHandle {
            tree,
            file: Some(file),
            mode,
            position: 0,
        })
    }

    /// The number that the next file handle of a partition gets. None comes exactly where all are used.
    pub fn free_file(&self, p: PartitionId) -> Option<u32>
        requires { p.0 < length self.now }
        ensures { result ≡ least_free (nodes.handles_of self.now p.0).files }
    {
        self.partitions[p.0 as usize].files.free()
    }

    /// Opens a handle on a directory, before its first name, with the least free number. None comes exactly where all are used.
    pub fn open_directory(&mut self, p: PartitionId, tree: u32, directory: DirNode) -> Option<u32>
        requires { p.0 < length self.old }
        ensures number { result ≡ least_free (nodes.handles_of self.old p.0).directories }
        ensures opened { IfSome result (λ id. self.new ≡ nodes.with_directory_slot self.old p.0 id (Some (node.opened_directory tree directory))) }
        ensures full { IfNone result (self.new ≡ self.old) }
    {
        let handles = &mut self.partitions[p.0 as usize];
        handles.directories.open(DirHandle {
            tree,
            directory: Some(directory),
            last: None,
        })
    }

    /// The file handle of a number. None comes exactly where it is not open.
    pub fn file(&self, p: PartitionId, id: u32) -> Option<FileHandle>
        requires { p.0 < length self.now }
        ensures { result ≡ handle_at (nodes.handles_of self.now p.0).files id }
    {
        let handle = self.partitions[p.0 as usize].files.at(id)?;
        Some(FileHandle {
            tree: handle.tree,
            file: handle.file,
            mode: handle.mode,
            position: handle.position,
        })
    }

    /// The directory handle of a number. None comes exactly where it is not open.
    pub fn directory(&self, p: PartitionId, id: u32) -> Option<DirHandle>
        requires { p.0 < length self.now }
        ensures { result ≡ handle_at (nodes.handles_of self.now p.0).directories id }
    {
        let handle = self.partitions[p.0 as usize].directories.at(id)?;
        let last = match &handle.last {
            Some(name) => Some(name.copy()),
            None => None,
        };
        Some(DirHandle {
            tree: handle.tree,
            directory: handle.directory,
            last,
        })
    }

    /// Moves an open file handle to a position.
    pub fn set_position(&mut self, p: PartitionId, id: u32, position: u32)
        requires within { p.0 < length self.old }
        requires open { IsSome (handle_at (nodes.handles_of self.old p.0).files id) }
        ensures { IfSome (handle_at (nodes.handles_of self.old p.0).files id) (λ h. self.new ≡ nodes.with_file_slot self.old p.0 id (Some (record h { position = position }))) }
    {
        let handles = &mut self.partitions[p.0 as usize];
        let (file, mode, tree) = match handles.files.at(id) {
            Some(handle) => (handle.file, handle.mode, handle.tree),
            None => return,
        };
        handles.files.replace(
            id,
            FileHandle {
                tree,
                file,
                mode,
                position,
            },
        );
    }

    /// Remembers the last name that an open directory handle gave, or that it gave none.
    pub fn set_last(&mut self, p: PartitionId, id: u32, last: Option<Name>)
        requires within { p.0 < length self.old }
        requires open { IsSome (handle_at (nodes.handles_of self.old p.0).directories id) }
        ensures { IfSome (handle_at (nodes.handles_of self.old p.0).directories id) (λ h. self.new ≡ nodes.with_directory_slot self.old p.0 id (Some (record h { last = last }))) }
    {
        let handles = &mut self.partitions[p.0 as usize];
        let (tree, directory) = match handles.directories.at(id) {
            Some(handle) => (handle.tree, handle.directory),
            None => return,
        };
        handles.directories.replace(
            id,
            DirHandle {
                tree,
                directory,
                last,
            },
        );
    }

    /// Closes a file handle, also a stale one. False comes exactly where it is not open; nothing changes then.
    pub fn close_file(&mut self, p: PartitionId, id: u32) -> bool
        requires { p.0 < length self.old }
        ensures open { result ≡ is_some (handle_at (nodes.handles_of self.old p.0).files id) }
        ensures closed { OnTrue result (self.new ≡ nodes.with_file_slot self.old p.0 id None) }
        ensures kept { OnFalse result (self.new ≡ self.old) }
    {
        let handles = &mut self.partitions[p.0 as usize];
        handles.files.take(id).is_some()
    }

    /// Closes a directory handle, also a stale one. False comes exactly where it is not open; nothing changes then.
    pub fn close_directory(&mut self, p: PartitionId, id: u32) -> bool
        requires { p.0 < length self.old }
        ensures open { result ≡ is_some (handle_at (nodes.handles_of self.old p.0).directories id) }
        ensures closed { OnTrue result (self.new ≡ nodes.with_directory_slot self.old p.0 id None) }
        ensures kept { OnFalse result (self.new ≡ self.old) }
    {
        let handles = &mut self.partitions[p.0 as usize];
        handles.directories.take(id).is_some()
    }

    /// Closes all handles of a partition.
    pub fn close_all(&mut self, p: PartitionId)
        requires { p.0 < length self.old }
        ensures { self.new ≡ slice_set self.old p.0 nodes.none_open }
    {
        let handles = &mut self.partitions[p.0 as usize];
        handles.files.close_all();
        handles.directories.close_all();
    }

    /// Whether a partition has a handle on this file of this tree.
    pub fn holds_file(&self, p: PartitionId, tree: u32, file: FileNode) -> bool
        requires { p.0 < length self.now }
        ensures { result ≡ any_open (node.holds_file tree file) (nodes.handles_of self.now p.0).files }
    {
        self.partitions[p.0 as usize].files.any_on(tree, file)
    }

    /// Whether a partition has a handle on this directory of this tree.
    pub fn holds_directory(&self, p: PartitionId, tree: u32, directory: DirNode) -> bool
        requires { p.0 < length self.now }
        ensures { result ≡ any_open (node.holds_directory tree directory) (nodes.handles_of self.now p.0).directories }
    {
        self.partitions[p.0 as usize]
            .directories
            .any_on_directory(tree, directory)
    }

    /// Whether a partition has a handle that may write to this file of this tree.
    pub fn writer_open(&self, p: PartitionId, tree: u32, file: FileNode) -> bool
        requires { p.0 < length self.now }
        ensures { result ≡ any_open (node.writes_file tree file) (nodes.handles_of self.now p.0).files }
    {
        self.partitions[p.0 as usize].files.any_writing(tree, file)
    }

    /// Makes every handle on a removed file stale, and no other.
    pub fn file_gone(&mut self, tree: u32, file: FileNode)
        ensures { self.new ≡ map (nodes.with_file_gone tree file) self.old }
    {
        for handles in self.partitions.iter_mut() {
            handles.files.lose(tree, file);
        }
    }

    /// Makes every handle on a removed directory stale, and no other.
    pub fn directory_gone(&mut self, tree: u32, directory: DirNode)
        ensures { self.new ≡ map (nodes.with_directory_gone tree directory) self.old }
    {
        for handles in self.partitions.iter_mut() {
            handles.directories.lose_directory(tree, directory);
        }
    }
}
