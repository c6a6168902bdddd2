ghost use Rattle.std.specs.Prelude.{◌≡◌, ◌+◌, ◌-◌, ◌*◌, ◌<◌, ◌≤◌, ◌≢◌, ℕ, [], length, take, drop, slice_index, slice_set, unwrap_or, None, Some, IsSome, IfOk, IfErr, IfSome, IfNone, MatchResult};
ghost use Rattle.apex_model.specs.Handles.{free_from};
ghost use Rattle.apex_model.specs.Trees.{standing_at, walk, entries_within, file_count};
ghost use Rattle.file_tree.specs.Entries.{slot, way_of, path_in, no_entries, stored_of, with_stored, with_file, with_directory, without_file, without_directory, with_file_at, IsSpotAt, IsNextSpot, IsConsistent, AreSpelled};
ghost use Rattle.apex_model.specs.Fields.{header_of};
ghost use Rattle.file_tree.specs.Bodies.{tree_in_body, IsReadTree};
ghost use Rattle.file_tree.specs.Children.{IsChildAt};
ghost use Rattle.file_tree.specs.Records.{takes as takes_name, new_file, new_directory, gone_file, gone_directory, moved_file, applied, IsMade};

use crate::bodies::{put_entries, put_header, read_tables};
use crate::child::Child;
use crate::entries::{
    Entry, child_place, clear, free_place, set_stored_at, stored_at, unused_entries, used_entries,
};
use crate::kind::Kind;
use crate::least::{directory_spot, file_spot, is_second_first, least_place};
use crate::places::{has_way, is_unused, is_used};
use crate::stored::Stored;
use apex_types::{DirNode, Errno, FileNode, Name, OutOfMemory, Path, RecordField, Spot};
use std::alloc::Global;
use std::marker::Model;

/// The names of one tree: directories and files below its root, at most 6 names deep, with the sizes and change
/// counts of files as the durable body has them.
#[derive(Drop)]
pub struct Tree {
    files: Vec<Option<Entry>>,
    directories: Vec<Option<Entry>>,
}

impl Model for Tree {
    ghost use Rattle.file_tree.specs.Entries.{TreeValue};

    ghost Value = { TreeValue };

    ghost use Rattle.file_tree.specs.Table.{value_of, AreKept};

    ghost view = { λ t. value_of t.files.items t.directories.items };

    ghost invariant = { λ t. AreKept t.files.items t.directories.items };
}

impl Tree {
    /// A root with nothing in it, and room for so many files and directories.
    pub fn new(alloc: Global, files: u8, directories: u8) -> Result<Tree, OutOfMemory>
        ensures { IfOk result (λ tree. tree ≡ no_entries files directories) }
    {
        let files = unused_entries(alloc, files)?;
        let directories = unused_entries(alloc, directories)?;
        Ok(Tree { files, directories })
    }

    /// How many files there are.
    pub fn files(&self) -> u32
        ensures count { result ≡ file_count self.now.nodes }
        // What holds of every tree; a caller learns it here.
        ensures consistent { IsConsistent self.now }
    {
        used_entries(&self.files) as u32
    }

    /// What holds of every tree; a caller learns it here.
    pub fn stand(&self)
        ensures consistent { IsConsistent self.now }
        ensures spelled { AreSpelled self.now }
        ensures stored { length self.now.stored ≡ length self.now.files }
    {
        let _files = &self.files;
    }

    /// What stands at this name of a directory.
    fn child(&self, parent: DirNode, name: &Name) -> Child
        requires { IsSome (way_of self.now parent.0) }
        ensures { IsChildAt self.now (path_in self.now parent.0 name.now) result }
    {
        if let Some(k) = child_place(&self.files, parent, name) {
            return Child::File(FileNode(k as u8));
        }
        if let Some(k) = child_place(&self.directories, parent, name) {
            return Child::Directory(DirNode(k as u8 + 1));
        }
        Child::Nothing
    }

    /// Where a path ends that has this last name.
    fn spot(&self, parent: DirNode, name: &Name) -> Spot
        requires { IsSome (way_of self.now parent.0) }
        ensures { IsSpotAt self.now (path_in self.now parent.0 name.now) result }
    {
        match self.child(parent, name) {
            Child::Nothing => Spot::Free { parent },
            Child::File(node) => Spot::File {
                parent,
                node,
                name: name.copy(),
            },
            Child::Directory(node) => Spot::Directory {
                parent,
                node,
                name: name.copy(),
            },
        }
    }

    /// What stands at the end of a path of this tree. Of the names before the last, from the root on,
    /// the first one at which nothing stands gives ENOENT, and the first one that is a file's ENOTDIR.
    pub fn walk(&self, path: &Path) -> Result<Spot, Errno>
        ensures obstacle { MatchResult result (λ _. walk self.now.nodes path.now.names ≡ None) (λ e. walk self.now.nodes path.now.names ≡ Some e) }
        ensures spot { IfOk result (IsSpotAt self.now path.now.names) }
    {
        let count = path.names.len();
        if count == 0 {
            return Ok(Spot::Root);
        }
        let mut parent = DirNode(0);
        for k in 0..count - 1 {
            match self.child(parent, path.names.at(k)) {
                Child::Nothing => return Err(Errno::Enoent),
                Child::File(_) => return Err(Errno::Enotdir),
                Child::Directory(directory) => parent = directory,
            }
        }
        Ok(self.spot(parent, path.names.at(count - 1)))
    }

    /// The least entry that no file uses, if there is one.
    pub fn free_file(&self) -> Option<FileNode>
        ensures least { IfSome result (λ f. free_from 0 self.now.files ≡ Some f.0) }
        ensures full { IfNone result (free_from 0 self.now.files ≡ None) }
    {
        match free_place(&self.files) {
            None => None,
            Some(k) => Some(FileNode(k as u8)),
        }
    }

    /// The least entry that no directory uses, if there is one.
    pub fn free_directory(&self) -> Option<DirNode>
        ensures least { IfSome result (λ d. free_from 1 self.now.directories ≡ Some d.0) }
        ensures full { IfNone result (free_from 1 self.now.directories ≡ None) }
    {
        match free_place(&self.directories) {
            None => None,
            Some(k) => Some(DirNode(k as u8 + 1)),
        }
    }

    /// Makes a file of this name at the least unused entry.
    /// ENOSPC comes exactly where all entries for files are used; nothing changes then.
    pub fn make_file(&mut self, parent: DirNode, name: Name) -> Result<FileNode, Errno>
        requires in_use { IsSome (way_of self.old parent.0) }
        requires few { length (path_in self.old parent.0 name) ≤ 6 }
        requires free { standing_at self.old.nodes (path_in self.old parent.0 name) ≡ None }
        ensures made { IfOk result (λ f. (free_from 0 self.old.files ≡ Some f.0) × (self.new ≡ with_file self.old f.0 (path_in self.old parent.0 name))) }
        ensures full { IfErr result (λ e. (e ≡ Errno.Enospc) × (free_from 0 self.old.files ≡ None) × (self.new ≡ self.old)) }
    {
        let Some(k) = free_place(&self.files) else {
            return Err(Errno::Enospc);
        };
        self.files[k] = Some(Entry::new(parent, name, Stored::nothing()));
        Ok(FileNode(k as u8))
    }

    /// Makes a directory of this name at the least unused entry.
    /// ENOSPC comes exactly where all entries for directories are used; nothing changes then.
    pub fn make_dir(&mut self, parent: DirNode, name: Name) -> Result<DirNode, Errno>
        requires in_use { IsSome (way_of self.old parent.0) }
        requires few { length (path_in self.old parent.0 name) ≤ 6 }
        requires free { standing_at self.old.nodes (path_in self.old parent.0 name) ≡ None }
        ensures made { IfOk result (λ d. (free_from 1 self.old.directories ≡ Some d.0) × (self.new ≡ with_directory self.old (d.0 - 1) (path_in self.old parent.0 name))) }
        ensures full { IfErr result (λ e. (e ≡ Errno.Enospc) × (free_from 1 self.old.directories ≡ None) × (self.new ≡ self.old)) }
    {
        let Some(k) = free_place(&self.directories) else {
            return Err(Errno::Enospc);
        };
        self.directories[k] = Some(Entry::new(parent, name, Stored::nothing()));
        Ok(DirNode(k as u8 + 1))
    }

    /// Removes a file; its entry is unused from then on.
    pub fn remove_file(&mut self, file: FileNode)
        requires { IsSome (slot self.old.files file.0) }
        ensures { IfSome (slot self.old.files file.0) (λ path. self.new ≡ without_file self.old file.0 path) }
    {
        self.files[file.0 as usize] = None;
    }

    /// Gives a file another name, in this or another directory.
    pub fn rename(&mut self, file: FileNode, parent: DirNode, name: Name)
        requires file { IsSome (slot self.old.files file.0) }
        requires in_use { IsSome (way_of self.old parent.0) }
        requires few { length (path_in self.old parent.0 name) ≤ 6 }
        requires free { standing_at self.old.nodes (path_in self.old parent.0 name) ≡ None }
        ensures { IfSome (slot self.old.files file.0) (λ path. self.new ≡ with_file_at self.old file.0 path (path_in self.old parent.0 name)) }
    {
        let stored = stored_at(&self.files, file.0 as usize);
        self.files[file.0 as usize] = Some(Entry::new(parent, name, stored));
    }

    /// The size in bytes and the change count that the durable body has of a file: both are 0 where the entry isn't
    /// used, or there is none.
    pub fn stored(&self, file: FileNode) -> (u32, u32)
        ensures value { result ≡ stored_of self.now file.0 }
        ensures fits { (stored_of self.now file.0).0 ≤ 1048576 }
        ensures unused { slot self.now.files file.0 ≡ None → stored_of self.now file.0 ≡ (0, 0) }
    {
        stored_at(&self.files, file.0 as usize).both()
    }

    /// Notes the size in bytes and the change count that the durable body has of a file from now on.
    pub fn set_stored(&mut self, file: FileNode, size: u32, changes: u32)
        requires file { IsSome (slot self.old.files file.0) }
        requires fits { size ≤ 1048576 }
        ensures { self.new ≡ with_stored self.old file.0 size changes }
    {
        set_stored_at(&mut self.files, file.0 as usize, Stored::new(size, changes));
    }

    /// Writes the header and the entries of a slot's body, in version 2: all but the sequence number in the first
    /// byte, which stays as it is. With a sequence number there the body is one of this tree, with the sizes and
    /// change counts that are stored.
    pub fn put_body(&self, body: &mut [u8])
        requires { 64 + 128 * (length self.now.files + length self.now.directories) ≤ length body.old }
        ensures sequence { slice_index body.new 0 ≡ slice_index body.old 0 }
        ensures header { (sequence : ℕ) → sequence ≤ 2 → header_of (take 64 (slice_set body.new 0 sequence)) ≡ Some (sequence, 2) }
        ensures tree { (sequence : ℕ) → sequence ≤ 2 → tree_in_body (length self.now.files) (length self.now.directories) (slice_set body.new 0 sequence) ≡ Some self.now }
        ensures behind { drop (64 + 128 * (length self.now.files + length self.now.directories)) body.new ≡ drop (64 + 128 * (length self.now.files + length self.now.directories)) body.old }
    {
        put_header(body);
        put_entries(Kind::File, body, &self.files, 0);
        put_entries(Kind::Directory, body, &self.directories, self.files.len());
    }

    /// Reads the tree from the header and the entries of a slot's body, of version 1 or 2. False comes exactly
    /// where the header, an entry, a parent, a depth, a name or a size is invalid; only the root is left then.
    /// Neither the block numbers of files nor what is behind them is read.
    pub fn read_body(&mut self, body: &[u8]) -> bool
        requires { 64 + 128 * (length self.old.files + length self.old.directories) ≤ length body.now }
        ensures tree { IsReadTree (tree_in_body (length self.old.files) (length self.old.directories) body.now) self.old self.new result }
        // There are as many entries as before.
        ensures files { length self.new.files ≡ length self.old.files }
        ensures directories { length self.new.directories ≡ length self.old.directories }
    {
        if read_tables(&mut self.files, &mut self.directories, body) {
            return true;
        }
        clear(&mut self.files);
        clear(&mut self.directories);
        false
    }

    /// The entry of a directory with the least name in byte order behind the last name given, or with the
    /// least name of all. None comes exactly where there is no such entry.
    pub fn next_entry(&self, directory: DirNode, after: Option<Name>) -> Option<Spot>
        requires { IsSome (way_of self.now directory.0) }
        ensures { IsNextSpot self.now (unwrap_or (way_of self.now directory.0) []) after result }
    {
        let file = least_place(&self.files, directory, &after);
        let below = least_place(&self.directories, directory, &after);
        let Some(f) = file else {
            let Some(d) = below else {
                return None;
            };
            return directory_spot(&self.directories, d);
        };
        let Some(d) = below else {
            return file_spot(&self.files, f);
        };
        if is_second_first(&self.files, f, &self.directories, d) {
            directory_spot(&self.directories, d)
        } else {
            file_spot(&self.files, f)
        }
    }

    /// Removes a directory other than the root; its entry is unused from then on.
    /// ENOTEMPTY comes exactly where something stands in it; nothing changes then.
    pub fn remove_dir(&mut self, directory: DirNode) -> Result<(), Errno>
        requires below_root { directory.0 ≢ 0 }
        requires in_use { IsSome (way_of self.old directory.0) }
        ensures removed { IfOk result (λ _. (entries_within self.old.nodes (unwrap_or (way_of self.old directory.0) []) ≡ []) × (self.new ≡ without_directory self.old (directory.0 - 1) (unwrap_or (way_of self.old directory.0) []))) }
        ensures not_empty { IfErr result (λ e. (e ≡ Errno.Enotempty) × (1 ≤ length (entries_within self.old.nodes (unwrap_or (way_of self.old directory.0) []))) × (self.new ≡ self.old)) }
    {
        if self.next_entry(directory, None).is_some() {
            return Err(Errno::Enotempty);
        }
        self.directories[directory.0 as usize - 1] = None;
        Ok(())
    }

    /// Whether a directory in use takes this name: its path has at most 6 names, and nothing stands there.
    fn takes(&self, parent: DirNode, name: &Name) -> bool
        ensures { result ≡ takes_name self.now parent.0 name.now }
    {
        if !has_way(&self.directories, parent) {
            return false;
        }
        match self.child(parent, name) {
            Child::Nothing => true,
            Child::File(_) => false,
            Child::Directory(_) => false,
        }
    }

    /// Makes a file at an unused entry, where the parent takes its name.
    fn put_file(&mut self, index: u8, parent: DirNode, name: &Option<Name>) -> bool
        ensures { IsMade (new_file self.old index parent.0 name.now) self.old self.new result }
    {
        let Some(name) = name else {
            return false;
        };
        if !is_unused(&self.files, index as usize) {
            return false;
        }
        if !self.takes(parent, name) {
            return false;
        }
        self.files[index as usize] = Some(Entry::new(parent, name.copy(), Stored::nothing()));
        true
    }

    /// Makes a directory at an unused entry, where the parent takes its name.
    fn put_directory(&mut self, index: u8, parent: DirNode, name: &Option<Name>) -> bool
        ensures { IsMade (new_directory self.old index parent.0 name.now) self.old self.new result }
    {
        let Some(name) = name else {
            return false;
        };
        if !is_unused(&self.directories, index as usize) {
            return false;
        }
        if !self.takes(parent, name) {
            return false;
        }
        self.directories[index as usize] = Some(Entry::new(parent, name.copy(), Stored::nothing()));
        true
    }

    /// Removes the file of an entry in use.
    fn drop_file(&mut self, index: u8) -> bool
        ensures { IsMade (gone_file self.old index) self.old self.new result }
    {
        if !is_used(&self.files, index as usize) {
            return false;
        }
        self.remove_file(FileNode(index));
        true
    }

    /// Removes the directory of an entry in use, where nothing stands in it.
    fn drop_directory(&mut self, index: u8) -> bool
        ensures { IsMade (gone_directory self.old index) self.old self.new result }
    {
        if !is_used(&self.directories, index as usize) {
            return false;
        }
        match self.remove_dir(DirNode(index + 1)) {
            Ok(()) => true,
            Err(_) => false,
        }
    }

    /// Gives the file of an entry in use another name, where the parent takes it.
    fn move_file(&mut self, index: u8, parent: DirNode, name: &Option<Name>) -> bool
        ensures { IsMade (moved_file self.old index parent.0 name.now) self.old self.new result }
    {
        let Some(name) = name else {
            return false;
        };
        if !is_used(&self.files, index as usize) {
            return false;
        }
        if !self.takes(parent, name) {
            return false;
        }
        self.rename(FileNode(index), parent, name.copy());
        true
    }

    /// Changes the names by a record of a journal. False, with nothing changed, comes exactly where the
    /// record does not apply.
    pub fn apply(&mut self, change: &RecordField) -> bool
        ensures { IsMade (applied self.old change.now) self.old self.new result }
    {
        match change.kind {
            1 => self.put_file(change.index, change.parent, &change.name),
            2 => self.put_directory(change.index, change.parent, &change.name),
            3 => self.drop_file(change.index),
            4 => self.drop_directory(change.index),
            _ => self.move_file(change.index, change.parent, &change.name),
        }
    }
}
