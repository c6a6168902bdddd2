//! What is found of the files of a tree.
ghost use Rattle.std.specs.Prelude.{◌≡◌, ◌≤◌, IsSome};
ghost use Rattle.file_tree.specs.Entries.{slot};
ghost use Rattle.rig_core.specs.Leaves.{IsAllSettled};
ghost use Rattle.rig_core.specs.MemRig.{mem_state};
ghost use Rattle.tree_store.specs.Stored.{names_of, IsStored};

use crate::flights::{file_at, small_store};
use apex_types::FileNode;
use rig_core::{MemRig, PendingBytes, Rig};
use std::alloc::Global;
use test_fixtures::after_cut;
use tree_store::TreeStore;

/// The content of a file: so many bytes of one value, then so many of another, and so on.
pub(crate) type Content = &'static [(u8, usize)];

/// The content of each of some paths, none where no file stands there.
pub(crate) type Files = &'static [(&'static [u8], Option<Content>)];

/// Whether these bytes are the content.
fn is_content(bytes: &[u8], content: Content) -> bool {
    let mut rest = bytes;
    for (byte, count) in content {
        if rest.len() < *count {
            return false;
        }
        let (front, behind) = rest.split_at(*count);
        if front.iter().any(|b| *b != *byte) {
            return false;
        }
        rest = behind;
    }
    rest.is_empty()
}

/// Reads a file from its first byte on, and tells whether no read failed.
fn reads<R: Rig>(store: &TreeStore, rig: &mut R, file: FileNode, into: &mut [u8]) -> bool
    requires stored { IsStored R.tells_view (R.state rig.old) store.now }
    requires in_use { IsSome (slot (names_of store.now).files file.0) }
    ensures stored { IsStored R.tells_view (R.state rig.new) store.now }
    ensures size { (R.state rig.new).size ≡ (R.state rig.old).size }
{
    store.read(rig, file, 0, into).is_ok()
}

/// Whether a file has this content.
fn holds<R: Rig>(
    alloc: Global,
    store: &TreeStore,
    rig: &mut R,
    file: FileNode,
    content: Content,
) -> bool
    requires stored { IsStored R.tells_view (R.state rig.old) store.now }
    requires in_use { IsSome (slot (names_of store.now).files file.0) }
    ensures stored { IsStored R.tells_view (R.state rig.new) store.now }
    ensures size { (R.state rig.new).size ≡ (R.state rig.old).size }
{
    let Ok(mut bytes) = vec![in alloc; 0u8; store.size(file) as usize] else {
        return false;
    };
    reads(store, rig, file, &mut bytes) && is_content(&bytes, content)
}

/// Whether a file of this content stands at a path, or none.
pub(crate) fn has_file<R: Rig>(
    alloc: Global,
    store: &TreeStore,
    rig: &mut R,
    path: &[u8],
    content: Option<Content>,
) -> bool
    requires stored { IsStored R.tells_view (R.state rig.old) store.now }
    ensures stored { IsStored R.tells_view (R.state rig.new) store.now }
    ensures size { (R.state rig.new).size ≡ (R.state rig.old).size }
{
    match (file_at(store, path), content) {
        (Ok(file), Some(content)) => holds(alloc, store, rig, file, content),
        (Ok(_), None) => false,
        (Err(_), content) => content.is_none(),
    }
}

/// Whether a tree has these files.
pub(crate) fn has_files<R: Rig>(alloc: Global, store: &TreeStore, rig: &mut R, files: Files) -> bool
    requires stored { IsStored R.tells_view (R.state rig.old) store.now }
    ensures stored { IsStored R.tells_view (R.state rig.new) store.now }
    ensures size { (R.state rig.new).size ≡ (R.state rig.old).size }
{
    for (path, content) in files {
        if !has_file(alloc, store, rig, path, *content) {
            return false;
        }
    }
    true
}

/// Whether a mount of a disk finds these files.
fn is_mounted<R: Rig>(alloc: Global, rig: &mut R, files: Files) -> bool
    requires fits { 83968 ≤ (R.state rig.old).size }
    requires settled { IsAllSettled (R.state rig.old) }
{
    match small_store(alloc, rig) {
        Ok(store) => has_files(alloc, &store, rig, files),
        Err(_) => false,
    }
}

/// Whether a mount finds these files where power failed after so many of the recorded calls.
pub(crate) fn is_left(
    alloc: Global,
    rig: &MemRig,
    calls: u32,
    left: PendingBytes,
    files: Files,
) -> bool
    requires fits { 83968 ≤ (mem_state rig.now).size }
{
    match after_cut(alloc, rig, calls, left) {
        Ok(mut cut) => is_mounted(alloc, &mut cut, files),
        Err(_) => false,
    }
}
