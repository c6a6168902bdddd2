//! Flights of changes of a stored tree, by paths.
ghost use Rattle.std.specs.Prelude.{◌≡◌, ◌+◌, ◌*◌, ◌≤◌, length, None, IsSome, IfOk, OnOk};
ghost use Rattle.apex_model.specs.Layout.{tree_blocks};
ghost use Rattle.apex_model.specs.Trees.{standing_at};
ghost use Rattle.file_tree.specs.Entries.{slot, way_of, path_in};
ghost use Rattle.rig_core.specs.Leaves.{IsAllSettled};
ghost use Rattle.tree_store.specs.Stored.{names_of, IsStored};

use crate::regions::small_row;
use apex_types::{DirNode, Errno, FileNode, Name, Path, Spot, TreeRow};
use file_tree::Tree;
use rig_core::{DeviceFault, Rig};
use std::alloc::Global;
use tree_store::{StoreRefusal, TreeStore};

/// A change of a tree.
#[derive(Clone, Copy)]
pub(crate) enum Change {
    MakeFile(&'static [u8]),
    MakeDirectory(&'static [u8]),
    RemoveFile(&'static [u8]),
    RemoveDirectory(&'static [u8]),
    Rename(&'static [u8], &'static [u8]),
    Write(&'static [u8], Run),
    Resize(&'static [u8], u32),
    Sync(&'static [u8]),
}

/// Bytes of one value from a place on, at most 4,096.
#[derive(Clone, Copy)]
pub(crate) struct Run {
    pub from: u32,
    pub count: usize,
    pub byte: u8,
}

/// Why a flight of changes stopped.
#[derive(Clone, Copy, PartialEq, Eq)]
pub(crate) enum Stop {
    Refused(Errno),
    ReadFault,
    Device,
    /// The path or the bytes don't fit: a mistake of the flight.
    Misplaced,
}

impl From<StoreRefusal> for Stop {
    fn from(refusal: StoreRefusal) -> Stop {
        match refusal {
            StoreRefusal::Refused(errno) => Stop::Refused(errno),
            StoreRefusal::ReadFault => Stop::ReadFault,
            StoreRefusal::Device => Stop::Device,
        }
    }
}

impl From<DeviceFault> for Stop {
    fn from(_fault: DeviceFault) -> Stop {
        Stop::Device
    }
}

/// The file of a tree at the end of a path.
fn file_in(tree: &Tree, bytes: &[u8]) -> Result<FileNode, Stop>
    ensures { IfOk result (λ file. IsSome (slot tree.now.files file.0)) }
{
    let Ok(path) = Path::read(bytes) else {
        return Err(Stop::Misplaced);
    };
    match tree.walk(&path) {
        Ok(Spot::File { node, .. }) => Ok(node),
        _ => Err(Stop::Misplaced),
    }
}

/// The file of a stored tree at the end of a path.
pub(crate) fn file_at(store: &TreeStore, bytes: &[u8]) -> Result<FileNode, Stop>
    ensures { IfOk result (λ file. IsSome (slot (names_of store.now).files file.0)) }
{
    file_in(store.tree(), bytes)
}

/// The directory of a tree and the name at the end of a path where nothing stands.
fn free_at(tree: &Tree, bytes: &[u8]) -> Result<(DirNode, Name), Stop>
    ensures in_use { IfOk result (λ spot. IsSome (way_of tree.now spot.0.0)) }
    ensures few { IfOk result (λ spot. length (path_in tree.now spot.0.0 spot.1) ≤ 6) }
    ensures free { IfOk result (λ spot. standing_at tree.now.nodes (path_in tree.now spot.0.0 spot.1) ≡ None) }
{
    let Ok(path) = Path::read(bytes) else {
        return Err(Stop::Misplaced);
    };
    let count = path.names.len();
    if count == 0 {
        return Err(Stop::Misplaced);
    }
    let Ok(Spot::Free { parent }) = tree.walk(&path) else {
        return Err(Stop::Misplaced);
    };
    Ok((parent, path.names.at(count - 1).copy()))
}

fn make_file<R: Rig>(store: &mut TreeStore, rig: &mut R, path: &[u8]) -> Result<(), Stop>
    requires stored { IsStored R.tells_view (R.state rig.old) store.old }
    ensures stored { OnOk result (IsStored R.tells_view (R.state rig.new) store.new) }
    ensures size { (R.state rig.new).size ≡ (R.state rig.old).size }
{
    let Ok((parent, name)) = free_at(store.tree(), path) else {
        return Err(Stop::Misplaced);
    };
    match store.make_file(rig, parent, name) {
        Ok(_) => Ok(()),
        Err(refusal) => Err(Stop::from(refusal)),
    }
}

fn make_directory<R: Rig>(store: &mut TreeStore, rig: &mut R, path: &[u8]) -> Result<(), Stop>
    requires stored { IsStored R.tells_view (R.state rig.old) store.old }
    ensures stored { OnOk result (IsStored R.tells_view (R.state rig.new) store.new) }
    ensures size { (R.state rig.new).size ≡ (R.state rig.old).size }
{
    let Ok((parent, name)) = free_at(store.tree(), path) else {
        return Err(Stop::Misplaced);
    };
    match store.make_dir(rig, parent, name) {
        Ok(_) => Ok(()),
        Err(refusal) => Err(Stop::from(refusal)),
    }
}

fn remove_file<R: Rig>(store: &mut TreeStore, rig: &mut R, path: &[u8]) -> Result<(), Stop>
    requires stored { IsStored R.tells_view (R.state rig.old) store.old }
    ensures stored { OnOk result (IsStored R.tells_view (R.state rig.new) store.new) }
    ensures size { (R.state rig.new).size ≡ (R.state rig.old).size }
{
    let Ok(file) = file_at(store, path) else {
        return Err(Stop::Misplaced);
    };
    match store.remove_file(rig, file) {
        Ok(()) => Ok(()),
        Err(fault) => Err(Stop::from(fault)),
    }
}

fn remove_directory<R: Rig>(store: &mut TreeStore, rig: &mut R, bytes: &[u8]) -> Result<(), Stop>
    requires stored { IsStored R.tells_view (R.state rig.old) store.old }
    ensures stored { OnOk result (IsStored R.tells_view (R.state rig.new) store.new) }
    ensures size { (R.state rig.new).size ≡ (R.state rig.old).size }
{
    let Ok(path) = Path::read(bytes) else {
        return Err(Stop::Misplaced);
    };
    let Ok(Spot::Directory { node, .. }) = store.tree().walk(&path) else {
        return Err(Stop::Misplaced);
    };
    if node.0 == 0 {
        return Err(Stop::Misplaced);
    }
    match store.remove_dir(rig, node) {
        Ok(()) => Ok(()),
        Err(refusal) => Err(Stop::from(refusal)),
    }
}

fn rename<R: Rig>(store: &mut TreeStore, rig: &mut R, from: &[u8], to: &[u8]) -> Result<(), Stop>
    requires stored { IsStored R.tells_view (R.state rig.old) store.old }
    ensures stored { OnOk result (IsStored R.tells_view (R.state rig.new) store.new) }
    ensures size { (R.state rig.new).size ≡ (R.state rig.old).size }
{
    let Ok(file) = file_at(store, from) else {
        return Err(Stop::Misplaced);
    };
    let Ok((parent, name)) = free_at(store.tree(), to) else {
        return Err(Stop::Misplaced);
    };
    match store.rename(rig, file, parent, name) {
        Ok(()) => Ok(()),
        Err(fault) => Err(Stop::from(fault)),
    }
}

/// Writes bytes to the file at the end of a path. What is kept is in step whatever the answer.
pub(crate) fn write<R: Rig>(
    store: &mut TreeStore,
    rig: &mut R,
    path: &[u8],
    run: Run,
) -> Result<(), Stop>
    requires stored { IsStored R.tells_view (R.state rig.old) store.old }
    ensures stored { IsStored R.tells_view (R.state rig.new) store.new }
    ensures size { (R.state rig.new).size ≡ (R.state rig.old).size }
{
    let Ok(file) = file_at(store, path) else {
        return Err(Stop::Misplaced);
    };
    if run.count == 0 || run.count > 4096 || run.from > store.size(file) {
        return Err(Stop::Misplaced);
    }
    let bytes = [run.byte; 4096];
    match store.write(rig, file, run.from, &bytes[..run.count]) {
        Ok(()) => Ok(()),
        Err(refusal) => Err(Stop::from(refusal)),
    }
}

fn resize<R: Rig>(store: &mut TreeStore, rig: &mut R, path: &[u8], size: u32) -> Result<(), Stop>
    requires stored { IsStored R.tells_view (R.state rig.old) store.old }
    ensures stored { OnOk result (IsStored R.tells_view (R.state rig.new) store.new) }
    ensures size { (R.state rig.new).size ≡ (R.state rig.old).size }
{
    let Ok(file) = file_at(store, path) else {
        return Err(Stop::Misplaced);
    };
    match store.resize(rig, file, size) {
        Ok(()) => Ok(()),
        Err(refusal) => Err(Stop::from(refusal)),
    }
}

fn sync<R: Rig>(store: &mut TreeStore, rig: &mut R, path: &[u8]) -> Result<(), Stop>
    requires stored { IsStored R.tells_view (R.state rig.old) store.old }
    ensures stored { OnOk result (IsStored R.tells_view (R.state rig.new) store.new) }
    ensures size { (R.state rig.new).size ≡ (R.state rig.old).size }
{
    let Ok(file) = file_at(store, path) else {
        return Err(Stop::Misplaced);
    };
    match store.sync(rig, file) {
        Ok(()) => Ok(()),
        Err(fault) => Err(Stop::from(fault)),
    }
}

pub(crate) fn carry_out<R: Rig>(
    store: &mut TreeStore,
    rig: &mut R,
    change: Change,
) -> Result<(), Stop>
    requires stored { IsStored R.tells_view (R.state rig.old) store.old }
    ensures stored { OnOk result (IsStored R.tells_view (R.state rig.new) store.new) }
    ensures size { (R.state rig.new).size ≡ (R.state rig.old).size }
{
    match change {
        Change::MakeFile(path) => make_file(store, rig, path),
        Change::MakeDirectory(path) => make_directory(store, rig, path),
        Change::RemoveFile(path) => remove_file(store, rig, path),
        Change::RemoveDirectory(path) => remove_directory(store, rig, path),
        Change::Rename(from, to) => rename(store, rig, from, to),
        Change::Write(path, run) => write(store, rig, path, run),
        Change::Resize(path, size) => resize(store, rig, path, size),
        Change::Sync(path) => sync(store, rig, path),
    }
}

/// Carries out changes one after another, up to the first that isn't done.
pub(crate) fn fly<R: Rig>(
    store: &mut TreeStore,
    rig: &mut R,
    changes: &[Change],
) -> Result<(), Stop>
    requires stored { IsStored R.tells_view (R.state rig.old) store.old }
    ensures stored { OnOk result (IsStored R.tells_view (R.state rig.new) store.new) }
    ensures size { (R.state rig.new).size ≡ (R.state rig.old).size }
{
    for change in changes {
        carry_out(store, rig, *change)?;
    }
    Ok(())
}

/// The tree of a region at the first byte of a device.
pub(crate) fn mounted<R: Rig>(alloc: Global, rig: &mut R, row: &TreeRow) -> Result<TreeStore, Stop>
    requires fits { 512 * tree_blocks row.now ≤ (R.state rig.old).size }
    requires buffers { 9 ≤ row.now.dirty }
    requires settled { IsAllSettled (R.state rig.old) }
    ensures stored { IfOk result (IsStored R.tells_view (R.state rig.new)) }
    ensures size { (R.state rig.new).size ≡ (R.state rig.old).size }
{
    match TreeStore::mount(alloc, rig, row, 0) {
        Ok(store) => Ok(store),
        Err(_) => Err(Stop::Device),
    }
}

/// The same with the small row.
pub(crate) fn small_store<R: Rig>(alloc: Global, rig: &mut R) -> Result<TreeStore, Stop>
    requires fits { 83968 ≤ (R.state rig.old).size }
    requires settled { IsAllSettled (R.state rig.old) }
    ensures stored { IfOk result (IsStored R.tells_view (R.state rig.new)) }
    ensures size { (R.state rig.new).size ≡ (R.state rig.old).size }
{
    mounted(alloc, rig, &small_row())
}

/// Mounts the tree of the small row, and carries out changes up to the first that isn't done.
pub(crate) fn flown<R: Rig>(alloc: Global, rig: &mut R, changes: &[Change]) -> Result<(), Stop>
    requires fits { 83968 ≤ (R.state rig.old).size }
    requires settled { IsAllSettled (R.state rig.old) }
    ensures size { (R.state rig.new).size ≡ (R.state rig.old).size }
{
    match small_store(alloc, rig) {
        Ok(mut store) => fly(&mut store, rig, changes),
        Err(stop) => Err(stop),
    }
}
