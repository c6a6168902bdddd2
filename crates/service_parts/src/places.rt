// Where paths lead.
ghost use Rattle.std.specs.Prelude.{◌≡◌, ◌<◌, ◌≤◌, ◌==◌, ◌-◌, length, IfOk, IfSome, MatchResult, Ok, Err, Some, false, slice_get, position};
ghost use Rattle.std.specs.List.{list_any};
ghost use Rattle.std.specs.Option.{option_map_or};
ghost use Rattle.apex_model.specs.Accepted.{IsAccepted};
ghost use Rattle.apex_model.specs.Tables.{volume_is, partition_is, is_tree_of, has_right, place_of as model_place_of, place_of_path};
ghost use Rattle.service_parts.specs.Places.{right_of, model_place};

use apex_types::{Errno, Name, PartitionId, Path, PathNames, Table, TreeRow};

/// Who may use a service: the owner of a tree alone, or also those who may read it.
#[derive(Clone, Copy)]
pub enum Right {
    Owner,
    OwnerOrReader,
}

/// A place in a tree: the tree's number, and the path that leads there.
#[derive(Drop)]
pub struct Place {
    pub tree: u32,
    pub path: Path,
}

fn is_volume(table: &Table, volume: u8, name: &Name) -> bool
    ensures { result ≡ volume_is table.now volume name.now }
{
    match table.volumes().get(volume as usize) {
        None => false,
        Some(row) => row.name.bytes() == name.bytes(),
    }
}

fn is_partition(table: &Table, p: PartitionId, name: &Name) -> bool
    ensures { result ≡ partition_is table.now p.0 name.now }
{
    match table.partitions().get(p.0 as usize) {
        None => false,
        Some(row) => row.name.bytes() == name.bytes(),
    }
}

fn is_tree(table: &Table, path: &Path, row: &TreeRow) -> bool
    ensures { result ≡ is_tree_of table.now path.now row.now }
{
    is_volume(table, row.volume, &path.volume) && is_partition(table, row.owner, &path.owner)
}

/// The tree that a path leads into.
fn tree_of(table: &Table, path: &Path) -> Option<usize>
    ensures value { result ≡ position (is_tree_of table.now path.now) table.now.trees }
    ensures within { IfSome result (λ k. k < length table.now.trees) }
{
    table
        .trees()
        .iter()
        .position(|row| is_tree(table, path, row))
}

/// Whether a partition is among the readers of a tree.
fn is_reader(row: &TreeRow, p: PartitionId) -> bool
    ensures { result ≡ list_any (λ reader. reader.0 == p.0) row.now.readers }
{
    for k in 0..row.readers.len() {
        if row.readers.at(k).0 == p.0 {
            return true;
        }
    }
    false
}

/// Whether a partition has a right to a tree.
fn may_use(row: &TreeRow, right: Right, p: PartitionId) -> bool
    ensures { result ≡ has_right (right_of right) p.0 row.now }
{
    if row.owner.0 == p.0 {
        return true;
    }
    match right {
        Right::Owner => false,
        Right::OwnerOrReader => is_reader(row, p),
    }
}

/// Whether a partition has a right to the tree of a number.
fn has_right_to(table: &Table, tree: usize, right: Right, p: PartitionId) -> bool
    ensures { result ≡ option_map_or (has_right (right_of right) p.0) (slice_get table.now.trees tree) false }
{
    match table.trees().get(tree) {
        None => false,
        Some(row) => may_use(row, right, p),
    }
}

/// The place that a path leads a partition to.
fn place_of_read_path(
    table: &Table,
    right: Right,
    p: PartitionId,
    path: Path,
) -> Result<Place, Errno>
    requires { IsAccepted table.now }
    ensures place { MatchResult result (λ place. place_of_path table.now (right_of right) p.0 path ≡ Ok (model_place place)) (λ errno. place_of_path table.now (right_of right) p.0 path ≡ Err errno) }
    ensures within { IfOk result (λ place. place.tree < length table.now.trees) }
{
    let Some(tree) = tree_of(table, &path) else {
        return Err(Errno::Enoent);
    };
    if !has_right_to(table, tree, right, p) {
        return Err(Errno::Eacces);
    }
    Ok(Place {
        tree: tree as u32,
        path,
    })
}

/// The place that these bytes lead a partition to, or the first reason that they do not.
pub fn place_of(table: &Table, right: Right, p: PartitionId, bytes: &[u8]) -> Result<Place, Errno>
    requires { IsAccepted table.now }
    ensures place { MatchResult result (λ place. model_place_of table.now (right_of right) p.0 bytes.now ≡ Ok (model_place place)) (λ errno. model_place_of table.now (right_of right) p.0 bytes.now ≡ Err errno) }
    ensures within { IfOk result (λ place. place.tree < length table.now.trees) }
{
    match Path::read(bytes) {
        Err(errno) => Err(errno),
        Ok(path) => place_of_read_path(table, right, p, path),
    }
}

/// The last of the names of a path.
pub fn last_name(names: &PathNames) -> Name
    requires { 1 ≤ length names.now }
    ensures last { slice_get names.now (length names.now - 1) ≡ Some result }
    // What holds of every path; a caller learns it here.
    ensures few { length names.now ≤ 6 }
{
    names.at(names.len() - 1).copy()
}
