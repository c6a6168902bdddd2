// Places in a tree, by paths.
ghost use Rattle.std.specs.Prelude.{◌≡◌, ◌≢◌, ◌≤◌, length, None, IsSome, IfSome};
ghost use Rattle.apex_model.specs.Trees.{standing_at};
ghost use Rattle.file_tree.specs.Entries.{slot, way_of, path_in};

use apex_types::{DirNode, FileNode, Name, Path, Spot};
use file_tree::Tree;

/// The file at the end of a path.
pub(crate) fn file_at(tree: &Tree, bytes: &[u8]) -> Option<FileNode>
    ensures { IfSome result (λ f. IsSome (slot tree.now.files f.0)) }
{
    let Ok(path) = Path::read(bytes) else {
        return None;
    };
    match tree.walk(&path) {
        Ok(Spot::File { node, .. }) => Some(node),
        _ => None,
    }
}

/// The directory at the end of a path, if it isn't the root.
pub(crate) fn directory_at(tree: &Tree, bytes: &[u8]) -> Option<DirNode>
    ensures below_root { IfSome result (λ d. d.0 ≢ 0) }
    ensures in_use { IfSome result (λ d. IsSome (way_of tree.now d.0)) }
{
    let Ok(path) = Path::read(bytes) else {
        return None;
    };
    match tree.walk(&path) {
        Ok(Spot::Directory { node, .. }) => {
            if node.0 == 0 {
                return None;
            }
            Some(node)
        }
        _ => None,
    }
}

/// The directory and the name of a path where nothing stands.
pub(crate) fn free_at(tree: &Tree, bytes: &[u8]) -> Option<(DirNode, Name)>
    ensures in_use { IfSome result (λ spot. IsSome (way_of tree.now spot.0.0)) }
    ensures few { IfSome result (λ spot. length (path_in tree.now spot.0.0 spot.1) ≤ 6) }
    ensures free { IfSome result (λ spot. standing_at tree.now.nodes (path_in tree.now spot.0.0 spot.1) ≡ None) }
{
    let Ok(path) = Path::read(bytes) else {
        return None;
    };
    let count = path.names.len();
    if count == 0 {
        return None;
    }
    let Ok(Spot::Free { parent }) = tree.walk(&path) else {
        return None;
    };
    Some((parent, path.names.at(count - 1).copy()))
}
