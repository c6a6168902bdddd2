ghost use Rattle.std.specs.Prelude.{◌≡◌, ◌<◌, ◌≤◌, length, option_map, is_some};
ghost use Rattle.file_tree.specs.Entries.{slot};
ghost use Rattle.file_tree.specs.Records.{is_unused as is_unused_at};
ghost use Rattle.file_tree.specs.Table.{way, parent_at as parent_of_place};

use crate::entries::Entry;
use apex_types::DirNode;

/// Whether there is an entry at this place, and it is not used.
pub fn is_unused(entries: &[Option<Entry>], k: usize) -> bool
    ensures { result ≡ is_unused_at entries.now k }
{
    match entries.get(k) {
        None => false,
        Some(place) => place.is_none(),
    }
}

/// Whether the entry at this place is used.
pub fn is_used(entries: &[Option<Entry>], k: usize) -> bool
    ensures { result ≡ is_some (slot entries.now k) }
{
    match entries.get(k) {
        None => false,
        Some(place) => place.is_some(),
    }
}

/// The directory in which the entry at this place stands.
fn parent_at(entries: &[Option<Entry>], k: usize) -> Option<DirNode>
    ensures { result ≡ parent_of_place (slot entries.now k) }
{
    match entries.get(k) {
        Some(Some(entry)) => Some(entry.parent),
        _ => None,
    }
}

/// Whether a directory is in use, with 5 names at most on its way.
pub fn has_way(directories: &[Option<Entry>], directory: DirNode) -> bool
    ensures { result ≡ is_some (way directories.now 5 directory.0) }
{
    let mut at = directory;
    for _ in 0..5u8 {
        if at.0 == 0 {
            return true;
        }
        match parent_at(directories, at.0 as usize - 1) {
            None => return false,
            Some(parent) => at = parent,
        }
    }
    at.0 == 0
}
