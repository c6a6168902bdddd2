ghost use Rattle.std.specs.Prelude.{◌≡◌, ◌+◌, ◌<◌, ◌≤◌, length};
ghost use Rattle.std.specs.Ordering.{is_lt};
ghost use Rattle.apex_model.specs.Trees.{name_cmp};
ghost use Rattle.file_tree.specs.Entries.{slot};
ghost use Rattle.file_tree.specs.Least as least;

use crate::entries::Entry;
use apex_types::{DirNode, FileNode, Name, Spot};

/// Whether a name comes before another in byte order.
fn is_before(name: &Name, other: &Name) -> bool
    ensures { result ≡ is_lt (name_cmp name.now other.now) }
{
    name.bytes().cmp(other.bytes()).is_lt()
}

/// Whether an entry stands in this directory, behind the last name given.
fn is_listed(entry: &Entry, parent: DirNode, after: &Option<Name>) -> bool
    ensures { result ≡ least.is_listed parent.0 after.now entry.now }
{
    if entry.parent.0 != parent.0 {
        return false;
    }
    match after {
        None => true,
        Some(last) => is_before(last, &entry.name),
    }
}

/// The least place so far, with the one at k.
fn with_place(
    entries: &[Option<Entry>],
    best: Option<usize>,
    k: usize,
    parent: DirNode,
    after: &Option<Name>,
) -> Option<usize>
    requires within { k < length entries.now }
    requires so_far { least.IsLeastBelow parent.0 after.now entries.now k best }
    ensures { least.IsLeastBelow parent.0 after.now entries.now (k + 1) result }
{
    let Some(entry) = &entries[k] else {
        return best;
    };
    if !is_listed(entry, parent, after) {
        return best;
    }
    let Some(place) = best else {
        return Some(k);
    };
    if is_second_first(entries, place, entries, k) {
        Some(k)
    } else {
        Some(place)
    }
}

/// Of two entries, whether the name of the second comes first.
pub fn is_second_first(
    firsts: &[Option<Entry>],
    first: usize,
    seconds: &[Option<Entry>],
    second: usize,
) -> bool
    requires first { first < length firsts.now }
    requires second { second < length seconds.now }
    ensures { result ≡ least.is_second_first (slot firsts.now first) (slot seconds.now second) }
{
    let Some(one) = &firsts[first] else {
        return false;
    };
    let Some(other) = &seconds[second] else {
        return false;
    };
    is_before(&other.name, &one.name)
}

/// The place of the least name of a directory behind the last one given.
pub fn least_place(
    entries: &[Option<Entry>],
    parent: DirNode,
    after: &Option<Name>,
) -> Option<usize>
    ensures { least.IsLeastBelow parent.0 after.now entries.now (length entries.now) result }
{
    let mut best = None;
    for k in 0..entries.len() {
        best = with_place(entries, best, k, parent, after);
    }
    best
}

/// Where a path to the file of this entry ends.
pub fn file_spot(entries: &[Option<Entry>], k: usize) -> Option<Spot>
    requires within { k < length entries.now }
    requires few { length entries.now ≤ 255 }
    ensures { result ≡ least.file_spot k (slot entries.now k) }
{
    match &entries[k] {
        None => None,
        Some(entry) => Some(Spot::File {
            parent: entry.parent,
            node: FileNode(k as u8),
            name: entry.name.copy(),
        }),
    }
}

/// Where a path to the directory of this entry ends.
pub fn directory_spot(entries: &[Option<Entry>], k: usize) -> Option<Spot>
    requires within { k < length entries.now }
    requires few { length entries.now ≤ 255 }
    ensures { result ≡ least.directory_spot (k + 1) (slot entries.now k) }
{
    match &entries[k] {
        None => None,
        Some(entry) => Some(Spot::Directory {
            parent: entry.parent,
            node: DirNode(k as u8 + 1),
            name: entry.name.copy(),
        }),
    }
}
