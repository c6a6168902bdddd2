// Whether entries that were read from a body are a tree.
ghost use Rattle.std.specs.Prelude.{◌≡◌, ◌≤◌, length, not, MatchBool};
ghost use Rattle.std.specs.List.{list_all};
ghost use Rattle.file_tree.specs.Checks.{has_parent as has_parent_in, has_namesake as has_namesake_in, are_apart as are_apart_all};
ghost use Rattle.file_tree.specs.Table.{AreSound};

use crate::entries::{Entry, child_place};
use crate::places::has_way;

/// Whether the parent of an entry is a directory in use, with at most 5 names on its way.
fn has_parent(directories: &[Option<Entry>], place: &Option<Entry>) -> bool
    ensures { result ≡ has_parent_in directories.now place.now }
{
    match place {
        None => true,
        Some(entry) => has_way(directories, entry.parent),
    }
}

/// Whether one of these entries has the same name in the same directory.
fn has_namesake(entries: &[Option<Entry>], place: &Option<Entry>) -> bool
    ensures { result ≡ has_namesake_in entries.now place.now }
{
    match place {
        None => false,
        Some(entry) => child_place(entries, entry.parent, &entry.name).is_some(),
    }
}

/// Whether each entry has its parent.
fn have_parents(directories: &[Option<Entry>], entries: &[Option<Entry>]) -> bool
    ensures { result ≡ list_all (has_parent_in directories.now) entries.now }
{
    entries.iter().all(|place| has_parent(directories, place))
}

/// Whether none of the entries has a namesake among the others.
fn have_no_namesakes(others: &[Option<Entry>], entries: &[Option<Entry>]) -> bool
    ensures { result ≡ list_all (λ place. not (has_namesake_in others.now place)) entries.now }
{
    entries.iter().all(|place| !has_namesake(others, place))
}

/// Whether no two of the entries are namesakes.
fn are_apart(entries: &[Option<Entry>]) -> bool
    ensures { result ≡ are_apart_all entries.now }
{
    for k in 0..entries.len() {
        if has_namesake(&entries[k + 1..], &entries[k]) {
            return false;
        }
    }
    true
}

/// Whether entries are a tree: each parent is there, no path is too long or goes round, and the names in a
/// directory differ.
pub fn are_sound(files: &[Option<Entry>], directories: &[Option<Entry>]) -> bool
    requires files { length files.now ≤ 255 }
    requires directories { length directories.now ≤ 255 }
    ensures { MatchBool result (AreSound files.now directories.now) (AreSound files.now directories.now → ⊥) }
{
    if !have_parents(directories, files) {
        return false;
    }
    if !have_parents(directories, directories) {
        return false;
    }
    if !are_apart(files) {
        return false;
    }
    if !are_apart(directories) {
        return false;
    }
    have_no_namesakes(directories, files)
}
