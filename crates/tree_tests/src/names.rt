// The names of a tree: changed by paths and by records, walked and listed.
use crate::places::{directory_at, file_at, free_at};
use apex_types::{DirNode, Errno, Name, OutOfMemory, Path, RecordField, Spot};
use file_tree::Tree;
use std::alloc::Global;
use std::test::Fail;

// What is done at a path.
#[derive(Clone, Copy)]
enum Act<'a> {
    File,
    Directory,
    Move(&'a [u8]),
    Remove,
}

// Makes a file or a directory where nothing stands.
fn made(tree: &mut Tree, path: &[u8], is_file: bool) -> bool {
    let Some((parent, name)) = free_at(tree, path) else {
        return false;
    };
    if is_file {
        return tree.make_file(parent, name).is_ok();
    }
    tree.make_dir(parent, name).is_ok()
}

// Renames a file to a path where nothing stands.
fn moved(tree: &mut Tree, from: &[u8], to: &[u8]) -> bool {
    let Some(file) = file_at(tree, from) else {
        return false;
    };
    let Some((parent, name)) = free_at(tree, to) else {
        return false;
    };
    tree.rename(file, parent, name);
    true
}

// Removes a file or an empty directory.
fn removed(tree: &mut Tree, path: &[u8]) -> bool {
    if let Some(file) = file_at(tree, path) {
        tree.remove_file(file);
        return true;
    }
    let Some(directory) = directory_at(tree, path) else {
        return false;
    };
    tree.remove_dir(directory).is_ok()
}

fn done(tree: &mut Tree, act: Act, path: &[u8]) -> bool {
    match act {
        Act::File => made(tree, path, true),
        Act::Directory => made(tree, path, false),
        Act::Move(to) => moved(tree, path, to),
        Act::Remove => removed(tree, path),
    }
}

// Whether each thing is done, or isn't, as the third column says.
fn all_done(tree: &mut Tree, steps: &[(Act, &[u8], bool)]) -> bool {
    for (act, path, is_done) in steps {
        if done(tree, *act, path) != *is_done {
            return false;
        }
    }
    true
}

// Whether a tree with two entries for files and one for a directory fills and empties.
fn fills_and_empties(alloc: Global) -> Result<bool, OutOfMemory> {
    let steps: [(Act, &[u8], bool); 12] = [
        (Act::Directory, b"/NV1/FMS/LOGS", true),
        (Act::Directory, b"/NV1/FMS/MORE", false),
        (Act::File, b"/NV1/FMS/LOGS/A", true),
        (Act::File, b"/NV1/FMS/B", true),
        (Act::File, b"/NV1/FMS/C", false),
        (Act::Remove, b"/NV1/FMS/LOGS", false),
        (Act::Move(b"/NV1/FMS/A"), b"/NV1/FMS/LOGS/A", true),
        (Act::Remove, b"/NV1/FMS/LOGS", true),
        (Act::Remove, b"/NV1/FMS/A", true),
        (Act::File, b"/NV1/FMS/D", true),
        (Act::Remove, b"/NV1/FMS/D", true),
        (Act::Remove, b"/NV1/FMS/B", true),
    ];
    let mut tree = Tree::new(alloc, 2, 1)?;
    Ok(all_done(&mut tree, &steps) && tree.files() == 0)
}

#[test]
fn a_tree_fills_and_empties(rt: HostRuntime) -> Result<(), Fail> {
    assert!(rt; fills_and_empties(rt.alloc())?);
    Ok(())
}

// The first obstacle on the way to a path.
fn obstacle(tree: &Tree, path: &[u8]) -> Option<Errno> {
    let Ok(path) = Path::read(path) else {
        return None;
    };
    tree.walk(&path).err()
}

// A tree in which these files and directories are made, the directories by a second column that is false.
fn tree_of(alloc: Global, entries: &[(&[u8], bool)]) -> Result<Tree, OutOfMemory> {
    let mut tree = Tree::new(alloc, 8, 8)?;
    for (path, is_file) in entries {
        made(&mut tree, path, *is_file);
    }
    Ok(tree)
}

#[test]
fn a_walk_meets_its_first_obstacle(rt: HostRuntime) -> Result<(), Fail> {
    let tree = tree_of(rt.alloc(), &[(b"/NV1/FMS/A", true)])?;
    assert!(rt; obstacle(&tree, b"/NV1/FMS/A/B/C") == Some(Errno::Enotdir));
    assert!(rt; obstacle(&tree, b"/NV1/FMS/X/A/C") == Some(Errno::Enoent));
    Ok(())
}

// What is behind a name and a space at the front of a text.
fn behind<'a>(text: &'a [u8], name: &[u8]) -> Option<&'a [u8]> {
    if text.len() <= name.len() {
        return None;
    }
    if &text[..name.len()] != name {
        return None;
    }
    if text[name.len()] != b' ' {
        return None;
    }
    Some(&text[name.len() + 1..])
}

// Whether the root lists these names, each with a space behind it, and no more.
fn lists(tree: &Tree, text: &[u8]) -> bool {
    let mut rest = text;
    let mut last = None;
    for _ in 0..100u8 {
        match tree.next_entry(DirNode(0), last) {
            Some(Spot::File { name, .. }) | Some(Spot::Directory { name, .. }) => {
                let Some(more) = behind(rest, name.bytes()) else {
                    return false;
                };
                rest = more;
                last = Some(name);
            }
            _ => return rest.is_empty(),
        }
    }
    false
}

#[test]
fn a_listing_goes_by_the_bytes_of_names(rt: HostRuntime) -> Result<(), Fail> {
    let entries: [(&[u8], bool); 7] = [
        (b"/NV1/FMS/z", true),
        (b"/NV1/FMS/AB", false),
        (b"/NV1/FMS/ABC", true),
        (b"/NV1/FMS/_", false),
        (b"/NV1/FMS/A", true),
        (b"/NV1/FMS/--", true),
        (b"/NV1/FMS/AB/A", true),
    ];
    let tree = tree_of(rt.alloc(), &entries)?;
    assert!(rt; lists(&tree, b"-- A AB ABC _ z "));
    Ok(())
}

// Whether each record applies, or doesn't, as the last column says. A record without a name has no bytes in its column.
fn all_applied(tree: &mut Tree, records: &[(u8, u8, u8, &[u8], bool)]) -> bool {
    for (kind, index, parent, name, applies) in records {
        let change = RecordField {
            kind: *kind,
            index: *index,
            parent: DirNode(*parent),
            name: Name::read(name),
        };
        if tree.apply(&change) != *applies {
            return false;
        }
    }
    true
}

// Whether records change a tree with 4 entries for files and 7 for directories where they are to.
fn records_apply(alloc: Global) -> Result<bool, OutOfMemory> {
    let records: [(u8, u8, u8, &[u8], bool); 33] = [
        // the file A, and five directories, one in the other
        (1, 0, 0, b"A", true),
        (2, 0, 0, b"D", true),
        (2, 1, 1, b"D", true),
        (2, 2, 2, b"D", true),
        (2, 3, 3, b"D", true),
        (2, 4, 4, b"D", true),
        // an entry that is used, and one that is not there
        (1, 0, 0, b"B", false),
        (1, 4, 0, b"B", false),
        (2, 0, 0, b"B", false),
        (2, 7, 0, b"B", false),
        // a parent that is not there, also its own
        (1, 1, 7, b"B", false),
        (2, 6, 7, b"B", false),
        // a name that is not free
        (1, 1, 0, b"A", false),
        (1, 1, 0, b"D", false),
        (2, 6, 0, b"A", false),
        // no name
        (1, 1, 0, b"", false),
        (2, 6, 0, b"", false),
        (5, 0, 0, b"", false),
        // nothing to remove, and a directory with something in it
        (3, 1, 0, b"", false),
        (4, 6, 0, b"", false),
        (4, 255, 0, b"", false),
        (4, 0, 0, b"", false),
        // its own name, one that is not free, and no file
        (5, 0, 0, b"A", false),
        (5, 0, 0, b"D", false),
        (5, 1, 0, b"B", false),
        // a seventh name
        (2, 5, 5, b"D", true),
        (2, 6, 6, b"D", false),
        (5, 0, 6, b"A", false),
        // the file moves, and goes, and the last directory goes
        (5, 0, 6, b"", false),
        (5, 0, 1, b"B", true),
        (3, 0, 0, b"", true),
        (3, 0, 0, b"", false),
        (4, 5, 0, b"", true),
    ];
    let mut tree = Tree::new(alloc, 4, 7)?;
    Ok(all_applied(&mut tree, &records) && tree.files() == 0)
}

#[test]
fn records_apply_or_change_nothing(rt: HostRuntime) -> Result<(), Fail> {
    assert!(rt; records_apply(rt.alloc())?);
    Ok(())
}
