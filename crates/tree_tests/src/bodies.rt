// Bodies of slots, by their bytes: which are read, and what is written.
use crate::places::file_at;
use apex_types::OutOfMemory;
use file_tree::Tree;
use std::alloc::Global;
use std::test::Fail;
use test_fixtures::put;

// A body of a tree with 4 files and 8 directories, of a version: directories D below the root (entry 1) and E
// in it (entry 0), and a file A in E (entry 2), of 513 bytes and 3 changes.
fn small_body(version: u8) -> [u8; 1600] {
    let mut body = [0; 1600];
    put(&mut body, 0, &[2, version]);
    put(&mut body, 320, &[1, 1, 1, 0, 1, 2, 0, 0, 3, 0, 0, 0, b'A']);
    put(&mut body, 576, &[1, 1, 2, 0, 0, 0, 0, 0, 0, 0, 0, 0, b'E']);
    put(&mut body, 704, &[1, 1, 0, 0, 0, 0, 0, 0, 0, 0, 0, 0, b'D']);
    body
}

// Whether a body is read into a tree with 4 files and 8 directories, and what its only file has stored.
fn read(alloc: Global, body: &[u8; 1600]) -> Result<Option<(u32, u32)>, OutOfMemory> {
    let mut tree = Tree::new(alloc, 4, 8)?;
    if !tree.read_body(body) {
        return Ok(None);
    }
    match file_at(&tree, b"/NV1/FMS/D/E/A") {
        None => Ok(Some((0, tree.files()))),
        Some(file) => Ok(Some(tree.stored(file))),
    }
}

// Whether the small body of a version is read with these bytes from a place on, as the last column says.
fn are_judged(alloc: Global, cases: &[(u8, usize, &[u8], bool)]) -> Result<bool, OutOfMemory> {
    for (version, place, bytes, is_read) in cases {
        let mut body = small_body(*version);
        put(&mut body, *place, bytes);
        if read(alloc, &body)?.is_some() != *is_read {
            return Ok(false);
        }
    }
    Ok(true)
}

#[test]
fn one_invalid_thing_refuses_a_body(rt: HostRuntime) -> Result<(), Fail> {
    let cases: [(u8, usize, &[u8], bool); 28] = [
        // nothing else, in both versions
        (1, 0, &[2], true),
        (2, 0, &[2], true),
        // a sequence number, a version, padding in the header
        (2, 0, &[3], false),
        (2, 1, &[0], false),
        (2, 1, &[3], false),
        (2, 2, &[1], false),
        (2, 63, &[1], false),
        // an unused entry with bytes, a kind of entry, a length of a name, a byte of a name, padding in an entry
        (2, 70, &[1], false),
        (2, 64, &[2], false),
        (2, 321, &[0], false),
        (2, 321, &[57], false),
        (2, 332, &[b'/'], false),
        (2, 323, &[1], false),
        (2, 333, &[b'A'], false),
        // a name that is longer than its bytes
        (2, 321, &[2], false),
        // a size over the limit and the greatest one, and a directory's size and changes
        (2, 324, &[1, 0, 16, 0], false),
        (2, 324, &[0, 0, 16, 0], true),
        (2, 580, &[1], false),
        (2, 584, &[1], false),
        // a parent that is unused, that is no entry, that is itself, and a cycle
        (2, 322, &[3], false),
        (2, 322, &[9], false),
        (2, 578, &[1], false),
        (2, 706, &[1], false),
        // a repeated name: of two files, of a file and a directory, of two directories
        (2, 64, &[1, 1, 1, 0, 0, 0, 0, 0, 0, 0, 0, 0, b'A'], false),
        (2, 64, &[1, 1, 2, 0, 0, 0, 0, 0, 0, 0, 0, 0, b'E'], false),
        (2, 832, &[1, 1, 2, 0, 0, 0, 0, 0, 0, 0, 0, 0, b'E'], false),
        // the same name in another directory, and another name in the same one
        (2, 64, &[1, 1, 0, 0, 0, 0, 0, 0, 0, 0, 0, 0, b'A'], true),
        (2, 64, &[1, 1, 1, 0, 0, 0, 0, 0, 0, 0, 0, 0, b'B'], true),
    ];
    assert!(rt; are_judged(rt.alloc(), &cases)?);
    Ok(())
}

// Whether the small body of a version is read with a name of so many letters.
fn is_read_with_name(alloc: Global, version: u8, length: u8) -> Result<bool, OutOfMemory> {
    let mut body = small_body(version);
    for k in 332..332 + usize::from(length) {
        body[k] = b'A';
    }
    body[321] = length;
    Ok(read(alloc, &body)?.is_some())
}

#[test]
fn names_have_24_letters_in_version_one_and_56_in_version_two(rt: HostRuntime) -> Result<(), Fail> {
    for (version, length, is_read) in [
        (1, 24, true),
        (1, 25, false),
        (2, 25, true),
        (2, 56, true),
    ] {
        assert!(rt; is_read_with_name(rt.alloc(), version, length)? == is_read);
    }
    Ok(())
}

// Whether a body is read that has so many directories, one in the other, and a file in one of them.
fn is_read_with_depth(alloc: Global, directories: u8, parent: u8) -> Result<bool, OutOfMemory> {
    let mut body = [0; 1600];
    put(&mut body, 1, &[2]);
    for k in 0..directories.min(7) {
        let entry = [1, 1, k, 0, 0, 0, 0, 0, 0, 0, 0, 0, b'D'];
        put(&mut body, 576 + 128 * usize::from(k), &entry);
    }
    put(
        &mut body,
        64,
        &[1, 1, parent, 0, 0, 0, 0, 0, 0, 0, 0, 0, b'A'],
    );
    Ok(read(alloc, &body)?.is_some())
}

#[test]
fn a_path_in_a_body_has_at_most_six_names(rt: HostRuntime) -> Result<(), Fail> {
    for (directories, parent, is_read) in [
        (5, 5, true),
        (6, 6, false),
        (6, 0, true),
        (7, 0, false),
    ] {
        assert!(rt; is_read_with_depth(rt.alloc(), directories, parent)? == is_read);
    }
    Ok(())
}

// The body that a tree writes over another one's bytes, once it was read from a body of version 1.
fn written_again(alloc: Global) -> Result<[u8; 1600], OutOfMemory> {
    let mut tree = Tree::new(alloc, 4, 8)?;
    tree.read_body(&small_body(1));
    let mut body = [7; 1600];
    body[0] = 2;
    tree.put_body(&mut body);
    Ok(body)
}

#[test]
fn a_body_is_written_in_version_two(rt: HostRuntime) -> Result<(), Fail> {
    assert!(rt; written_again(rt.alloc())? == small_body(2));
    assert!(rt; read(rt.alloc(), &small_body(2))? == Some((513, 3)));
    Ok(())
}
