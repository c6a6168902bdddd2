// The entries of a tree in a slot's body.
ghost use Rattle.std.specs.Prelude.{◌≡◌, ◌+◌, ◌*◌, ◌<◌, ◌≤◌, ℕ, length, take, drop, None, Some, option_map, slice_index, slice_set, IfSome, MatchBool};
ghost use Rattle.apex_model.specs.Fields.{header_of, entry_of_bytes};
ghost use Rattle.apex_model.specs.Image.{entry_bytes, directory_entry};
ghost use Rattle.file_tree.specs.Bodies.{entry_of, entry_by, entries_in, file_entry, tree_in_body};
ghost use Rattle.file_tree.specs.Checks.{kept};
ghost use Rattle.file_tree.specs.Entries.{slot};
ghost use Rattle.file_tree.specs.Images.{named, named_entry};
ghost use Rattle.file_tree.specs.Table.{value_of, HasName, HaveNames, AreKept};

use crate::checks::are_sound;
use crate::entries::Entry;
use crate::kind::Kind;
use crate::stored::Stored;
use apex_types::FileEntryField;
use image_format::{body_header, entry_at, put_body_header, put_entry};

/// The entry of a file that a field gives: of an unused one there is none, and a size over 1,048,576 bytes
/// gives no answer.
fn file_of(field: FileEntryField) -> Option<Option<Entry>>
    ensures entry { result ≡ option_map (option_map named_entry) (file_entry field) }
    ensures name { IfSome result HasName }
{
    match field {
        FileEntryField::Unused => Some(None),
        FileEntryField::Used {
            name,
            parent,
            size,
            changes,
        } => {
            if size > 1048576 {
                return None;
            }
            Some(Some(Entry::new(parent, name, Stored::new(size, changes))))
        }
    }
}

/// The entry of a directory that a field gives: of an unused one there is none, and a size or a change count
/// gives no answer.
fn directory_of(field: FileEntryField) -> Option<Option<Entry>>
    ensures entry { result ≡ option_map (option_map named_entry) (directory_entry field) }
    ensures name { IfSome result HasName }
{
    match field {
        FileEntryField::Unused => Some(None),
        FileEntryField::Used {
            name,
            parent,
            size,
            changes,
        } => {
            if size != 0 {
                return None;
            }
            if changes != 0 {
                return None;
            }
            Some(Some(Entry::new(parent, name, Stored::nothing())))
        }
    }
}

/// The entry of a number in a body of a version, if it is spelled.
fn read_entry(kind: Kind, body: &[u8], version: u8, k: usize) -> Option<Option<Entry>>
    requires { 64 + 128 * k + 128 ≤ length body.now }
    ensures entry { result ≡ option_map (option_map named_entry) (entry_by kind (entry_of_bytes version (entry_bytes body.now k))) }
    ensures name { IfSome result HasName }
{
    let at = 64 + 128 * k;
    let Some(field) = entry_at(&body[at..at + 128], version) else {
        return None;
    };
    match kind {
        Kind::File => file_of(field),
        Kind::Directory => directory_of(field),
    }
}

/// Reads entries of a kind, from a number in a body on. False comes exactly where one of them isn't spelled.
fn read_entries(
    kind: Kind,
    entries: &mut [Option<Entry>],
    body: &[u8],
    version: u8,
    start: usize,
) -> bool
    requires { 64 + 128 * (start + length entries.old) ≤ length body.now }
    ensures entries { MatchBool result (option_map named (entries_in kind version body.now start (length entries.old)) ≡ Some entries.new) (entries_in kind version body.now start (length entries.old) ≡ None) }
    ensures names { MatchBool result (HaveNames entries.new) (Unit {0}) }
{
    for k in 0..entries.len() {
        let Some(entry) = read_entry(kind, body, version, start + k) else {
            return false;
        };
        entries[k] = entry;
    }
    true
}

/// Reads all entries from a body. False comes exactly where its header or its entries are no tree; the entries
/// are of no use then.
pub fn read_tables(
    files: &mut [Option<Entry>],
    directories: &mut [Option<Entry>],
    body: &[u8],
) -> bool
    requires long { 64 + 128 * (length files.old + length directories.old) ≤ length body.now }
    requires files { length files.old ≤ 255 }
    requires directories { length directories.old ≤ 255 }
    ensures kept { MatchBool result (AreKept files.new directories.new) (Unit {0}) }
    ensures tree { MatchBool result (tree_in_body (length files.old) (length directories.old) body.now ≡ Some (value_of files.new directories.new)) (tree_in_body (length files.old) (length directories.old) body.now ≡ None) }
{
    let Some((_, version)) = body_header(&body[..64]) else {
        return false;
    };
    if !read_entries(Kind::File, files, body, version, 0) {
        return false;
    }
    if !read_entries(Kind::Directory, directories, body, version, files.len()) {
        return false;
    }
    are_sound(files, directories)
}

/// The field that an entry of a kind gives.
fn field_of(kind: Kind, place: &Option<Entry>) -> FileEntryField
    ensures { option_map (option_map named_entry) (entry_of kind result) ≡ Some (kept kind place.now) }
{
    match place {
        None => FileEntryField::Unused,
        Some(entry) => {
            let (size, changes) = match kind {
                Kind::File => entry.stored.both(),
                Kind::Directory => (0, 0),
            };
            FileEntryField::Used {
                name: entry.name.copy(),
                parent: entry.parent,
                size,
                changes,
            }
        }
    }
}

/// Writes entries of a kind into a body of version 2, from a number on.
pub fn put_entries(kind: Kind, body: &mut [u8], entries: &[Option<Entry>], start: usize)
    requires { 64 + 128 * (start + length entries.now) ≤ length body.old }
    ensures entries { (k : ℕ) → k < length entries.now → option_map (option_map named_entry) (entry_by kind (entry_of_bytes 2 (entry_bytes body.new (start + k)))) ≡ Some (kept kind (slot entries.now k)) }
    ensures front { take (64 + 128 * start) body.new ≡ take (64 + 128 * start) body.old }
    ensures behind { drop (64 + 128 * (start + length entries.now)) body.new ≡ drop (64 + 128 * (start + length entries.now)) body.old }
{
    for k in 0..entries.len() {
        let at = 64 + 128 * (start + k);
        put_entry(&mut body[at..at + 128], &field_of(kind, &entries[k]));
    }
}

/// Writes the header of a body of version 2, but its sequence number.
pub fn put_header(body: &mut [u8])
    requires { 64 ≤ length body.old }
    ensures sequence { slice_index body.new 0 ≡ slice_index body.old 0 }
    ensures header { (sequence : ℕ) → sequence ≤ 2 → header_of (take 64 (slice_set body.new 0 sequence)) ≡ Some (sequence, 2) }
    ensures behind { drop 64 body.new ≡ drop 64 body.old }
{
    let sequence = body[0];
    put_body_header(&mut body[..64], 0);
    body[0] = sequence;
}
