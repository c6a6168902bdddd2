// An entry of a tree: a file or a directory.
ghost use Rattle.std.specs.Prelude.{◌≡◌, ◌∷◌, ◌++◌, Some, length};
ghost use Rattle.byteorder.specs.Endian.{little_bytes};
ghost use Rattle.apex_model.specs.Fields.{entry_of_bytes};

use crate::pieces::{four_at, is_zero, name_length, padded_name, put_padded};
use apex_types::{DirNode, FileEntryField};
use byteorder::{ByteOrder, LittleEndian};

/// The entry in a slot of a version, by its 128 bytes.
pub fn entry_at(b: &[u8], version: u8) -> Option<FileEntryField>
    requires { length b.now ≡ 128 }
    ensures { result ≡ entry_of_bytes version b.now }
{
    let kind = b[0];
    if kind == 0 {
        if !is_zero(&b[1..]) {
            return None;
        }
        return Some(FileEntryField::Unused);
    }
    if kind != 1 {
        return None;
    }
    let count = b[1];
    let Some(name) = padded_name(b, version, 12, count as usize) else {
        return None;
    };
    if b[3] != 0 {
        return None;
    }
    Some(FileEntryField::Used {
        name,
        parent: DirNode(b[2]),
        size: four_at(b, 4),
        changes: four_at(b, 8),
    })
}

/// The bytes of a used entry in front of its name.
fn front_of_entry(count: u8, parent: u8, size: u32, changes: u32) -> [u8; 12]
    ensures { result ≡ 1 ∷ count ∷ parent ∷ 0 ∷ (little_bytes 4 size ++ little_bytes 4 changes) }
{
    let mut front = [1, count, parent, 0, 0, 0, 0, 0, 0, 0, 0, 0];
    LittleEndian::write_u32(&mut front[4..8], size);
    LittleEndian::write_u32(&mut front[8..], changes);
    front
}

/// Writes an entry in version 2.
pub fn put_entry(b: &mut [u8], e: &FileEntryField)
    requires { length b.old ≡ 128 }
    ensures { entry_of_bytes 2 b.new ≡ Some e.now }
{
    match e {
        FileEntryField::Unused => put_padded(b, &[], &[]),
        FileEntryField::Used {
            name,
            parent,
            size,
            changes,
        } => {
            let front = front_of_entry(name_length(name), parent.0, *size, *changes);
            put_padded(b, &front, name.bytes());
        }
    }
}
