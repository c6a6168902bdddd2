// A record of a tree's journal: a change of its names.
ghost use Rattle.std.specs.Prelude.{◌≡◌, Some, IsTrue, length};
ghost use Rattle.apex_model.specs.Fields.{record_of};
ghost use Rattle.image_format.specs.Records.{is_record};

use crate::pieces::{is_zero, name_length, padded_name, put_padded};
use apex_types::{DirNode, RecordField};

/// The record in a slot of a version, by its 512 bytes.
pub fn record_at(b: &[u8], version: u8) -> Option<RecordField>
    requires { length b.now ≡ 512 }
    ensures { result ≡ record_of version b.now }
{
    let kind = b[0];
    let index = b[1];
    if kind == 1 || kind == 2 || kind == 5 {
        let count = b[3];
        let Some(name) = padded_name(b, version, 4, count as usize) else {
            return None;
        };
        return Some(RecordField {
            kind,
            index,
            parent: DirNode(b[2]),
            name: Some(name),
        });
    }
    if kind != 3 && kind != 4 {
        return None;
    }
    if !is_zero(&b[2..]) {
        return None;
    }
    Some(RecordField {
        kind,
        index,
        parent: DirNode(0),
        name: None,
    })
}

/// Writes a record in version 2.
pub fn put_record(b: &mut [u8], r: &RecordField)
    requires long { length b.old ≡ 512 }
    requires spelled { IsTrue (is_record r.now) }
    ensures { record_of 2 b.new ≡ Some r.now }
{
    match &r.name {
        Some(name) => put_padded(
            b,
            &[r.kind, r.index, r.parent.0, name_length(name)],
            name.bytes(),
        ),
        None => put_padded(b, &[r.kind, r.index], &[]),
    }
}
