// The fields of an image, by their bytes.
ghost use Rattle.std.specs.Prelude.{IsTrue};
ghost use Rattle.image_format.specs.Records.{is_record};

use apex_types::{DirNode, FileEntryField, Name, RecordField};
use image_format::{
    block_at, body_header, entry_at, header_at, message_at, put_block, put_body_header, put_entry,
    put_header, put_message, put_record, record_at,
};
use test_fixtures::put;

// The header of a body with sequence number 2 as it is written, with another byte at a place.
fn body_header_with(at: usize, byte: u8) -> Option<(u8, u8)> {
    let mut bytes = [7; 64];
    put_body_header(&mut bytes, 2);
    put(&mut bytes, at, &[byte]);
    body_header(&bytes)
}

#[test]
fn a_header_of_a_body_has_its_number_and_version(rt: HostRuntime) {
    let rows = [
        (0, 2, Some((2, 2))),
        (1, 1, Some((2, 1))),
        (1, 3, None),
        (0, 3, None),
        (2, 1, None),
        (63, 1, None),
    ];
    for (at, byte, want) in rows {
        assert_eq!(rt; body_header_with(at, byte), want, "{byte} at {at}");
    }
}

// The used entry of the file A7.
fn used_entry() -> [u8; 128] {
    let mut bytes = [0; 128];
    put(
        &mut bytes,
        0,
        &[1, 2, 3, 0, 0x34, 0x12, 0, 0, 9, 0, 0, 0, b'A', b'7'],
    );
    bytes
}

fn is_used_entry(entry: &FileEntryField) -> bool {
    match entry {
        FileEntryField::Used {
            name,
            parent,
            size,
            changes,
        } => {
            name.bytes() == b"A7".as_slice()
                && *parent == DirNode(3)
                && *size == 0x1234
                && *changes == 9
        }
        FileEntryField::Unused => false,
    }
}

// Whether the used entry is read as such, and written as it was.
fn reads_and_writes_entry() -> bool {
    let bytes = used_entry();
    let Some(entry) = entry_at(&bytes, 1) else {
        return false;
    };
    let mut again = [7; 128];
    put_entry(&mut again, &entry);
    is_used_entry(&entry) && again == bytes
}

// Whether the used entry is one of version 2 with another byte at a place.
fn is_entry_with(at: usize, byte: u8) -> bool {
    let mut bytes = used_entry();
    put(&mut bytes, at, &[byte]);
    entry_at(&bytes, 2).is_some()
}

#[test]
fn an_entry_is_read_by_its_bytes(rt: HostRuntime) {
    let rows = [
        (0, 1, true),
        (127, 1, false),
        (3, 1, false),
        (1, 0, false),
        (0, 2, false),
    ];
    assert!(rt; reads_and_writes_entry());
    for (at, byte, want) in rows {
        assert_eq!(rt; is_entry_with(at, byte), want, "{byte} at {at}");
    }
}

// Whether an unused entry is one with another byte at a place.
fn is_unused_with(at: usize, byte: u8) -> bool {
    let mut bytes = [7; 128];
    put_entry(&mut bytes, &FileEntryField::Unused);
    put(&mut bytes, at, &[byte]);
    matches!(entry_at(&bytes, 2), Some(FileEntryField::Unused))
}

#[test]
fn an_unused_entry_is_all_zeros(rt: HostRuntime) {
    for (at, byte, want) in [(64, 0, true), (64, 1, false), (127, 1, false)] {
        assert_eq!(rt; is_unused_with(at, byte), want, "{byte} at {at}");
    }
}

// Whether an entry with so long a name is one of a version.
fn is_long_entry(length: u8, version: u8) -> bool {
    let mut bytes = [0; 128];
    put(&mut bytes, 0, &[1, length]);
    for k in 0..length {
        put(&mut bytes, 12 + usize::from(k), b"x");
    }
    entry_at(&bytes, version).is_some()
}

#[test]
fn long_names_came_with_version_two(rt: HostRuntime) {
    let rows = [
        (24, 1, true),
        (25, 1, false),
        (25, 2, true),
        (56, 2, true),
        (57, 2, false),
    ];
    for (length, version, want) in rows {
        assert_eq!(rt;
            is_long_entry(length, version),
            want,
            "{length} in version {version}"
        );
    }
}

#[test]
fn the_number_of_a_data_block(rt: HostRuntime) {
    let mut bytes = [7; 4];
    put_block(&mut bytes, 0x0102_0304);
    assert!(rt; bytes == [4, 3, 2, 1] && block_at(&bytes) == Some(0x0102_0304));
}

// The first six bytes of a record as it is written, where it is read again.
fn written_record(field: &RecordField) -> Option<[u8; 6]>
    requires { IsTrue (is_record field.now) }
{
    let mut bytes = [7; 512];
    put_record(&mut bytes, field);
    record_at(&bytes, 2)?;
    Some([bytes[0], bytes[1], bytes[2], bytes[3], bytes[4], bytes[5]])
}

#[test]
fn a_record_is_written_with_its_name_or_without(rt: HostRuntime) {
    let named = RecordField {
        kind: 1,
        index: 2,
        parent: DirNode(4),
        name: Some(Name::default()),
    };
    let unnamed = RecordField {
        kind: 3,
        index: 8,
        parent: DirNode(0),
        name: None,
    };
    assert_eq!(rt; written_record(&named), Some([1, 2, 4, 1, b'-', 0]));
    assert_eq!(rt; written_record(&unnamed), Some([3, 8, 0, 0, 0, 0]));
}

// The record of a directory N that is renamed, with another byte at a place.
fn record_with(at: usize, byte: u8, version: u8) -> Option<RecordField> {
    let mut bytes = [0; 512];
    put(&mut bytes, 0, &[5, 3, 1, 1, b'N']);
    put(&mut bytes, at, &[byte]);
    record_at(&bytes, version)
}

fn is_named_record() -> bool {
    let Some(record) = record_with(0, 5, 1) else {
        return false;
    };
    let Some(name) = &record.name else {
        return false;
    };
    record.kind == 5
        && record.index == 3
        && record.parent == DirNode(1)
        && name.bytes() == b"N".as_slice()
}

#[test]
fn a_record_is_read_by_its_bytes(rt: HostRuntime) {
    assert!(rt; is_named_record());
    for (at, byte) in [(0, 3), (0, 6), (3, 0), (511, 1)] {
        assert!(rt; record_with(at, byte, 2).is_none(), "{byte} at {at}");
    }
}

// The header of a logbook as it is written, with another byte at a place.
fn header_with(at: usize, byte: u8) -> Option<(u8, u32)> {
    let mut bytes = [7; 512];
    put_header(&mut bytes, 1, 258);
    put(&mut bytes, at, &[byte]);
    header_at(&bytes)
}

#[test]
fn a_header_of_a_logbook_has_its_numbers(rt: HostRuntime) {
    let rows = [
        (0, 1, Some((1, 258))),
        (4, 3, Some((1, 259))),
        (5, 2, Some((1, 514))),
        (3, 1, None),
        (8, 1, None),
        (511, 1, None),
        (0, 3, None),
    ];
    for (at, byte, want) in rows {
        assert_eq!(rt; header_with(at, byte), want, "{byte} at {at}");
    }
}

// The place of a message as it is written, with other bytes from a place on.
fn message_place(at: usize, bytes: &[u8]) -> [u8; 512] {
    let mut place = [7; 512];
    put_message(&mut place, 259, b"hello");
    put(&mut place, at, bytes);
    place
}

fn reads_message() -> bool {
    let place = message_place(0, b"");
    let Some((number, message)) = message_at(&place, 5) else {
        return false;
    };
    place.starts_with(&[3, 1, 0, 0, 5, 0, b'h', b'e', b'l', b'l', b'o', 0])
        && number == 259
        && message.bytes() == b"hello".as_slice()
}

// Whether a place with other bytes has a message of at most so many bytes.
fn is_message_with(at: usize, bytes: &[u8], limit: u32) -> bool {
    message_at(&message_place(at, bytes), limit).is_some()
}

#[test]
fn a_message_is_read_by_its_bytes(rt: HostRuntime) {
    assert!(rt; reads_message());
    assert!(rt; !is_message_with(0, b"", 4));
    assert!(rt; !is_message_with(0, &[0, 0], 16));
    for (at, byte) in [(4, 0), (511, 1)] {
        assert!(rt; !is_message_with(at, &[byte], 16), "{byte} at {at}");
    }
}
