// The header of a slot's body, the number of a data block, and the header of a logbook.
ghost use Rattle.std.specs.Prelude.{◌≡◌, ◌≤◌, Some, length};
ghost use Rattle.apex_model.specs.Fields.{number_of, header_of, log_header_of};

use crate::pieces::{four_at, four_bytes, is_zero, put_padded};

/// The sequence number and the version of a slot's body, by the 64 bytes of its header.
pub fn body_header(b: &[u8]) -> Option<(u8, u8)>
    requires { length b.now ≡ 64 }
    ensures { result ≡ header_of b.now }
{
    let sequence = b[0];
    let version = b[1];
    if sequence > 2 {
        return None;
    }
    if version != 1 && version != 2 {
        return None;
    }
    if !is_zero(&b[2..]) {
        return None;
    }
    Some((sequence, version))
}

/// Writes the header of a slot's body of version 2.
pub fn put_body_header(b: &mut [u8], seq: u8)
    requires long { length b.old ≡ 64 }
    requires sequence { seq ≤ 2 }
    ensures { header_of b.new ≡ Some (seq, 2) }
{
    put_padded(b, &[seq, 2], &[]);
}

/// The number of a data block: every four bytes spell one.
pub fn block_at(b: &[u8]) -> Option<u32>
    requires { length b.now ≡ 4 }
    ensures { result ≡ Some (number_of b.now) }
{
    Some(four_at(b, 0))
}

/// Writes the number of a data block.
pub fn put_block(b: &mut [u8], n: u32)
    requires { length b.old ≡ 4 }
    ensures { number_of b.new ≡ n }
{
    b.copy_from_slice(&four_bytes(n));
}

/// The sequence number and the cleared number of a logbook's header, by its 512 bytes.
pub fn header_at(b: &[u8]) -> Option<(u8, u32)>
    requires { length b.now ≡ 512 }
    ensures { result ≡ log_header_of b.now }
{
    let seq = b[0];
    if seq > 2 {
        return None;
    }
    if !is_zero(&b[1..4]) {
        return None;
    }
    if !is_zero(&b[8..]) {
        return None;
    }
    Some((seq, four_at(b, 4)))
}

/// Writes the header of a logbook.
pub fn put_header(b: &mut [u8], seq: u8, cleared: u32)
    requires long { length b.old ≡ 512 }
    requires sequence { seq ≤ 2 }
    ensures { log_header_of b.new ≡ Some (seq, cleared) }
{
    put_padded(b, &[seq, 0, 0, 0], &four_bytes(cleared));
}
