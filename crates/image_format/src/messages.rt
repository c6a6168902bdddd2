// A message in a place of a logbook.
ghost use Rattle.std.specs.Prelude.{◌≡◌, ◌≤◌, ◌++◌, ℕ, Some, length};
ghost use Rattle.byteorder.specs.Endian.{little_bytes};
ghost use Rattle.apex_model.specs.Fields.{log_entry_of};

use crate::pieces::{four_at, is_zero, put_padded, two_at};
use apex_types::Bytes;
use byteorder::{ByteOrder, LittleEndian};

fn copied(bytes: &[u8]) -> Bytes
    requires { length bytes.now ≤ 4096 }
    ensures { result ≡ bytes.now }
{
    let mut content = Bytes::new();
    for b in bytes {
        content.push(*b);
    }
    content
}

/// The number and the message in a place, by its 512 bytes; a message has at most `limit` bytes.
pub fn message_at(b: &[u8], limit: u32) -> Option<(u32, Bytes)>
    requires { length b.now ≡ 512 }
    ensures { result ≡ log_entry_of limit b.now }
{
    let number = four_at(b, 0);
    let count = two_at(b, 4);
    if number < 1 {
        return None;
    }
    if count < 1 {
        return None;
    }
    if u32::from(count) > limit {
        return None;
    }
    let behind = &b[6..];
    let end = behind.len().min(count as usize);
    if !is_zero(&behind[end..]) {
        return None;
    }
    Some((number, copied(&behind[..end])))
}

/// The bytes in front of a message.
fn front_of_message(number: u32, count: u16) -> [u8; 6]
    ensures { result ≡ little_bytes 4 number ++ little_bytes 2 count }
{
    let mut front = [0; 6];
    LittleEndian::write_u32(&mut front[..4], number);
    LittleEndian::write_u16(&mut front[4..], count);
    front
}

/// Writes a number and a message into a place.
pub fn put_message(b: &mut [u8], number: u32, bytes: &[u8])
    requires long { length b.old ≡ 512 }
    requires numbered { 1 ≤ number }
    requires some { 1 ≤ length bytes.now }
    requires few { length bytes.now ≤ 506 }
    ensures { (limit : ℕ) → length bytes.now ≤ limit → log_entry_of limit b.new ≡ Some (number, bytes.now) }
{
    let front = front_of_message(number, bytes.len() as u16);
    put_padded(b, &front, bytes);
}
