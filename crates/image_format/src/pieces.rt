// What fields are made of: numbers, names and padding.
ghost use Rattle.std.specs.Prelude.{◌≡◌, ◌+◌, ◌-◌, ◌≤◌, ◌<◌, ◌++◌, length, replicate};
ghost use Rattle.byteorder.specs.Endian.{little_bytes};
ghost use Rattle.apex_model.specs.Fields.{number_at, is_padding, name_limit, name_at};

use apex_types::Name;
use byteorder::{ByteOrder, LittleEndian};

/// Whether all bytes are zero.
pub(crate) fn is_zero(bytes: &[u8]) -> bool
    ensures { result ≡ is_padding bytes.now }
{
    bytes.iter().all(|b| *b == 0)
}

/// The number of two bytes at a place.
pub(crate) fn two_at(bytes: &[u8], at: usize) -> u16
    requires { at + 2 ≤ length bytes.now }
    ensures { result ≡ number_at bytes.now at 2 }
{
    LittleEndian::read_u16(&bytes[at..at + 2])
}

/// The number of four bytes at a place.
pub(crate) fn four_at(bytes: &[u8], at: usize) -> u32
    requires { at + 4 ≤ length bytes.now }
    ensures { result ≡ number_at bytes.now at 4 }
{
    LittleEndian::read_u32(&bytes[at..at + 4])
}

/// The bytes of a number, the least one first.
pub(crate) fn four_bytes(n: u32) -> [u8; 4]
    ensures { result ≡ little_bytes 4 n }
{
    let mut bytes = [0; 4];
    LittleEndian::write_u32(&mut bytes, n);
    bytes
}

/// How long a name may be in a slot of this version.
fn longest_name(version: u8) -> usize
    ensures { result ≡ name_limit version }
{
    if version == 1 { 24 } else { 56 }
}

/// The name of a length at a place, with padding up to the end of the bytes.
pub(crate) fn padded_name(bytes: &[u8], version: u8, at: usize, count: usize) -> Option<Name>
    requires { at + 56 ≤ length bytes.now }
    ensures { result ≡ name_at version bytes.now at count (length bytes.now) }
{
    if count > longest_name(version) {
        return None;
    }
    if !is_zero(&bytes[at + count..]) {
        return None;
    }
    Name::read(&bytes[at..at + count])
}

/// How long a name is.
pub(crate) fn name_length(name: &Name) -> u8
    ensures { result ≡ length name.now }
{
    name.bytes().len() as u8
}

/// Writes bytes at the front, other bytes behind them, and padding behind those.
pub(crate) fn put_padded(into: &mut [u8], front: &[u8], rest: &[u8])
    requires { length front.now + length rest.now ≤ length into.old }
    ensures { into.new ≡ front.now ++ rest.now ++ replicate (length into.old - (length front.now + length rest.now)) 0 }
{
    let middle = front.len();
    let end = middle + rest.len();
    into[..middle].copy_from_slice(front);
    into[middle..end].copy_from_slice(rest);
    into[end..].fill(0);
}
