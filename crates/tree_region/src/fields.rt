// What a body spells of files and of data blocks.
ghost use Rattle.std.specs.Prelude.{◌≡◌, ◌+◌, ◌*◌, ◌≤◌, length, map, option_map, IfOk};
ghost use Rattle.std.specs.List.{range_with_len};
ghost use Rattle.apex_model.specs.Fields.{number_at as number_spelled};
ghost use Rattle.apex_model.specs.Image.{block_number};
ghost use Rattle.tree_region.specs.Numbers.{fields_in};

use apex_types::{FileEntryField, OutOfMemory};
use image_format::{block_at, entry_at};
use std::alloc::Global;

/// The entries of so many files in a body of a version. None comes exactly where one of them isn't spelled.
pub fn read_fields(
    alloc: Global,
    body: &[u8],
    version: u8,
    files: u8,
) -> Result<Option<Vec<FileEntryField>>, OutOfMemory>
    requires { 64 + 128 * files ≤ length body.now }
    ensures { IfOk result (λ fields. option_map (λ list. list.items) fields ≡ fields_in version body.now files) }
{
    let mut fields = Vec::with_capacity(alloc, files as usize)?;
    for k in 0..files as usize {
        let at = 64 + 128 * k;
        let Some(field) = entry_at(&body[at..at + 128], version) else {
            return Ok(None);
        };
        fields.push(field)?;
    }
    Ok(Some(fields))
}

/// The number of a data block at a place.
fn number_at(body: &[u8], at: usize) -> u32
    requires { at + 4 ≤ length body.now }
    ensures { result ≡ number_spelled body.now at 4 }
{
    block_at(&body[at..at + 4]).unwrap_or(0)
}

/// The numbers of data blocks that a body spells behind so many entries.
pub fn read_numbers(
    alloc: Global,
    body: &[u8],
    entries: usize,
    quota: u16,
) -> Result<Vec<u32>, OutOfMemory>
    requires { 64 + 128 * entries + 4 * quota ≤ length body.now }
    ensures { IfOk result (λ numbers. numbers.items ≡ map (block_number body.now entries) (range_with_len 0 quota)) }
{
    let mut numbers = Vec::with_capacity(alloc, quota as usize)?;
    for k in 0..quota as usize {
        let number = number_at(body, 64 + 128 * entries + 4 * k);
        numbers.push(number)?;
    }
    Ok(numbers)
}
