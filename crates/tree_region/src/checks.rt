// Whether the data blocks that a body spells are good ones.
ghost use Rattle.std.specs.Prelude.{◌≡◌, ◌*◌, ◌≤◌, length, nat_le, sum_by};
ghost use Rattle.std.specs.List.{list_all};
ghost use Rattle.apex_model.specs.Fields.{is_padding};
ghost use Rattle.apex_model.specs.Files.{blocks_of};
ghost use Rattle.apex_model.specs.Image.{size_of_field};

use apex_types::FileEntryField;

/// The size of the file of an entry; without a file it is 0.
fn size_of(field: &FileEntryField) -> u32
    ensures { result ≡ size_of_field field.now }
{
    match field {
        FileEntryField::Unused => 0,
        FileEntryField::Used { size, .. } => *size,
    }
}

/// How many blocks the file of an entry has.
pub fn blocks_in(field: &FileEntryField) -> u32
    ensures value { result ≡ blocks_of (size_of_field field.now) }
    ensures few { result ≤ 8388608 }
{
    size_of(field).div_ceil(512)
}

/// How many blocks all files have.
pub fn all_blocks(fields: &[FileEntryField]) -> u32
    requires { length fields.now ≤ 255 }
    ensures { result ≡ sum_by (λ field. blocks_of (size_of_field field)) fields.now }
{
    fields.iter().map(|field| blocks_in(field)).sum()
}

/// Whether no file is longer than 1,048,576 bytes.
pub fn have_good_sizes(fields: &[FileEntryField]) -> bool
    ensures { result ≡ list_all (λ field. nat_le (size_of_field field) 1048576) fields.now }
{
    fields.iter().all(|field| size_of(field) <= 1048576)
}

/// Whether each number is one of a data block, or 0.
pub fn are_within(numbers: &[u32], last: u32) -> bool
    ensures { result ≡ list_all (λ n. nat_le n last) numbers.now }
{
    numbers.iter().all(|n| *n <= last)
}

/// Whether all numbers are 0.
pub fn are_zero(numbers: &[u32]) -> bool
    ensures { result ≡ is_padding numbers.now }
{
    numbers.iter().all(|n| *n == 0)
}

/// Whether all bytes are zero.
pub fn is_zero(bytes: &[u8]) -> bool
    ensures { result ≡ is_padding bytes.now }
{
    bytes.iter().all(|b| *b == 0)
}
