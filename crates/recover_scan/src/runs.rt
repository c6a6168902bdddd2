// The bytes of the runs that a format writes, and the longest of them.
ghost use Rattle.std.specs.Prelude.{◌≡◌, ◌+◌, ◌*◌, ◌<◌, ◌≤◌, ℕ, Some, length, slice_get, slice_index, IfOk, replicate};
ghost use Rattle.apex_types.specs.Rows.{Rows};
ghost use Rattle.apex_types.specs.declared.rows.TreeRow.{TreeRow};
ghost use Rattle.apex_types.specs.declared.rows.LogbookRow.{LogbookRow};
ghost use Rattle.apex_model.specs.Accepted.{IsAccepted};
ghost use Rattle.apex_model.specs.Image.{wanted_superblock};
ghost use Rattle.apex_model.specs.TableBytes.{bytes_of_number};
ghost use Rattle.apex_model.specs.Layout.{slot_blocks, logbook_blocks};
ghost use Rattle.image_format.specs.Places.{places_of};

use apex_types::{ByteList, OutOfMemory, Table};
use config_table::table_bytes;
use image_format::Layout;
use image_laws::table_fits_superblock;
use std::alloc::Global;

const OPEN: u8 = 0xA5;

const VERSION: u8 = 2;

/// The bytes of the superblock behind its gate: the length of the table's bytes, and the bytes.
pub(crate) fn superblock_bytes(alloc: Global, table: &Table) -> Result<ByteList, OutOfMemory>
    requires { IsAccepted table.now }
    ensures { IfOk result (λ bytes. bytes ≡ wanted_superblock table.now) }
{
    table_fits_superblock();
    let table = table_bytes(alloc, table)?;
    let mut bytes = ByteList::new(alloc);
    bytes.extend(&four_bytes(table.bytes().len()))?;
    bytes.extend(table.bytes())?;
    Ok(bytes)
}

/// The bytes of a number, the least one first.
fn four_bytes(n: usize) -> [u8; 4]
    ensures { result ≡ bytes_of_number 4 n }
{
    [
        (n % 256) as u8,
        (n / 256 % 256) as u8,
        (n / 256 / 256 % 256) as u8,
        (n / 256 / 256 / 256 % 256) as u8,
    ]
}

/// So many zeros.
pub(crate) fn zeros(alloc: Global, n: usize) -> Result<Vec<u8>, OutOfMemory>
    ensures { IfOk result (λ v. v.items ≡ replicate n 0) }
{
    let Ok(bytes) = vec![in alloc; 0u8; n] else {
        return Err(OutOfMemory);
    };
    Ok(bytes)
}

/// Bytes with zeros behind them.
pub(crate) fn superblock_run(run: &mut [u8], bytes: &[u8])
    requires { length bytes.now ≤ length run.old }
    ensures { (k : ℕ) → k < length run.old → slice_index run.new k ≡ slice_index bytes.now k }
{
    run.fill(0);
    run[..bytes.len()].copy_from_slice(bytes);
}

/// Two slots of a tree: the gate of slot 0 is open, and its body has its version. All else is zero.
pub(crate) fn tree_run(run: &mut [u8])
    requires { 1024 ≤ length run.old }
    ensures opened { slice_index run.new 0 ≡ 0xA5 }
    ensures version { slice_index run.new 513 ≡ 2 }
    ensures front { (k : ℕ) → 0 < k → k < 513 → slice_index run.new k ≡ 0 }
    ensures back { (k : ℕ) → 513 < k → slice_index run.new k ≡ 0 }
{
    run.fill(0);
    run[0] = OPEN;
    run[513] = VERSION;
}

/// A logbook: the gate of header 0 is open, and all else is zero.
pub(crate) fn logbook_run(run: &mut [u8])
    requires { 1024 ≤ length run.old }
    ensures opened { slice_index run.new 0 ≡ 0xA5 }
    ensures back { (k : ℕ) → 0 < k → slice_index run.new k ≡ 0 }
{
    run.fill(0);
    run[0] = OPEN;
}

/// How many bytes the slots of a tree have.
pub(crate) fn slots_length(places: &Layout, tree: u32) -> usize
    ensures { (table : Rows) (row : TreeRow) → places.now ≡ places_of table → slice_get table.trees tree ≡ Some row → result ≡ 1024 * slot_blocks row }
{
    1024 * (65 + places.body_blocks(tree) as usize)
}

/// How many bytes a logbook has.
pub(crate) fn logbook_length(places: &Layout, logbook: u32) -> usize
    requires { logbook < 32 }
    ensures { (table : Rows) (row : LogbookRow) → places.now ≡ places_of table → slice_get table.logbooks logbook ≡ Some row → result ≡ 512 * logbook_blocks row }
{
    let end = places.logbook_start(logbook + 1);
    end.saturating_sub(places.logbook_start(logbook)) as usize
}

/// How many bytes the longest of the runs of trees has, and no fewer than some number.
fn longest_of_trees(table: &Table, places: &Layout, least: usize) -> usize
    requires places { places.now ≡ places_of table.now }
    requires few { length table.now.trees ≤ 32 }
    ensures least { least ≤ result }
    ensures trees { (tree : ℕ) (row : TreeRow) → slice_get table.now.trees tree ≡ Some row → 1024 * slot_blocks row ≤ result }
{
    let mut longest = least;
    for tree in 0..table.trees().len() as u32 {
        longest = longest.max(slots_length(places, tree));
    }
    longest
}

/// How many bytes the longest of the runs of logbooks has, and no fewer than some number.
fn longest_of_logbooks(table: &Table, places: &Layout, least: usize) -> usize
    requires places { places.now ≡ places_of table.now }
    requires few { length table.now.logbooks ≤ 32 }
    ensures least { least ≤ result }
    ensures logbooks { (logbook : ℕ) (row : LogbookRow) → slice_get table.now.logbooks logbook ≡ Some row → 512 * logbook_blocks row ≤ result }
{
    let mut longest = least;
    for logbook in 0..table.logbooks().len() as u32 {
        longest = longest.max(logbook_length(places, logbook));
    }
    longest
}

/// How many bytes the longest run of a format has.
pub(crate) fn longest_run(table: &Table, places: &Layout) -> usize
    requires accepted { IsAccepted table.now }
    requires places { places.now ≡ places_of table.now }
    ensures superblock { 16384 ≤ result }
    ensures trees { (tree : ℕ) (row : TreeRow) → slice_get table.now.trees tree ≡ Some row → 1024 * slot_blocks row ≤ result }
    ensures logbooks { (logbook : ℕ) (row : LogbookRow) → slice_get table.now.logbooks logbook ≡ Some row → 512 * logbook_blocks row ≤ result }
{
    longest_of_logbooks(table, places, longest_of_trees(table, places, 16384))
}
