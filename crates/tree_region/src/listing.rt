// The numbers of files' data blocks, four bytes each, one behind the other.
ghost use Rattle.std.specs.Prelude.{◌≡◌, ◌+◌, ◌-◌, ◌*◌, ◌<◌, ◌≤◌, ◌++◌, ℕ, [], length, take, drop, replicate, slice_index_or};
ghost use Rattle.tree_region.specs.GoodNumbers.{size_blocks, numbers_of_files};
ghost use Rattle.tree_region.specs.Words.{words};

use crate::numbers::BlockNumbers;
use apex_types::FileNode;
use file_tree::Tree;
use image_format::put_block;

/// Writes the first so many numbers of a file behind so many that are written.
fn put_file(bytes: &mut [u8], first: usize, numbers: &BlockNumbers, count: usize)
    requires room { 4 * (first + count) ≤ length bytes.old }
    requires few { count ≤ length numbers.now }
    ensures long { length bytes.new ≡ length bytes.old }
    ensures words { words (first + count) bytes.new ≡ words first bytes.old ++ take count numbers.now }
{
    for k in 0..count {
        let at = 4 * (first + k);
        put_block(&mut bytes[at..at + 4], numbers.at(k));
    }
}

/// How many data blocks the durable content of a file has.
fn blocks_of_file(tree: &Tree, file: usize) -> usize
    requires { file ≤ 255 }
    ensures { result ≡ size_blocks tree.now file }
{
    let (size, _) = tree.stored(FileNode(file as u8));
    size.div_ceil(512) as usize
}

/// Writes the numbers of all files' blocks, and answers how many there are.
fn put_files(bytes: &mut [u8], tree: &Tree, files: &[BlockNumbers]) -> usize
    requires many { length files.now ≤ 255 }
    requires room { 4 * length (numbers_of_files tree.now files.now) ≤ length bytes.old }
    requires fits { (f : ℕ) → f < length files.now → size_blocks tree.now f ≤ length (slice_index_or files.now f []) }
    ensures count { result ≡ length (numbers_of_files tree.now files.now) }
    ensures long { length bytes.new ≡ length bytes.old }
    ensures words { words result bytes.new ≡ numbers_of_files tree.now files.now }
{
    let mut written = 0;
    for k in 0..files.len() {
        let count = blocks_of_file(tree, k);
        put_file(bytes, written, &files[k], count);
        written += count;
    }
    written
}

/// Writes the numbers of all files' blocks, and 0 behind them up to the end.
pub fn put_numbers(bytes: &mut [u8], tree: &Tree, files: &[BlockNumbers])
    requires many { length files.now ≤ 255 }
    requires room { 4 * length (numbers_of_files tree.now files.now) ≤ length bytes.old }
    requires fits { (f : ℕ) → f < length files.now → size_blocks tree.now f ≤ length (slice_index_or files.now f []) }
    ensures long { length bytes.new ≡ length bytes.old }
    ensures words { words (length (numbers_of_files tree.now files.now)) bytes.new ≡ numbers_of_files tree.now files.now }
    ensures behind { drop (4 * length (numbers_of_files tree.now files.now)) bytes.new ≡ replicate (length bytes.old - 4 * length (numbers_of_files tree.now files.now)) 0 }
{
    let written = put_files(bytes, tree, files);
    bytes[4 * written..].fill(0);
}
