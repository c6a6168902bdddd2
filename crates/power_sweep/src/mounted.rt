// An image that a cut left, mounted.
ghost use Rattle.std.specs.Prelude.{◌≡◌, ◌≤◌, length, sum_by, IfOk};
ghost use Rattle.std.specs.Option.{ForSome};
ghost use Rattle.apex_model.specs.Accepted.{IsAccepted};
ghost use Rattle.power_sweep.specs.Cuts.{IsFound};
ghost use Rattle.power_sweep.specs.Stores.{files_in};

use apex_types::{ByteList, OutOfMemory, Table};
use image_mount::mount;
use recover_scan::MountError;
use rig_core::PlainRig;
use std::alloc::Global;
use tree_store::Trees;

/// How many files so many trees have together.
fn file_count(trees: &Trees, count: u32) -> u64
    requires { count ≡ length trees.now }
    ensures { result ≡ sum_by files_in trees.now }
{
    let mut files = 0u64;
    for tree in 0..count {
        files += u64::from(trees.tree(tree).files());
    }
    files
}

/// Mounts an image and counts the files of all its trees. Where the image does not mount, nothing is found.
pub(crate) fn mounted_files(
    alloc: Global,
    table: &Table,
    image: ByteList,
) -> Result<Option<u64>, OutOfMemory>
    requires accepted { IsAccepted table.now }
    ensures found { IfOk result (IsFound table.now image) }
    ensures few { IfOk result (λ found. ForSome found (λ files. files ≤ 2048)) }
{
    let mut rig = PlainRig::new(image);
    let trees = table.trees().len() as u32;
    match mount(alloc, table, &mut rig) {
        Ok(store) => Ok(Some(file_count(&store.trees, trees))),
        Err(MountError::Memory) => Err(OutOfMemory),
        Err(_) => Ok(None),
    }
}
