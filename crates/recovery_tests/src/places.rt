// The places of the images of three tables.
use crate::fixture::{SMALL, table_of};
use image_format::layout;
use std::alloc::Global;
use std::test::Fail;

// One tree of the largest size.
const LARGE: &[u8] = b"partition = [{ name = \"FMS\" }]
volume = [{ name = \"NV1\", blocks = 4096 }]
tree = [{ volume = \"NV1\", owner = \"FMS\", quota = 4096, files = 64, directories = 32, dirty = 16 }]
";

// Five trees on two volumes and six logbooks.
const MANY: &[u8] =
    b"partition = [{ name = \"FMS\" }, { name = \"DISP\" }, { name = \"MNT\" }, { name = \"RAD\" }]
volume = [{ name = \"NV1\", blocks = 4096 }, { name = \"NV2\", blocks = 2560 }]
tree = [
    { volume = \"NV1\", owner = \"FMS\", quota = 2048, files = 32, directories = 8, dirty = 32 },
    { volume = \"NV1\", owner = \"DISP\", quota = 512, files = 32, directories = 8, dirty = 32 },
    { volume = \"NV1\", owner = \"MNT\", quota = 1024, files = 32, directories = 8, dirty = 32 },
    { volume = \"NV2\", owner = \"FMS\", quota = 1024, files = 32, directories = 8, dirty = 32 },
    { volume = \"NV2\", owner = \"RAD\", quota = 512, files = 32, directories = 8, dirty = 32 },
]
logbook = [
    { name = \"FLIGHT\", partition = \"FMS\", message_size = 64, logged = 64, in_progress = 8 },
    { name = \"FAULTS\", partition = \"FMS\", message_size = 64, logged = 64, in_progress = 8 },
    { name = \"EVENTS\", partition = \"DISP\", message_size = 64, logged = 64, in_progress = 8 },
    { name = \"ACTIONS\", partition = \"MNT\", message_size = 64, logged = 64, in_progress = 8 },
    { name = \"FAULTS\", partition = \"MNT\", message_size = 64, logged = 64, in_progress = 8 },
    { name = \"EVENTS\", partition = \"RAD\", message_size = 64, logged = 64, in_progress = 8 },
]
";

// The blocks of all, the first block of a tree and of a logbook, and the blocks of the tree's body.
fn places(alloc: Global, text: &[u8], tree: u32, logbook: u32) -> Result<[u64; 4], Fail> {
    let places = layout(&table_of(alloc, text)?);
    Ok([
        u64::from(places.blocks()),
        places.tree_start(tree) / 512,
        places.logbook_start(logbook) / 512,
        u64::from(places.body_blocks(tree)),
    ])
}

#[test]
fn each_region_has_its_place(rt: HostRuntime) -> Result<(), Fail> {
    let rows = [
        (SMALL, 0, 0, [197, 33, 183, 2]),
        (LARGE, 0, 0, [8469, 33, 8469, 57]),
        (MANY, 1, 0, [11_917, 4313, 11_113, 15]),
        (MANY, 1, 5, [11_917, 4313, 11_783, 15]),
    ];
    for (text, tree, logbook, want) in rows {
        assert_eq!(rt;
            places(rt.alloc(), text, tree, logbook)?,
            want,
            "{tree} and {logbook}"
        );
    }
    Ok(())
}
