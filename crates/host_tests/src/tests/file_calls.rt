//! The file services, from the script to the told lines.
use super::{SMALL, runs};
use apex_host::Status;
use apex_types::{ByteList, OutOfMemory};
use std::alloc::Global;
use std::test::Fail;

/// One partition with one large tree.
pub const LARGE: &[u8] = b"partition = [{ name = \"FMS\" }]
volume = [{ name = \"NV1\", blocks = 4096 }]
tree = [{ volume = \"NV1\", owner = \"FMS\", quota = 4096, files = 64, directories = 32, dirty = 48 }]
";

/// A partition with two trees, of which the display may read the first.
const TWO_TREES: &[u8] = b"partition = [{ name = \"FMS\" }, { name = \"DISP\" }]
volume = [{ name = \"NV1\", blocks = 2048 }, { name = \"NV2\", blocks = 1024 }]
tree = [{ volume = \"NV1\", owner = \"FMS\", readers = [\"DISP\"], quota = 2048, files = 32, directories = 8, dirty = 32 },
  { volume = \"NV2\", owner = \"FMS\", quota = 1024, files = 32, directories = 8, dirty = 32 }]
";

/// Whether a script over a table is carried out and these lines are told.
pub fn tells(alloc: Global, table: &[u8], script: &[u8], told: &[u8]) -> Result<bool, OutOfMemory> {
    runs(alloc, table, script, Status::Done, told)
}

#[test]
fn a_file_is_synchronised(rt: HostRuntime) -> Result<(), Fail> {
    let script =
        b"FMS OPEN_NEW_FILE /NV1/FMS/A\nFMS WRITE_FILE 1 6869\nFMS SYNC_FILE 1\nFMS GET_FILE_STATUS 1\n";
    let told = b"1 NO_ERROR - 1\n2 NO_ERROR - 2\n3 NO_ERROR -\n4 NO_ERROR - 2 2 1\n";
    assert!(rt; tells(rt.alloc(), SMALL, script, told)?);
    Ok(())
}

/// A write of 4,096 bytes at position 500, in a script with other calls.
fn large_write(alloc: Global) -> Result<ByteList, OutOfMemory> {
    let mut script = ByteList::new(alloc);
    script.extend(
        b"FMS OPEN_NEW_FILE /NV1/FMS/A\nFMS RESIZE_FILE 1 500\nFMS SEEK_FILE 1 0 SEEK_END\nFMS WRITE_FILE 1 ",
    )?;
    for _ in 0..4096u32 {
        script.extend(b"61")?;
    }
    script.extend(b"\nFMS GET_VOLUME_STATUS /NV1/FMS\nFMS SYNC_FILE 1\nFMS GET_FILE_STATUS 1\n")?;
    Ok(script)
}

#[test]
fn a_write_may_have_4096_bytes(rt: HostRuntime) -> Result<(), Fail> {
    let script = large_write(rt.alloc())?;
    let told =
        b"1 NO_ERROR - 1\n2 NO_ERROR -\n3 NO_ERROR - 500\n4 NO_ERROR - 4096\n5 NO_ERROR - 4096 9 1\n6 NO_ERROR -\n7 NO_ERROR - 4596 4596 2\n";
    assert!(rt; tells(rt.alloc(), LARGE, script.bytes(), told)?);
    Ok(())
}

#[test]
fn a_file_is_charged_for_its_largest_content(rt: HostRuntime) -> Result<(), Fail> {
    let script =
        b"FMS OPEN_NEW_FILE /NV1/FMS/A\nFMS RESIZE_FILE 1 4096\nFMS SYNC_FILE 1\nFMS RESIZE_FILE 1 0\nFMS OPEN_NEW_FILE /NV1/FMS/B\nFMS WRITE_FILE 2 00\nFMS SYNC_FILE 1\nFMS WRITE_FILE 2 00\nFMS GET_VOLUME_STATUS /NV1/FMS\n";
    let told =
        b"1 NO_ERROR - 1\n2 NO_ERROR -\n3 NO_ERROR -\n4 NO_ERROR -\n5 NO_ERROR - 2\n6 INVALID_CONFIG ENOSPC\n7 NO_ERROR -\n8 NO_ERROR - 1\n9 NO_ERROR - 8 1 2\n";
    assert!(rt; tells(rt.alloc(), SMALL, script, told)?);
    Ok(())
}

#[test]
fn a_file_grows_up_to_the_quota_and_the_greatest_size(rt: HostRuntime) -> Result<(), Fail> {
    let small =
        b"FMS OPEN_NEW_FILE /NV1/FMS/A\nFMS RESIZE_FILE 1 4096\nFMS RESIZE_FILE 1 4097\nFMS GET_FILE_STATUS 1\n";
    let small_told =
        b"1 NO_ERROR - 1\n2 NO_ERROR -\n3 INVALID_CONFIG ENOSPC\n4 NO_ERROR - 4096 0 1\n";
    assert!(rt; tells(rt.alloc(), SMALL, small, small_told)?);
    let large =
        b"FMS OPEN_NEW_FILE /NV1/FMS/A\nFMS RESIZE_FILE 1 1048576\nFMS RESIZE_FILE 1 1048577\nFMS GET_VOLUME_STATUS /NV1/FMS\n";
    let large_told =
        b"1 NO_ERROR - 1\n2 NO_ERROR -\n3 INVALID_CONFIG EFBIG\n4 NO_ERROR - 4096 2048 1\n";
    assert!(rt; tells(rt.alloc(), LARGE, large, large_told)?);
    Ok(())
}

#[test]
fn a_reader_never_blocks_the_owner(rt: HostRuntime) -> Result<(), Fail> {
    let script =
        b"FMS OPEN_NEW_FILE /NV1/FMS/A\nFMS CLOSE_FILE 1\nDISP OPEN_FILE /NV1/FMS/A READ_ONLY\nFMS REMOVE_FILE /NV1/FMS/A\nDISP READ_FILE 1 10\nDISP CLOSE_FILE 1\n";
    let told =
        b"1 NO_ERROR - 1\n2 NO_ERROR -\n3 NO_ERROR - 1\n4 NO_ERROR -\n5 NOT_AVAILABLE ESTALE\n6 NO_ERROR -\n";
    assert!(rt; tells(rt.alloc(), SMALL, script, told)?);
    Ok(())
}

#[test]
fn a_readers_handle_follows_a_rename(rt: HostRuntime) -> Result<(), Fail> {
    let script =
        b"FMS OPEN_NEW_FILE /NV1/FMS/A\nFMS WRITE_FILE 1 6869\nDISP OPEN_FILE /NV1/FMS/A READ_ONLY\nFMS RENAME_FILE /NV1/FMS/A /NV1/FMS/B\nFMS CLOSE_FILE 1\nFMS RENAME_FILE /NV1/FMS/A /NV1/FMS/B\nDISP READ_FILE 1 8\nDISP READ_FILE 1 8\n";
    let told =
        b"1 NO_ERROR - 1\n2 NO_ERROR - 2\n3 NO_ERROR - 1\n4 NOT_AVAILABLE EBUSY\n5 NO_ERROR -\n6 NO_ERROR -\n7 NO_ERROR - 2 6869\n8 NO_ERROR - 0 .\n";
    assert!(rt; tells(rt.alloc(), SMALL, script, told)?);
    Ok(())
}

#[test]
fn a_rename_stays_in_its_tree(rt: HostRuntime) -> Result<(), Fail> {
    let script =
        b"FMS OPEN_NEW_FILE /NV1/FMS/A\nFMS CLOSE_FILE 1\nFMS RENAME_FILE /NV1/FMS/A /NV1/FMS/A\nFMS RENAME_FILE /NV1/FMS/A /NV2/FMS/A\nDISP RENAME_FILE /NV1/FMS/A /NV1/FMS/B\n";
    let told =
        b"1 NO_ERROR - 1\n2 NO_ERROR -\n3 INVALID_PARAM EEXIST\n4 INVALID_PARAM EINVAL\n5 INVALID_CONFIG EACCES\n";
    assert!(rt; tells(rt.alloc(), TWO_TREES, script, told)?);
    Ok(())
}

#[test]
fn an_unknown_partition_is_refused_before_any_line(rt: HostRuntime) -> Result<(), Fail> {
    let script = b"FMS CLOSE_FILE 1\nTICK 1\nABC CLOSE_FILE 1\n";
    let told = b"script refused 3 UnknownPartition line 3\n";
    assert!(rt; runs(rt.alloc(), SMALL, script, Status::ScriptRefused, told)?);
    Ok(())
}

#[test]
fn positions_stay_within_the_file(rt: HostRuntime) -> Result<(), Fail> {
    let script =
        b"FMS OPEN_NEW_FILE /NV1/FMS/A\nFMS WRITE_FILE 1 616263\nFMS SEEK_FILE 1 -1 SEEK_END\nFMS READ_FILE 1 5\nFMS READ_FILE 1 5\nFMS SEEK_FILE 1 1 SEEK_CUR\nFMS WRITE_FILE 1 .\n";
    let told =
        b"1 NO_ERROR - 1\n2 NO_ERROR - 3\n3 NO_ERROR - 2\n4 NO_ERROR - 1 63\n5 NO_ERROR - 0 .\n6 INVALID_PARAM EINVAL\n7 INVALID_PARAM EINVAL\n";
    assert!(rt; tells(rt.alloc(), SMALL, script, told)?);
    Ok(())
}
