//! The directory services, from the script to the told lines.
use super::SMALL;
use super::file_calls::tells;
use std::test::Fail;

/// A tree with room for many directories.
const DEEP: &[u8] = b"partition = [{ name = \"FMS\" }]
volume = [{ name = \"NV1\", blocks = 8 }]
tree = [{ volume = \"NV1\", owner = \"FMS\", quota = 8, files = 4, directories = 8, dirty = 16 }]
";

#[test]
fn a_listing_goes_by_names(rt: HostRuntime) -> Result<(), Fail> {
    let script =
        b"FMS OPEN_NEW_FILE /NV1/FMS/B\nFMS OPEN_NEW_FILE /NV1/FMS/D\nFMS CLOSE_FILE 1\nDISP OPEN_DIRECTORY /NV1/FMS\nDISP READ_DIRECTORY 1\nFMS REMOVE_FILE /NV1/FMS/B\nFMS OPEN_NEW_FILE /NV1/FMS/A\nDISP READ_DIRECTORY 1\nDISP READ_DIRECTORY 1\nDISP REWIND_DIRECTORY 1\nDISP READ_DIRECTORY 1\n";
    let told =
        b"1 NO_ERROR - 1\n2 NO_ERROR - 2\n3 NO_ERROR -\n4 NO_ERROR - 1\n5 NO_ERROR - FILE B 0\n6 NO_ERROR -\n7 NO_ERROR - 1\n8 NO_ERROR - FILE D 0\n9 NO_ERROR - END\n10 NO_ERROR -\n11 NO_ERROR - FILE A 0\n";
    assert!(rt; tells(rt.alloc(), SMALL, script, told)?);
    Ok(())
}

#[test]
fn paths_are_refused_by_their_first_fault(rt: HostRuntime) -> Result<(), Fail> {
    let script =
        b"FMS OPEN_FILE NV1/FMS/A READ_ONLY\nFMS OPEN_FILE /NV1 READ_ONLY\nFMS OPEN_FILE /NV1/FMS//A READ_ONLY\nFMS OPEN_FILE /NV1/FMS/.. READ_ONLY\nFMS OPEN_FILE /NV1/FMS/AAAAAAAAAAAAAAAAAAAAAAAAAAAAAAAAAAAAAAAAAAAAAAAAAAAAAAAAA READ_ONLY\nFMS OPEN_FILE /NV1/DISP/A READ_ONLY\nFMS OPEN_FILE /NV1/FMS/A READ_ONLY\nFMS OPEN_FILE /NV1/FMS/X/A READ_ONLY\nFMS OPEN_FILE /NV1/FMS READ_ONLY\nFMS REMOVE_DIRECTORY /NV1/FMS\n";
    let told =
        b"1 INVALID_PARAM EINVAL\n2 INVALID_PARAM EINVAL\n3 INVALID_PARAM EINVAL\n4 INVALID_PARAM EINVAL\n5 INVALID_PARAM ENAMETOOLONG\n6 INVALID_PARAM ENOENT\n7 INVALID_PARAM ENOENT\n8 INVALID_PARAM ENOENT\n9 INVALID_PARAM EISDIR\n10 NOT_AVAILABLE EBUSY\n";
    assert!(rt; tells(rt.alloc(), SMALL, script, told)?);
    Ok(())
}

#[test]
fn a_directory_is_removed_once_it_is_empty(rt: HostRuntime) -> Result<(), Fail> {
    let script =
        b"FMS MAKE_DIRECTORY /NV1/FMS/D\nFMS OPEN_NEW_FILE /NV1/FMS/D/A\nFMS REMOVE_DIRECTORY /NV1/FMS/D\nDISP OPEN_DIRECTORY /NV1/FMS/D\nFMS CLOSE_FILE 1\nFMS RENAME_FILE /NV1/FMS/D/A /NV1/FMS/A\nFMS REMOVE_DIRECTORY /NV1/FMS/D\nDISP READ_DIRECTORY 1\nFMS MAKE_DIRECTORY /NV1/FMS/A/X\n";
    let told =
        b"1 NO_ERROR -\n2 NO_ERROR - 1\n3 NOT_AVAILABLE ENOTEMPTY\n4 NO_ERROR - 1\n5 NO_ERROR -\n6 NO_ERROR -\n7 NO_ERROR -\n8 NOT_AVAILABLE ESTALE\n9 INVALID_PARAM ENOTDIR\n";
    assert!(rt; tells(rt.alloc(), SMALL, script, told)?);
    Ok(())
}

#[test]
fn a_path_has_six_names_at_most(rt: HostRuntime) -> Result<(), Fail> {
    let script =
        b"FMS MAKE_DIRECTORY /NV1/FMS/A\nFMS MAKE_DIRECTORY /NV1/FMS/A/B\nFMS MAKE_DIRECTORY /NV1/FMS/A/B/C\nFMS MAKE_DIRECTORY /NV1/FMS/A/B/C/D\nFMS MAKE_DIRECTORY /NV1/FMS/A/B/C/D/E\nFMS OPEN_NEW_FILE /NV1/FMS/A/B/C/D/E/F\nFMS MAKE_DIRECTORY /NV1/FMS/A/B/C/D/E/F/G\nFMS WRITE_FILE 1 00\nFMS OPEN_DIRECTORY /NV1/FMS/A/B/C/D/E\nFMS READ_DIRECTORY 1\n";
    let told =
        b"1 NO_ERROR -\n2 NO_ERROR -\n3 NO_ERROR -\n4 NO_ERROR -\n5 NO_ERROR -\n6 NO_ERROR - 1\n7 INVALID_PARAM ENAMETOOLONG\n8 NO_ERROR - 1\n9 NO_ERROR - 1\n10 NO_ERROR - FILE F 1\n";
    assert!(rt; tells(rt.alloc(), DEEP, script, told)?);
    Ok(())
}

/// Names that begin with one another, and the first and the last in the order of bytes.
#[test]
fn names_are_ordered_by_their_bytes(rt: HostRuntime) -> Result<(), Fail> {
    let script =
        b"FMS MAKE_DIRECTORY /NV1/FMS/ab\nFMS MAKE_DIRECTORY /NV1/FMS/a\nFMS MAKE_DIRECTORY /NV1/FMS/abc\nFMS MAKE_DIRECTORY /NV1/FMS/-\nFMS MAKE_DIRECTORY /NV1/FMS/zz\nFMS OPEN_NEW_FILE /NV1/FMS/Z\nFMS OPEN_DIRECTORY /NV1/FMS\nFMS READ_DIRECTORY 1\nFMS READ_DIRECTORY 1\nFMS READ_DIRECTORY 1\nFMS READ_DIRECTORY 1\nFMS READ_DIRECTORY 1\nFMS READ_DIRECTORY 1\nFMS READ_DIRECTORY 1\nFMS READ_DIRECTORY 1\n";
    let told =
        b"1 NO_ERROR -\n2 NO_ERROR -\n3 NO_ERROR -\n4 NO_ERROR -\n5 NO_ERROR -\n6 NO_ERROR - 1\n7 NO_ERROR - 1\n8 NO_ERROR - DIRECTORY -\n9 NO_ERROR - FILE Z 0\n10 NO_ERROR - DIRECTORY a\n11 NO_ERROR - DIRECTORY ab\n12 NO_ERROR - DIRECTORY abc\n13 NO_ERROR - DIRECTORY zz\n14 NO_ERROR - END\n15 NO_ERROR - END\n";
    assert!(rt; tells(rt.alloc(), DEEP, script, told)?);
    Ok(())
}
