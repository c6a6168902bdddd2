// A region is mounted: its newest slot, that one's body and the records of its journal are read.
ghost use Rattle.std.specs.Prelude.{◌≡◌, ◌+◌, ◌*◌, ◌^◌, ◌<◌, ◌≤◌, length, None, Some, IfOk, OnOk, IsErrOf};
ghost use Rattle.apex_model.specs.Image.{tree_of_region};
ghost use Rattle.apex_model.specs.Layout.{tree_blocks};
ghost use Rattle.apex_model.specs.Layout.{body_blocks as body_blocks_of};
ghost use Rattle.rig_core.specs.Bytes.{part};
ghost use Rattle.rig_core.specs.Causes.{Rose};
ghost use Rattle.rig_core.specs.Outside.{OnlyReads};
ghost use Rattle.gate_slots.specs.Place.{gate_of, newest_slot};
ghost use Rattle.gate_slots.specs.Slots.{place_of, slots_size, Knows};
ghost use Rattle.meta_journal.specs.Journal.{first_of, held_of, room_of, FindsRoom};
ghost use Rattle.meta_journal.specs.Journal.{Knows as KnowsJournal};
ghost use Rattle.meta_journal.specs.Leading.{records};
ghost use Rattle.tree_region.specs.Replay.{replayed, KeepsStored};
ghost use Rattle.tree_region.specs.Bodies.{IsBody};
ghost use Rattle.tree_region.specs.GoodNumbers.{HasGoodNumbers};
ghost use Rattle.tree_region.specs.Numbers.{HasNumbers, HasRooms};
ghost use Rattle.tree_region.specs.Region.{AreNamedMarked, AreUsedByBody, HasLimits, IsWithin, StandsFor, region_at, slots_at};

use crate::applying::replay;
use crate::body::{SlotBody, read_slot_body};
use crate::region::TreeRegion;
use crate::stop::MountStop;
use apex_types::TreeRow;
use file_tree::Tree;
use gate_slots::Slots;
use meta_journal::Journal;
use rig_core::Rig;
use std::alloc::Global;

const BLOCK: u64 = 512;

const JOURNAL_BLOCKS: u32 = 64;

/// The blocks of a slot's body.
fn body_blocks(row: &TreeRow) -> u32
    ensures value { result ≡ body_blocks_of row.now }
    ensures some { 1 ≤ result }
    ensures few { result ≤ 640 }
{
    let quota = u32::from(row.quota);
    let entries = u32::from(row.files) + u32::from(row.directories);
    (64 + 128 * entries + 4 * quota).div_ceil(512)
}

/// The number of the newest slot. Without one the region is bad.
fn find_newest<R: Rig>(rig: &mut R, slots: &mut Slots) -> Result<u8, MountStop>
    requires some_body { 0 < (place_of slots.old).body }
    requires fits { (place_of slots.old).start + slots_size (place_of slots.old) ≤ (R.state rig.old).size }
    ensures place { place_of slots.new ≡ place_of slots.old }
    ensures newest { R.tells_view → IfOk result (λ slot. newest_slot (place_of slots.old) (R.state rig.old).view ≡ Some slot) }
    ensures known { R.tells_view → OnOk result (Knows slots.new (R.state rig.new).view) }
    ensures bad { R.tells_view → IsErrOf result MountStop.Bad → newest_slot (place_of slots.old) (R.state rig.old).view ≡ None }
    ensures reads { OnlyReads R.tells_view (R.state rig.old) (R.state rig.new) }
    ensures cause { IsErrOf result MountStop.Device → Rose (R.state rig.old).read_faults (R.state rig.new).read_faults }
{
    match slots.find(rig) {
        Ok(Some(slot)) => Ok(slot),
        Ok(None) => Err(MountStop::Bad),
        Err(_) => Err(MountStop::Device),
    }
}

/// So many bytes from a place on.
fn read_bytes<R: Rig>(
    alloc: Global,
    rig: &mut R,
    at: u64,
    count: usize,
) -> Result<Vec<u8>, MountStop>
    requires { at + count ≤ (R.state rig.old).size }
    ensures bytes { R.tells_view → IfOk result (λ bytes. bytes.items ≡ part at count (R.state rig.old).view) }
    ensures long { IfOk result (λ bytes. length bytes.items ≡ count) }
    ensures bad { IsErrOf result MountStop.Bad → ⊥ }
    ensures reads { OnlyReads R.tells_view (R.state rig.old) (R.state rig.new) }
    ensures cause { IsErrOf result MountStop.Device → Rose (R.state rig.old).read_faults (R.state rig.new).read_faults }
{
    let Ok(mut bytes) = vec![in alloc; 0u8; count] else {
        return Err(MountStop::Memory);
    };
    match rig.read(at, &mut bytes) {
        Ok(()) => Ok(bytes),
        Err(_) => Err(MountStop::Device),
    }
}

/// The body at a place, with the data blocks that it names.
fn read_body_at<R: Rig>(
    alloc: Global,
    rig: &mut R,
    row: &TreeRow,
    at: u64,
) -> Result<SlotBody, MountStop>
    requires { at + 512 * body_blocks_of row.now ≤ (R.state rig.old).size }
    ensures body { R.tells_view → IfOk result (λ body. IsBody row.now (part at (512 * body_blocks_of row.now) (R.state rig.old).view) (Some body)) }
    ensures bad { R.tells_view → IsErrOf result MountStop.Bad → IsBody row.now (part at (512 * body_blocks_of row.now) (R.state rig.old).view) None }
    ensures rooms { IfOk result (λ body. HasRooms row.now body.table) }
    ensures numbers { IfOk result (λ body. HasNumbers row.now body.table) }
    ensures good { IfOk result (λ body. HasGoodNumbers row.now body.tree body.table.files.items) }
    ensures files { IfOk result (λ body. (length body.tree.files ≡ row.now.files) × (row.now.files ≤ 255)) }
    ensures directories { IfOk result (λ body. (length body.tree.directories ≡ row.now.directories) × (row.now.directories ≤ 255)) }
    ensures reads { OnlyReads R.tells_view (R.state rig.old) (R.state rig.new) }
    ensures cause { IsErrOf result MountStop.Device → Rose (R.state rig.old).read_faults (R.state rig.new).read_faults }
{
    let bytes = read_bytes(alloc, rig, at, 512 * body_blocks(row) as usize)?;
    match read_slot_body(alloc, row, &bytes) {
        Ok(Some(body)) => Ok(body),
        Ok(None) => Err(MountStop::Bad),
        Err(_) => Err(MountStop::Memory),
    }
}

/// Changes the names by the leading records of a journal. The region is bad where one doesn't apply.
fn replay_all<R: Rig>(
    rig: &mut R,
    journal: &mut Journal,
    tree: &mut Tree,
    version: u8,
) -> Result<(), MountStop>
    requires unread { held_of journal.old ≡ 0 }
    requires fits { first_of journal.old + 32768 ≤ (R.state rig.old).size }
    ensures replayed { R.tells_view → OnOk result (replayed version (Some tree.old) (records (first_of journal.old) (R.state rig.old).view) ≡ Some tree.new) }
    ensures bad { R.tells_view → IsErrOf result MountStop.Bad → replayed version (Some tree.old) (records (first_of journal.old) (R.state rig.old).view) ≡ None }
    ensures files { length tree.new.files ≡ length tree.old.files }
    ensures directories { length tree.new.directories ≡ length tree.old.directories }
    ensures stored { KeepsStored tree.old tree.new }
    ensures first { first_of journal.new ≡ first_of journal.old }
    ensures held { R.tells_view → OnOk result (held_of journal.new ≡ length (records (first_of journal.old) (R.state rig.old).view)) }
    ensures room { R.tells_view → OnOk result (FindsRoom journal.new (R.state rig.old).view) }
    ensures known { R.tells_view → OnOk result (0 < room_of journal.new → KnowsJournal journal.new (R.state rig.old).view) }
    ensures reads { OnlyReads R.tells_view (R.state rig.old) (R.state rig.new) }
    ensures cause { IsErrOf result MountStop.Device → Rose (R.state rig.old).read_faults (R.state rig.new).read_faults }
{
    match replay(rig, journal, tree, version) {
        Ok(true) => Ok(()),
        Ok(false) => Err(MountStop::Bad),
        Err(_) => Err(MountStop::Device),
    }
}

/// The first byte of a slot.
fn slot_start(row: &TreeRow, at: u64, slot: u8) -> u64
    requires { at + 512 * tree_blocks row.now < 2 ^ 64 }
    ensures { result ≡ gate_of (slots_at row.now at) slot }
{
    if slot == 0 {
        at
    } else {
        at + BLOCK * (1 + u64::from(body_blocks(row)) + u64::from(JOURNAL_BLOCKS))
    }
}

/// Mounts the region of a tree, which begins at a byte of the device. Only reads are made. What is kept has as many
/// entries as the row, and each block of its files is used; the used blocks are exactly those that the newest slot's
/// body names. Whatever the device is, the block numbers that are kept are good ones for the sizes that are kept. The
/// region is bad exactly where it stands for no tree; a fault comes only where the rig's read faults rose.
pub fn mount<R: Rig>(
    alloc: Global,
    rig: &mut R,
    row: &TreeRow,
    at: u64,
) -> Result<TreeRegion, MountStop>
    requires { at + 512 * tree_blocks row.now ≤ (R.state rig.old).size }
    ensures stands { R.tells_view → IfOk result (StandsFor row.now at (R.state rig.old).view) }
    ensures within { IfOk result (IsWithin row.now at) }
    ensures limits { IfOk result (HasLimits row.now) }
    ensures numbers { IfOk result (λ kept. HasNumbers row.now kept.table) }
    ensures good { IfOk result (λ kept. HasGoodNumbers row.now kept.tree kept.table.files.items) }
    ensures used { R.tells_view → IfOk result (AreUsedByBody row.now at (R.state rig.old).view) }
    ensures marked { R.tells_view → IfOk result (AreNamedMarked row.now at (R.state rig.old).view) }
    ensures bad { R.tells_view → IsErrOf result MountStop.Bad → tree_of_region row.now (region_at row.now at (R.state rig.old).view) ≡ None }
    ensures reads { OnlyReads R.tells_view (R.state rig.old) (R.state rig.new) }
    ensures cause { IsErrOf result MountStop.Device → Rose (R.state rig.old).read_faults (R.state rig.new).read_faults }
{
    let blocks = body_blocks(row);
    let mut slots = Slots::new(at, blocks, JOURNAL_BLOCKS);
    let newest = match find_newest(rig, &mut slots) {
        Ok(newest) => newest,
        Err(stop) => return Err(stop),
    };
    let body_at = slot_start(row, at, newest) + BLOCK;
    let mut body = match read_body_at(alloc, rig, row, body_at) {
        Ok(body) => body,
        Err(stop) => return Err(stop),
    };
    let mut journal = Journal::new(body_at + BLOCK * u64::from(blocks));
    match replay_all(rig, &mut journal, &mut body.tree, body.version) {
        Ok(()) => Ok(TreeRegion {
            slots,
            version: body.version,
            journal,
            tree: body.tree,
            table: body.table,
        }),
        Err(stop) => Err(stop),
    }
}
