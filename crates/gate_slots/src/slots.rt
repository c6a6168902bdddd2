// Two slots of a gate, a body and a tail. The newest counts, and the older one is written next.
ghost use Rattle.std.specs.Prelude.{◌≡◌, ◌==◌, ◌+◌, ◌-◌, ◌*◌, ◌%◌, ◌^◌, ◌<◌, ◌≤◌, ◌++◌, ◌⊎◌, List, ℕ, false, length, slice_set, OnOk, OnErr, IsTrue, IfOk, IfSome, IsSome, Option, Some, ◌↔◌, if◌then◌else◌};
ghost use Rattle.rig_core.specs.Bytes.{byte, put, SameElsewhere};
ghost use Rattle.rig_core.specs.Causes.{Rose};
ghost use Rattle.rig_core.specs.Outside.{Later, MakesAtMost, OnlyReads};
ghost use Rattle.rig_core.specs.Leaves.{Leaves, LeavesElsewhere, IsSettled, IsAllSettled};
ghost use Rattle.apex_model.specs.Image.{newest};
ghost use Rattle.gate_slots.specs.Place.{slot_in, slot_of};

use crate::{gate_read, gate_set, write_settled};
use rig_core::{DeviceFault, Rig};

const BLOCK: u64 = 512;

/// Two slots, each a gate in a block of its own, a body and a tail behind it. The newest one counts.
#[derive(Drop)]
pub struct Slots {
    start: u64,
    body_blocks: u32,
    tail_blocks: u32,
    found: bool,
    newest: u8,
    sequence: u8,
    older_open: bool,
    ghost is_slot: { newest ≤ 1 },
    ghost is_number: { sequence ≤ 2 },
}

/// Closes an open gate. One that is closed already is not written, since a pending byte may read as an open
/// gate over a torn body: the body's first block is written in its place.
fn close<R: Rig>(rig: &mut R, gate: u64, opened: bool, first: &[u8]) -> Result<(), DeviceFault>
    requires first { length first.now ≡ 512 }
    requires fits { gate + 1024 ≤ (R.state rig.old).size }
    ensures later { Later (R.state rig.old) (R.state rig.new) }
    ensures made { MakesAtMost 1 1 0 (R.state rig.old) (R.state rig.new) }
    ensures rises { R.keeps_cuts → OnOk result ((R.state rig.new).clock ≡ (R.state rig.old).clock + 2) }
    ensures cuts { LeavesElsewhere (if opened then gate else gate + 512) (if opened then 1 else 512) (R.state rig.old) (R.state rig.new) }
    ensures elsewhere { R.tells_view → SameElsewhere (if opened then gate else gate + 512) (if opened then 1 else 512) (R.state rig.old).view (R.state rig.new).view }
    ensures closed { R.tells_view → IsTrue opened → OnOk result (byte (R.state rig.new).view gate ≡ 0) }
    ensures settled { OnOk result (IsAllSettled (R.state rig.new)) }
    ensures cause { OnErr result (Rose (R.state rig.old).write_faults (R.state rig.new).write_faults) }
{
    if opened {
        write_settled(rig, gate, &[0])
    } else {
        write_settled(rig, gate + BLOCK, first)
    }
}

/// Writes a body and a tail behind it, and makes sure of them.
fn fill<R: Rig>(rig: &mut R, at: u64, body: &[u8], tail: &[u8]) -> Result<(), DeviceFault>
    requires { at + length body.now + length tail.now ≤ (R.state rig.old).size }
    ensures later { Later (R.state rig.old) (R.state rig.new) }
    ensures made { MakesAtMost (if length tail.now == 0 then 1 else 2) 1 0 (R.state rig.old) (R.state rig.new) }
    ensures rises { R.keeps_cuts → OnOk result ((R.state rig.new).clock ≡ (R.state rig.old).clock + (if length tail.now == 0 then 2 else 3)) }
    ensures cuts { LeavesElsewhere at (length body.now + length tail.now) (R.state rig.old) (R.state rig.new) }
    ensures elsewhere { R.tells_view → SameElsewhere at (length body.now + length tail.now) (R.state rig.old).view (R.state rig.new).view }
    ensures written { R.tells_view → OnOk result ((R.state rig.new).view ≡ put at (body.now ++ tail.now) (R.state rig.old).view) }
    ensures settled { OnOk result (IsAllSettled (R.state rig.new)) }
    ensures cause { OnErr result (Rose (R.state rig.old).write_faults (R.state rig.new).write_faults) }
{
    if tail.is_empty() {
        write_settled(rig, at, body)?;
        return Ok(());
    }
    rig.write(at, body)?;
    write_settled(rig, at + body.len() as u64, tail)?;
    Ok(())
}

/// The sequence number of the slot with this gate, where it is open.
fn read_number<R: Rig>(rig: &mut R, gate: u64) -> Result<Option<u8>, DeviceFault>
    requires { gate + 512 < (R.state rig.old).size }
    ensures reads { OnlyReads R.tells_view (R.state rig.old) (R.state rig.new) }
    ensures number { R.tells_view → IfOk result (λ number. slot_of number ≡ slot_in gate (R.state rig.old).view) }
    ensures cause { OnErr result (Rose (R.state rig.old).read_faults (R.state rig.new).read_faults) }
{
    if !gate_read(rig, gate)? {
        return Ok(None);
    }
    let mut number = [0];
    rig.read(gate + BLOCK, &mut number)?;
    Ok(Some(number[0]))
}

/// The newest of two slots by their sequence numbers, where there is one.
fn newest_of(first: Option<u8>, second: Option<u8>) -> Option<u8>
    ensures { result ≡ newest (slot_of first) (slot_of second) }
{
    match (first, second) {
        (None, None) => None,
        (Some(n), None) => if n > 2 { None } else { Some(0) },
        (None, Some(m)) => if m > 2 { None } else { Some(1) },
        (Some(n), Some(m)) => {
            if n > 2 || m > 2 {
                None
            } else if n == (m + 1) % 3 {
                Some(0)
            } else if m == (n + 1) % 3 {
                Some(1)
            } else {
                None
            }
        }
    }
}

fn next_number(number: u8) -> u8
    requires { number ≤ 2 }
    ensures { result ≡ (number + 1) % 3 }
{
    (number + 1) % 3
}

impl Slots {
    ghost use Rattle.gate_slots.specs.Slots.{Knows, place_of, number_of, slots_size, gate_of, newest_slot, newest_content};

    /// Slots that begin at this byte, slot 1 directly behind slot 0, each with a gate and so many blocks of
    /// 512 bytes. No newest slot is known yet.
    pub fn new(start: u64, body_blocks: u32, tail_blocks: u32) -> Slots
        ensures place { place_of result ≡ record { start = start; body = body_blocks; tail = tail_blocks } }
    {
        Slots {
            start,
            body_blocks,
            tail_blocks,
            found: false,
            newest: 0,
            sequence: 0,
            older_open: false,
        }
    }

    /// The number of the newest slot, once one was found or committed.
    pub fn newest(&self) -> u8
        ensures low { result ≤ 1 }
        ensures slot { (image : List ℕ) → Knows self.now image → newest_slot (place_of self.now) image ≡ Some result }
    {
        self.newest
    }

    fn gate(&self, slot: u8) -> u64
        requires { (place_of self.now).start + slots_size (place_of self.now) < 2 ^ 64 }
        ensures { result ≡ gate_of (place_of self.now) slot }
    {
        if slot == 0 {
            self.start
        } else {
            self.start + BLOCK + BLOCK * (self.body_blocks as u64 + self.tail_blocks as u64)
        }
    }

    /// The number of the newest slot, where one is newest, and it is known from then on. An open slot of a
    /// number over 2 leaves none. A fault comes only where the rig's read faults rose.
    pub fn find<R: Rig>(&mut self, rig: &mut R) -> Result<Option<u8>, DeviceFault>
        requires some_body { 0 < (place_of self.old).body }
        requires fits { (place_of self.old).start + slots_size (place_of self.old) ≤ (R.state rig.old).size }
        ensures place { place_of self.new ≡ place_of self.old }
        ensures newest { R.tells_view → IfOk result (λ slot. slot ≡ newest_slot (place_of self.old) (R.state rig.old).view) }
        ensures known { R.tells_view → IfOk result (λ slot. IsSome slot → Knows self.new (R.state rig.new).view) }
        ensures reads { OnlyReads R.tells_view (R.state rig.old) (R.state rig.new) }
        ensures cause { OnErr result (Rose (R.state rig.old).read_faults (R.state rig.new).read_faults) }
    {
        let first = read_number(rig, self.gate(0))?;
        let second = read_number(rig, self.gate(1))?;
        let slot = newest_of(first, second);
        self.know(slot, first, second);
        Ok(slot)
    }

    // Keeps what was read of the newest slot and the other.
    fn know(&mut self, slot: Option<u8>, first: Option<u8>, second: Option<u8>)
        requires { slot ≡ newest (slot_of first) (slot_of second) }
        ensures place { place_of self.new ≡ place_of self.old }
        ensures known { IfSome slot (λ s. IsTrue self.new.found × (self.new.newest ≡ s) × ((if s == 0 then first else second) ≡ Some self.new.sequence)
            × (IsTrue self.new.older_open ↔ IsSome (if s == 0 then second else first))) }
    {
        self.found = false;
        let Some(slot) = slot else {
            return;
        };
        let (number, other) = if slot == 0 {
            (first, second)
        } else {
            (second, first)
        };
        let Some(number) = number else {
            return;
        };
        self.found = true;
        self.newest = slot;
        self.sequence = number;
        self.older_open = other.is_some();
    }

    /// Makes a body with a tail the newest content. At every moment a cut leaves the old content or the new
    /// one as the newest, and nothing changes outside the two slots. The body's byte 0 becomes the next
    /// sequence number. It makes 7 calls of write and sync, or 6 with an empty tail. A fault comes only where
    /// the rig's write faults rose.
    pub fn commit<R: Rig>(
        &mut self,
        rig: &mut R,
        body: &mut [u8],
        tail: &[u8],
    ) -> Result<(), DeviceFault>
        requires body { length body.old ≡ 512 * (place_of self.old).body }
        requires some_body { 0 < (place_of self.old).body }
        requires tail { length tail.now ≡ 512 * (place_of self.old).tail }
        requires fits { (place_of self.old).start + slots_size (place_of self.old) ≤ (R.state rig.old).size }
        requires settled { IsSettled (place_of self.old).start (slots_size (place_of self.old)) (R.state rig.old) }
        requires known { R.tells_view → Knows self.old (R.state rig.old).view }

        ensures place { place_of self.new ≡ place_of self.old }
        ensures numbered { body.new ≡ slice_set body.old 0 ((number_of self.old + 1) % 3) }

        // At every moment the newest content is the old one or the new one.
        ensures any_moment { (content : List ℕ) → R.tells_view → newest_content (place_of self.old) (R.state rig.old).view ≡ Some content
            → Leaves (λ image. (newest_content (place_of self.old) image ≡ Some content) ⊎ (newest_content (place_of self.old) image ≡ Some (body.new ++ tail.now)))
            (R.state rig.old) (R.state rig.new) }
        // Where it is the new one, the bytes around the slots are those that reads gave before, and settled.
        ensures switched { (content : List ℕ) → R.tells_view → newest_content (place_of self.old) (R.state rig.old).view ≡ Some content
            → Leaves (λ image. (newest_content (place_of self.old) image ≡ Some content)
            ⊎ ((newest_content (place_of self.old) image ≡ Some (body.new ++ tail.now)) × SameElsewhere (place_of self.old).start (slots_size (place_of self.old)) (R.state rig.old).view image))
            (R.state rig.old) (R.state rig.new) }
        ensures shown { (content : List ℕ) → R.tells_view → newest_content (place_of self.old) (R.state rig.old).view ≡ Some content
            → (newest_content (place_of self.old) (R.state rig.new).view ≡ Some content) ⊎ (newest_content (place_of self.old) (R.state rig.new).view ≡ Some (body.new ++ tail.now)) }
        ensures outside { LeavesElsewhere (place_of self.old).start (slots_size (place_of self.old)) (R.state rig.old) (R.state rig.new) }
        ensures outside_view { R.tells_view → SameElsewhere (place_of self.old).start (slots_size (place_of self.old)) (R.state rig.old).view (R.state rig.new).view }

        // From `Ok` on it is the new one.
        ensures committed { R.tells_view → OnOk result (newest_content (place_of self.old) (R.state rig.new).view ≡ Some (body.new ++ tail.now)) }
        ensures settled { OnOk result (IsAllSettled (R.state rig.new)) }
        ensures known { R.tells_view → OnOk result (Knows self.new (R.state rig.new).view) }

        ensures later { Later (R.state rig.old) (R.state rig.new) }
        ensures made { MakesAtMost (if length tail.now == 0 then 3 else 4) 3 0 (R.state rig.old) (R.state rig.new) }
        ensures rises { R.keeps_cuts → OnOk result ((R.state rig.new).clock ≡ (R.state rig.old).clock + (if length tail.now == 0 then 6 else 7)) }
        ensures cause { OnErr result (Rose (R.state rig.old).write_faults (R.state rig.new).write_faults) }
    {
        let next = next_number(self.sequence);
        let older = 1 - self.newest;
        let gate = self.gate(older);
        body[0] = next;
        close(rig, gate, self.older_open, &body[..512])?;
        fill(rig, gate + BLOCK, body, tail)?;
        gate_set(rig, gate, true)?;
        self.newest = older;
        self.sequence = next;
        self.older_open = true;
        Ok(())
    }
}
