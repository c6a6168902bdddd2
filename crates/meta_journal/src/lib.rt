//! A journal of 32 records of 512 bytes, each behind a gate, under power cuts.
#![tactic(auto)]

ghost use Rattle.std.specs.Prelude.{◌≡◌, ◌⊎◌, ◌↔◌, ◌+◌, ◌-◌, ◌<◌, ◌≤◌, ◌++◌, ◌∷◌, [], length, Some, None, slice_get, IsTrue, MatchBool, IfOk, OnOk, OnErr, if◌then◌else◌};
ghost use Rattle.rig_core.specs.Bytes.{SameElsewhere};
ghost use Rattle.rig_core.specs.Causes.{Rose};
ghost use Rattle.rig_core.specs.Outside.{Later, MakesAtMost, OnlyReads};
ghost use Rattle.rig_core.specs.Leaves.{Leaves, LeavesElsewhere, IsSettled, IsAllSettled};
ghost use Rattle.meta_journal.specs.Leading.{records, gate_of, IsOpen, HasOpen, HasNoneOpen};

use gate_slots::{gate_read, gate_set, write_settled};
use rig_core::{DeviceFault, Rig};

const RECORDS: u32 = 32;

/// Records of 512 bytes in a row, each in a block behind a gate in a block of its own. Those before the
/// first closed gate count.
#[derive(Drop)]
pub struct Journal {
    first: u64,
    held: u32,
    room: u32,
    ghost few: { held + room ≤ 32 },
}

/// Whether a gate is open from this record's on.
fn has_open_gate<R: Rig>(rig: &mut R, first: u64, from: u32) -> Result<bool, DeviceFault>
    requires fits { first + 32768 ≤ (R.state rig.old).size }
    ensures reads { OnlyReads R.tells_view (R.state rig.old) (R.state rig.new) }
    ensures found { R.tells_view → IfOk result (λ found. MatchBool found (HasOpen first from (R.state rig.old).view) (HasNoneOpen first from (R.state rig.old).view)) }
    ensures cause { OnErr result (Rose (R.state rig.old).read_faults (R.state rig.new).read_faults) }
{
    for place in from..RECORDS {
        if gate_read(rig, first + 1024 * place as u64)? {
            return Ok(true);
        }
    }
    Ok(false)
}

impl Journal {
    ghost use Rattle.meta_journal.specs.Journal.{first_of, held_of, room_of, HasRead, Knows, FindsRoom};

    /// A journal that begins at this byte, of which no record has been read.
    pub fn new(first: u64) -> Journal
        ensures first { first_of result ≡ first }
        ensures held { held_of result ≡ 0 }
        ensures room { room_of result ≡ 0 }
    {
        Journal {
            first,
            held: 0,
            room: 0,
        }
    }

    /// A journal at this byte that has just been written as zeros: it holds no record.
    pub fn fresh(first: u64) -> Journal
        ensures first { first_of result ≡ first }
        ensures held { held_of result ≡ 0 }
        ensures room { room_of result ≡ 32 }
    {
        Journal {
            first,
            held: 0,
            room: RECORDS,
        }
    }

    /// How many more records it takes. It is 0 until `next` has answered false, and where that call found an
    /// open gate behind the first closed one.
    pub fn room(&self) -> u32
        ensures { result ≡ room_of self.now }
    {
        self.room
    }

    /// Reads the next leading record into 512 bytes. False says that 32 were read or that the next gate is
    /// closed, and then the gates behind that one have been read too. A fault comes only where the rig's read
    /// faults rose, and leaves the journal as it was.
    pub fn next<R: Rig>(&mut self, rig: &mut R, into: &mut [u8]) -> Result<bool, DeviceFault>
        requires body { length into.old ≡ 512 }
        requires fits { first_of self.old + 32768 ≤ (R.state rig.old).size }

        ensures first { first_of self.new ≡ first_of self.old }
        ensures more { R.tells_view → IfOk result (λ more. IsTrue more ↔ ((held_of self.old < 32) × IsOpen (gate_of (first_of self.old) (held_of self.old)) (R.state rig.old).view)) }
        ensures record { R.tells_view → HasRead self.old (R.state rig.old).view
            → IfOk result (λ more. slice_get (records (first_of self.old) (R.state rig.old).view) (held_of self.old) ≡ (if more then Some into.new else None)) }
        ensures held { IfOk result (λ more. held_of self.new ≡ held_of self.old + (if more then 1 else 0)) }
        ensures read { R.tells_view → HasRead self.old (R.state rig.old).view → OnOk result (HasRead self.new (R.state rig.old).view) }
        ensures room { R.tells_view → IfOk result (λ more. MatchBool more (room_of self.new ≡ room_of self.old - 1) (FindsRoom self.new (R.state rig.old).view)) }
        ensures known { R.tells_view → HasRead self.old (R.state rig.old).view → IfOk result (λ more. MatchBool more (Unit {0}) (0 < room_of self.new → Knows self.new (R.state rig.old).view)) }
        ensures unchanged { OnErr result ((held_of self.new ≡ held_of self.old) × (room_of self.new ≡ room_of self.old)) }

        ensures reads { OnlyReads R.tells_view (R.state rig.old) (R.state rig.new) }
        ensures cause { OnErr result (Rose (R.state rig.old).read_faults (R.state rig.new).read_faults) }
    {
        if !self.has_next(rig)? {
            let stray = has_open_gate(rig, self.first, self.held + 1)?;
            self.room = if stray { 0 } else { RECORDS - self.held };
            return Ok(false);
        }
        rig.read(self.first + 1024 * self.held as u64 + 512, into)?;
        self.held += 1;
        self.room = self.room.saturating_sub(1);
        Ok(true)
    }

    // Whether fewer than 32 records were read and the next gate is open.
    fn has_next<R: Rig>(&self, rig: &mut R) -> Result<bool, DeviceFault>
        requires { first_of self.now + 32768 ≤ (R.state rig.old).size }
        ensures few { IfOk result (λ more. IsTrue more → held_of self.now < 32) }
        ensures open { R.tells_view → IfOk result (λ more. IsTrue more → IsOpen (gate_of (first_of self.now) (held_of self.now)) (R.state rig.old).view) }
        ensures shut { R.tells_view → IfOk result (λ more. held_of self.now < 32 → IsOpen (gate_of (first_of self.now) (held_of self.now)) (R.state rig.old).view → IsTrue more) }
        ensures reads { OnlyReads R.tells_view (R.state rig.old) (R.state rig.new) }
        ensures cause { OnErr result (Rose (R.state rig.old).read_faults (R.state rig.new).read_faults) }
    {
        if self.held >= RECORDS {
            return Ok(false);
        }
        gate_read(rig, self.first + 1024 * self.held as u64)
    }

    /// Adds a record of 512 bytes. At every moment a cut leaves the leading records of before or those with
    /// this one, and nothing changes outside the record's two blocks. At `Ok` the rig's clock has risen by 4.
    /// A fault comes only where the rig's write faults rose.
    pub fn append<R: Rig>(&mut self, rig: &mut R, body: &[u8]) -> Result<(), DeviceFault>
        requires body { length body.now ≡ 512 }
        requires room { 0 < room_of self.old }
        requires fits { first_of self.old + 32768 ≤ (R.state rig.old).size }
        requires settled { IsSettled (first_of self.old) 32768 (R.state rig.old) }
        requires known { R.tells_view → Knows self.old (R.state rig.old).view }

        ensures first { first_of self.new ≡ first_of self.old }
        ensures held { OnOk result ((held_of self.new ≡ held_of self.old + 1) × (room_of self.new + 1 ≡ room_of self.old)) }
        ensures unchanged { OnErr result ((held_of self.new ≡ held_of self.old) × (room_of self.new ≡ room_of self.old)) }

        // At every moment the records are those of before, with this one or without.
        ensures any_moment { R.tells_view → Leaves
            (λ image. (records (first_of self.old) image ≡ records (first_of self.old) (R.state rig.old).view)
            ⊎ (records (first_of self.old) image ≡ records (first_of self.old) (R.state rig.old).view ++ body.now ∷ []))
            (R.state rig.old) (R.state rig.new) }
        ensures shown { R.tells_view → (records (first_of self.old) (R.state rig.new).view ≡ records (first_of self.old) (R.state rig.old).view)
            ⊎ (records (first_of self.old) (R.state rig.new).view ≡ records (first_of self.old) (R.state rig.old).view ++ body.now ∷ []) }
        ensures outside { LeavesElsewhere (gate_of (first_of self.old) (held_of self.old)) 1024 (R.state rig.old) (R.state rig.new) }
        ensures outside_view { R.tells_view → SameElsewhere (gate_of (first_of self.old) (held_of self.old)) 1024 (R.state rig.old).view (R.state rig.new).view }

        // From `Ok` on they are those with this one.
        ensures appended { R.tells_view → OnOk result
            (records (first_of self.old) (R.state rig.new).view ≡ records (first_of self.old) (R.state rig.old).view ++ body.now ∷ []) }
        ensures settled { OnOk result (IsAllSettled (R.state rig.new)) }
        ensures known { R.tells_view → OnOk result (Knows self.new (R.state rig.new).view) }

        ensures later { Later (R.state rig.old) (R.state rig.new) }
        ensures made { MakesAtMost 2 2 0 (R.state rig.old) (R.state rig.new) }
        ensures rises { R.keeps_cuts → OnOk result ((R.state rig.new).clock ≡ (R.state rig.old).clock + 4) }
        ensures cause { OnErr result (Rose (R.state rig.old).write_faults (R.state rig.new).write_faults) }
    {
        let gate = self.first + 1024 * self.held as u64;
        write_settled(rig, gate + 512, body)?;
        gate_set(rig, gate, true)?;
        self.held += 1;
        self.room -= 1;
        Ok(())
    }
}
