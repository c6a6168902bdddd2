//! A partition's upstream: itself, and each partition from which something comes to it, at first hand
//! or through others.

ghost use Rattle.std.specs.Prelude.{◌≡◌, ◌≤◌, ◌<◌, ◌==◌, ◌&&◌, ◌||◌, map, length};
ghost use Rattle.std.specs.List.{list_any};
ghost use Rattle.apex_model.specs.Accepted.{IsAccepted};
ghost use Rattle.apex_model.specs.Isolation.{shows, carries, feeds, partition_numbers, is_marked, spread, upstream_marks, own_lines};

use apex_types::{ChannelRow, Destinations, PartitionId, Readers, Table, TreeRow};
use arrayvec::ArrayVec;
use call_script::Script;
use std::marker::Model;

/// A mark for each partition of a table: at most 16.
#[derive(Drop)]
struct Marks {
    content: ArrayVec<bool, 16>,
}

impl Model for Marks {
    ghost use Rattle.std.specs.Prelude.{List, Bool, length, ◌≤◌};

    ghost Value = { List Bool };

    ghost view = { λ m. m.content.items };

    ghost invariant = { λ m. length m.content.items ≤ 16 };
}

// Whether a partition is among the readers.
fn is_reader(readers: &Readers, p: PartitionId) -> bool
    ensures { result ≡ list_any (λ reader. reader.0 == p.0) readers.now }
{
    for k in 0..readers.len() {
        if readers.at(k).0 == p.0 {
            return true;
        }
    }
    false
}

// Whether one of the ports is of a partition.
fn is_destination(destinations: &Destinations, p: PartitionId) -> bool
    ensures { result ≡ list_any (λ port. port.partition.0 == p.0) destinations.now }
{
    for k in 0..destinations.len() {
        if destinations.at(k).partition.0 == p.0 {
            return true;
        }
    }
    false
}

// Whether the tree is of partition `q`, and `p` may read it.
fn shows(row: &TreeRow, q: PartitionId, p: PartitionId) -> bool
    ensures { result ≡ shows q.0 p.0 row.now }
{
    row.owner.0 == q.0 && is_reader(&row.readers, p)
}

// Whether the channel goes from partition `q` to `p`.
fn carries(row: &ChannelRow, q: PartitionId, p: PartitionId) -> bool
    ensures { result ≡ carries q.0 p.0 row.now }
{
    row.source.partition.0 == q.0 && is_destination(&row.destinations, p)
}

// Whether partition `q` owns a tree that `p` may read.
fn shows_any(table: &Table, q: PartitionId, p: PartitionId) -> bool
    ensures { result ≡ list_any (shows q.0 p.0) table.now.trees }
{
    table.trees().iter().any(|row| shows(row, q, p))
}

// Whether partition `q` is the source of a channel that ends at `p`.
fn carries_any(table: &Table, q: PartitionId, p: PartitionId) -> bool
    ensures { result ≡ list_any (carries q.0 p.0) table.now.channels }
{
    table.channels().iter().any(|row| carries(row, q, p))
}

// Whether something comes from partition `q` to `p` at first hand.
fn feeds(table: &Table, q: PartitionId, p: PartitionId) -> bool
    ensures { result ≡ feeds table.now q.0 p.0 }
{
    shows_any(table, q, p) || carries_any(table, q, p)
}

// The number of a table's partitions.
fn size(table: &Table) -> u8
    requires { length table.now.partitions ≤ 16 }
    ensures { result ≡ length table.now.partitions }
{
    table.partitions().len() as u8
}

impl Marks {
    // A mark for one partition.
    fn of_one(table: &Table, p: PartitionId) -> Marks
        requires { length table.now.partitions ≤ 16 }
        ensures { result ≡ map (λ q. q == p.0) (partition_numbers table.now) }
    {
        let mut content = ArrayVec::new();
        for q in 0..size(table) {
            content.push(q == p.0);
        }
        Marks { content }
    }

    // Whether a partition is marked.
    fn has(&self, p: PartitionId) -> bool
        ensures { result ≡ is_marked self.now p.0 }
    {
        match self.content.as_slice().get(p.0 as usize) {
            Some(mark) => *mark,
            None => false,
        }
    }

    // Whether partition `q` feeds this one, which is marked.
    fn takes_by(&self, table: &Table, member: PartitionId, q: PartitionId) -> bool
        ensures { result ≡ is_marked self.now member.0 && feeds table.now q.0 member.0 }
    {
        self.has(member) && feeds(table, q, member)
    }

    // Whether partition `q` feeds a marked one.
    fn takes_from(&self, table: &Table, q: PartitionId) -> bool
        requires { length table.now.partitions ≤ 16 }
        ensures { result
            ≡ list_any (λ member. is_marked self.now member && feeds table.now q.0 member)
            (partition_numbers table.now) }
    {
        (0..size(table)).any(|member| self.takes_by(table, PartitionId(member), q))
    }

    // Whether partition `q` is marked or feeds a marked one.
    fn reaches(&self, table: &Table, q: PartitionId) -> bool
        requires { length table.now.partitions ≤ 16 }
        ensures { result ≡ is_marked self.now q.0
            || list_any (λ member. is_marked self.now member && feeds table.now q.0 member)
            (partition_numbers table.now) }
    {
        self.has(q) || self.takes_from(table, q)
    }

    // These marks, and one for each partition that feeds a marked one.
    fn spread(&self, table: &Table) -> Marks
        requires { length table.now.partitions ≤ 16 }
        ensures { result ≡ spread table.now self.now }
    {
        let mut content = ArrayVec::new();
        for q in 0..size(table) {
            content.push(self.reaches(table, PartitionId(q)));
        }
        Marks { content }
    }

    // The marks of a partition's upstream, found in rounds: in each the partitions that feed a
    // marked one are marked too. After as many rounds as there are partitions no more is found.
    fn of_upstream(table: &Table, p: PartitionId) -> Marks
        requires { length table.now.partitions ≤ 16 }
        ensures { result ≡ upstream_marks table.now p.0 }
    {
        let mut marks = Marks::of_one(table, p);
        for _ in 0..size(table) {
            marks = marks.spread(table);
        }
        marks
    }

    fn as_slice(&self) -> &[bool]
        ensures { result.now ≡ self.now }
    {
        self.content.as_slice()
    }
}

/// The ticks and the lines of a partition's upstream: of itself, and of each partition from which
/// something comes to it, at first hand or through others. The lines are kept in their order and
/// with their numbers, and no memory is taken.
pub fn own_script(table: &Table, p: PartitionId, script: Script) -> Script
    requires accepted { IsAccepted table.now }
    requires within { p.0 < length table.now.partitions }
    ensures { result ≡ own_lines table.now p.0 script }
{
    let marks = Marks::of_upstream(table, p);
    script.of_partitions(marks.as_slice())
}
