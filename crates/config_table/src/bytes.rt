//! The canonical bytes of a table.

ghost use Rattle.std.specs.Prelude.{◌≡◌, ◌≤◌, ◌++◌, length, flat_map, OnOk, IfOk};
ghost use Rattle.apex_model.specs.Accepted.{IsAccepted};
ghost use Rattle.apex_model.specs.TableBytes.{bytes_of_number, name_bytes, list_bytes, volume_bytes, tree_bytes, logbook_bytes, port_bytes, channel_bytes, table_bytes};
ghost use Rattle.config_table.specs.Counted.{reader_bytes, counted_bytes};

use apex_types::{
    ByteList, ChannelRow, Destinations, LogbookRow, Name, OutOfMemory, PartitionRow, PortRow,
    Readers, Table, TreeRow, VolumeRow,
};
use std::alloc::Global;

/// What has canonical bytes.
trait Canonical {
    ghost use Rattle.std.specs.Prelude.{◌≡◌, ◌++◌, List, ℕ, OnOk};

    ghost bytes_of: { Self → List ℕ };

    /// Adds the canonical bytes at the end.
    fn put(&self, bytes: &mut ByteList) -> Result<(), OutOfMemory>
        ensures { OnOk result (bytes.new ≡ bytes.old ++ bytes_of self.now) };
}

/// Adds a number of two bytes.
fn put_short(bytes: &mut ByteList, n: u16) -> Result<(), OutOfMemory>
    ensures { OnOk result (bytes.new ≡ bytes.old ++ bytes_of_number 2 n) }
{
    bytes.extend(&[(n % 256) as u8, (n / 256 % 256) as u8])
}

/// Adds a number of four bytes.
fn put_long(bytes: &mut ByteList, n: u32) -> Result<(), OutOfMemory>
    ensures { OnOk result (bytes.new ≡ bytes.old ++ bytes_of_number 4 n) }
{
    bytes.extend(&[
        (n % 256) as u8,
        (n / 256 % 256) as u8,
        (n / 256 / 256 % 256) as u8,
        (n / 256 / 256 / 256 % 256) as u8,
    ])
}

/// The length of a name.
fn name_len(name: &[u8]) -> u8
    requires { length name.now ≤ 56 }
    ensures { result ≡ length name.now }
{
    name.len() as u8
}

/// Adds a name behind its length.
fn put_name(bytes: &mut ByteList, name: &Name) -> Result<(), OutOfMemory>
    ensures { OnOk result (bytes.new ≡ bytes.old ++ name_bytes name.now) }
{
    let name = name.bytes();
    bytes.push(name_len(name))?;
    bytes.extend(name)
}

/// Adds each row.
fn put_each<T: Canonical>(bytes: &mut ByteList, rows: &[T]) -> Result<(), OutOfMemory>
    ensures { OnOk result (bytes.new ≡ bytes.old ++ flat_map T.bytes_of rows.now) }
{
    for row in rows {
        row.put(bytes)?;
    }
    Ok(())
}

/// Adds the number of rows, which is below 256, and each row.
fn put_list<T: Canonical>(bytes: &mut ByteList, rows: &[T]) -> Result<(), OutOfMemory>
    ensures { OnOk result (bytes.new ≡ bytes.old ++ counted_bytes T.bytes_of rows.now) }
{
    bytes.push((rows.len() % 256) as u8)?;
    put_each(bytes, rows)
}

impl Canonical for PartitionRow {
    ghost bytes_of = { λ row. name_bytes row.name };

    fn put(&self, bytes: &mut ByteList) -> Result<(), OutOfMemory> {
        put_name(bytes, &self.name)
    }
}

impl Canonical for VolumeRow {
    ghost bytes_of = { volume_bytes };

    fn put(&self, bytes: &mut ByteList) -> Result<(), OutOfMemory> {
        put_name(bytes, &self.name)?;
        put_long(bytes, self.blocks)
    }
}

/// Adds the readers of a tree.
fn put_readers(bytes: &mut ByteList, readers: &Readers) -> Result<(), OutOfMemory>
    ensures { OnOk result (bytes.new ≡ bytes.old ++ list_bytes reader_bytes readers.now) }
{
    bytes.push(readers.len() as u8)?;
    for k in 0..readers.len() {
        bytes.push(readers.at(k).0)?;
    }
    Ok(())
}

impl Canonical for TreeRow {
    ghost bytes_of = { tree_bytes };

    fn put(&self, bytes: &mut ByteList) -> Result<(), OutOfMemory> {
        bytes.extend(&[self.volume, self.owner.0])?;
        put_readers(bytes, &self.readers)?;
        put_short(bytes, self.quota)?;
        bytes.extend(&[self.files, self.directories, self.dirty])
    }
}

impl Canonical for LogbookRow {
    ghost bytes_of = { logbook_bytes };

    fn put(&self, bytes: &mut ByteList) -> Result<(), OutOfMemory> {
        put_name(bytes, &self.name)?;
        bytes.push(self.partition.0)?;
        put_short(bytes, self.message_size)?;
        put_short(bytes, self.logged)?;
        bytes.push(self.in_progress)
    }
}

impl Canonical for PortRow {
    ghost bytes_of = { port_bytes };

    fn put(&self, bytes: &mut ByteList) -> Result<(), OutOfMemory> {
        bytes.push(self.partition.0)?;
        put_name(bytes, &self.name)
    }
}

/// Adds the destinations of a channel.
fn put_destinations(bytes: &mut ByteList, ports: &Destinations) -> Result<(), OutOfMemory>
    ensures { OnOk result (bytes.new ≡ bytes.old ++ list_bytes port_bytes ports.now) }
{
    bytes.push(ports.len() as u8)?;
    for k in 0..ports.len() {
        ports.at(k).put(bytes)?;
    }
    Ok(())
}

impl Canonical for ChannelRow {
    ghost bytes_of = { channel_bytes };

    fn put(&self, bytes: &mut ByteList) -> Result<(), OutOfMemory> {
        self.source.put(bytes)?;
        put_destinations(bytes, &self.destinations)?;
        put_short(bytes, self.size)?;
        put_long(bytes, self.refresh)
    }
}

/// The canonical bytes of a table. Of a table that isn't accepted they may be others: a number of rows over 255 has no
/// byte.
pub fn table_bytes(alloc: Global, table: &Table) -> Result<ByteList, OutOfMemory>
    ensures { IfOk result (λ bytes. IsAccepted table.now → bytes ≡ table_bytes table.now) }
{
    let mut bytes = ByteList::new(alloc);
    bytes.push(1)?;
    put_list(&mut bytes, table.partitions())?;
    put_list(&mut bytes, table.volumes())?;
    put_list(&mut bytes, table.trees())?;
    put_list(&mut bytes, table.logbooks())?;
    put_list(&mut bytes, table.channels())?;
    Ok(bytes)
}
