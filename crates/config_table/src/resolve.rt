//! Rows with indexes in the place of names.

ghost use Rattle.std.specs.Prelude.{◌≡◌, ◌<◌, ◌≤◌, length, position, bytes_eq, Some, OnOk, IfErr, IfSome};
ghost use Rattle.std.specs.Option.{option_map};
ghost use Rattle.table_model.specs.Table.{all_of, partition_of, volume_of, tree_row, logbook_row, port_row, channel_row, rows_from};
ghost use Rattle.table_model.specs.Reading.{or_error};
ghost use Rattle.table_model.specs.declared.errors.TableError.TheVariants.{UnknownName, OutOfMemory};
ghost use Rattle.config_table.specs.Gives.{Gives, Fails};
ghost use Rattle.config_table.specs.Pushes.{with_partitions, with_volumes, with_trees, with_logbooks, with_channels};
ghost use Rattle.config_table.specs.WrittenRows.{written_view, HasFewNamed};

use crate::written_rows::WrittenRows;
use apex_types::{
    ChannelRow, Destinations, LogbookRow, Name, PartitionId, PartitionRow, PortRow, Readers, Table,
    TreeRow, VolumeRow,
};
use std::alloc::Global;
use table_model::{
    PortNames, ReaderNames, TableError, WrittenChannel, WrittenLogbook, WrittenPort, WrittenTree,
};

/// The place of the partition with a name.
fn partition_place(partitions: &[PartitionRow], name: &[u8]) -> Option<usize>
    ensures value { result ≡ position (λ row. bytes_eq row.name name.now) partitions.now }
    ensures bound { IfSome result (λ place. place < length partitions.now) }
{
    partitions.iter().position(|row| row.name.bytes() == name)
}

/// The place of the volume with a name.
fn volume_place(volumes: &[VolumeRow], name: &[u8]) -> Option<usize>
    ensures value { result ≡ position (λ row. bytes_eq row.name name.now) volumes.now }
    ensures bound { IfSome result (λ place. place < length volumes.now) }
{
    volumes.iter().position(|row| row.name.bytes() == name)
}

/// The partition with a name.
fn partition_of(partitions: &[PartitionRow], name: &Name) -> Option<PartitionId>
    requires { length partitions.now ≤ 16 }
    ensures { result ≡ partition_of partitions.now name.now }
{
    match partition_place(partitions, name.bytes()) {
        Some(place) => Some(PartitionId(place as u8)),
        None => None,
    }
}

/// The place of the volume with a name, as a row holds it.
fn volume_of(volumes: &[VolumeRow], name: &Name) -> Option<u8>
    requires { length volumes.now ≤ 8 }
    ensures { result ≡ volume_of volumes.now name.now }
{
    match volume_place(volumes, name.bytes()) {
        Some(place) => Some(place as u8),
        None => None,
    }
}

/// The partitions with these names.
fn readers_of(partitions: &[PartitionRow], names: &ReaderNames) -> Option<Readers>
    requires { length partitions.now ≤ 16 }
    ensures { result ≡ all_of (partition_of partitions.now) names.now }
{
    let mut readers = Readers::new();
    let names = names.as_slice();
    for name in names {
        readers.push(partition_of(partitions, name)?);
    }
    Some(readers)
}

/// The row of a tree.
fn tree_row(
    partitions: &[PartitionRow],
    volumes: &[VolumeRow],
    tree: &WrittenTree,
) -> Option<TreeRow>
    requires partitions { length partitions.now ≤ 16 }
    requires volumes { length volumes.now ≤ 8 }
    ensures { result ≡ tree_row partitions.now volumes.now tree.now }
{
    let volume = volume_of(volumes, &tree.volume)?;
    let owner = partition_of(partitions, &tree.owner)?;
    let readers = readers_of(partitions, &tree.readers)?;
    Some(TreeRow {
        volume,
        owner,
        readers,
        quota: tree.quota,
        files: tree.files,
        directories: tree.directories,
        dirty: tree.dirty,
    })
}

/// The row of a logbook.
fn logbook_row(partitions: &[PartitionRow], logbook: &WrittenLogbook) -> Option<LogbookRow>
    requires { length partitions.now ≤ 16 }
    ensures { result ≡ logbook_row partitions.now logbook.now }
{
    let partition = partition_of(partitions, &logbook.partition)?;
    Some(LogbookRow {
        name: logbook.name.copy(),
        partition,
        message_size: logbook.message_size,
        logged: logbook.logged,
        in_progress: logbook.in_progress,
    })
}

/// The row of a port.
fn port_row(partitions: &[PartitionRow], port: &WrittenPort) -> Option<PortRow>
    requires { length partitions.now ≤ 16 }
    ensures { result ≡ port_row partitions.now port.now }
{
    let partition = partition_of(partitions, &port.partition)?;
    Some(PortRow {
        partition,
        name: port.port.copy(),
    })
}

/// The rows of a channel's destinations.
fn destinations_of(partitions: &[PartitionRow], ports: &PortNames) -> Option<Destinations>
    requires { length partitions.now ≤ 16 }
    ensures { result ≡ all_of (port_row partitions.now) ports.now }
{
    let mut destinations = Destinations::new();
    let ports = ports.as_slice();
    for port in ports {
        destinations.push(port_row(partitions, port)?);
    }
    Some(destinations)
}

/// The row of a channel.
fn channel_row(partitions: &[PartitionRow], channel: &WrittenChannel) -> Option<ChannelRow>
    requires { length partitions.now ≤ 16 }
    ensures { result ≡ channel_row partitions.now channel.now }
{
    let source = port_row(partitions, &channel.source)?;
    let destinations = destinations_of(partitions, &channel.destinations)?;
    Some(ChannelRow {
        source,
        destinations,
        size: channel.size,
        refresh: channel.refresh,
    })
}

/// Adds partitions to a table.
fn push_partitions(table: &mut Table, rows: &[PartitionRow]) -> Result<(), TableError>
    ensures ok { OnOk result (table.new ≡ with_partitions table.old rows.now) }
    ensures err { IfErr result (λ e. e ≡ OutOfMemory) }
{
    for row in rows {
        let row = PartitionRow {
            name: row.name.copy(),
        };
        if table.push_partition(row).is_err() {
            return Err(TableError::OutOfMemory);
        }
    }
    Ok(())
}

/// Adds volumes to a table.
fn push_volumes(table: &mut Table, rows: &[VolumeRow]) -> Result<(), TableError>
    ensures ok { OnOk result (table.new ≡ with_volumes table.old rows.now) }
    ensures err { IfErr result (λ e. e ≡ OutOfMemory) }
{
    for row in rows {
        let row = VolumeRow {
            name: row.name.copy(),
            blocks: row.blocks,
        };
        if table.push_volume(row).is_err() {
            return Err(TableError::OutOfMemory);
        }
    }
    Ok(())
}

/// Adds trees to a table.
fn push_trees(
    table: &mut Table,
    partitions: &[PartitionRow],
    volumes: &[VolumeRow],
    rows: &[WrittenTree],
) -> Result<(), TableError>
    requires partitions { length partitions.now ≤ 16 }
    requires volumes { length volumes.now ≤ 8 }
    ensures ok { OnOk result (option_map (with_trees table.old) (all_of (tree_row partitions.now volumes.now) rows.now) ≡ Some table.new) }
    ensures err { IfErr result (λ e. Fails e (or_error UnknownName (all_of (tree_row partitions.now volumes.now) rows.now))) }
{
    for tree in rows {
        match tree_row(partitions, volumes, tree) {
            Some(row) => {
                if table.push_tree(row).is_err() {
                    return Err(TableError::OutOfMemory);
                }
            }
            None => return Err(TableError::UnknownName),
        }
    }
    Ok(())
}

/// Adds logbooks to a table.
fn push_logbooks(
    table: &mut Table,
    partitions: &[PartitionRow],
    rows: &[WrittenLogbook],
) -> Result<(), TableError>
    requires { length partitions.now ≤ 16 }
    ensures ok { OnOk result (option_map (with_logbooks table.old) (all_of (logbook_row partitions.now) rows.now) ≡ Some table.new) }
    ensures err { IfErr result (λ e. Fails e (or_error UnknownName (all_of (logbook_row partitions.now) rows.now))) }
{
    for logbook in rows {
        match logbook_row(partitions, logbook) {
            Some(row) => {
                if table.push_logbook(row).is_err() {
                    return Err(TableError::OutOfMemory);
                }
            }
            None => return Err(TableError::UnknownName),
        }
    }
    Ok(())
}

/// Adds channels to a table.
fn push_channels(
    table: &mut Table,
    partitions: &[PartitionRow],
    rows: &[WrittenChannel],
) -> Result<(), TableError>
    requires { length partitions.now ≤ 16 }
    ensures ok { OnOk result (option_map (with_channels table.old) (all_of (channel_row partitions.now) rows.now) ≡ Some table.new) }
    ensures err { IfErr result (λ e. Fails e (or_error UnknownName (all_of (channel_row partitions.now) rows.now))) }
{
    for channel in rows {
        match channel_row(partitions, channel) {
            Some(row) => {
                if table.push_channel(row).is_err() {
                    return Err(TableError::OutOfMemory);
                }
            }
            None => return Err(TableError::UnknownName),
        }
    }
    Ok(())
}

/// The table of these rows, with indexes in the place of names.
pub fn resolved(alloc: Global, rows: &WrittenRows) -> Result<Table, TableError>
    requires { HasFewNamed (rows.now.partitions, rows.now.volumes) }
    ensures { Gives (λ t. t) result (or_error UnknownName (rows_from (written_view rows.now))) }
{
    let mut table = Table::new(alloc);
    let partitions = rows.partitions.as_slice();
    let volumes = rows.volumes.as_slice();
    push_partitions(&mut table, partitions)?;
    push_volumes(&mut table, volumes)?;
    push_trees(&mut table, partitions, volumes, rows.trees.as_slice())?;
    push_logbooks(&mut table, partitions, rows.logbooks.as_slice())?;
    push_channels(&mut table, partitions, rows.channels.as_slice())?;
    Ok(table)
}
