//! The rows of a module table, each from the table of its list's element.

ghost use Rattle.std.specs.Prelude.{◌≡◌, ◌≤◌, length};
ghost use Rattle.toml.specs.View.{view, table_view};
ghost use Rattle.toml.specs.Data.{get_member};
ghost use Rattle.table_model.specs.Reading.{made, and_also, tree_of, channel_of, name_from, port_from, row_from, optional_list, needed_list, partition_from, volume_from, tree_users, tree_sizes, tree_from, logbook_names, logbook_sizes, logbook_from, channel_ends, channel_sizes, channel_from};
ghost use Rattle.config_table.specs.Gives.{Gives};
ghost use Rattle.config_table.specs.Keys.{readers_key, destinations_key};

use crate::lists::{Item, needed_list, optional_list};
use crate::values::{
    and_also, byte_read, has_only, name_from, name_read, number_read, partition_name_read,
    port_from, port_read, short_read, value_at,
};
use apex_types::{Name, PartitionRow, VolumeRow};
use std::alloc::Global;
use table_model::{
    PortNames, ReaderNames, TableError, WrittenChannel, WrittenLogbook, WrittenPort, WrittenTree,
};
use toml::Value;

/// A tree's volume, owner and readers.
type TreeUsers = (Name, (Name, ReaderNames));

/// A tree's quota and numbers of files, directories and dirty blocks.
type TreeSizes = ((u16, u8), (u8, u8));

impl Item for Name {
    ghost reading = { name_from };

    fn read(_alloc: Global, value: &Value) -> Result<Name, TableError> {
        name_from(value)
    }
}

impl Item for WrittenPort {
    ghost reading = { port_from };

    fn read(_alloc: Global, value: &Value) -> Result<WrittenPort, TableError> {
        port_from(value)
    }
}

impl Item for PartitionRow {
    ghost reading = { row_from partition_from };

    fn read(_alloc: Global, value: &Value) -> Result<PartitionRow, TableError> {
        match value.as_table() {
            Some(table) => partition_from(table),
            None => Err(TableError::WrongKind),
        }
    }
}

impl Item for VolumeRow {
    ghost reading = { row_from volume_from };

    fn read(_alloc: Global, value: &Value) -> Result<VolumeRow, TableError> {
        match value.as_table() {
            Some(table) => volume_from(table),
            None => Err(TableError::WrongKind),
        }
    }
}

impl Item for WrittenTree {
    ghost reading = { row_from tree_from };

    fn read(alloc: Global, value: &Value) -> Result<WrittenTree, TableError> {
        match value.as_table() {
            Some(table) => tree_from(alloc, table),
            None => Err(TableError::WrongKind),
        }
    }
}

impl Item for WrittenLogbook {
    ghost reading = { row_from logbook_from };

    fn read(_alloc: Global, value: &Value) -> Result<WrittenLogbook, TableError> {
        match value.as_table() {
            Some(table) => logbook_from(table),
            None => Err(TableError::WrongKind),
        }
    }
}

impl Item for WrittenChannel {
    ghost reading = { row_from channel_from };

    fn read(alloc: Global, value: &Value) -> Result<WrittenChannel, TableError> {
        match value.as_table() {
            Some(table) => channel_from(alloc, table),
            None => Err(TableError::WrongKind),
        }
    }
}

/// The partition of a row.
#[tactic(auto, unfolding(table_model::specs::Reading::partition_from))]
fn partition_from(table: &toml::Table) -> Result<PartitionRow, TableError>
    ensures { result ≡ partition_from (table_view table.now) }
{
    if !has_only(table, &["name"]) {
        return Err(TableError::UnknownKey);
    }
    let name = partition_name_read(table, "name")?;
    Ok(PartitionRow { name })
}

/// The volume of a row.
#[tactic(auto, unfolding(table_model::specs::Reading::volume_from))]
fn volume_from(table: &toml::Table) -> Result<VolumeRow, TableError>
    ensures { result ≡ volume_from (table_view table.now) }
{
    if !has_only(table, &["name", "blocks"]) {
        return Err(TableError::UnknownKey);
    }
    let (name, blocks) = and_also(
        name_read(table, "name"),
        number_read(table, "blocks", 1, 131_072),
    )?;
    Ok(VolumeRow { name, blocks })
}

/// The names of a list, which are few enough.
fn reader_names(names: &[Name]) -> ReaderNames
    requires { length names.now ≤ 15 }
    ensures { result ≡ names.now }
{
    let mut readers = ReaderNames::new();
    for name in names {
        readers.push(name.copy());
    }
    readers
}

/// The readers of a tree.
fn readers(alloc: Global, table: &toml::Table) -> Result<ReaderNames, TableError>
    ensures { Gives (λ x. x) result (optional_list name_from 0 15 (get_member readers_key (table_view table.now))) }
{
    let names: Vec<Name> = optional_list(alloc, value_at(table, "readers"), 0, 15)?;
    Ok(reader_names(names.as_slice()))
}

/// Where a tree stands and who uses it.
fn tree_users(alloc: Global, table: &toml::Table) -> Result<TreeUsers, TableError>
    ensures { Gives (λ x. x) result (tree_users (table_view table.now)) }
{
    let users = and_also(name_read(table, "owner"), readers(alloc, table));
    and_also(name_read(table, "volume"), users)
}

/// How large a tree is.
#[tactic(auto, unfolding(table_model::specs::Reading::tree_sizes))]
fn tree_sizes(table: &toml::Table) -> Result<TreeSizes, TableError>
    ensures { result ≡ tree_sizes (table_view table.now) }
{
    let files = and_also(
        short_read(table, "quota", 1, 4096),
        byte_read(table, "files", 1, 64),
    );
    let directories = and_also(
        byte_read(table, "directories", 0, 32),
        byte_read(table, "dirty", 16, 48),
    );
    and_also(files, directories)
}

/// A tree of its parts.
fn tree_of(
    users: Result<TreeUsers, TableError>,
    sizes: Result<TreeSizes, TableError>,
) -> Result<WrittenTree, TableError>
    ensures { result ≡ made tree_of (and_also users sizes) }
{
    let ((volume, (owner, readers)), ((quota, files), (directories, dirty))) = and_also(
        users, sizes,
    )?;
    Ok(WrittenTree {
        volume,
        owner,
        readers,
        quota,
        files,
        directories,
        dirty,
    })
}

/// The tree of a row.
fn tree_from(alloc: Global, table: &toml::Table) -> Result<WrittenTree, TableError>
    ensures { Gives (λ x. x) result (tree_from (table_view table.now)) }
{
    if !has_only(
        table,
        &[
            "volume",
            "owner",
            "readers",
            "quota",
            "files",
            "directories",
            "dirty",
        ],
    ) {
        return Err(TableError::UnknownKey);
    }
    let users = tree_users(alloc, table);
    tree_of(users, tree_sizes(table))
}

/// The name of a logbook and its partition's.
#[tactic(auto, unfolding(table_model::specs::Reading::logbook_names))]
fn logbook_names(table: &toml::Table) -> Result<(Name, Name), TableError>
    ensures { result ≡ logbook_names (table_view table.now) }
{
    and_also(name_read(table, "name"), name_read(table, "partition"))
}

/// How large a logbook is.
#[tactic(auto, unfolding(table_model::specs::Reading::logbook_sizes))]
fn logbook_sizes(table: &toml::Table) -> Result<(u16, (u16, u8)), TableError>
    ensures { result ≡ logbook_sizes (table_view table.now) }
{
    let limits = and_also(
        short_read(table, "logged", 1, 256),
        byte_read(table, "in_progress", 1, 16),
    );
    and_also(short_read(table, "message_size", 1, 480), limits)
}

/// The logbook of a row.
#[tactic(auto, unfolding(table_model::specs::Reading::logbook_from))]
fn logbook_from(table: &toml::Table) -> Result<WrittenLogbook, TableError>
    ensures { result ≡ logbook_from (table_view table.now) }
{
    if !has_only(
        table,
        &["name", "partition", "message_size", "logged", "in_progress"],
    ) {
        return Err(TableError::UnknownKey);
    }
    let ((name, partition), (message_size, (logged, in_progress))) = and_also(
        logbook_names(table),
        logbook_sizes(table),
    )?;
    Ok(WrittenLogbook {
        name,
        partition,
        message_size,
        logged,
        in_progress,
    })
}

/// The ports of a list, which are few enough.
fn port_names(ports: &[WrittenPort]) -> PortNames
    requires { length ports.now ≤ 8 }
    ensures { result ≡ ports.now }
{
    let mut names = PortNames::new();
    for port in ports {
        names.push(port.copy());
    }
    names
}

/// The destinations of a channel.
fn destinations(alloc: Global, table: &toml::Table) -> Result<PortNames, TableError>
    ensures { Gives (λ x. x) result (needed_list port_from 1 8 (get_member destinations_key (table_view table.now))) }
{
    let ports: Vec<WrittenPort> = needed_list(alloc, value_at(table, "destinations"), 1, 8)?;
    Ok(port_names(ports.as_slice()))
}

/// The ports of a channel.
fn channel_ends(alloc: Global, table: &toml::Table) -> Result<(WrittenPort, PortNames), TableError>
    ensures { Gives (λ x. x) result (channel_ends (table_view table.now)) }
{
    let destinations = destinations(alloc, table);
    and_also(port_read(table, "source"), destinations)
}

/// How large a channel's message is, and how long it is valid.
#[tactic(auto, unfolding(table_model::specs::Reading::channel_sizes))]
fn channel_sizes(table: &toml::Table) -> Result<(u16, u32), TableError>
    ensures { result ≡ channel_sizes (table_view table.now) }
{
    and_also(
        short_read(table, "size", 1, 1024),
        number_read(table, "refresh", 1, u32::MAX),
    )
}

/// A channel of its parts.
fn channel_of(
    ends: Result<(WrittenPort, PortNames), TableError>,
    sizes: Result<(u16, u32), TableError>,
) -> Result<WrittenChannel, TableError>
    ensures { result ≡ made channel_of (and_also ends sizes) }
{
    let ((source, destinations), (size, refresh)) = and_also(ends, sizes)?;
    Ok(WrittenChannel {
        source,
        destinations,
        size,
        refresh,
    })
}

/// The channel of a row.
fn channel_from(alloc: Global, table: &toml::Table) -> Result<WrittenChannel, TableError>
    ensures { Gives (λ x. x) result (channel_from (table_view table.now)) }
{
    if !has_only(table, &["source", "destinations", "size", "refresh"]) {
        return Err(TableError::UnknownKey);
    }
    let ends = channel_ends(alloc, table);
    channel_of(ends, channel_sizes(table))
}
