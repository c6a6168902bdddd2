//! Rows that stand twice.

ghost use Rattle.std.specs.Prelude.{◌≡◌, [], ◌∷◌, ◌++◌, flat_map, bytes_eq, Ok, OnOk, IfErr, not};
ghost use Rattle.std.specs.List.{list_any, list_all};
ghost use Rattle.apex_model.specs.Accepted.{all_differ};
ghost use Rattle.table_model.specs.Table.{is_same_partition, is_same_volume, is_same_tree, is_same_logbook, is_same_port, users_of, ends_of, has_repeats};
ghost use Rattle.table_model.specs.declared.errors.TableError.TheVariants.{OutOfMemory};
ghost use Rattle.config_table.specs.Gives.{Gives};
ghost use Rattle.config_table.specs.WrittenRows.{written_view};

use crate::written_rows::WrittenRows;
use apex_types::{Name, PartitionRow, VolumeRow};
use std::alloc::Global;
use table_model::{TableError, WrittenChannel, WrittenLogbook, WrittenPort, WrittenTree};

/// Rows of which no two may be the same.
trait Same {
    ghost use Rattle.std.specs.Prelude.{Bool, ◌≡◌};

    ghost same: { Self → Self → Bool };

    /// Whether two rows are the same.
    fn is_same(&self, other: &Self) -> bool
        ensures { result ≡ same self.now other.now };
}

impl Same for Name {
    ghost same = { bytes_eq };

    fn is_same(&self, other: &Name) -> bool {
        self.bytes() == other.bytes()
    }
}

impl Same for PartitionRow {
    ghost same = { is_same_partition };

    fn is_same(&self, other: &PartitionRow) -> bool {
        self.name.is_same(&other.name)
    }
}

impl Same for VolumeRow {
    ghost same = { is_same_volume };

    fn is_same(&self, other: &VolumeRow) -> bool {
        self.name.is_same(&other.name)
    }
}

impl Same for WrittenTree {
    ghost same = { is_same_tree };

    fn is_same(&self, other: &WrittenTree) -> bool {
        self.volume.is_same(&other.volume) && self.owner.is_same(&other.owner)
    }
}

impl Same for WrittenLogbook {
    ghost same = { is_same_logbook };

    fn is_same(&self, other: &WrittenLogbook) -> bool {
        self.partition.is_same(&other.partition) && self.name.is_same(&other.name)
    }
}

impl Same for WrittenPort {
    ghost same = { is_same_port };

    fn is_same(&self, other: &WrittenPort) -> bool {
        self.partition.is_same(&other.partition) && self.port.is_same(&other.port)
    }
}

/// Whether some row is the same as this one.
fn has_same<T: Same>(rows: &[T], row: &T) -> bool
    ensures { result ≡ list_any (T.same row.now) rows.now }
{
    rows.iter().any(|other| row.is_same(other))
}

/// Whether no two rows are the same.
fn all_differ<T: Same>(rows: &[T]) -> bool
    ensures { result ≡ all_differ T.same rows.now }
{
    match rows {
        [] => true,
        [first, rest @ ..] => {
            if has_same(rest, first) {
                return false;
            }
            all_differ(rest)
        }
    }
}

/// Whether a tree's owner and readers are all others.
fn users_differ(tree: &WrittenTree) -> bool
    ensures { result ≡ all_differ bytes_eq (users_of tree.now) }
{
    let readers = tree.readers.as_slice();
    if has_same(readers, &tree.owner) {
        return false;
    }
    all_differ(readers)
}

/// Whether that holds of each tree.
fn all_users_differ(trees: &[WrittenTree]) -> bool
    ensures { result ≡ list_all (λ row. all_differ bytes_eq (users_of row)) trees.now }
{
    trees.iter().all(|tree| users_differ(tree))
}

/// Adds ports at the end.
fn push_ports(all: &mut Vec<WrittenPort>, ports: &[WrittenPort]) -> Result<(), TableError>
    ensures ok { OnOk result (all.new.items ≡ all.old.items ++ ports.now) }
    ensures err { IfErr result (λ e. e ≡ OutOfMemory) }
{
    for port in ports {
        if all.push(port.copy()).is_err() {
            return Err(TableError::OutOfMemory);
        }
    }
    Ok(())
}

/// Adds the ports of a channel at the end.
fn push_ends(all: &mut Vec<WrittenPort>, channel: &WrittenChannel) -> Result<(), TableError>
    ensures ok { OnOk result (all.new.items ≡ all.old.items ++ ends_of channel.now) }
    ensures err { IfErr result (λ e. e ≡ OutOfMemory) }
{
    if all.push(channel.source.copy()).is_err() {
        return Err(TableError::OutOfMemory);
    }
    push_ports(all, channel.destinations.as_slice())
}

/// The ports of all channels.
fn all_ports(alloc: Global, channels: &[WrittenChannel]) -> Result<Vec<WrittenPort>, TableError>
    ensures { Gives (λ v. v.items) result (Ok (flat_map ends_of channels.now)) }
{
    let mut all = Vec::new(alloc);
    for channel in channels {
        match push_ends(&mut all, channel) {
            Ok(()) => {}
            Err(_) => return Err(TableError::OutOfMemory),
        }
    }
    Ok(all)
}

/// Whether something stands twice that may not.
pub fn has_repeats(alloc: Global, rows: &WrittenRows) -> Result<bool, TableError>
    ensures { Gives (λ b. b) result (Ok (has_repeats (written_view rows.now))) }
{
    if !all_differ(rows.partitions.as_slice()) {
        return Ok(true);
    }
    if !all_differ(rows.volumes.as_slice()) {
        return Ok(true);
    }
    if !all_differ(rows.trees.as_slice()) {
        return Ok(true);
    }
    if !all_differ(rows.logbooks.as_slice()) {
        return Ok(true);
    }
    if !all_users_differ(rows.trees.as_slice()) {
        return Ok(true);
    }
    match all_ports(alloc, rows.channels.as_slice()) {
        Ok(ports) => Ok(!all_differ(ports.as_slice())),
        Err(_) => Err(TableError::OutOfMemory),
    }
}
