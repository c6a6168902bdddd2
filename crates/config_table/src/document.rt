//! The rows of a whole document.

ghost use Rattle.std.specs.Prelude.{◌≡◌, IfOk};
ghost use Rattle.toml.specs.View.{table_view};
ghost use Rattle.table_model.specs.Reading.{made, and_also, named_rows, other_rows, document_from};
ghost use Rattle.config_table.specs.Gives.{Gives};
ghost use Rattle.config_table.specs.WrittenRows.{written_view, rows_of, named_view, others_view, HasFewNamed};

use crate::lists::{needed_list, optional_list};
use crate::values::{and_also, has_only, value_at};
use crate::written_rows::WrittenRows;
use apex_types::{PartitionRow, VolumeRow};
use std::alloc::Global;
use table_model::{TableError, WrittenChannel, WrittenLogbook, WrittenTree};

/// The rows that others name.
type NamedRows = (Vec<PartitionRow>, Vec<VolumeRow>);

/// The rows that name them.
type OtherRows = (Vec<WrittenTree>, (Vec<WrittenLogbook>, Vec<WrittenChannel>));

/// The partitions and volumes of a document.
fn named_rows(alloc: Global, top: &toml::Table) -> Result<NamedRows, TableError>
    ensures value { Gives named_view result (named_rows (table_view top.now)) }
    ensures few { IfOk result HasFewNamed }
{
    let partitions = needed_list(alloc, value_at(top, "partition"), 1, 16);
    let volumes = optional_list(alloc, value_at(top, "volume"), 0, 8);
    and_also(partitions, volumes)
}

/// The trees, logbooks and channels of a document.
fn other_rows(alloc: Global, top: &toml::Table) -> Result<OtherRows, TableError>
    ensures { Gives others_view result (other_rows (table_view top.now)) }
{
    let trees = optional_list(alloc, value_at(top, "tree"), 0, 32);
    let logbooks = optional_list(alloc, value_at(top, "logbook"), 0, 32);
    let channels = optional_list(alloc, value_at(top, "channel"), 0, 32);
    let others = and_also(logbooks, channels);
    and_also(trees, others)
}

/// All rows, of their two parts.
fn rows_of(
    named: Result<NamedRows, TableError>,
    others: Result<OtherRows, TableError>,
) -> Result<WrittenRows, TableError>
    ensures { result ≡ made rows_of (and_also named others) }
{
    let ((partitions, volumes), (trees, (logbooks, channels))) = and_also(named, others)?;
    Ok(WrittenRows {
        partitions,
        volumes,
        trees,
        logbooks,
        channels,
    })
}

/// The rows of a document, or the refusal that counts.
pub fn document_from(alloc: Global, top: &toml::Table) -> Result<WrittenRows, TableError>
    ensures value { Gives written_view result (document_from (table_view top.now)) }
    ensures few { IfOk result (λ rows. HasFewNamed (rows.partitions, rows.volumes)) }
{
    if !has_only(top, &["partition", "volume", "tree", "logbook", "channel"]) {
        return Err(TableError::UnknownKey);
    }
    let named = named_rows(alloc, top);
    let others = other_rows(alloc, top);
    rows_of(named, others)
}
