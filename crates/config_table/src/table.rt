//! A table's text.

ghost use Rattle.std.specs.Prelude.{◌≡◌, IfOk};
ghost use Rattle.apex_model.specs.Accepted.{IsAccepted};
ghost use Rattle.toml.specs.View.{table_view};
ghost use Rattle.table_model.specs.Table.{table_of_rows, table_of_written, table_of};
ghost use Rattle.table_model.specs.Laws.{IsReadyForScripts};
ghost use Rattle.table_model.specs.Reading.{table_from};
ghost use Rattle.config_table.specs.Gives.{Gives};
ghost use Rattle.config_table.specs.WrittenRows.{written_view, HasFewNamed};

use crate::document::document_from;
use crate::repeats::has_repeats;
use crate::resolve::resolved;
use crate::room::{image_fits, volumes_fit};
use crate::written_rows::WrittenRows;
use apex_types::Table;
use std::alloc::Global;
use table_model::TableError;

/// A table whose trees fit its volumes and whose layout fits an image.
#[tactic(auto, unfolding(table_model::specs::Table::table_of_rows))]
fn fitting(table: Table) -> Result<Table, TableError>
    ensures { result ≡ table_of_rows table }
{
    if !volumes_fit(&table) {
        return Err(TableError::VolumeOverfull);
    }
    if !image_fits(&table) {
        return Err(TableError::ImageTooLarge);
    }
    Ok(table)
}

/// The table of rows, or the refusal that counts.
fn table_of_written(alloc: Global, rows: &WrittenRows) -> Result<Table, TableError>
    requires { HasFewNamed (rows.now.partitions, rows.now.volumes) }
    ensures { Gives (λ t. t) result (table_of_written (written_view rows.now)) }
{
    let repeats = has_repeats(alloc, rows)?;
    if repeats {
        return Err(TableError::Repeated);
    }
    match resolved(alloc, rows) {
        Ok(table) => fitting(table),
        Err(error) => Err(error),
    }
}

/// The table of a document, or the refusal that counts.
fn table_from(alloc: Global, top: &toml::Table) -> Result<Table, TableError>
    ensures { Gives (λ t. t) result (table_from (table_view top.now)) }
{
    let rows = document_from(alloc, top)?;
    table_of_written(alloc, &rows)
}

/// The table of a text, or the refusal that counts.
fn read_text(alloc: Global, bytes: &[u8]) -> Result<Table, TableError>
    ensures { Gives (λ t. t) result (table_of bytes.now) }
{
    if bytes.len() > 65_536 {
        return Err(TableError::TooLong);
    }
    let text = match str::from_utf8(bytes) {
        Ok(text) => text,
        Err(_) => return Err(TableError::NotToml),
    };
    let top = match toml::table_from_str(alloc, text) {
        Ok(top) => top,
        Err(error) => {
            if error.is_memory() {
                return Err(TableError::OutOfMemory);
            }
            return Err(TableError::NotToml);
        }
    };
    table_from(alloc, &top)
}

/// The module table that a TOML text says.
///
/// # Errors
///
/// The first refusal, in their order, whose condition holds of the whole text: exactly `table_of` of `table_model`. The
/// conditions are this project's own. `OutOfMemory` may come at any text.
pub fn read_table(alloc: Global, bytes: &[u8]) -> Result<Table, TableError>
    ensures exact { Gives (λ t. t) result (table_of bytes.now) }

    // What is read is accepted, and a script can use it.
    ensures accepted { IfOk result IsAccepted }
    ensures ready { IfOk result IsReadyForScripts }
{
    read_text(alloc, bytes)
}
