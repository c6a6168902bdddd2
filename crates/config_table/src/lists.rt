//! Lists of names, ports and rows.

ghost use Rattle.std.specs.Prelude.{◌≡◌, ◌≤◌, [], map, length, option_map, Ok, IfOk};
ghost use Rattle.toml.specs.View.{view, items_view};
ghost use Rattle.table_model.specs.Document.{elements};
ghost use Rattle.table_model.specs.Reading.{read_each, few_items, list_from, needed_list, optional_list};
ghost use Rattle.config_table.specs.Gives.{Gives};

use crate::values::also;
use std::alloc::Global;
use table_model::TableError;
use toml::Value;

/// What a list of a table's document may hold.
pub trait Item: Drop {
    ghost use Rattle.std.specs.Prelude.{Result};
    ghost use Rattle.toml.specs.Data.{Data};
    ghost use Rattle.toml.specs.View.{view};
    ghost use Rattle.table_model.specs.declared.errors.TableError.{TableError};
    ghost use Rattle.config_table.specs.Gives.{Gives};

    /// What an element of the list is read as.
    ghost reading: { Data → Result Self TableError };

    /// The item that an element of the list is.
    fn read(alloc: Global, value: &Value) -> Result<Self, TableError>
        ensures { Gives (λ x. x) result (reading (view value.now)) };
}

/// The items that values are, or the refusal that counts.
fn items_from<T: Item>(alloc: Global, list: &[Value]) -> Result<Vec<T>, TableError>
    ensures { Gives (λ v. v.items) result (read_each T.reading (Ok []) (map view list.now)) }
{
    let mut items = Vec::new(alloc);
    let mut error = None;
    for value in list {
        match T::read(alloc, value) {
            Ok(item) => {
                if items.push(item).is_err() {
                    return Err(TableError::OutOfMemory);
                }
            }
            Err(TableError::OutOfMemory) => return Err(TableError::OutOfMemory),
            Err(found) => error = also(error, found),
        }
    }
    match error {
        Some(error) => Err(error),
        None => Ok(items),
    }
}

/// The items of a list, or the refusal that counts.
fn items_of<T: Item>(alloc: Global, list: &[Value]) -> Result<Vec<T>, TableError>
    ensures { Gives (λ v. v.items) result (read_each T.reading (Ok []) (elements (items_view list.now))) }
{
    items_from(alloc, list)
}

/// A list of so many items.
fn few_items<T: Item>(items: Vec<T>, lowest: usize, highest: usize) -> Result<Vec<T>, TableError>
    ensures value { Gives (λ v. v.items) result (few_items lowest highest items.items) }
    ensures few { IfOk result (λ v. length v.items ≤ highest) }
{
    if items.len() < lowest || items.len() > highest {
        return Err(TableError::OutOfRange);
    }
    Ok(items)
}

/// The list that a value is, of so many items.
fn list_from<T: Item>(
    alloc: Global,
    value: &Value,
    lowest: usize,
    highest: usize,
) -> Result<Vec<T>, TableError>
    ensures value { Gives (λ v. v.items) result (list_from T.reading lowest highest (view value.now)) }
    ensures few { IfOk result (λ v. length v.items ≤ highest) }
{
    let list = match value.as_array() {
        Some(list) => list,
        None => return Err(TableError::WrongKind),
    };
    let items = items_of(alloc, list)?;
    few_items(items, lowest, highest)
}

/// The list at a key that must be there.
pub fn needed_list<T: Item>(
    alloc: Global,
    value: Option<&Value>,
    lowest: usize,
    highest: usize,
) -> Result<Vec<T>, TableError>
    ensures value { Gives (λ v. v.items) result (needed_list T.reading lowest highest (option_map (λ v. view v.now) value.entry)) }
    ensures few { IfOk result (λ v. length v.items ≤ highest) }
{
    match value {
        Some(value) => list_from(alloc, value, lowest, highest),
        None => Err(TableError::MissingKey),
    }
}

/// The list at a key that may be left out, and is empty then.
pub fn optional_list<T: Item>(
    alloc: Global,
    value: Option<&Value>,
    lowest: usize,
    highest: usize,
) -> Result<Vec<T>, TableError>
    ensures value { Gives (λ v. v.items) result (optional_list T.reading lowest highest (option_map (λ v. view v.now) value.entry)) }
    ensures few { IfOk result (λ v. length v.items ≤ highest) }
{
    match value {
        Some(value) => list_from(alloc, value, lowest, highest),
        None => Ok(Vec::new(alloc)),
    }
}
