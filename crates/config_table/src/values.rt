//! The values of a row, key by key.

ghost use Rattle.std.specs.Prelude.{◌≡◌, ◌≤◌, map, option_map, bytes_eq, Some, IfOk};
ghost use Rattle.std.specs.List.{list_any};
ghost use Rattle.toml.specs.Data.{get_member};
ghost use Rattle.toml.specs.View.{view, table_view};
ghost use Rattle.table_model.specs.Document.{has_only, is_partition_name, is_port, port_of};
ghost use Rattle.table_model.specs.Reading.{and_also, lesser, name_from, name_read, text_read, itself, checked, port_from, port_read, number_within, number_read};
ghost use Rattle.config_table.specs.Gives.{also};

use apex_types::Name;
use table_model::{TableError, WrittenPort};
use toml::Value;

/// Of two refusals the one that counts.
pub fn lesser(a: TableError, b: TableError) -> TableError
    ensures { result ≡ lesser a b }
{
    if a.order() <= b.order() { a } else { b }
}

/// The refusal that counts, with one more.
pub fn also(so_far: Option<TableError>, error: TableError) -> Option<TableError>
    ensures { result ≡ Some (also so_far error) }
{
    match so_far {
        Some(first) => Some(lesser(first, error)),
        None => Some(error),
    }
}

/// Two parts that were read, or the refusal that counts.
pub fn and_also<A: Drop, B: Drop>(
    a: Result<A, TableError>,
    b: Result<B, TableError>,
) -> Result<(A, B), TableError>
    ensures { result ≡ and_also a b }
{
    match (a, b) {
        (Ok(a), Ok(b)) => Ok((a, b)),
        (Ok(_), Err(g)) => Err(g),
        (Err(f), Ok(_)) => Err(f),
        (Err(f), Err(g)) => Err(lesser(f, g)),
    }
}

/// Whether a key is among these.
fn is_among(key: &str, known: &[&str]) -> bool
    ensures { result ≡ list_any (λ k. bytes_eq key.now k) (map (λ k. k.now) known.now) }
{
    known.iter().any(|k| key == *k)
}

/// Whether each key of a table is among these.
pub fn has_only(table: &toml::Table, known: &[&str]) -> bool
    ensures { result ≡ has_only (map (λ k. k.now) known.now) (table_view table.now) }
{
    table.keys().all(|key| is_among(key.as_str(), known))
}

/// The value at a key.
pub fn value_at<'a>(table: &'a toml::Table, key: &str) -> Option<&'a Value>
    ensures { option_map (λ v. view v.now) result ≡ get_member key.now (table_view table.now) }
{
    table.get(key)
}

/// The name that a value is.
pub fn name_from(value: &Value) -> Result<Name, TableError>
    ensures { result ≡ name_from (view value.now) }
{
    match value.as_str() {
        None => Err(TableError::WrongKind),
        Some(text) => match Name::read_in_table(text.as_bytes()) {
            Some(name) => Ok(name),
            None => Err(TableError::BadName),
        },
    }
}

/// The name at a key.
pub fn name_read(table: &toml::Table, key: &str) -> Result<Name, TableError>
    ensures { result ≡ name_read key.now (table_view table.now) }
{
    match value_at(table, key) {
        None => Err(TableError::MissingKey),
        Some(value) => name_from(value),
    }
}

/// The name of a partition that a text is, which isn't `TICK`.
fn partition_name_of(text: &str) -> Result<Name, TableError>
    ensures { result ≡ checked is_partition_name itself text.now }
{
    match Name::read_in_table(text.as_bytes()) {
        None => Err(TableError::BadName),
        Some(name) => {
            if name.bytes() == b"TICK".as_slice() {
                return Err(TableError::BadName);
            }
            Ok(name)
        }
    }
}

/// The name of a partition at a key.
pub fn partition_name_read(table: &toml::Table, key: &str) -> Result<Name, TableError>
    ensures { result ≡ text_read is_partition_name itself key.now (table_view table.now) }
{
    match value_at(table, key) {
        None => Err(TableError::MissingKey),
        Some(value) => match value.as_str() {
            None => Err(TableError::WrongKind),
            Some(text) => partition_name_of(text),
        },
    }
}

/// The port that a text names, by the names round its colon.
fn port_of(text: &str) -> Result<WrittenPort, TableError>
    ensures { result ≡ checked is_port port_of text.now }
{
    let Some((partition, port)) = text.split_once(':') else {
        return Err(TableError::BadName);
    };
    let Some(partition) = Name::read_in_table(partition.as_bytes()) else {
        return Err(TableError::BadName);
    };
    let Some(port) = Name::read_in_table(port.as_bytes()) else {
        return Err(TableError::BadName);
    };
    Ok(WrittenPort { partition, port })
}

/// The port that a value names.
pub fn port_from(value: &Value) -> Result<WrittenPort, TableError>
    ensures { result ≡ port_from (view value.now) }
{
    match value.as_str() {
        None => Err(TableError::WrongKind),
        Some(text) => port_of(text),
    }
}

/// The port at a key.
pub fn port_read(table: &toml::Table, key: &str) -> Result<WrittenPort, TableError>
    ensures { result ≡ port_read key.now (table_view table.now) }
{
    match value_at(table, key) {
        None => Err(TableError::MissingKey),
        Some(value) => port_from(value),
    }
}

/// A number of these bounds.
fn number_within(lowest: u32, highest: u32, number: i64) -> Result<u32, TableError>
    ensures value { result ≡ number_within lowest highest number }
    ensures few { IfOk result (λ n. n ≤ highest) }
{
    if number < lowest as i64 || number > highest as i64 {
        return Err(TableError::OutOfRange);
    }
    Ok(number as u32)
}

/// The number at a key, within these bounds.
pub fn number_read(
    table: &toml::Table,
    key: &str,
    lowest: u32,
    highest: u32,
) -> Result<u32, TableError>
    ensures value { result ≡ number_read key.now lowest highest (table_view table.now) }
    ensures few { IfOk result (λ n. n ≤ highest) }
{
    match value_at(table, key) {
        None => Err(TableError::MissingKey),
        Some(value) => match value.as_integer() {
            None => Err(TableError::WrongKind),
            Some(number) => number_within(lowest, highest, number),
        },
    }
}

/// The same of two bytes.
pub fn short_read(
    table: &toml::Table,
    key: &str,
    lowest: u16,
    highest: u16,
) -> Result<u16, TableError>
    ensures { result ≡ number_read key.now lowest highest (table_view table.now) }
{
    let number = number_read(table, key, lowest as u32, highest as u32)?;
    Ok(number as u16)
}

/// The same of one byte.
pub fn byte_read(table: &toml::Table, key: &str, lowest: u8, highest: u8) -> Result<u8, TableError>
    ensures { result ≡ number_read key.now lowest highest (table_view table.now) }
{
    let number = number_read(table, key, lowest as u32, highest as u32)?;
    Ok(number as u8)
}
