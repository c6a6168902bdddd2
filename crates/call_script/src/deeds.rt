//! What a line asks for.

ghost use Rattle.std.specs.Prelude.{◌≡◌, ◌≤◌, map, length, option_map, IfSome, ◌<◌};
ghost use Rattle.std.specs.List.{list_all};
ghost use Rattle.script_model.specs.Reading.{is_printable, one, call_at, ticks_at, partition_at, deed_from_words, deed_at};
ghost use Rattle.apex_types.specs.declared.calls.Deed.{Deed};
ghost use Rattle.call_script.specs.Gives.{Gives};

use crate::arguments::{number, one};
use crate::calls::{arguments_of, verb};
use crate::words::words_of;
use apex_types::{Call, Deed, PartitionId, Table};
use script_model::LineFault;
use std::alloc::Global;

/// A number of ticks.
fn ticks(word: &[u8]) -> Result<u32, LineFault>
    ensures { result ≡ ticks_at word.now }
{
    let ticks = number(word)?;
    if ticks < 1 || ticks > 100_000 {
        return Err(LineFault::BadNumber);
    }
    Ok(ticks)
}

/// The call or directive of some words, the first of which names it.
#[tactic(auto, unfolding(script_model::specs::Reading::call_at))]
fn call_of(alloc: Global, words: &[&[u8]]) -> Result<Call, LineFault>
    ensures { Gives (λ c. c) result (call_at (map (λ w. w.now) words.now)) }
{
    match words {
        [] => Err(LineFault::UnknownCall),
        [word, arguments @ ..] => match verb(word) {
            Some(verb) => arguments_of(alloc, verb, arguments),
            None => Err(LineFault::UnknownCall),
        },
    }
}

/// The place of the partition of a name.
fn place_of(table: &Table, word: &[u8]) -> Option<usize>
    ensures value { result ≡ partition_at table.now word.now }
    ensures within { IfSome result (λ place. place < length table.now.partitions) }
{
    table
        .partitions()
        .iter()
        .position(|row| row.name.bytes() == word)
}

/// The partition of a name, as scripts name it: none where no partition of the table has the name.
pub fn partition_named(table: &Table, name: &[u8]) -> Option<PartitionId>
    requires { length table.now.partitions ≤ 16 }
    ensures value { option_map (λ p. p.0) result ≡ partition_at table.now name.now }
    ensures within { IfSome result (λ p. p.0 < length table.now.partitions) }
{
    match place_of(table, name) {
        Some(place) => Some(PartitionId(place as u8)),
        None => None,
    }
}

/// A tick by its argument.
fn tick(arguments: &[&[u8]]) -> Result<Deed, LineFault>
    ensures { Gives (λ d. d) result (one ticks_at Deed.Tick (map (λ w. w.now) arguments.now)) }
{
    let word = one(arguments)?;
    let ticks = ticks(word)?;
    Ok(Deed::Tick(ticks))
}

/// What the words of a line ask for.
#[tactic(auto, unfolding(script_model::specs::Reading::deed_from_words))]
fn deed_from_words(alloc: Global, table: &Table, words: &[&[u8]]) -> Result<Deed, LineFault>
    requires { length table.now.partitions ≤ 16 }
    ensures { Gives (λ d. d) result (deed_from_words table.now (map (λ w. w.now) words.now)) }
{
    match words {
        [] => Err(LineFault::UnknownPartition),
        [word, rest @ ..] => {
            if *word == b"TICK".as_slice() {
                return tick(rest);
            }
            match partition_named(table, word) {
                Some(p) => {
                    let call = call_of(alloc, rest)?;
                    Ok(Deed::Partition { p, call })
                }
                None => Err(LineFault::UnknownPartition),
            }
        }
    }
}

/// Whether these are printable ASCII alone.
fn are_printable(text: &[u8]) -> bool
    ensures { result ≡ list_all is_printable text.now }
{
    text.iter().all(|b| *b >= 32 && *b <= 126)
}

/// What a line asks for.
#[tactic(auto, unfolding(script_model::specs::Reading::deed_at))]
pub fn deed_of(alloc: Global, table: &Table, text: &[u8]) -> Result<Deed, LineFault>
    requires { length table.now.partitions ≤ 16 }
    ensures { Gives (λ d. d) result (deed_at table.now text.now) }
{
    if !are_printable(text) {
        return Err(LineFault::NotAscii);
    }
    match words_of(alloc, text) {
        Ok(words) => deed_from_words(alloc, table, &words),
        Err(_) => Err(LineFault::OutOfMemory),
    }
}
