//! Scripts, from their text.

ghost use Rattle.std.specs.Prelude.{◌≡◌, ◌≤◌, ◌<◌, ◌++◌, ◌==◌, map, length, count_by, option_to_list, IfOk, IfErr, IfSome, OnOk, List, Ok, Err, ◌⊎◌};
ghost use Rattle.std.specs.List.{AllByRecursion};
ghost use Rattle.apex_model.specs.Lines.{IsLineOf};
ghost use Rattle.script_model.specs.Numbering.{last_number};
ghost use Rattle.script_model.specs.Script.{without_last, line_parts, is_skipped, line_at, lines_from, script_of, SpellsScript};
ghost use Rattle.script_model.specs.Spelling.{IsReady};
ghost use Rattle.call_script.specs.Errors.{refusal_of};
ghost use Rattle.call_script.specs.Gives.{GivesAtLine};

use crate::deeds::deed_of;
use crate::errors::ScriptError;
use crate::script::Script;
use crate::words::parts_of;
use apex_types::{Line, OutOfMemory, Table};
use std::alloc::{AllocError, Global};

/// The bytes without one `b` at their end.
fn without_last(b: u8, bytes: &[u8]) -> &[u8]
    ensures { result.now ≡ without_last b bytes.now }
{
    match bytes {
        [front @ .., last] => if *last == b { front } else { bytes },
        [] => bytes,
    }
}

/// Whether a line is blank or a comment.
fn is_skipped(text: &[u8]) -> bool
    ensures { result ≡ is_skipped text.now }
{
    match text {
        [] => true,
        [b, ..] => *b == b'#',
    }
}

/// The line of a text, or none where it is skipped.
fn line_of(
    alloc: Global,
    table: &Table,
    number: u32,
    text: &[u8],
) -> Result<Option<Line>, ScriptError>
    requires { length table.now.partitions ≤ 16 }
    ensures value { GivesAtLine (λ l. l) result (line_at table.now number text.now) }
    ensures numbered { IfOk result (λ l. IfSome l (λ line. line.number ≡ number)) }
{
    if is_skipped(text) {
        return Ok(None);
    }
    match deed_of(alloc, table, text) {
        Ok(deed) => Ok(Some(Line { number, deed })),
        Err(fault) => Err(ScriptError::at(fault, number)),
    }
}

/// How many line feeds there are.
fn count_feeds(bytes: &[u8]) -> usize
    ensures value { result ≡ count_by (λ b. b == 10) bytes.now }
    ensures few { result ≤ length bytes.now }
{
    bytes.iter().filter(|b| **b == b'\n').count()
}

/// How many lines a script has, the last line feed of which ends a line and begins none.
fn count_lines(bytes: &[u8]) -> usize
    requires { length bytes.now ≤ 1048576 }
    ensures { result ≡ length (line_parts bytes.now) }
{
    if bytes.is_empty() {
        return 0;
    }
    count_feeds(without_last(b'\n', bytes)) + 1
}

/// The texts between the line feeds of a script.
fn line_parts(alloc: Global, bytes: &[u8]) -> Result<Vec<&[u8]>, AllocError>
    ensures { IfOk result (λ parts. map (λ w. w.now) parts.items ≡ line_parts bytes.now) }
{
    if bytes.is_empty() {
        return Ok(Vec::new(alloc));
    }
    parts_of(alloc, b'\n', without_last(b'\n', bytes))
}

/// Adds the line of a text that was not skipped.
fn add(script: &mut Script, line: Option<Line>) -> Result<(), OutOfMemory>
    requires above { IfSome line (λ l. last_number script.old < l.number) }
    requires few { IfSome line (λ l. l.number ≤ 20000) }
    ensures { OnOk result (script.new ≡ script.old ++ option_to_list line) }
{
    match line {
        Some(line) => script.push(line),
        None => Ok(()),
    }
}

/// The lines of some texts, numbered from 1.
fn lines_of(alloc: Global, table: &Table, parts: &[&[u8]]) -> Result<Script, ScriptError>
    requires partitions { length table.now.partitions ≤ 16 }
    requires few { length parts.now ≤ 20000 }
    ensures { GivesAtLine (λ s. s) result (lines_from table.now 1 (map (without_last 13) (map (λ w. w.now) parts.now))) }
{
    let mut script = Script::new(alloc);
    for (place, part) in parts.iter().enumerate() {
        let text = without_last(b'\r', part);
        let line = line_of(alloc, table, place as u32 + 1, text)?;
        if add(&mut script, line).is_err() {
            return Err(ScriptError::OutOfMemory);
        }
    }
    Ok(script)
}

/// The lines of a script with their numbers, or the first error.
fn read_script(alloc: Global, bytes: &[u8], table: &Table) -> Result<Script, ScriptError>
    requires { length table.now.partitions ≤ 16 }
    ensures { GivesAtLine (λ s. s) result (script_of table.now bytes.now) }
{
    if bytes.len() > 1_048_576 || count_lines(bytes) > 20_000 {
        return Err(ScriptError::TooLong);
    }
    match line_parts(alloc, bytes) {
        Ok(parts) => lines_of(alloc, table, &parts),
        Err(_) => Err(ScriptError::OutOfMemory),
    }
}

/// The lines of a script with their numbers, or the first error: a script that is too long comes before all lines,
/// then the first line at fault counts, and in it the first condition in the order of the errors. A line that is
/// empty or begins with `#` counts as a line and is skipped. Where memory runs out, `OutOfMemory`. This project's own.
pub fn parse_script(alloc: Global, bytes: &[u8], table: &Table) -> Result<Script, ScriptError>
    requires { IsReady table.now }
    ensures spelled { IfOk result (λ lines. SpellsScript table.now bytes.now lines) }
    ensures read { IfOk result (λ lines. script_of table.now bytes.now ≡ Ok lines) }
    ensures refused { IfErr result (λ e. (e ≡ ScriptError.OutOfMemory) ⊎ (script_of table.now bytes.now ≡ Err (refusal_of e))) }
    // What the script spells is read, unless memory runs out.
    ensures all { (lines : List Line) → SpellsScript table.now bytes.now lines → (result ≡ Ok lines) ⊎ (result ≡ Err ScriptError.OutOfMemory) }
    ensures of_table { IfOk result (λ s. AllByRecursion (IsLineOf table.now) s) }
{
    read_script(alloc, bytes, table)
}
