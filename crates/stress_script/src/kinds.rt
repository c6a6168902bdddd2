//! The kinds of lines that are drawn.

ghost use Rattle.std.specs.Prelude.{◌≡◌, ◌<◌, ℕ, length, IfOk};
ghost use Rattle.apex_model.specs.Accepted.{IsAccepted};
ghost use Rattle.stress_script.specs.Generator.{file_deed, logbook_deed, draw_path, draw_kind, tick, open_new_file, open_file, write_file, read_file, sync_file, close_file, remove_file, create_logbook, write_logbook};

use crate::draws::Draws;
use crate::own::{logbook_name, tree_path};
use apex_types::{
    Call, Deed, FileCall, LogbookCall, OpenMode, OutOfMemory, PartitionId, Table, Token,
};
use std::alloc::Global;

fn file_deed(p: PartitionId, call: FileCall) -> Deed
    ensures { result ≡ file_deed p.0 call }
{
    Deed::Partition {
        p,
        call: Call::File(call),
    }
}

fn logbook_deed(p: PartitionId, call: LogbookCall) -> Deed
    ensures { result ≡ logbook_deed p.0 call }
{
    Deed::Partition {
        p,
        call: Call::Logbook(call),
    }
}

/// The path of one of eight files in the first tree of a partition. Where it owns none, nothing is drawn.
#[tactic(auto, unfolding(crate::specs::Generator::draw_path))]
fn draw_path(
    alloc: Global,
    table: &Table,
    p: PartitionId,
    draws: &mut Draws,
) -> Result<Option<Token>, OutOfMemory>
    requires accepted { IsAccepted table.now }
    requires known { p.0 < length table.now.partitions }
    ensures { IfOk result (λ path. draw_path table.now p.0 draws.old ≡ (path, draws.new)) }
{
    let Some(mut path) = tree_path(alloc, table, p)? else {
        return Ok(None);
    };
    let k = draws.below(8) as u8;
    path.extend(b"/F")?;
    path.push(b'0' + k)?;
    let token = Token::read(alloc, path.bytes())?;
    Ok(Some(token))
}

#[tactic(auto, unfolding(crate::specs::Generator::tick))]
fn tick(draws: &mut Draws) -> Deed
    ensures { tick draws.old ≡ (result, draws.new) }
{
    Deed::Tick(draws.one_to(10))
}

#[tactic(auto, unfolding(crate::specs::Generator::open_new_file))]
fn open_new_file(
    alloc: Global,
    table: &Table,
    p: PartitionId,
    draws: &mut Draws,
) -> Result<Deed, OutOfMemory>
    requires accepted { IsAccepted table.now }
    requires known { p.0 < length table.now.partitions }
    ensures { IfOk result (λ deed. open_new_file table.now p.0 draws.old ≡ (deed, draws.new)) }
{
    match draw_path(alloc, table, p, draws)? {
        Some(path) => Ok(file_deed(p, FileCall::OpenNewFile { path })),
        None => Ok(Deed::Tick(1)),
    }
}

#[tactic(auto, unfolding(crate::specs::Generator::open_file))]
fn open_file(
    alloc: Global,
    table: &Table,
    p: PartitionId,
    draws: &mut Draws,
) -> Result<Deed, OutOfMemory>
    requires accepted { IsAccepted table.now }
    requires known { p.0 < length table.now.partitions }
    ensures { IfOk result (λ deed. open_file table.now p.0 draws.old ≡ (deed, draws.new)) }
{
    let mode = OpenMode::ReadWrite;
    match draw_path(alloc, table, p, draws)? {
        Some(path) => Ok(file_deed(p, FileCall::OpenFile { path, mode })),
        None => Ok(Deed::Tick(1)),
    }
}

#[tactic(auto, unfolding(crate::specs::Generator::write_file))]
fn write_file(alloc: Global, p: PartitionId, draws: &mut Draws) -> Result<Deed, OutOfMemory>
    ensures { IfOk result (λ deed. write_file p.0 draws.old ≡ (deed, draws.new)) }
{
    let id = draws.one_to(4);
    let bytes = draws.data(alloc, 64)?;
    Ok(file_deed(p, FileCall::WriteFile { id, bytes }))
}

#[tactic(auto, unfolding(crate::specs::Generator::read_file))]
fn read_file(p: PartitionId, draws: &mut Draws) -> Deed
    ensures { read_file p.0 draws.old ≡ (result, draws.new) }
{
    let id = draws.one_to(4);
    let length = draws.one_to(4096);
    file_deed(p, FileCall::ReadFile { id, length })
}

#[tactic(auto, unfolding(crate::specs::Generator::sync_file))]
fn sync_file(p: PartitionId, draws: &mut Draws) -> Deed
    ensures { sync_file p.0 draws.old ≡ (result, draws.new) }
{
    let id = draws.one_to(4);
    file_deed(p, FileCall::SyncFile { id })
}

#[tactic(auto, unfolding(crate::specs::Generator::close_file))]
fn close_file(p: PartitionId, draws: &mut Draws) -> Deed
    ensures { close_file p.0 draws.old ≡ (result, draws.new) }
{
    let id = draws.one_to(4);
    file_deed(p, FileCall::CloseFile { id })
}

#[tactic(auto, unfolding(crate::specs::Generator::remove_file))]
fn remove_file(
    alloc: Global,
    table: &Table,
    p: PartitionId,
    draws: &mut Draws,
) -> Result<Deed, OutOfMemory>
    requires accepted { IsAccepted table.now }
    requires known { p.0 < length table.now.partitions }
    ensures { IfOk result (λ deed. remove_file table.now p.0 draws.old ≡ (deed, draws.new)) }
{
    match draw_path(alloc, table, p, draws)? {
        Some(path) => Ok(file_deed(p, FileCall::RemoveFile { path })),
        None => Ok(Deed::Tick(1)),
    }
}

/// Creates the first logbook of a partition. Nothing is drawn for it.
#[tactic(auto, unfolding(crate::specs::Generator::create_logbook))]
fn create_logbook(alloc: Global, table: &Table, p: PartitionId) -> Result<Deed, OutOfMemory>
    ensures { IfOk result (λ deed. (x : ℕ) → create_logbook table.now p.0 x ≡ (deed, x)) }
{
    match logbook_name(alloc, table, p)? {
        Some(name) => Ok(logbook_deed(p, LogbookCall::Create { name })),
        None => Ok(Deed::Tick(1)),
    }
}

#[tactic(auto, unfolding(crate::specs::Generator::write_logbook))]
fn write_logbook(alloc: Global, p: PartitionId, draws: &mut Draws) -> Result<Deed, OutOfMemory>
    ensures { IfOk result (λ deed. write_logbook p.0 draws.old ≡ (deed, draws.new)) }
{
    let bytes = draws.data(alloc, 16)?;
    Ok(logbook_deed(p, LogbookCall::Write { id: 1, bytes }))
}

/// What a line of a kind asks for.
#[tactic(auto, unfolding(crate::specs::Generator::draw_kind))]
pub fn draw_kind(
    alloc: Global,
    table: &Table,
    p: PartitionId,
    kind: u32,
    draws: &mut Draws,
) -> Result<Deed, OutOfMemory>
    requires accepted { IsAccepted table.now }
    requires known { p.0 < length table.now.partitions }
    ensures { IfOk result (λ deed. draw_kind table.now p.0 kind draws.old ≡ (deed, draws.new)) }
{
    match kind {
        0 => Ok(tick(draws)),
        1 => open_new_file(alloc, table, p, draws),
        2 => open_file(alloc, table, p, draws),
        3 => write_file(alloc, p, draws),
        4 => Ok(read_file(p, draws)),
        5 => Ok(sync_file(p, draws)),
        6 => Ok(close_file(p, draws)),
        7 => remove_file(alloc, table, p, draws),
        8 => create_logbook(alloc, table, p),
        _ => write_logbook(alloc, p, draws),
    }
}
