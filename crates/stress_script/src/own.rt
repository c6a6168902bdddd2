//! What a partition has: its first tree and its first logbook.

ghost use Rattle.std.specs.Prelude.{◌≡◌, ◌<◌, ◌++◌, length, codes, option_map, IfOk, IfSome, OnOk};
ghost use Rattle.apex_model.specs.Accepted.{IsAccepted};
ghost use Rattle.stress_script.specs.Generator.{first_tree, tree_path, logbook_name};

use apex_types::{ByteList, OutOfMemory, PartitionId, Table, Token, TreeRow};
use std::alloc::Global;

/// The first tree in table order that a partition owns.
fn first_tree(table: &Table, p: PartitionId) -> Option<&TreeRow>
    requires { IsAccepted table.now }
    ensures found { option_map (λ row. row.now) result ≡ first_tree table.now p.0 }
    ensures known { IfSome result (λ row. row.now.volume < length table.now.volumes) }
{
    table.trees().iter().find(|row| row.owner.0 == p.0)
}

/// Adds a name to a path.
fn put_name(path: &mut ByteList, name: &[u8]) -> Result<(), OutOfMemory>
    ensures { OnOk result (path.new ≡ path.old ++ codes "/" ++ name.now) }
{
    path.push(b'/')?;
    path.extend(name)?;
    Ok(())
}

/// The path of the first tree that a partition owns.
#[tactic(auto, unfolding(crate::specs::Generator::tree_path))]
pub fn tree_path(
    alloc: Global,
    table: &Table,
    p: PartitionId,
) -> Result<Option<ByteList>, OutOfMemory>
    requires accepted { IsAccepted table.now }
    requires known { p.0 < length table.now.partitions }
    ensures { IfOk result (λ path. path ≡ tree_path table.now p.0) }
{
    let Some(tree) = first_tree(table, p) else {
        return Ok(None);
    };
    let mut path = ByteList::new(alloc);
    put_name(
        &mut path,
        table.volumes()[tree.volume as usize].name.bytes(),
    )?;
    put_name(&mut path, table.partitions()[p.0 as usize].name.bytes())?;
    Ok(Some(path))
}

/// The name of a partition's first logbook.
#[tactic(auto, unfolding(crate::specs::Generator::logbook_name))]
pub fn logbook_name(
    alloc: Global,
    table: &Table,
    p: PartitionId,
) -> Result<Option<Token>, OutOfMemory>
    ensures { IfOk result (λ name. name ≡ logbook_name table.now p.0) }
{
    match table.logbooks().iter().find(|row| row.partition.0 == p.0) {
        Some(row) => Ok(Some(Token::read(alloc, row.name.bytes())?)),
        None => Ok(None),
    }
}
