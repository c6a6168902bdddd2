//! The lines that a seed makes.

ghost use Rattle.std.specs.Prelude.{◌≡◌, ◌≤◌, IfOk};
ghost use Rattle.std.specs.List.{AllByRecursion};
ghost use Rattle.apex_model.specs.Accepted.{IsAccepted};
ghost use Rattle.apex_model.specs.Lines.{IsLineOf};
ghost use Rattle.stress_script.specs.Generator.{draw_deed, generated};

use crate::draws::Draws;
use crate::kinds::draw_kind;
use apex_types::{Deed, Line, OutOfMemory, PartitionId, Table};
use call_script::Script;
use std::alloc::Global;

/// What the next line asks for.
#[tactic(auto, unfolding(crate::specs::Generator::draw_deed))]
fn draw_deed(alloc: Global, table: &Table, draws: &mut Draws) -> Result<Deed, OutOfMemory>
    requires { IsAccepted table.now }
    ensures { IfOk result (λ deed. draw_deed table.now draws.old ≡ (deed, draws.new)) }
{
    let p = draws.below(table.partitions().len() as u32);
    let kind = draws.below(10);
    draw_kind(alloc, table, PartitionId(p as u8), kind, draws)
}

/// A load of script lines that anyone can repeat: drawn from a seed, for the partitions of a table. Each line is a
/// tick or one of nine kinds of calls. Where memory runs out, `OutOfMemory`. This project's own.
pub fn generate(alloc: Global, seed: u32, lines: u32, table: &Table) -> Result<Script, OutOfMemory>
    requires accepted { IsAccepted table.now }
    requires few { lines ≤ 20000 }
    ensures drawn { IfOk result (λ script. script ≡ generated table.now seed lines) }
    ensures of_table { IfOk result (λ script. AllByRecursion (IsLineOf table.now) script) }
{
    let mut draws = Draws::new(seed);
    let mut script = Script::new(alloc);
    for before in 0..lines {
        let deed = draw_deed(alloc, table, &mut draws)?;
        let number = before + 1;
        script.push(Line { number, deed })?;
    }
    Ok(script)
}
