//! The lines of a script.

ghost use Rattle.std.specs.Prelude.{◌≡◌, ◌≤◌, ◌<◌, ◌++◌, [], ◌∷◌, length, filter, slice_get, Some, OnOk, OnErr};
ghost use Rattle.apex_model.specs.Isolation.{is_marked, concerns};
ghost use Rattle.script_model.specs.Numbering.{last_number};

use apex_types::{Deed, Line, OutOfMemory, PartitionId};
use std::alloc::Global;
use std::marker::Model;

/// The lines of a script that are calls, directives or ticks. Their numbers rise, and lie from 1 to 20,000.
#[derive(Drop)]
pub struct Script {
    content: Vec<Line>,
}

impl Model for Script {
    ghost use Rattle.std.specs.Prelude.{List};
    ghost use Rattle.apex_types.specs.declared.calls.Line.{Line};
    ghost use Rattle.script_model.specs.Numbering.{AreNumbered};

    ghost Value = { List Line };

    ghost view = { λ s. s.content.items };

    ghost invariant = { λ s. AreNumbered s.content.items };
}

/// Whether a partition is marked. One behind the end of the marks is not.
fn is_marked(marked: &[bool], p: PartitionId) -> bool
    ensures { result ≡ is_marked marked.now p.0 }
{
    match marked.get(p.0 as usize) {
        Some(mark) => *mark,
        None => false,
    }
}

/// Whether it is a tick, or of a marked partition.
fn concerns(marked: &[bool], deed: &Deed) -> bool
    ensures { result ≡ concerns marked.now deed.now }
{
    match deed {
        Deed::Tick(_) => true,
        Deed::Partition { p, .. } => is_marked(marked, *p),
    }
}

impl Script {
    ghost use Rattle.script_model.specs.Numbering.{AreNumbered};

    /// A script without lines.
    pub fn new(alloc: Global) -> Script
        ensures { result ≡ [] }
    {
        Script {
            content: Vec::new(alloc),
        }
    }

    /// Adds a line at the end. Without memory the script is as it was.
    pub fn push(&mut self, line: Line) -> Result<(), OutOfMemory>
        requires above { last_number self.old < line.number }
        requires few { line.number ≤ 20000 }
        ensures ok { OnOk result (self.new ≡ self.old ++ line ∷ []) }
        ensures last { OnOk result (last_number self.new ≡ line.number) }
        ensures err { OnErr result (self.new ≡ self.old) }
    {
        let _content = &self.content;
        self.content.push(line)?;
        Ok(())
    }

    /// The number of lines.
    pub fn len(&self) -> u32
        ensures value { result ≡ length self.now }
        ensures few { length self.now ≤ 20000 }
        ensures numbered { AreNumbered self.now }
    {
        let _content = &self.content;
        self.content.len() as u32
    }

    /// The line at place `k`, counted from 0.
    pub fn line(&self, k: u32) -> &Line
        requires { k < length self.now }
        ensures value { slice_get self.now k ≡ Some result.now }
        ensures from_one { 1 ≤ result.now.number }
        ensures few { result.now.number ≤ 20000 }
    {
        let _content = &self.content;
        &self.content[k as usize]
    }

    /// Keeps the ticks and the lines of marked partitions, in their order. It takes no memory.
    pub fn of_partitions(mut self, marked: &[bool]) -> Script
        ensures { result ≡ filter (λ line. concerns marked.now line.deed) self }
    {
        self.content.retain(|line| concerns(marked, &line.deed));
        self
    }
}
