// Which logbooks are created.
ghost use Rattle.std.specs.Prelude.{◌≡◌, ◌<◌, ◌==◌, ◌&&◌, not, List, ℕ, length, replicate, false, true, IfOk, slice_set, slice_index_or};
ghost use Rattle.apex_model.specs.Logbooks.{LogbookSystem};
ghost use Rattle.apex_model.specs.World.{marks_without};
ghost use Rattle.logbook_store.specs.declared.book.Book.{Book};
ghost use Rattle.logbook_services.specs.Standing.{Stands, IsOfTable, IsServing, none_made, marks_forgotten, forgotten};

use apex_types::{LogbookRow, OutOfMemory, PartitionId, Table};
use std::alloc::Global;
use std::marker::Model;

/// Which logbooks of a table were created since the last restart of their partition.
#[derive(Drop)]
pub struct MadeMarks {
    content: Vec<bool>,
}

impl Model for MadeMarks {
    ghost use Rattle.std.specs.Prelude.{Bool, List};

    ghost Value = { List Bool };

    ghost view = { λ m. m.content.items };
}

/// A logbook's mark, or none where the logbook is this partition's.
fn mark_without(row: &LogbookRow, p: PartitionId, mark: bool) -> bool
    ensures { result ≡ not (row.now.partition.0 == p.0) && mark }
{
    if row.partition == p {
        return false;
    }
    mark
}

/// Takes back the marks of a partition's logbooks.
fn forget(rows: &[LogbookRow], marks: &mut [bool], p: PartitionId)
    requires { length marks.old ≡ length rows.now }
    ensures { marks.new ≡ marks_without (λ row. row.partition.0) p.0 rows.now marks.old }
{
    for (k, mark) in marks.iter_mut().enumerate() {
        *mark = mark_without(&rows[k], p, *mark);
    }
}

/// So many marks, none of which is set.
fn unset_marks(alloc: Global, count: usize) -> Result<Vec<bool>, OutOfMemory>
    ensures { IfOk result (λ marks. marks.items ≡ replicate count false) }
{
    let mut marks = Vec::new(alloc);
    for _ in 0..count {
        marks.push(false)?;
    }
    Ok(marks)
}

impl MadeMarks {
    /// None of a table's logbooks is created. It takes all memory that is needed, and `OutOfMemory` says that it isn't
    /// there; no later call takes any.
    pub fn new(alloc: Global, table: &Table) -> Result<MadeMarks, OutOfMemory>
        ensures { IfOk result (λ made. made ≡ none_made table.now) }
    {
        let content = unset_marks(alloc, table.logbooks().len())?;
        Ok(MadeMarks { content })
    }

    /// Forgets which logbooks a partition created. The marks of the others stay.
    pub fn restart(&mut self, table: &Table, p: PartitionId)
        requires { length self.old ≡ length table.now.logbooks }
        ensures marks { self.new ≡ marks_forgotten table.now p.0 self.old }
        ensures of_table { (logs : List Book) → IsOfTable table.now logs self.old → IsOfTable table.now logs self.new }
        ensures state { (logs : List Book) (image : List ℕ) (system : LogbookSystem) → Stands table.now logs self.old image system → Stands table.now logs self.new image (forgotten table.now p.0 system) }
        ensures valid { (logs : List Book) (image : List ℕ) → IsServing table.now logs self.old image → IsServing table.now logs self.new image }
    {
        self.forget_made(table, p);
    }

    fn forget_made(&mut self, table: &Table, p: PartitionId)
        requires { length self.old ≡ length table.now.logbooks }
        ensures { self.new ≡ marks_forgotten table.now p.0 self.old }
    {
        forget(table.logbooks(), &mut self.content, p);
    }

    /// Whether the logbook of a number is created.
    pub fn is_made(&self, k: usize) -> bool
        requires { k < length self.now }
        ensures { result ≡ slice_index_or self.now k false }
    {
        self.content[k]
    }

    /// Marks the logbook of a number as created.
    pub(crate) fn make(&mut self, k: usize)
        requires { k < length self.old }
        ensures { self.new ≡ slice_set self.old k true }
    {
        self.content[k] = true;
    }
}
