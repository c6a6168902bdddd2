//! What the text of a script says: from its calls to its text, and from its text to its calls or its first fault.
//! Nothing runs here: each function's contract is a law.
#![tactic(auto)]

ghost use Rattle.std.specs.Prelude.{◌≡◌, ◌↔◌, ℕ, List, Ok};
ghost use Rattle.std.specs.List.{AllByRecursion};
ghost use Rattle.apex_types.specs.Rows.{Rows};
ghost use Rattle.apex_model.specs.Accepted.{IsAccepted};
ghost use Rattle.apex_model.specs.Lines.{IsLineOf};
ghost use Rattle.script_model.specs.Spelling.{Spells, HasNames, IsReady};
ghost use Rattle.script_model.specs.Reading.{deed_at};
ghost use Rattle.script_model.specs.Script.{script_of, SpellsScript};
ghost use Rattle.script_model.specs.Faults.{FirstFault, line_fails};

mod faults;
mod verbs;

use apex_types::{Deed, Line};
pub use faults::LineFault;
pub use verbs::{DirectoryVerb, FileVerb, LogbookVerb, SamplingVerb, Verb};

/// A text spells at most one line of a table.
pub fn a_text_spells_one_line()
    ensures { (rows : Rows) (text : List ℕ) (d e : Deed) → HasNames rows → Spells rows text d → Spells rows text e → d ≡ e }
{}

/// A text is read as what it spells.
pub fn a_text_is_read_as_it_spells()
    ensures { (rows : Rows) (text : List ℕ) (d : Deed) → HasNames rows → (deed_at rows text ≡ Ok d) ↔ Spells rows text d }
{}

/// A script is read as the lines that it spells.
pub fn a_script_is_read_as_it_spells()
    ensures { (rows : Rows) (bytes : List ℕ) (lines : List Line) → HasNames rows → (script_of rows bytes ≡ Ok lines) ↔ SpellsScript rows bytes lines }
{}

/// The lines that a script spells are lines of the table.
pub fn a_script_spells_lines_of_the_table()
    ensures { (rows : Rows) (bytes : List ℕ) (lines : List Line) → SpellsScript rows bytes lines → AllByRecursion (IsLineOf rows) lines }
{}

/// A line is read where no condition holds of it; else it is refused for the first condition that holds.
pub fn a_line_is_refused_for_its_first_condition()
    ensures { (rows : Rows) (text : List ℕ) → FirstFault 2 (deed_at rows text) (λ n. line_fails rows n text) }
{}

/// An accepted table is one that a script can use.
pub fn an_accepted_table_is_ready()
    ensures { (rows : Rows) → IsAccepted rows → IsReady rows }
{}
