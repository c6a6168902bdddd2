//! More laws of the model's definitions: valid states stay valid, refused calls change nothing, a
//! partition's replies depend on its upstream alone, and the text of a run tells what it is to tell.
#![tactic(auto)]

ghost use Rattle.apex_model.specs.Laws.{StepKeepsValid, CutKeepsValid, RepliesDependOnUpstream};
ghost use Rattle.model_laws.specs.Laws.{FileRefusalChangesNothing, DirectoryRefusalChangesNothing, FileCallKeepsValid, DirectoryCallKeepsValid};
ghost use Rattle.model_laws.specs.ReplyLines.{RepliesHaveNoFeed, NoReplyEndsRun};
ghost use Rattle.model_laws.specs.ReplyLines.{OtherLinesArePlain, StepsAnswerPlainly};
ghost use Rattle.model_laws.specs.RunText.{ReplyLinesTell, TextTellsRun};

use apex_model::{cut_keeps_valid, logbook_call_keeps_valid, tick_keeps_valid};

/// A file call whose reply isn't NO_ERROR leaves the trees and handles as they were.
pub fn file_refusal_changes_nothing()
    ensures { FileRefusalChangesNothing }
{}

/// And so a directory call.
pub fn directory_refusal_changes_nothing()
    ensures { DirectoryRefusalChangesNothing }
{}

/// A file call keeps trees and handles valid.
pub fn file_call_keeps_valid()
    ensures { FileCallKeepsValid }
{}

/// A directory call keeps trees and handles valid.
pub fn directory_call_keeps_valid()
    ensures { DirectoryCallKeepsValid }
{}

/// A call, a directive or a tick keeps a world valid.
pub fn step_keeps_valid()
    ensures { StepKeepsValid }
{
    logbook_call_keeps_valid();
    tick_keeps_valid();
}

/// What a cut of power during a call, a directive or a tick may leave can be started from.
pub fn cut_during_keeps_valid()
    ensures { CutKeepsValid }
{
    cut_keeps_valid();
    step_keeps_valid();
}

/// Whichever reads fail, a partition's replies are those that it gets with the lines and the stored state of its upstream alone.
pub fn replies_depend_on_upstream()
    ensures { RepliesDependOnUpstream }
{
    logbook_call_keeps_valid();
    tick_keeps_valid();
}

/// A reply's line has no line feed.
pub fn replies_have_no_feed()
    ensures { RepliesHaveNoFeed }
{}

/// No reply's line is taken for the one that ends a run, also where an entry is called HALTED.
pub fn no_reply_ends_run()
    ensures { NoReplyEndsRun }
{}

/// No reply's line but that of an EIO is taken for that of a failed read or the end of a run, also
/// where an entry is called EIO.
pub fn other_lines_are_plain()
    ensures { OtherLinesArePlain }
{}

/// No call in a valid world is answered with EIO unless its read fails, and the names in its answer
/// are names.
pub fn steps_answer_plainly()
    ensures { StepsAnswerPlainly }
{}

/// Each reply line of a run from a valid world tells its number and whether its read failed, and is
/// not taken for the end of a run.
pub fn reply_lines_tell()
    ensures { ReplyLinesTell }
{
    logbook_call_keeps_valid();
    tick_keeps_valid();
}

/// So the text of a run's replies tells which reads failed, and how many replies there are, also with
/// a part of a line after it.
pub fn text_tells_run()
    ensures { TextTellsRun }
{
    logbook_call_keeps_valid();
    tick_keeps_valid();
}
