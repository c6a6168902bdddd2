//! The line with which a command ends.
ghost use Rattle.std.specs.Prelude.{◌≡◌, ◌++◌, ◌+◌, ◌≤◌, ◌∷◌, [], length, decimal};
ghost use Rattle.apex_model.specs.Run.{spaced};
ghost use Rattle.apex_host.specs.Disk.{OnlyTells};
ghost use Rattle.apex_host.specs.Told.{IsTold};

use crate::status::Status;
use call_script::ReplyText;
use rig_core::Rig;

/// Puts a word and a count, each after a space.
pub fn put_count(text: &mut ReplyText, word: &[u8], count: u32)
    requires { length text.old + length word.now + 12 ≤ 8256 }
    ensures value { text.new ≡ text.old ++ spaced (word.now ∷ decimal count ∷ []) }
    ensures few { length text.new ≤ length text.old + length word.now + 12 }
{
    text.put_word(word);
    text.put_number(count);
}

/// Tells a line, where there is one, and answers this status, or that telling failed.
pub fn told<R: Rig>(rig: &mut R, line: &[u8], status: Status) -> Status
    ensures told { IsTold R.tells_text line.now status (R.state rig.old) (R.state rig.new) result }
    ensures disk { OnlyTells R.tells_view (R.state rig.old) (R.state rig.new) }
{
    if line.is_empty() {
        return status;
    }
    match rig.tell(line) {
        Ok(()) => status,
        Err(_) => Status::ReplyFault,
    }
}
