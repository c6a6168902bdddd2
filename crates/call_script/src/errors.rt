//! Why a script is refused.

ghost use Rattle.std.specs.Prelude.{◌≡◌, ◌≤◌, length};

use script_model::LineFault;

/// Why a script is refused. Each error of a line has the line's number, counted from 1. This project's own.
#[derive(Clone, Copy, Debug, PartialEq, Eq)]
pub enum ScriptError {
    /// The script has over 1,048,576 bytes or over 20,000 lines.
    TooLong,
    /// A byte outside printable ASCII.
    NotAscii { line: u32 },
    /// The first word is neither TICK nor a partition.
    UnknownPartition { line: u32 },
    /// The second word is missing, or no call or directive.
    UnknownCall { line: u32 },
    /// Another number of words, an empty word or a wrong keyword.
    WrongArguments { line: u32 },
    /// A number or an offset that is not spelled so, or ticks out of range.
    BadNumber { line: u32 },
    /// Data that is not spelled so.
    BadData { line: u32 },
    /// No memory was left.
    OutOfMemory,
}

impl ScriptError {
    ghost use Rattle.call_script.specs.Errors.{number_of_error, name_of_error, line_of_error};

    /// The number of the error, from 1 on, as a refusal tells it.
    pub fn number(self) -> u32
        ensures value { result ≡ number_of_error self }
        ensures few { result ≤ 8 }
    {
        match self {
            ScriptError::TooLong => 1,
            ScriptError::NotAscii { .. } => 2,
            ScriptError::UnknownPartition { .. } => 3,
            ScriptError::UnknownCall { .. } => 4,
            ScriptError::WrongArguments { .. } => 5,
            ScriptError::BadNumber { .. } => 6,
            ScriptError::BadData { .. } => 7,
            ScriptError::OutOfMemory => 8,
        }
    }

    /// The name of the error, as a refusal tells it.
    pub fn name(self) -> &'static [u8]
        ensures value { result.now ≡ name_of_error self }
        ensures few { length result.now ≤ 16 }
    {
        match self {
            ScriptError::TooLong => b"TooLong",
            ScriptError::NotAscii { .. } => b"NotAscii",
            ScriptError::UnknownPartition { .. } => b"UnknownPartition",
            ScriptError::UnknownCall { .. } => b"UnknownCall",
            ScriptError::WrongArguments { .. } => b"WrongArguments",
            ScriptError::BadNumber { .. } => b"BadNumber",
            ScriptError::BadData { .. } => b"BadData",
            ScriptError::OutOfMemory => b"OutOfMemory",
        }
    }

    /// The number of the line that is refused; none where the whole script is refused, or there was no memory.
    pub fn line(self) -> Option<u32>
        ensures { result ≡ line_of_error self }
    {
        match self {
            ScriptError::TooLong | ScriptError::OutOfMemory => None,
            ScriptError::NotAscii { line }
            | ScriptError::UnknownPartition { line }
            | ScriptError::UnknownCall { line }
            | ScriptError::WrongArguments { line }
            | ScriptError::BadNumber { line }
            | ScriptError::BadData { line } => Some(line),
        }
    }

    ghost use Rattle.call_script.specs.Gives.{error_at};

    /// The error of a fault in a line.
    pub(crate) fn at(fault: LineFault, line: u32) -> ScriptError
        ensures { result ≡ error_at fault line }
    {
        match fault {
            LineFault::OutOfMemory => ScriptError::OutOfMemory,
            LineFault::NotAscii => ScriptError::NotAscii { line },
            LineFault::UnknownPartition => ScriptError::UnknownPartition { line },
            LineFault::UnknownCall => ScriptError::UnknownCall { line },
            LineFault::WrongArguments => ScriptError::WrongArguments { line },
            LineFault::BadNumber => ScriptError::BadNumber { line },
            LineFault::BadData => ScriptError::BadData { line },
        }
    }
}
