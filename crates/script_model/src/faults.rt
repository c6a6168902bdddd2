/// What is wrong with a line of a script, or with a word of it; or there was no memory.
#[derive(Clone, Copy)]
pub enum LineFault {
    OutOfMemory,
    NotAscii,
    UnknownPartition,
    UnknownCall,
    WrongArguments,
    BadNumber,
    BadData,
}
