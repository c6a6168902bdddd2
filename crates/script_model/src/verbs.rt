/// The file calls, without their arguments.
#[derive(Clone, Copy)]
pub enum FileVerb {
    OpenNewFile,
    OpenFile,
    CloseFile,
    ReadFile,
    WriteFile,
    SeekFile,
    ResizeFile,
    SyncFile,
    RemoveFile,
    RenameFile,
    GetFileStatus,
    GetVolumeStatus,
}

/// The directory calls, without their arguments.
#[derive(Clone, Copy)]
pub enum DirectoryVerb {
    OpenDirectory,
    CloseDirectory,
    ReadDirectory,
    RewindDirectory,
    MakeDirectory,
    RemoveDirectory,
    SyncDirectory,
}

/// The logbook calls, without their arguments.
#[derive(Clone, Copy)]
pub enum LogbookVerb {
    Create,
    Write,
    Overwrite,
    Read,
    Clear,
    GetId,
    GetStatus,
}

/// The sampling port calls, without their arguments.
#[derive(Clone, Copy)]
pub enum SamplingVerb {
    Create,
    Write,
    ReadUpdated,
    CurrentStatus,
    ReadConditional,
}

/// The calls and directives of a script, without their arguments.
#[derive(Clone, Copy)]
pub enum Verb {
    File(FileVerb),
    Directory(DirectoryVerb),
    Logbook(LogbookVerb),
    Sampling(SamplingVerb),
    Mode,
    Context,
}
