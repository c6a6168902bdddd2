//! The calls, by their words.

ghost use Rattle.std.specs.Prelude.{◌≡◌, map};
ghost use Rattle.script_model.specs.Reading.{find_word, file_verbs, directory_verbs, logbook_verbs, sampling_verbs, verb_at, file_arguments, directory_arguments, logbook_arguments, sampling_arguments, arguments_at};
ghost use Rattle.call_script.specs.Gives.{Gives};

use crate::arguments::{
    number_and_bytes, number_and_offset, one_context, one_mode, one_number, one_path,
    path_and_mode, two_numbers, two_paths,
};
use crate::words::find_word;
use apex_types::{Call, DirCall, FileCall, LogbookCall, SamplingCall};
use script_model::{DirectoryVerb, FileVerb, LineFault, LogbookVerb, SamplingVerb, Verb};
use std::alloc::Global;

/// The file call of a word.
fn file_verb(word: &[u8]) -> Option<FileVerb>
    ensures { result ≡ find_word file_verbs word.now }
{
    let verbs: [(&[u8], FileVerb); 12] = [
        (b"OPEN_NEW_FILE", FileVerb::OpenNewFile),
        (b"OPEN_FILE", FileVerb::OpenFile),
        (b"CLOSE_FILE", FileVerb::CloseFile),
        (b"READ_FILE", FileVerb::ReadFile),
        (b"WRITE_FILE", FileVerb::WriteFile),
        (b"SEEK_FILE", FileVerb::SeekFile),
        (b"RESIZE_FILE", FileVerb::ResizeFile),
        (b"SYNC_FILE", FileVerb::SyncFile),
        (b"REMOVE_FILE", FileVerb::RemoveFile),
        (b"RENAME_FILE", FileVerb::RenameFile),
        (b"GET_FILE_STATUS", FileVerb::GetFileStatus),
        (b"GET_VOLUME_STATUS", FileVerb::GetVolumeStatus),
    ];
    find_word(&verbs, word)
}

/// The directory call of a word.
fn directory_verb(word: &[u8]) -> Option<DirectoryVerb>
    ensures { result ≡ find_word directory_verbs word.now }
{
    let verbs: [(&[u8], DirectoryVerb); 7] = [
        (b"OPEN_DIRECTORY", DirectoryVerb::OpenDirectory),
        (b"CLOSE_DIRECTORY", DirectoryVerb::CloseDirectory),
        (b"READ_DIRECTORY", DirectoryVerb::ReadDirectory),
        (b"REWIND_DIRECTORY", DirectoryVerb::RewindDirectory),
        (b"MAKE_DIRECTORY", DirectoryVerb::MakeDirectory),
        (b"REMOVE_DIRECTORY", DirectoryVerb::RemoveDirectory),
        (b"SYNC_DIRECTORY", DirectoryVerb::SyncDirectory),
    ];
    find_word(&verbs, word)
}

/// The logbook call of a word.
fn logbook_verb(word: &[u8]) -> Option<LogbookVerb>
    ensures { result ≡ find_word logbook_verbs word.now }
{
    let verbs: [(&[u8], LogbookVerb); 7] = [
        (b"CREATE_LOGBOOK", LogbookVerb::Create),
        (b"WRITE_LOGBOOK", LogbookVerb::Write),
        (b"OVERWRITE_LOGBOOK", LogbookVerb::Overwrite),
        (b"READ_LOGBOOK", LogbookVerb::Read),
        (b"CLEAR_LOGBOOK", LogbookVerb::Clear),
        (b"GET_LOGBOOK_ID", LogbookVerb::GetId),
        (b"GET_LOGBOOK_STATUS", LogbookVerb::GetStatus),
    ];
    find_word(&verbs, word)
}

/// The sampling port call of a word.
fn sampling_verb(word: &[u8]) -> Option<SamplingVerb>
    ensures { result ≡ find_word sampling_verbs word.now }
{
    let verbs: [(&[u8], SamplingVerb); 5] = [
        (b"CREATE_SAMPLING_PORT", SamplingVerb::Create),
        (b"WRITE_SAMPLING_MESSAGE", SamplingVerb::Write),
        (b"READ_UPDATED_SAMPLING_MESSAGE", SamplingVerb::ReadUpdated),
        (
            b"GET_SAMPLING_PORT_CURRENT_STATUS",
            SamplingVerb::CurrentStatus,
        ),
        (
            b"READ_SAMPLING_MESSAGE_CONDITIONAL",
            SamplingVerb::ReadConditional,
        ),
    ];
    find_word(&verbs, word)
}

/// The call or directive of a word.
#[tactic(auto, unfolding(script_model::specs::Reading::verb_at))]
pub fn verb(word: &[u8]) -> Option<Verb>
    ensures { result ≡ verb_at word.now }
{
    if let Some(verb) = file_verb(word) {
        return Some(Verb::File(verb));
    }
    if let Some(verb) = directory_verb(word) {
        return Some(Verb::Directory(verb));
    }
    if let Some(verb) = logbook_verb(word) {
        return Some(Verb::Logbook(verb));
    }
    if let Some(verb) = sampling_verb(word) {
        return Some(Verb::Sampling(verb));
    }
    if word == b"MODE".as_slice() {
        Some(Verb::Mode)
    } else if word == b"CONTEXT".as_slice() {
        Some(Verb::Context)
    } else {
        None
    }
}

/// The file call of a verb and its arguments.
#[tactic(auto, unfolding(script_model::specs::Reading::file_arguments))]
fn file_call(alloc: Global, verb: FileVerb, arguments: &[&[u8]]) -> Result<FileCall, LineFault>
    ensures { Gives (λ c. c) result (file_arguments verb (map (λ w. w.now) arguments.now)) }
{
    match verb {
        FileVerb::OpenNewFile => {
            let path = one_path(alloc, arguments)?;
            Ok(FileCall::OpenNewFile { path })
        }
        FileVerb::OpenFile => {
            let (path, mode) = path_and_mode(alloc, arguments)?;
            Ok(FileCall::OpenFile { path, mode })
        }
        FileVerb::CloseFile => {
            let id = one_number(arguments)?;
            Ok(FileCall::CloseFile { id })
        }
        FileVerb::ReadFile => {
            let (id, length) = two_numbers(arguments)?;
            Ok(FileCall::ReadFile { id, length })
        }
        FileVerb::WriteFile => {
            let (id, bytes) = number_and_bytes(alloc, arguments)?;
            Ok(FileCall::WriteFile { id, bytes })
        }
        FileVerb::SeekFile => {
            let ((id, offset), whence) = number_and_offset(arguments)?;
            Ok(FileCall::SeekFile { id, offset, whence })
        }
        FileVerb::ResizeFile => {
            let (id, size) = two_numbers(arguments)?;
            Ok(FileCall::ResizeFile { id, size })
        }
        FileVerb::SyncFile => {
            let id = one_number(arguments)?;
            Ok(FileCall::SyncFile { id })
        }
        FileVerb::RemoveFile => {
            let path = one_path(alloc, arguments)?;
            Ok(FileCall::RemoveFile { path })
        }
        FileVerb::RenameFile => {
            let (from, to) = two_paths(alloc, arguments)?;
            Ok(FileCall::RenameFile { from, to })
        }
        FileVerb::GetFileStatus => {
            let id = one_number(arguments)?;
            Ok(FileCall::GetFileStatus { id })
        }
        FileVerb::GetVolumeStatus => {
            let path = one_path(alloc, arguments)?;
            Ok(FileCall::GetVolumeStatus { path })
        }
    }
}

/// The directory call of a verb and its arguments.
#[tactic(auto, unfolding(script_model::specs::Reading::directory_arguments))]
fn directory_call(
    alloc: Global,
    verb: DirectoryVerb,
    arguments: &[&[u8]],
) -> Result<DirCall, LineFault>
    ensures { Gives (λ c. c) result (directory_arguments verb (map (λ w. w.now) arguments.now)) }
{
    match verb {
        DirectoryVerb::OpenDirectory => {
            let path = one_path(alloc, arguments)?;
            Ok(DirCall::OpenDirectory { path })
        }
        DirectoryVerb::CloseDirectory => {
            let id = one_number(arguments)?;
            Ok(DirCall::CloseDirectory { id })
        }
        DirectoryVerb::ReadDirectory => {
            let id = one_number(arguments)?;
            Ok(DirCall::ReadDirectory { id })
        }
        DirectoryVerb::RewindDirectory => {
            let id = one_number(arguments)?;
            Ok(DirCall::RewindDirectory { id })
        }
        DirectoryVerb::MakeDirectory => {
            let path = one_path(alloc, arguments)?;
            Ok(DirCall::MakeDirectory { path })
        }
        DirectoryVerb::RemoveDirectory => {
            let path = one_path(alloc, arguments)?;
            Ok(DirCall::RemoveDirectory { path })
        }
        DirectoryVerb::SyncDirectory => {
            let id = one_number(arguments)?;
            Ok(DirCall::SyncDirectory { id })
        }
    }
}

/// The logbook call of a verb and its arguments.
#[tactic(auto, unfolding(script_model::specs::Reading::logbook_arguments))]
fn logbook_call(
    alloc: Global,
    verb: LogbookVerb,
    arguments: &[&[u8]],
) -> Result<LogbookCall, LineFault>
    ensures { Gives (λ c. c) result (logbook_arguments verb (map (λ w. w.now) arguments.now)) }
{
    match verb {
        LogbookVerb::Create => {
            let name = one_path(alloc, arguments)?;
            Ok(LogbookCall::Create { name })
        }
        LogbookVerb::Write => {
            let (id, bytes) = number_and_bytes(alloc, arguments)?;
            Ok(LogbookCall::Write { id, bytes })
        }
        LogbookVerb::Overwrite => {
            let (id, bytes) = number_and_bytes(alloc, arguments)?;
            Ok(LogbookCall::Overwrite { id, bytes })
        }
        LogbookVerb::Read => {
            let (id, number) = two_numbers(arguments)?;
            Ok(LogbookCall::Read { id, number })
        }
        LogbookVerb::Clear => {
            let id = one_number(arguments)?;
            Ok(LogbookCall::Clear { id })
        }
        LogbookVerb::GetId => {
            let name = one_path(alloc, arguments)?;
            Ok(LogbookCall::GetId { name })
        }
        LogbookVerb::GetStatus => {
            let id = one_number(arguments)?;
            Ok(LogbookCall::GetStatus { id })
        }
    }
}

/// The sampling port call of a verb and its arguments.
#[tactic(auto, unfolding(script_model::specs::Reading::sampling_arguments))]
fn sampling_call(
    alloc: Global,
    verb: SamplingVerb,
    arguments: &[&[u8]],
) -> Result<SamplingCall, LineFault>
    ensures { Gives (λ c. c) result (sampling_arguments verb (map (λ w. w.now) arguments.now)) }
{
    match verb {
        SamplingVerb::Create => {
            let name = one_path(alloc, arguments)?;
            Ok(SamplingCall::Create { name })
        }
        SamplingVerb::Write => {
            let (id, bytes) = number_and_bytes(alloc, arguments)?;
            Ok(SamplingCall::Write { id, bytes })
        }
        SamplingVerb::ReadUpdated => {
            let id = one_number(arguments)?;
            Ok(SamplingCall::ReadUpdated { id })
        }
        SamplingVerb::CurrentStatus => {
            let id = one_number(arguments)?;
            Ok(SamplingCall::CurrentStatus { id })
        }
        SamplingVerb::ReadConditional => {
            let (id, time) = two_numbers(arguments)?;
            Ok(SamplingCall::ReadConditional { id, time })
        }
    }
}

/// The call of a verb and its arguments.
#[tactic(auto, unfolding(script_model::specs::Reading::arguments_at))]
pub fn arguments_of(alloc: Global, verb: Verb, arguments: &[&[u8]]) -> Result<Call, LineFault>
    ensures { Gives (λ c. c) result (arguments_at verb (map (λ w. w.now) arguments.now)) }
{
    match verb {
        Verb::File(verb) => {
            let call = file_call(alloc, verb, arguments)?;
            Ok(Call::File(call))
        }
        Verb::Directory(verb) => {
            let call = directory_call(alloc, verb, arguments)?;
            Ok(Call::Directory(call))
        }
        Verb::Logbook(verb) => {
            let call = logbook_call(alloc, verb, arguments)?;
            Ok(Call::Logbook(call))
        }
        Verb::Sampling(verb) => {
            let call = sampling_call(alloc, verb, arguments)?;
            Ok(Call::Sampling(call))
        }
        Verb::Mode => {
            let mode = one_mode(arguments)?;
            Ok(Call::SetMode(mode))
        }
        Verb::Context => {
            let context = one_context(arguments)?;
            Ok(Call::SetContext(context))
        }
    }
}
