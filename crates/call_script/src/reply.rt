//! The lines that are told: of a reply, of a fault of the device, and of a refused script.

ghost use Rattle.std.specs.Prelude.{◌≡◌, ◌+◌, ◌*◌, ◌^◌, ◌<◌, ◌≤◌, [], ◌∷◌, ◌++◌, length, decimal, Some, IsNone};
ghost use Rattle.apex_model.specs.Run.{code_text, errno_text, updated_text, validity_text, state_text, hex_text, spaced, data_words, value_words, reply_line, fault_line};
ghost use Rattle.script_model.specs.Refusals.{refused_place, refusal_line};
ghost use Rattle.call_script.specs.Errors.{refusal_of};
ghost use Rattle.call_script.specs.Replies.{HasData};

use crate::errors::ScriptError;
use crate::reply_text::ReplyText;
use apex_types::{EntryState, Errno, Name, Reply, ReturnCode, Updated, Validity, Values};

/// The name of a return code.
fn code_word(code: ReturnCode) -> &'static [u8]
    ensures word { result.now ≡ code_text code }
    ensures few { length result.now ≤ 14 }
{
    match code {
        ReturnCode::NoError => b"NO_ERROR",
        ReturnCode::NoAction => b"NO_ACTION",
        ReturnCode::NotAvailable => b"NOT_AVAILABLE",
        ReturnCode::InvalidParam => b"INVALID_PARAM",
        ReturnCode::InvalidConfig => b"INVALID_CONFIG",
        ReturnCode::InvalidMode => b"INVALID_MODE",
        ReturnCode::TimedOut => b"TIMED_OUT",
    }
}

/// The name of an errno.
fn errno_name(errno: Errno) -> &'static [u8]
    ensures word { result.now ≡ errno_text (Some errno) }
    ensures few { length result.now ≤ 12 }
{
    match errno {
        Errno::Eperm => b"EPERM",
        Errno::Einval => b"EINVAL",
        Errno::Enametoolong => b"ENAMETOOLONG",
        Errno::Ebadf => b"EBADF",
        Errno::Enoent => b"ENOENT",
        Errno::Enotdir => b"ENOTDIR",
        Errno::Eisdir => b"EISDIR",
        Errno::Eexist => b"EEXIST",
        Errno::Eacces => b"EACCES",
        Errno::Enospc => b"ENOSPC",
        Errno::Emfile => b"EMFILE",
        Errno::Efbig => b"EFBIG",
        Errno::Eoverflow => b"EOVERFLOW",
        Errno::Ebusy => b"EBUSY",
        Errno::Estale => b"ESTALE",
        Errno::Enotempty => b"ENOTEMPTY",
        Errno::Eio => b"EIO",
    }
}

/// Whether a port's message was read before, as a word.
fn updated_word(updated: Updated) -> &'static [u8]
    ensures word { result.now ≡ updated_text updated }
    ensures few { length result.now ≤ 16 }
{
    match updated {
        Updated::EmptyPort => b"EMPTY_PORT",
        Updated::NewMessage => b"NEW_MESSAGE",
        Updated::ConsumedMessage => b"CONSUMED_MESSAGE",
    }
}

/// Whether a message is young enough, as a word.
fn validity_word(validity: Validity) -> &'static [u8]
    ensures word { result.now ≡ validity_text validity }
    ensures few { length result.now ≤ 7 }
{
    match validity {
        Validity::Valid => b"VALID",
        Validity::Invalid => b"INVALID",
    }
}

/// Whether a logbook's message is in nonvolatile storage, as a word.
fn state_word(state: EntryState) -> &'static [u8]
    ensures word { result.now ≡ state_text state }
    ensures few { length result.now ≤ 11 }
{
    match state {
        EntryState::InProgress => b"IN_PROGRESS",
        EntryState::Complete => b"COMPLETE",
    }
}

/// Puts the hexadecimal digits of some bytes, two for each.
fn put_hexadecimal(text: &mut ReplyText, bytes: &[u8])
    requires few { length bytes.now ≤ 4096 }
    requires room { length text.old + 2 * length bytes.now ≤ 8256 }
    ensures value { text.new ≡ text.old ++ hex_text bytes.now }
    ensures len { length text.new ≡ length text.old + 2 * length bytes.now }
{
    let mut digits = [0u8; 8192];
    let spelled = &mut digits[..2 * bytes.len()];
    if hex::encode_to_slice(bytes, spelled).is_ok() {
        text.put(spelled);
    }
}

/// Puts some data after a space: its length and its digits, or a dot where it is empty.
fn put_data(text: &mut ReplyText, bytes: &[u8])
    requires few { length bytes.now ≤ 4096 }
    requires room { length text.old + 2 * length bytes.now + 14 ≤ 8256 }
    ensures value { text.new ≡ text.old ++ spaced (data_words bytes.now) }
    ensures len { length text.new < 8256 }
{
    text.put_number(bytes.len() as u32);
    if bytes.is_empty() {
        text.put_word(b".");
        return;
    }
    text.put_byte(b' ');
    put_hexadecimal(text, bytes);
}

/// Puts the status of a port after a space.
fn put_port_status(
    text: &mut ReplyText,
    size: u32,
    refresh: u32,
    updated: Updated,
    validity: Validity,
    age: u32,
)
    requires { length text.old ≤ 40 }
    ensures value { text.new ≡ text.old ++ spaced (value_words (Values.PortStatus size refresh updated validity age)) }
    ensures len { length text.new < 8256 }
{
    text.put_word(b"DESTINATION");
    text.put_number(size);
    text.put_number(refresh);
    text.put_word(updated_word(updated));
    text.put_word(validity_word(validity));
    text.put_number(age);
}

/// Puts the status of a logbook after a space.
fn put_logbook_status(
    text: &mut ReplyText,
    message_size: u32,
    logged_limit: u32,
    progress_limit: u32,
    logged: u32,
    progress: u32,
)
    requires { length text.old ≤ 40 }
    ensures value { text.new ≡ text.old ++ spaced (value_words (Values.LogbookStatus message_size logged_limit progress_limit logged progress)) }
    ensures len { length text.new < 8256 }
{
    text.put_number(message_size);
    text.put_number(logged_limit);
    text.put_number(progress_limit);
    text.put_number(logged);
    text.put_number(progress);
}

/// Puts three numbers, each after a space.
fn put_three(text: &mut ReplyText, a: u32, b: u32, c: u32)
    requires { length text.old ≤ 40 }
    ensures value { text.new ≡ text.old ++ spaced (decimal a ∷ decimal b ∷ decimal c ∷ []) }
    ensures len { length text.new < 8256 }
{
    text.put_number(a);
    text.put_number(b);
    text.put_number(c);
}

/// Puts a message after a space.
fn put_message(text: &mut ReplyText, updated: Updated, validity: Validity, bytes: &[u8])
    requires few { length bytes.now ≤ 4096 }
    requires room { length text.old ≤ 22 }
    ensures value { text.new ≡ text.old ++ spaced (updated_text updated ∷ validity_text validity ∷ data_words bytes.now) }
    ensures len { length text.new < 8256 }
{
    text.put_word(updated_word(updated));
    text.put_word(validity_word(validity));
    put_data(text, bytes);
}

/// Puts a logbook's entry after a space.
fn put_entry(text: &mut ReplyText, state: EntryState, bytes: &[u8])
    requires few { length bytes.now ≤ 4096 }
    requires room { length text.old ≤ 22 }
    ensures value { text.new ≡ text.old ++ spaced (state_text state ∷ data_words bytes.now) }
    ensures len { length text.new < 8256 }
{
    text.put_word(state_word(state));
    put_data(text, bytes);
}

/// Puts a port's direction, size and refresh period after a space.
fn put_port(text: &mut ReplyText, direction: &[u8], size: u32, refresh: u32)
    requires few { length direction.now ≤ 20 }
    requires room { length text.old ≤ 40 }
    ensures value { text.new ≡ text.old ++ spaced (direction.now ∷ decimal size ∷ decimal refresh ∷ []) }
    ensures len { length text.new ≤ length text.old + 43 }
{
    text.put_word(direction);
    text.put_number(size);
    text.put_number(refresh);
}

/// Puts the status of an empty port after a space.
fn put_empty_status(text: &mut ReplyText, size: u32, refresh: u32)
    requires { length text.old ≤ 40 }
    ensures value { text.new ≡ text.old ++ spaced (value_words (Values.EmptyStatus size refresh)) }
    ensures len { length text.new < 8256 }
{
    put_port(text, b"DESTINATION", size, refresh);
    text.put_word(b"EMPTY_PORT");
}

/// Puts a directory's entry after a space.
fn put_file_entry(text: &mut ReplyText, name: &Name, size: u32)
    requires { length text.old ≤ 40 }
    ensures value { text.new ≡ text.old ++ spaced (value_words (Values.FileEntry name.now size)) }
    ensures len { length text.new < 8256 }
{
    text.put_word(b"FILE");
    text.put_word(name.bytes());
    text.put_number(size);
}

/// Puts a directory's entry that is a directory after a space.
fn put_directory_entry(text: &mut ReplyText, name: &Name)
    requires { length text.old ≤ 40 }
    ensures value { text.new ≡ text.old ++ spaced (value_words (Values.DirectoryEntry name.now)) }
    ensures len { length text.new < 8256 }
{
    text.put_word(b"DIRECTORY");
    text.put_word(name.bytes());
}

/// Puts the values of a reply, each after a space.
fn put_values(text: &mut ReplyText, values: &Values)
    requires room { length text.old ≤ 40 }
    requires data_room { HasData values.now → length text.old ≤ 22 }
    ensures value { text.new ≡ text.old ++ spaced (value_words values.now) }
    ensures len { length text.new < 8256 }
{
    match values {
        Values::Empty => {}
        Values::Number(number) => text.put_number(*number),
        Values::Read(data) => put_data(text, data.bytes()),
        Values::FileStatus {
            size,
            position,
            changes,
        } => put_three(text, *size, *position, *changes),
        Values::VolumeStatus {
            quota,
            charge,
            files,
        } => put_three(text, *quota, *charge, *files),
        Values::FileEntry { name, size } => put_file_entry(text, name, *size),
        Values::DirectoryEntry { name } => put_directory_entry(text, name),
        Values::EndOfDirectory => text.put_word(b"END"),
        Values::Entry { state, bytes } => put_entry(text, *state, bytes.bytes()),
        Values::LogbookStatus {
            message_size,
            logged_limit,
            progress_limit,
            logged,
            progress,
        } => {
            put_logbook_status(
                text,
                *message_size,
                *logged_limit,
                *progress_limit,
                *logged,
                *progress,
            )
        }
        Values::SourceStatus { size, refresh } => put_port(text, b"SOURCE", *size, *refresh),
        Values::EmptyStatus { size, refresh } => put_empty_status(text, *size, *refresh),
        Values::PortStatus {
            size,
            refresh,
            updated,
            validity,
            age,
        } => { put_port_status(text, *size, *refresh, *updated, *validity, *age) }
        Values::Message {
            updated,
            validity,
            bytes,
        } => { put_message(text, *updated, *validity, bytes.bytes()) }
        Values::State(updated) => text.put_word(updated_word(*updated)),
    }
}

/// The word of an errno, or a dash.
fn errno_word(errno: Option<Errno>) -> &'static [u8]
    ensures word { result.now ≡ errno_text errno }
    ensures few { length result.now ≤ 12 }
    ensures dash { IsNone errno → length result.now ≡ 1 }
{
    match errno {
        Some(errno) => errno_name(errno),
        None => b"-",
    }
}

/// The line that tells a reply: the line's number, the return code, the errno or a dash, and the values, with single
/// spaces and a line feed. It takes no memory. This project's own.
pub fn reply_line(number: u32, reply: &Reply) -> ReplyText
    requires few { number ≤ 20000 }
    requires data { HasData reply.now.values → IsNone reply.now.errno }
    ensures { result ≡ reply_line number reply.now }
{
    let mut text = ReplyText::numbered(number);
    text.put_word(code_word(reply.code));
    text.put_word(errno_word(reply.errno));
    put_values(&mut text, &reply.values);
    text.put_byte(b'\n');
    text
}

/// The line that tells that the device failed in a line of the script, so that the run ends there. It takes no memory.
/// This project's own.
pub fn fault_line(number: u32) -> ReplyText
    requires { number ≤ 20000 }
    ensures { result ≡ fault_line number }
{
    let mut text = ReplyText::numbered(number);
    text.put_word(b"NOT_AVAILABLE");
    text.put_word(b"EIO");
    text.put_word(b"HALTED");
    text.put_byte(b'\n');
    text
}

/// The line that tells why a script is refused: `script refused`, the error's number and its name, and `line` with the
/// number of the line at fault, if the error is of one line. It takes no memory. This project's own.
pub fn refusal_line(error: ScriptError) -> ReplyText
    ensures { result ≡ refusal_line (refusal_of error) }
{
    let mut text = ReplyText::new();
    text.put(b"script");
    text.put_word(b"refused");
    text.put_number(error.number());
    text.put_word(error.name());
    put_place(&mut text, error.line().unwrap_or(0));
    text.put_byte(b'\n');
    text
}

/// Puts the words that name a line; none for line 0.
fn put_place(text: &mut ReplyText, line: u32)
    requires { length text.old ≤ 100 }
    ensures value { text.new ≡ text.old ++ spaced (refused_place line) }
    ensures len { length text.new ≤ length text.old + 20 }
{
    if line != 0 {
        text.put_word(b"line");
        text.put_number(line);
    }
}
