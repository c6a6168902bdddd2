//! Why a command ends before its end, and the line that tells it.
ghost use Rattle.std.specs.Prelude.{◌≡◌, ◌≢◌, ◌⊎◌, ◌+◌, ◌^◌, ◌<◌, ◌≤◌, ℕ, [], ◌∷◌, ◌++◌, length, codes, decimal};
ghost use Rattle.std.specs.Option.{ForSome};
ghost use Rattle.apex_model.specs.Image.{too_small};
ghost use Rattle.apex_model.specs.Run.{spaced, line_of};
ghost use Rattle.script_model.specs.Refusals.{refusal_line};
ghost use Rattle.call_script.specs.Errors.{refusal_of};
ghost use Rattle.apex_host.specs.Stops.{told_with, refusal_of_image};
ghost use Rattle.apex_host.specs.Told.{value_words, table_refused_line, table_fault_line, unknown_partition_line, too_large_line, script_fault_line, image_refused_line, mount_fault_line, format_fault_line, stress_fault_line};

use crate::status::Status;
use call_script::{ReplyText, ScriptError, refusal_line as script_refusal_line};
use config_table::TableError;
use recover_scan::MountError;

/// The line that tells why a table is refused.
fn table_refusal_line(error: TableError) -> ReplyText
    ensures { result ≡ table_refused_line error }
{
    let mut text = ReplyText::new();
    text.put(b"table");
    text.put_word(b"refused");
    text.put_number(error.number() as u32);
    text.put_word(error.name());
    text.put_byte(b'\n');
    text
}

/// Puts a value after a space, where there is one.
fn put_value(text: &mut ReplyText, value: Option<u32>)
    requires { length text.old + 11 ≤ 8256 }
    ensures value { text.new ≡ text.old ++ spaced (value_words value) }
    ensures few { length text.new ≤ length text.old + 11 }
{
    if let Some(value) = value {
        text.put_number(value);
    }
}

/// The line that tells why an image is refused: the number and the name of the reason, and its
/// value if it has one.
fn image_refusal_line(number: u32, name: &[u8], value: Option<u32>) -> ReplyText
    requires { length name.now ≤ 24 }
    ensures { result ≡ line_of (codes "image" ∷ codes "refused" ∷ decimal number ∷ name.now
        ∷ value_words value) }
{
    let mut text = ReplyText::new();
    text.put(b"image");
    text.put_word(b"refused");
    text.put_number(number);
    text.put_word(name);
    put_value(&mut text, value);
    text.put_byte(b'\n');
    text
}

/// Why a command ends before its end.
#[derive(Drop)]
pub struct Stop {
    /// How the command ends.
    pub status: Status,
    /// The line that is told then; empty where nothing is.
    pub line: ReplyText,
}

impl Stop {
    /// Ends so, and this line of at most 8,256 bytes is told.
    fn told(status: Status, bytes: &[u8]) -> Stop
        requires { length bytes.now ≤ 8256 }
        ensures { result ≡ told_with status bytes.now }
    {
        let mut line = ReplyText::new();
        line.put(bytes);
        Stop { status, line }
    }

    /// No memory was left, and nothing is told.
    pub fn memory() -> Stop
        ensures { result ≡ told_with Status.OutOfMemory [] }
    {
        Stop {
            status: Status::OutOfMemory,
            line: ReplyText::new(),
        }
    }

    /// The table was not read: it is refused, or no memory was left.
    pub fn table(error: TableError) -> Stop
        ensures { ((error ≢ TableError.OutOfMemory)
            × (result ≡ told_with Status.TableRefused (table_refused_line error)))
            ⊎ ((error ≡ TableError.OutOfMemory) × (result ≡ told_with Status.OutOfMemory [])) }
    {
        match error {
            TableError::OutOfMemory => Stop::memory(),
            _ => Stop {
                status: Status::TableRefused,
                line: table_refusal_line(error),
            },
        }
    }

    /// The script was not read: it is refused, or no memory was left.
    pub fn script(error: ScriptError) -> Stop
        ensures { ((error ≢ ScriptError.OutOfMemory)
            × (result ≡ told_with Status.ScriptRefused (refusal_line (refusal_of error))))
            ⊎ ((error ≡ ScriptError.OutOfMemory) × (result ≡ told_with Status.OutOfMemory [])) }
    {
        match error {
            ScriptError::OutOfMemory => Stop::memory(),
            _ => Stop {
                status: Status::ScriptRefused,
                line: script_refusal_line(error),
            },
        }
    }

    /// The image is refused, for a reason of this number and name, and its value if it has one.
    fn refused_image(number: u32, name: &[u8], value: Option<u32>) -> Stop
        requires { length name.now ≤ 24 }
        ensures { result ≡ told_with Status.ImageRefused (line_of (codes "image" ∷ codes "refused"
            ∷ decimal number ∷ name.now ∷ value_words value)) }
    {
        Stop {
            status: Status::ImageRefused,
            line: image_refusal_line(number, name, value),
        }
    }

    /// The device has fewer bytes than these.
    pub fn small(wanted: u32) -> Stop
        ensures { result ≡ told_with Status.ImageRefused (image_refused_line (too_small wanted)) }
    {
        Stop::refused_image(1, b"TooSmall", Some(wanted))
    }

    /// The image was not opened: it is refused, a read of it failed, or no memory was left.
    pub fn image(error: MountError) -> Stop
        requires { (wanted : ℕ) → error ≡ MountError.TooSmall wanted → wanted < 2 ^ 32 }
        ensures refused { ForSome (refusal_of_image error) (λ r.
            result ≡ told_with Status.ImageRefused (image_refused_line r)) }
        ensures fault { error ≡ MountError.Device
            → result ≡ told_with Status.DeviceFault mount_fault_line }
        ensures memory { error ≡ MountError.Memory → result ≡ told_with Status.OutOfMemory [] }
    {
        match error {
            MountError::TooSmall { wanted } => Stop::small(wanted as u32),
            MountError::NotFormatted => Stop::refused_image(2, b"NotFormatted", None),
            MountError::OtherTable { place } => Stop::refused_image(3, b"OtherTable", Some(place)),
            MountError::BadTree { tree } => Stop::refused_image(4, b"BadTree", Some(tree)),
            MountError::BadLogbook { logbook } => {
                Stop::refused_image(5, b"BadLogbook", Some(logbook))
            }
            MountError::Device => Stop::told(Status::DeviceFault, b"device fault mount\n"),
            MountError::Memory => Stop::memory(),
        }
    }

    /// A read of the table's source failed.
    pub fn table_fault() -> Stop
        ensures { result ≡ told_with Status.SourceFault table_fault_line }
    {
        Stop::told(Status::SourceFault, b"source fault table\n")
    }

    /// No partition of the table has the name that the command is for.
    pub fn unknown_partition() -> Stop
        ensures { result ≡ told_with Status.CommandRefused unknown_partition_line }
    {
        Stop::told(
            Status::CommandRefused,
            b"command refused UnknownPartition\n",
        )
    }

    /// The table's image or the script is too large for a sweep.
    pub fn too_large() -> Stop
        ensures { result ≡ told_with Status.CommandRefused too_large_line }
    {
        Stop::told(Status::CommandRefused, b"command refused SweepTooLarge\n")
    }

    /// A read of the script's source failed.
    pub fn script_fault() -> Stop
        ensures { result ≡ told_with Status.SourceFault script_fault_line }
    {
        Stop::told(Status::SourceFault, b"source fault script\n")
    }

    /// A call of the device failed while it was formatted.
    pub fn format_fault() -> Stop
        ensures { result ≡ told_with Status.DeviceFault format_fault_line }
    {
        Stop::told(Status::DeviceFault, b"device fault format\n")
    }

    /// The device failed in a line of a load.
    pub fn stress_fault() -> Stop
        ensures { result ≡ told_with Status.DeviceFault stress_fault_line }
    {
        Stop::told(Status::DeviceFault, b"device fault stress\n")
    }
}
