//! Why the text of a module table is refused.

ghost use Rattle.std.specs.Prelude.{◌≡◌};
ghost use Rattle.table_model.specs.Errors.{error_number, error_name, order};

/// Why the text of a module table is refused: the first of these conditions, in their order, that holds of the whole
/// text. The conditions and their order are this project's own.
#[derive(Clone, Copy, Debug, PartialEq, Eq)]
pub enum TableError {
    /// Over 65,536 bytes.
    TooLong,
    /// The bytes are no UTF-8, or no TOML document.
    NotToml,
    /// A key at the top or in a row that no row of a module table has.
    UnknownKey,
    /// The partitions, or a required key of a row, are missing.
    MissingKey,
    /// A value at the top is no list of tables, or a value isn't of its key's kind.
    WrongKind,
    /// A string is no name of at most 24 bytes and no pair of such names, or a partition is named `TICK`.
    BadName,
    /// An integer, or a number of rows, readers or destinations, is outside its limits.
    OutOfRange,
    /// Two rows that must differ are the same, or a reader is listed twice or owns the tree.
    Repeated,
    /// A volume or a partition that no row has.
    UnknownName,
    /// The quotas of a volume's trees sum to more than its blocks.
    VolumeOverfull,
    /// The layout has over 131,072 blocks.
    ImageTooLarge,
    /// No memory was left.
    OutOfMemory,
}

impl TableError {
    /// The number that names the refusal in a told line, from 1 to 12.
    pub fn number(self) -> u8
        ensures { result ≡ error_number self }
    {
        match self {
            TableError::TooLong => 1,
            TableError::NotToml => 2,
            TableError::UnknownKey => 3,
            TableError::MissingKey => 4,
            TableError::WrongKind => 5,
            TableError::BadName => 6,
            TableError::OutOfRange => 7,
            TableError::Repeated => 8,
            TableError::UnknownName => 9,
            TableError::VolumeOverfull => 10,
            TableError::ImageTooLarge => 11,
            TableError::OutOfMemory => 12,
        }
    }

    /// The name of the refusal in a told line.
    pub fn name(self) -> &'static [u8]
        ensures { result.now ≡ error_name self }
    {
        match self {
            TableError::TooLong => b"TooLong",
            TableError::NotToml => b"NotToml",
            TableError::UnknownKey => b"UnknownKey",
            TableError::MissingKey => b"MissingKey",
            TableError::WrongKind => b"WrongKind",
            TableError::BadName => b"BadName",
            TableError::OutOfRange => b"OutOfRange",
            TableError::Repeated => b"Repeated",
            TableError::UnknownName => b"UnknownName",
            TableError::VolumeOverfull => b"VolumeOverfull",
            TableError::ImageTooLarge => b"ImageTooLarge",
            TableError::OutOfMemory => b"OutOfMemory",
        }
    }

    /// The place in the order in which refusals count: out of memory first, since then no more is known of the text.
    pub fn order(self) -> u8
        ensures { result ≡ order self }
    {
        match self {
            TableError::OutOfMemory => 0,
            _ => self.number(),
        }
    }
}
