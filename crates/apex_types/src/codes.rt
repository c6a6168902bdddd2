ghost use Rattle.std.specs.Prelude.{◌≡◌};
ghost use Rattle.apex_types.specs.Codes.{code_of_errno};

use std::alloc::{AllocError, AllocFailed};

/// No memory was left.
#[derive(Clone, Copy, Debug, PartialEq, Eq)]
pub struct OutOfMemory;

impl From<AllocError> for OutOfMemory {
    fn from(_: AllocError) -> OutOfMemory {
        OutOfMemory
    }
}

/// What could not be stored is dropped.
impl<T: Drop> From<AllocFailed<T>> for OutOfMemory {
    fn from(_: AllocFailed<T>) -> OutOfMemory {
        OutOfMemory
    }
}

/// The return codes of the specification, with their numbers.
#[derive(Clone, Copy, PartialEq, Eq)]
pub enum ReturnCode {
    NoError = 0,
    NoAction = 1,
    NotAvailable = 2,
    InvalidParam = 3,
    InvalidConfig = 4,
    InvalidMode = 5,
    TimedOut = 6,
}

/// The causes of a refused file or directory call, by their POSIX names.
#[derive(Clone, Copy, Debug, PartialEq, Eq)]
pub enum Errno {
    Eperm,
    Einval,
    Enametoolong,
    Ebadf,
    Enoent,
    Enotdir,
    Eisdir,
    Eexist,
    Eacces,
    Enospc,
    Emfile,
    Efbig,
    Eoverflow,
    Ebusy,
    Estale,
    Enotempty,
    Eio,
}

/// The return code that goes with an errno.
pub fn code_of(errno: Errno) -> ReturnCode
    ensures { result ≡ code_of_errno errno }
{
    match errno {
        Errno::Eperm => ReturnCode::InvalidMode,
        Errno::Einval
        | Errno::Enametoolong
        | Errno::Ebadf
        | Errno::Enoent
        | Errno::Enotdir
        | Errno::Eisdir
        | Errno::Eexist => ReturnCode::InvalidParam,
        Errno::Eacces | Errno::Enospc | Errno::Emfile | Errno::Efbig | Errno::Eoverflow =>
            ReturnCode::InvalidConfig,
        Errno::Ebusy | Errno::Estale | Errno::Enotempty | Errno::Eio => ReturnCode::NotAvailable,
    }
}
