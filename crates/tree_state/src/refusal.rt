// Why what was asked of a stored tree was not done.
use apex_types::Errno;

/// Why what was asked of a stored tree was not done: it must not be, a read failed, or a write or sync did. Nothing
/// changed in the first two cases; in the third what is kept is of no use for more changes.
#[derive(Clone, Copy, Drop)]
pub enum StateRefusal {
    Refused(Errno),
    ReadFault,
    Device,
}
