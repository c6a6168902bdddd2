/// The calls of a disk with its told text, by what they do.
#[derive(Clone, Copy, Debug, PartialEq, Eq)]
pub enum CallKind {
    Read,
    Write,
    Sync,
    Tell,
}
