/// Whether an entry is a file's or a directory's.
#[derive(Clone, Copy)]
pub enum Kind {
    File,
    Directory,
}
