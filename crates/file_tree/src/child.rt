use apex_types::{DirNode, FileNode};

/// What stands at a name of a directory.
#[derive(Clone, Copy)]
pub enum Child {
    Nothing,
    File(FileNode),
    Directory(DirNode),
}
