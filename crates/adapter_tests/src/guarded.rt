//! Files of the system behind a guard.
use std::alloc::Allocator;
use std::cell::Cell;
use std::fs::{Metadata, OpenOptions};
use std::io;
use std::io::ErrorKind;
use std::rt::Files;

/// Files of the system, which may be changed or not. The first opening of a folder is refused.
#[derive(Drop)]
pub struct Guarded<'a, R> {
    files: &'a R,
    may_change: bool,
    folders_opened: Cell<u64>,
}

impl<'a, R: Files> Guarded<'a, R> {
    pub fn new(files: &'a R, may_change: bool) -> Guarded<'a, R> {
        Guarded {
            files,
            may_change,
            folders_opened: Cell::new(0),
        }
    }

    /// How often a folder was opened, with the first time.
    pub fn folders_opened(&self) -> u64 {
        self.folders_opened.get()
    }

    fn is_folder(&self, path: &str) -> bool {
        match self.files.metadata(path) {
            Ok(found) => found.is_dir(),
            Err(_) => false,
        }
    }

    /// Whether an opening is refused.
    fn refuses(&self, how: &OpenOptions, path: &str) -> bool {
        if self.is_folder(path) {
            self.folders_opened
                .set(self.folders_opened.get().saturating_add(1));
            return self.folders_opened.get() == 1;
        }
        how.asks_write() && !self.may_change
    }
}

impl<'a, R: Files> Files for Guarded<'a, R> {
    type File = R::File;

    type Dir = R::Dir;

    fn open_file(&self, how: &OpenOptions, path: &str) -> io::Result<R::File> {
        if self.refuses(how, path) {
            return Err(io::Error::from(ErrorKind::PermissionDenied));
        }
        self.files.open_file(how, path)
    }

    fn open_dir(&self, path: &str) -> io::Result<R::Dir> {
        self.files.open_dir(path)
    }

    fn metadata(&self, path: &str) -> io::Result<Metadata> {
        self.files.metadata(path)
    }

    fn symlink_metadata(&self, path: &str) -> io::Result<Metadata> {
        self.files.symlink_metadata(path)
    }

    fn copy(&self, from: &str, to: &str) -> io::Result<u64> {
        self.files.copy(from, to)
    }

    fn rename(&self, from: &str, to: &str) -> io::Result<()> {
        self.files.rename(from, to)
    }

    fn remove_file(&self, path: &str) -> io::Result<()> {
        self.files.remove_file(path)
    }

    fn create_dir(&self, path: &str) -> io::Result<()> {
        self.files.create_dir(path)
    }

    fn remove_dir(&self, path: &str) -> io::Result<()> {
        self.files.remove_dir(path)
    }

    fn remove_dir_all<B: Allocator>(&self, alloc: B, path: &str) -> io::Result<()> {
        self.files.remove_dir_all(alloc, path)
    }
}
