//! The files that the program reads and writes.

use std::alloc::Global;
use std::fs::{self, File, OpenOptions};
use std::io::{self, Read, Write};
use std::path::PathBuf;
use std::rt::Files;

/// A store of files with paths, which threads share.
pub trait Storage: Sync {
    /// A file that is open for reading.
    type Source: Read + Send + Drop;

    /// A file that is open for writing.
    type Sink: Write + Send + Drop;

    fn open(&self, path: &str) -> io::Result<Self::Source>;

    /// Creates a file, or empties it if there is one.
    fn create(&self, path: &str) -> io::Result<Self::Sink>;

    /// Creates a file at a path that does not exist. If it does, the error is `AlreadyExists`.
    fn create_new(&self, path: &str) -> io::Result<Self::Sink>;

    /// Checks whether `path` leads to a plain file that is not empty.
    fn has_content(&self, path: &str) -> bool;

    /// Errs if the file at `path` can't be opened for writing. Leaves it as it is.
    fn test_write(&self, path: &str) -> io::Result<()>;

    /// Gives the file at `to` the permissions of the file at `from`.
    fn copy_permissions(&self, from: &str, to: &str) -> io::Result<()>;

    /// Creates a folder in one that exists.
    fn create_folder(&self, path: &str) -> io::Result<()>;

    /// Moves the file at `from` to `to`, and replaces a file that is there.
    fn rename(&self, from: &str, to: &str) -> io::Result<()>;

    fn remove(&self, path: &str) -> io::Result<()>;

    /// Removes an empty folder.
    fn remove_folder(&self, path: &str) -> io::Result<()>;

    /// Returns the canonical path of a file that exists, without dots and symbolic links.
    fn canonical_path(&self, alloc: Global, path: &str) -> io::Result<PathBuf>;
}

/// The files of the system.
#[derive_where(Clone, Copy)]
pub struct Disk<'a, R> {
    pub rt: &'a R,
}

impl<R: Files + Sync> Storage for Disk<'_, R>
where
    R::File: Send,
{
    type Source = R::File;

    type Sink = R::File;

    fn open(&self, path: &str) -> io::Result<R::File> {
        fs::open(self.rt, path)
    }

    fn create(&self, path: &str) -> io::Result<R::File> {
        fs::create(self.rt, path)
    }

    fn create_new(&self, path: &str) -> io::Result<R::File> {
        File::create_new(self.rt, path)
    }

    fn has_content(&self, path: &str) -> bool {
        match self.rt.metadata(path) {
            Ok(metadata) => metadata.is_file() && metadata.len() > 0,
            Err(_) => false,
        }
    }

    fn test_write(&self, path: &str) -> io::Result<()> {
        let opened = OpenOptions::new().write(true).open(self.rt, path)?;
        Ok(drop(opened))
    }

    fn copy_permissions(&self, from: &str, to: &str) -> io::Result<()> {
        let metadata = self.rt.metadata(from)?;
        self.rt.set_permissions(to, metadata.permissions())
    }

    fn create_folder(&self, path: &str) -> io::Result<()> {
        fs::create_dir(self.rt, path)
    }

    fn rename(&self, from: &str, to: &str) -> io::Result<()> {
        self.rt.rename(from, to)
    }

    fn remove(&self, path: &str) -> io::Result<()> {
        self.rt.remove_file(path)
    }

    fn remove_folder(&self, path: &str) -> io::Result<()> {
        self.rt.remove_dir(path)
    }

    fn canonical_path(&self, alloc: Global, path: &str) -> io::Result<PathBuf> {
        self.rt.canonicalize(alloc, path)
    }
}
