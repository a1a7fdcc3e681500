//! The calls of the system that an environment over real files makes, as traits: whoever can make
//! them has the environment.
// LevelDB: util/env_posix.cc
ghost use Rattle.std.specs.Prelude.{◌≤◌, length, IfOk};

use std::alloc::Global;
use std::io::{self, Read, Write};
use std::time::Duration;

/// How a file is opened.
#[derive(Clone, Copy, PartialEq)]
pub enum Opening {
    /// A file that is there, to be read; or a folder, to be synced.
    ToRead,
    /// A file that is there, to be read and appended to.
    ToAppend,
    /// The same; a missing file is created, with the mode 0644.
    ToAppendOrCreate,
    /// The same of a name that is missing. One that is there is an error.
    ToCreate,
}

/// What a name is of.
#[derive(Clone, Copy, PartialEq)]
pub enum Kind {
    /// A regular file.
    File,
    /// A folder.
    Folder,
    /// A pipe, a device or the like.
    Other,
}

/// What the system says of a name or of an open file.
#[derive(Clone, Copy)]
pub struct Node {
    /// What it is.
    pub kind: Kind,
    /// How many bytes a file has.
    pub size: u64,
    /// How many names it has; a folder without folders in it has 2.
    pub links: u64,
    /// The device that it is on.
    pub device: u64,
    /// Its number on the device.
    pub inode: u64,
    /// Who may read and write it.
    pub mode: u32,
}

/// An open file or folder of the system. It is closed where it is dropped.
pub trait SystemFile: Read + Write + Drop {
    /// Reads from an offset on. The offset of `Read` stays.
    fn read_at(&self, target: &mut [u8], offset: u64) -> io::Result<usize>
        ensures fits { IfOk result (λ n. n ≤ length target.new) };

    /// What it is.
    fn node(&self) -> io::Result<Node>;

    /// Sets who may read and write it.
    fn set_mode(&self, mode: u32) -> io::Result<()>;

    /// Takes all bytes away.
    fn empty(&self) -> io::Result<()>;

    /// Syncs its bytes, and all that is said of it.
    fn sync_all(&self) -> io::Result<()>;

    /// Syncs its bytes.
    fn sync_data(&self) -> io::Result<()>;

    /// Locks the file, unless another opening of it holds the lock. Returns whether it did.
    fn try_lock(&self) -> io::Result<bool>;

    /// Frees the lock of this opening.
    fn unlock(&self) -> io::Result<()>;
}

/// The files of a system, by name. No call syncs anything.
pub trait System {
    /// An open file or folder.
    type File: SystemFile;

    /// Opens a file or a folder.
    fn open(&self, name: &str, opening: Opening) -> io::Result<Self::File>;

    /// What has the name, or is where a link of that name leads.
    fn node_of(&self, name: &str) -> io::Result<Node>;

    /// The names in a folder that are texts; those of folders are left out if that is asked for.
    /// Where a link leads isn't looked at.
    fn list(&self, alloc: Global, folder: &str, no_folders: bool) -> io::Result<Vec<String>>;

    /// Whether another process locks the file in a way that `SystemFile::try_lock` doesn't see, as
    /// far as the system says.
    fn others_lock(&self, file: &Self::File) -> io::Result<bool>;

    /// Takes a file's name away.
    fn delete(&self, name: &str) -> io::Result<()>;

    /// Renames a file, which replaces what has the new name.
    fn rename(&self, from: &str, to: &str) -> io::Result<()>;

    /// Makes a folder, with the mode 0755.
    fn make_folder(&self, folder: &str) -> io::Result<()>;

    /// Removes a folder with all that is in it. No link is followed.
    fn remove_folder(&self, alloc: Global, folder: &str) -> io::Result<()>;

    /// The time since 1970.
    fn now(&self) -> io::Result<Duration>;
}
