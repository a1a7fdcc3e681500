//! The calls of the system by `std`, for programs, whose `main` is given a `HostRuntime`.
// LevelDB: util/env_posix.cc
use super::system::{Kind, Node, Opening, System, SystemFile};
use leveldb_base::error::Result;
use std::alloc::{AllocError, Global};
use std::fs::{DirBuilder, DirEntry, File, Metadata, OpenOptions, Permissions, TryLockError};
use std::os::fd::{AsRawFd, IntoRawFd};
use std::os::unix::fs::{DirBuilderExt, FileExt, MetadataExt, OpenOptionsExt, PermissionsExt};
use std::rt::{Clock, Files};
use std::time::Duration;
use std::{fs, io};

fn node_by(metadata: &Metadata) -> Node {
    let kind = if metadata.is_dir() {
        Kind::Folder
    } else if metadata.is_file() {
        Kind::File
    } else {
        Kind::Other
    };
    Node {
        kind,
        size: metadata.len(),
        links: metadata.nlink(),
        device: metadata.dev(),
        inode: metadata.ino(),
        mode: metadata.permissions().mode(),
    }
}

impl SystemFile for File {
    fn read_at(&self, target: &mut [u8], offset: u64) -> io::Result<usize> {
        FileExt::read_at(self, target, offset)
    }

    fn node(&self) -> io::Result<Node> {
        Ok(node_by(&self.metadata()?))
    }

    fn set_mode(&self, mode: u32) -> io::Result<()> {
        self.set_permissions(Permissions::from_mode(mode))
    }

    fn empty(&self) -> io::Result<()> {
        self.set_len(0)
    }

    fn sync_all(&self) -> io::Result<()> {
        File::sync_all(self)
    }

    fn sync_data(&self) -> io::Result<()> {
        File::sync_data(self)
    }

    fn try_lock(&self) -> io::Result<bool> {
        match File::try_lock(self) {
            Ok(()) => Ok(true),
            Err(TryLockError::WouldBlock) => Ok(false),
            Err(TryLockError::Error(error)) => Err(error),
        }
    }

    fn unlock(&self) -> io::Result<()> {
        File::unlock(self)
    }
}

fn options_of(opening: Opening) -> OpenOptions {
    let mut options = OpenOptions::new();
    options.read(true).mode(0o644);
    match opening {
        Opening::ToRead => {}
        Opening::ToAppend => {
            options.append(true);
        }
        Opening::ToAppendOrCreate => {
            options.append(true).create(true);
        }
        Opening::ToCreate => {
            options.append(true).create_new(true);
        }
    }
    options
}

// Where its kind can't be found out, it counts as a file.
fn is_folder_itself<R: Files>(entry: &DirEntry<R, R::A>) -> bool
where
    R: Alloc,
{
    match entry.file_type() {
        Ok(kind) => kind.is_dir(),
        Err(_) => false,
    }
}

// How a file is named in a line of `/proc/locks`: by its device's two numbers and its own.
fn node_in_locks(alloc: Global, metadata: &Metadata) -> std::result::Result<String, AllocError> {
    let device = metadata.dev();
    let major = ((device >> 32) & 0xffff_f000) | ((device >> 8) & 0xfff);
    let minor = ((device >> 12) & 0xffff_ff00) | (device & 0xff);
    let inode = metadata.ino();
    format!(in alloc; " {major:02x}:{minor:02x}:{inode} ")
}

// Whether a line is of this file's lock by `fcntl`, a process's or an open file's.
fn names_lock(locks: &str, node: &str) -> bool {
    for line in locks.lines() {
        let is_by_fcntl = line.contains(" POSIX ") || line.contains(" OFDLCK ");
        if is_by_fcntl && line.contains(node) {
            return true;
        }
    }
    false
}

impl<R: Files<File = File> + Clock + AllocGlobal + Clone + Drop> System for R {
    type File = File;

    fn open(&self, name: &str, opening: Opening) -> io::Result<File> {
        options_of(opening).open(self, name)
    }

    fn node_of(&self, name: &str) -> io::Result<Node> {
        Ok(node_by(&fs::metadata(self, name)?))
    }

    fn list(&self, alloc: Global, folder: &str, no_folders: bool) -> io::Result<Vec<String>> {
        let mut names = Vec::new(alloc);
        for entry in fs::read_dir(self, folder)? {
            match entry {
                Ok(entry) => {
                    if !(no_folders && is_folder_itself(&entry)) {
                        names.push(String::from_str(alloc, entry.file_name())?)?;
                    }
                }
                Err(error) if error.kind() == io::ErrorKind::InvalidFilename => {}
                Err(error) => return Err(error),
            }
        }
        Ok(names)
    }

    // C++ LevelDB locks by `fcntl`, which `flock` doesn't see.
    fn others_lock(&self, file: &File) -> io::Result<bool> {
        let node = node_in_locks(self.alloc(), &file.metadata()?)?;
        match fs::read_to_string(self, "/proc/locks") {
            Ok(locks) => Ok(names_lock(locks.as_str(), node.as_str())),
            Err(error) if error.kind() == io::ErrorKind::OutOfMemory => Err(error),
            Err(_) => Ok(false),
        }
    }

    fn delete(&self, name: &str) -> io::Result<()> {
        fs::remove_file(self, name)
    }

    fn rename(&self, from: &str, to: &str) -> io::Result<()> {
        fs::rename(self, from, to)
    }

    fn make_folder(&self, folder: &str) -> io::Result<()> {
        DirBuilder::new().mode(0o755).create(self, folder)
    }

    fn remove_folder(&self, _alloc: Global, folder: &str) -> io::Result<()> {
        fs::remove_dir_all(self, folder)
    }

    fn now(&self) -> io::Result<Duration> {
        self.since_1970()
    }
}

// Opens `/dev/null`, and leaves it open if its descriptor is at most this one. Returns whether it
// is.
fn leave_open(files: &impl Files<File = File>, how: &OpenOptions, most: i32) -> io::Result<bool> {
    let file = how.open(files, "/dev/null")?;
    if file.as_raw_fd() > most {
        return Ok(false);
    }
    file.into_raw_fd();
    Ok(true)
}

/// Keeps the descriptors 0 to 2 from files that are opened later, so that nothing which is printed
/// goes into a store. Call it first in a program: where standard input, output or error is closed,
/// it opens `/dev/null` in its place, such that it can't be read or written either.
pub fn reserve_descriptors(files: &impl Files<File = File>) -> Result<()> {
    leave_open(files, OpenOptions::new().write(true), 0)?;
    for _ in 0..3 {
        if !leave_open(files, OpenOptions::new().read(true), 2)? {
            break;
        }
    }
    Ok(())
}
