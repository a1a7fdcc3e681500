//! The calls of the system that take a name, each with what makes it last.
// LevelDB: util/env_posix.cc
use super::folders::{folder_of, open_folder};
use super::syncs::FailedSyncs;
use super::system::{Kind, Node, Opening, System, SystemFile};
use std::alloc::Global;
use std::io;

/// The regular file of a name, if there is one. A folder is none; a pipe or a device is an error,
/// since opening one may wait, and reading it may never end.
fn file_at(system: &impl System, name: &str) -> io::Result<Node> {
    let node = system.node_of(name)?;
    match node.kind {
        Kind::File => Ok(node),
        Kind::Folder => Err(io::Error::new(io::ErrorKind::NotFound, "it is a folder")),
        Kind::Other => Err(io::Error::other("it is no regular file")),
    }
}

fn is_there(system: &impl System, name: &str) -> io::Result<bool> {
    match file_at(system, name) {
        Ok(_) => Ok(true),
        Err(error) if error.kind() == io::ErrorKind::NotFound => Ok(false),
        Err(error) => Err(error),
    }
}

/// Opens a file that is there, to be read.
pub(super) fn open<S: System>(
    system: &S,
    syncs: &mut FailedSyncs<S::File>,
    name: &str,
) -> io::Result<S::File> {
    syncs.pay()?;
    file_at(system, name)?;
    system.open(name, Opening::ToRead)
}

/// Opens a file, to be appended to; a missing one is created. Its folder is synced where the file
/// is new, and where the folder `is_settled` by no earlier sync. A file of which a sync failed is
/// replaced by a copy first.
pub(super) fn create<S: System>(
    system: &S,
    syncs: &mut FailedSyncs<S::File>,
    alloc: Global,
    name: &str,
    is_settled: bool,
) -> io::Result<S::File> {
    syncs.pay()?;
    if is_there(system, name)? {
        if !is_settled {
            syncs.sync_change(open_folder(system, name)?)?;
        }
        let file = system.open(name, Opening::ToAppend)?;
        return replace_lossy(system, syncs, alloc, name, file);
    }
    let folder = open_folder(system, name)?;
    let file = system.open(name, Opening::ToAppendOrCreate)?;
    syncs.sync_change(folder)?;
    syncs.note_new(&file);
    Ok(file)
}

// The file, if none of its syncs failed; else a synced copy that has its name from now on.
fn replace_lossy<S: System>(
    system: &S,
    syncs: &mut FailedSyncs<S::File>,
    alloc: Global,
    name: &str,
    file: S::File,
) -> io::Result<S::File> {
    if !syncs.is_lossy(&file)? {
        return Ok(file);
    }
    let temp = format!(in alloc; "{name}.dbtmp")?;
    let folder = open_folder(system, name)?;
    let _ = system.delete(temp.as_str());
    match put_copy(system, file, temp.as_str(), name) {
        Ok(copy) => {
            syncs.note_new(&copy);
            syncs.sync_change(folder)?;
            Ok(copy)
        }
        Err(error) => {
            let _ = system.delete(temp.as_str());
            Err(error)
        }
    }
}

// Copies a file under a temporary name, syncs the copy, and renames it.
fn put_copy<S: System>(
    system: &S,
    mut file: S::File,
    temp: &str,
    name: &str,
) -> io::Result<S::File> {
    let mut copy = system.open(temp, Opening::ToCreate)?;
    copy.set_mode(file.node()?.mode)?;
    io::copy(&mut file, &mut copy)?;
    copy.sync_all()?;
    system.rename(temp, name)?;
    Ok(copy)
}

/// The same of a file that is emptied, for good.
pub(super) fn create_empty<S: System>(
    system: &S,
    syncs: &mut FailedSyncs<S::File>,
    alloc: Global,
    name: &str,
    is_settled: bool,
) -> io::Result<S::File> {
    let file = create(system, syncs, alloc, name, is_settled)?;
    if file.node()?.size == 0 {
        return Ok(file);
    }
    file.empty()?;
    syncs.sync_change(file)
}

/// Whether a file has the name.
pub(super) fn exists<S: System>(
    system: &S,
    syncs: &mut FailedSyncs<S::File>,
    name: &str,
) -> io::Result<bool> {
    syncs.pay()?;
    match is_there(system, name) {
        Err(error) if error.kind() == io::ErrorKind::NotADirectory => Ok(false),
        found => found,
    }
}

/// How many bytes the file has.
pub(super) fn size_of<S: System>(
    system: &S,
    syncs: &mut FailedSyncs<S::File>,
    name: &str,
) -> io::Result<usize> {
    syncs.pay()?;
    Ok(file_at(system, name)?.size as usize)
}

/// The names in a folder that are texts, but for those of folders. What a link leads to isn't
/// looked at.
pub(super) fn children<S: System>(
    system: &S,
    syncs: &mut FailedSyncs<S::File>,
    alloc: Global,
    folder: &str,
) -> io::Result<Vec<String>> {
    syncs.pay()?;
    // a folder without folders in it has the links of its own name and of its `.`
    let may_have_folders = system.node_of(folder)?.links != 2;
    system.list(alloc, folder, may_have_folders)
}

/// Removes a file and its name.
pub(super) fn delete<S: System>(
    system: &S,
    syncs: &mut FailedSyncs<S::File>,
    name: &str,
) -> io::Result<()> {
    syncs.pay()?;
    let folder = open_folder(system, name)?;
    system.delete(name)?;
    syncs.sync_change(folder)?;
    Ok(())
}

/// Renames a file.
pub(super) fn rename<S: System>(
    system: &S,
    syncs: &mut FailedSyncs<S::File>,
    from: &str,
    to: &str,
) -> io::Result<()> {
    syncs.pay()?;
    let folder = open_folder(system, to)?;
    if folder_of(from) == folder_of(to) {
        system.rename(from, to)?;
        syncs.sync_change(folder)?;
        return Ok(());
    }
    let old_folder = open_folder(system, from)?;
    system.rename(from, to)?;
    let synced = syncs.sync_change(folder);
    syncs.sync_change(old_folder)?;
    synced?;
    Ok(())
}

/// Removes a folder, where it is there, with all that is in it.
pub(super) fn remove_folder<S: System>(
    system: &S,
    syncs: &mut FailedSyncs<S::File>,
    alloc: Global,
    folder: &str,
) -> io::Result<()> {
    syncs.pay()?;
    match remove_all(system, syncs, alloc, folder) {
        Err(error) if error.kind() == io::ErrorKind::NotFound => Ok(()),
        removed => removed,
    }
}

fn remove_all<S: System>(
    system: &S,
    syncs: &mut FailedSyncs<S::File>,
    alloc: Global,
    folder: &str,
) -> io::Result<()> {
    let above = open_folder(system, folder)?;
    system.remove_folder(alloc, folder)?;
    syncs.sync_change(above)?;
    Ok(())
}

// Locks an open file, unless another opening of it holds a lock. Returns whether it did; a lock that
// is of no use ends where the file is closed.
fn try_lock<S: System>(system: &S, file: &S::File) -> io::Result<bool> {
    Ok(file.try_lock()? && !system.others_lock(file)?)
}

/// Opens a file and locks it; none where another opening of it holds the lock. A missing file is
/// created. Once it is locked its folder is synced: who held the lock before may have ended between
/// a change and its sync.
pub(super) fn lock<S: System>(
    system: &S,
    syncs: &mut FailedSyncs<S::File>,
    name: &str,
) -> io::Result<Option<S::File>> {
    syncs.pay()?;
    let folder = open_folder(system, name)?;
    let is_new = !is_there(system, name)?;
    let opening = if is_new {
        Opening::ToAppendOrCreate
    } else {
        Opening::ToAppend
    };
    let file = system.open(name, opening)?;
    let locked = try_lock(system, &file);
    if is_new || matches!(locked, Ok(true)) {
        syncs.sync_change(folder)?;
    }
    Ok(if locked? { Some(file) } else { None })
}
