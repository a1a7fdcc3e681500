//! Folders, whose syncs make the names in them last.
// LevelDB: util/env_posix.cc, PosixWritableFile::SyncDirIfManifest
use super::syncs::FailedSyncs;
use super::system::{Kind, Opening, System};
use std::io;

/// The folder that a name is in, up to its `/`.
pub(super) fn folder_of(name: &str) -> &str {
    match name.rsplit_once('/') {
        None => ".",
        Some((folder, _)) => name.get(..folder.len().saturating_add(1)).unwrap_or(name),
    }
}

/// Opens the folder of a name, before the name is changed.
pub(super) fn open_folder<S: System>(system: &S, name: &str) -> io::Result<S::File> {
    system.open(folder_of(name), Opening::ToRead)
}

fn is_folder(system: &impl System, path: &str) -> bool {
    match system.node_of(path) {
        Ok(node) => node.kind == Kind::Folder,
        Err(_) => false,
    }
}

// The longest part of a path that is a folder; it is empty where none is.
fn part_there<'a>(system: &impl System, path: &'a str) -> &'a str {
    let mut part = path.trim_end_matches('/');
    for _ in 0..path.len() {
        if is_folder(system, part) {
            break;
        }
        part = match part.rsplit_once('/') {
            None => "",
            Some((above, _)) => above,
        };
    }
    part
}

// Syncs a folder that is there in the one above it: who made it may have ended before its sync.
// One above that can't be read is passed over.
fn keep_folder<S: System>(
    system: &S,
    syncs: &mut FailedSyncs<S::File>,
    folder: &str,
) -> io::Result<()> {
    match open_folder(system, folder) {
        Ok(above) => {
            syncs.sync_change(above)?;
            Ok(())
        }
        Err(error) if error.kind() == io::ErrorKind::PermissionDenied => Ok(()),
        Err(error) => Err(error),
    }
}

fn make_folder<S: System>(
    system: &S,
    syncs: &mut FailedSyncs<S::File>,
    folder: &str,
) -> io::Result<()> {
    let above = open_folder(system, folder)?;
    match system.make_folder(folder) {
        Err(error) if !is_folder(system, folder) => Err(error),
        _ => {
            syncs.sync_change(above)?;
            Ok(())
        }
    }
}

// The same of a folder above the one that is asked for. What is in its place, and no folder, is left
// to that one's error.
fn make_above<S: System>(
    system: &S,
    syncs: &mut FailedSyncs<S::File>,
    above: &str,
) -> io::Result<()> {
    match make_folder(system, syncs, above) {
        Err(error) if error.kind() == io::ErrorKind::AlreadyExists => Ok(()),
        made => made,
    }
}

/// Makes a folder and those above it, where they aren't there. The last one that is there is synced
/// in the one above it first.
pub(super) fn make_folders<S: System>(
    system: &S,
    syncs: &mut FailedSyncs<S::File>,
    folder: &str,
) -> io::Result<()> {
    syncs.pay()?;
    let there = part_there(system, folder);
    if !there.is_empty() {
        keep_folder(system, syncs, there)?;
    }
    for end in there.len().saturating_add(1)..folder.len() {
        match folder.split_at_checked(end) {
            Some((above, rest)) if rest.starts_with('/') => make_above(system, syncs, above)?,
            _ => {}
        }
    }
    if is_folder(system, folder) {
        return Ok(());
    }
    make_folder(system, syncs, folder)
}
