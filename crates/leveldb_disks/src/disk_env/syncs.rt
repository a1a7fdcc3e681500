//! What is left to be done where a sync failed.
// LevelDB: util/env_posix.cc, PosixWritableFile::SyncFd
use super::system::SystemFile;
use std::alloc::Global;
use std::collections::BTreeSet;
use std::io;

/// The syncs that failed: of folders after a change of a name, and of files after appends.
#[derive(Drop)]
pub(super) struct FailedSyncs<F> {
    // Folders with a changed name, and files that were emptied. A crash may undo the change until
    // one of their syncs is Ok. No call leaves more than two.
    owed: Option<F>,
    other_owed: Option<F>,

    // Files, as pairs of device and inode, of which the system may have dropped appended bytes.
    lossy: BTreeSet<(u64, u64)>,

    // whether there are others of these, which couldn't be noted
    any_lossy: bool,
}

impl<F: SystemFile> FailedSyncs<F> {
    pub(super) fn new(alloc: Global) -> FailedSyncs<F> {
        FailedSyncs {
            owed: None,
            other_owed: None,
            lossy: BTreeSet::new(alloc),
            any_lossy: false,
        }
    }

    /// Syncs a folder after a change of a name in it, or a file after it was emptied, and gives it
    /// back. Where that fails the sync is owed.
    pub(super) fn sync_change(&mut self, changed: F) -> io::Result<F> {
        match changed.sync_all() {
            Ok(()) => Ok(changed),
            Err(error) => {
                if self.owed.is_none() {
                    self.owed = Some(changed);
                } else {
                    self.other_owed = Some(changed);
                }
                Err(error)
            }
        }
    }

    /// Makes the syncs that are owed. Each call that looks at a name does so first: what it then
    /// finds stays so in a crash.
    pub(super) fn pay(&mut self) -> io::Result<()> {
        if let Some(changed) = &self.owed {
            changed.sync_all()?;
            self.owed = None;
        }
        if let Some(changed) = &self.other_owed {
            changed.sync_all()?;
            self.other_owed = None;
        }
        Ok(())
    }

    /// Appends to a file, unless one of its syncs failed.
    pub(super) fn append(&self, file: &mut F, bytes: &[u8]) -> io::Result<()> {
        self.refuse_lossy(file)?;
        file.write_all(bytes)
    }

    /// Syncs what was appended to a file, unless one of its syncs failed.
    pub(super) fn sync(&mut self, file: &F) -> io::Result<()> {
        self.refuse_lossy(file)?;
        let synced = file.sync_data();
        if synced.is_err() {
            self.note_lossy(file);
        }
        synced
    }

    /// Whether a sync of the file failed. From then on the system may take pages for written that
    /// aren't on the disk, so a later sync says nothing.
    pub(super) fn is_lossy(&self, file: &F) -> io::Result<bool> {
        if self.any_lossy || self.lossy.is_empty() {
            return Ok(self.any_lossy);
        }
        let node = node_of(file)?;
        Ok(self.lossy.contains(&node))
    }

    /// Notes that this is another file than the one that had its inode.
    pub(super) fn note_new(&mut self, file: &F) {
        if self.lossy.is_empty() {
            return;
        }
        if let Ok(node) = node_of(file) {
            self.lossy.remove(&node);
        }
    }

    fn refuse_lossy(&self, file: &F) -> io::Result<()> {
        if self.is_lossy(file)? {
            return Err(io::Error::other("an earlier sync failed: open it again"));
        }
        Ok(())
    }

    fn note_lossy(&mut self, file: &F) {
        let is_noted = match node_of(file) {
            Ok(node) => self.lossy.insert(node).is_ok(),
            Err(_) => false,
        };
        if !is_noted {
            self.any_lossy = true;
        }
    }
}

fn node_of(file: &impl SystemFile) -> io::Result<(u64, u64)> {
    let node = file.node()?;
    Ok((node.device, node.inode))
}
