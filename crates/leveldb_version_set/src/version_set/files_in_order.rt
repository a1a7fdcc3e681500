//! The live files while the edits of a manifest are applied one after another.
// LevelDB: db/version_set.cc, VersionSet::Builder
ghost use Rattle.std.specs.BTreeMap.{get};
ghost use Rattle.std.specs.Prelude.{◌≡◌, [], IfErr, IfOk, None, OnOk, fold, map};
ghost use Rattle.leveldb_base.specs.Error.{IsOutOfMemory};
ghost use Rattle.leveldb_version_set.specs.Sets.FilesInOrder.{ArePlaced, ordered_files};
ghost use Rattle.leveldb_version.specs.Edits.FullEdit.{files_with, files_without};
ghost use Rattle.leveldb_files.specs.Edits.Edit.{file_order};
ghost use Rattle.leveldb_version.specs.Edits.VersionEdit.{new_file_of};

use leveldb_base::error::{Result, Status};
use leveldb_base::types::{FileMetaData, FileNum};
use std::alloc::{AllocError, Global};
use std::collections::{BTreeMap, BTreeSet};

/// The files that edits left so far, in the order in which they were added. One is found by its
/// level and number without going through all.
#[derive(Drop)]
pub(super) struct FilesInOrder {
    // the files, by their places in the order
    files: BTreeMap<u64, (usize, FileMetaData)>,
    // the place of the file of a level and a number
    places: BTreeMap<(usize, FileNum), u64>,
    // the place of the next file, after all others
    next: u64,
}

impl FilesInOrder {
    /// No files.
    pub(super) fn new(alloc: Global) -> FilesInOrder
        ensures none { ordered_files result ≡ [] }
        ensures placed { ArePlaced result }
    {
        FilesInOrder {
            files: BTreeMap::new(alloc),
            places: BTreeMap::new(alloc),
            next: 0,
        }
    }

    /// Takes out the file of a level and a number, if it is there.
    pub(super) fn remove(&mut self, removed: (usize, FileNum))
        requires placed { ArePlaced self.old }
        ensures files { ordered_files self.new ≡ files_without (ordered_files self.old) removed }
        ensures placed { ArePlaced self.new }
        ensures gone { get file_order self.new.places removed ≡ None }
    {
        if let Some(place) = self.places.remove(&removed) {
            let _ = self.files.remove(&place);
        }
    }

    /// Puts a file at the end, in place of the one of its level and number.
    pub(super) fn add(&mut self, file: (usize, FileMetaData)) -> Result<()>
        requires placed { ArePlaced self.old }
        ensures files { OnOk result
            (ordered_files self.new ≡ files_with (ordered_files self.old) (new_file_of file)) }
        ensures placed { OnOk result (ArePlaced self.new) }
        ensures memory { IfErr result IsOutOfMemory }
    {
        let added = (file.0, file.1.num);
        self.remove(added);
        let place = self.next;
        if place == u64::MAX {
            return Err(Status::from(AllocError));
        }
        self.places.insert(added, place)?;
        self.files.insert(place, file)?;
        self.next = place + 1;
        Ok(())
    }

    /// Takes out these files.
    pub(super) fn remove_all(&mut self, removed: &BTreeSet<(usize, FileNum)>)
        requires placed { ArePlaced self.old }
        ensures files { ordered_files self.new
            ≡ fold files_without (ordered_files self.old) removed.now.keys }
        ensures placed { ArePlaced self.new }
    {
        for file in removed {
            self.remove(*file);
        }
    }

    /// Puts files at the end, each in place of the one of its level and number.
    pub(super) fn add_all(&mut self, added: Vec<(usize, FileMetaData)>) -> Result<()>
        requires placed { ArePlaced self.old }
        ensures files { OnOk result (ordered_files self.new
            ≡ fold files_with (ordered_files self.old) (map new_file_of added.items)) }
        ensures placed { OnOk result (ArePlaced self.new) }
        ensures memory { IfErr result IsOutOfMemory }
    {
        for file in added {
            self.add(file)?;
        }
        Ok(())
    }

    /// The files as a list.
    pub(super) fn into_list(self, alloc: Global) -> Result<Vec<(usize, FileMetaData)>>
        ensures files { IfOk result (λ list. map new_file_of list.items ≡ ordered_files self) }
        ensures memory { IfErr result IsOutOfMemory }
    {
        Ok(self.files.into_values().collect(alloc)?)
    }
}
