//! The next version: what an edit leaves of one.
// LevelDB: db/version_set.cc, VersionSet::Builder
ghost use Rattle.std.specs.Prelude.{◌≡◌, IfErr, IfOk, OnOk, fold, map};
ghost use Rattle.std.specs.List.{list_any};
ghost use Rattle.leveldb_base.specs.Error.{IsOutOfMemory};
ghost use Rattle.leveldb_version.specs.Versions.Change.{IsVersionAfter, VersionsFollowEdits, chosen_after, version_files_with, version_files_without};
ghost use Rattle.leveldb_version.specs.Versions.Version.{FilesFit};
ghost use Rattle.leveldb_version.specs.Edits.VersionEdit.{edit_of, new_file_of};
ghost use Rattle.leveldb_files.specs.Edits.VersionSet.{is_same_file};

use super::Version;
use super::order::sort_files;
use super::seeks::with_first_seeks;
use crate::version_edit::VersionEdit;
use leveldb_base::cmp::UserCmp;
use leveldb_base::error::Result;
use leveldb_base::types::{FileMetaData, FileNum};
use std::alloc::Global;
use std::collections::BTreeSet;

impl<C: UserCmp> Version<C> {
    /// A copy of the version after an edit: without the files that the edit deletes, and with
    /// copies of those that it adds. These get their first seeks, and the others keep the seeks
    /// that they have left. The file that was chosen for a compaction stays chosen unless the edit
    /// deletes it.
    pub fn with_edit(&self, alloc: Global, edit: &VersionEdit) -> Result<Version<C>>
    where
        C: Copy + Drop,
        ensures ok { IfOk result
            (IsVersionAfter (C.cmp self.now.cmp) (edit_of edit.now) self.now) }
        ensures fit { IfOk result (λ version. FilesFit version.files) }
        ensures memory { IfErr result IsOutOfMemory }
    {
        let mut files = self.files.to_vec(alloc)?;
        remove_files(&mut files, &edit.deleted);
        add_files(&mut files, edit.new_files.as_slice())?;
        sort_files(&self.cmp, &mut files)?;
        Ok(Version {
            cmp: self.cmp,
            files,
            chosen: chosen_after(self.chosen, &edit.deleted),
        })
    }
}

// Takes out these files.
fn remove_files(files: &mut Vec<(usize, FileMetaData)>, deleted: &BTreeSet<(usize, FileNum)>)
    ensures files { files.new.items
        ≡ fold version_files_without files.old.items deleted.now.keys }
    ensures fit { FilesFit files.old.items → FilesFit files.new.items }
{
    for file in deleted {
        remove_file(files, *file);
    }
}

// Takes out the file of a level and a number.
fn remove_file(files: &mut Vec<(usize, FileMetaData)>, removed: (usize, FileNum))
    ensures files { files.new.items ≡ version_files_without files.old.items removed }
    ensures fit { FilesFit files.old.items → FilesFit files.new.items }
{
    files.retain(|file| !(file.0 == removed.0 && file.1.num == removed.1));
}

// Puts a copy of each file, with its first seeks, in the place of the one of its level and number.
fn add_files(files: &mut Vec<(usize, FileMetaData)>, added: &[(usize, FileMetaData)]) -> Result<()>
    ensures files { OnOk result
        (files.new.items ≡ fold version_files_with files.old.items (map new_file_of added.now)) }
    ensures fit { OnOk result (FilesFit files.old.items → FilesFit files.new.items) }
    ensures memory { IfErr result IsOutOfMemory }
{
    for file in added {
        add_file(files, file)?;
    }
    Ok(())
}

fn add_file(files: &mut Vec<(usize, FileMetaData)>, file: &(usize, FileMetaData)) -> Result<()>
    ensures files { OnOk result
        (files.new.items ≡ version_files_with files.old.items (new_file_of file.now)) }
    ensures fit { OnOk result (FilesFit files.old.items → FilesFit files.new.items) }
    ensures memory { IfErr result IsOutOfMemory }
{
    let copy = with_first_seeks(file.0, &file.1)?;
    remove_file(files, (file.0, file.1.num));
    files.push(copy)?;
    Ok(())
}

// The file that is chosen after these are deleted: the one that was, unless it is among them.
fn chosen_after(
    chosen: Option<(usize, FileNum)>,
    deleted: &BTreeSet<(usize, FileNum)>,
) -> Option<(usize, FileNum)>
    ensures { result ≡ chosen_after deleted.now.keys chosen }
{
    let at = chosen?;
    if is_among(at, deleted) {
        None
    } else {
        Some(at)
    }
}

fn is_among(at: (usize, FileNum), files: &BTreeSet<(usize, FileNum)>) -> bool
    ensures { result ≡ list_any (λ other. is_same_file at other) files.now.keys }
{
    for file in files {
        if at.0 == file.0 && at.1 == file.1 {
            return true;
        }
    }
    false
}

/// Where a version has the files of a set, in whatever order, it has them after an edit, too.
pub fn versions_follow_edits<C: UserCmp>()
    ensures { VersionsFollowEdits C }
{}
