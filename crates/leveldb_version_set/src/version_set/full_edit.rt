//! One edit that has all that a store's files are, and what it becomes by another.
// LevelDB: db/version_set.cc, VersionSet::WriteSnapshot
ghost use Rattle.std.specs.Prelude.{◌≡◌, ◌≤◌, ◌+◌, fold, map, vec_len, vec_capacity, OnOk, IfErr};
ghost use Rattle.leveldb_base.specs.Error.{IsOutOfMemory};
ghost use Rattle.leveldb_version.specs.Edits.VersionEdit.{edit_of, new_file_of, pointer_of};
ghost use Rattle.leveldb_version.specs.Edits.FullEdit.{files_without, files_with, pointers_with, full_after, HasRoomForEdit};

use leveldb_base::error::Result;
use leveldb_base::types::{FileMetaData, FileNum};
use leveldb_version::version_edit::{CompactionPointer, VersionEdit};
use std::collections::BTreeSet;

/// Takes the memory for the pointers and the files of one more edit.
pub(super) fn reserve(full: &mut VersionEdit, edit: &VersionEdit) -> Result<()>
    ensures same { edit_of full.new ≡ edit_of full.old }
    ensures room { OnOk result (HasRoomForEdit full.new edit.now) }
    ensures memory { IfErr result IsOutOfMemory }
{
    full.compaction_ptrs.reserve(edit.compaction_ptrs.len())?;
    full.new_files.reserve(edit.new_files.len())?;
    Ok(())
}

/// Makes the full edit one of what one more edit leaves. It takes no memory.
pub(super) fn apply_reserved(full: &mut VersionEdit, edit: VersionEdit)
    requires { HasRoomForEdit full.old edit }
    ensures { edit_of full.new ≡ full_after (edit_of full.old) (edit_of edit) }
{
    full.comparator = edit.comparator.or(full.comparator.take());
    add_pointers(&mut full.compaction_ptrs, edit.compaction_ptrs);
    remove_files(&mut full.new_files, &edit.deleted);
    add_files(&mut full.new_files, edit.new_files);
}

/// Puts each pointer in the place of the one of its level. It takes no memory.
pub(super) fn add_pointers(pointers: &mut Vec<CompactionPointer>, added: Vec<CompactionPointer>)
    requires { vec_len pointers.old + vec_len added ≤ vec_capacity pointers.old }
    ensures { map pointer_of pointers.new.items
        ≡ fold pointers_with (map pointer_of pointers.old.items) (map pointer_of added.items) }
{
    for pointer in added {
        add_pointer(pointers, pointer);
    }
}

fn add_pointer(pointers: &mut Vec<CompactionPointer>, pointer: CompactionPointer)
    requires { vec_len pointers.old + 1 ≤ vec_capacity pointers.old }
    ensures pointers { map pointer_of pointers.new.items
        ≡ pointers_with (map pointer_of pointers.old.items) (pointer_of pointer) }
    ensures length { vec_len pointers.new ≤ vec_len pointers.old + 1 }
    ensures capacity { vec_capacity pointers.old ≤ vec_capacity pointers.new }
{
    let level = pointer.level;
    pointers.retain(|other| !(other.level == level));
    let _ = pointers.push(pointer);
}

// Takes out these files.
fn remove_files(files: &mut Vec<(usize, FileMetaData)>, deleted: &BTreeSet<(usize, FileNum)>)
    ensures files { map new_file_of files.new.items
        ≡ fold files_without (map new_file_of files.old.items) deleted.now.keys }
    ensures length { vec_len files.new ≤ vec_len files.old }
    ensures capacity { vec_capacity files.old ≤ vec_capacity files.new }
{
    for file in deleted {
        remove_file(files, *file);
    }
}

// Takes out the file of a level and a number.
fn remove_file(files: &mut Vec<(usize, FileMetaData)>, removed: (usize, FileNum))
    ensures files { map new_file_of files.new.items
        ≡ files_without (map new_file_of files.old.items) removed }
    ensures length { vec_len files.new ≤ vec_len files.old }
    ensures capacity { vec_capacity files.old ≤ vec_capacity files.new }
{
    files.retain(|file| !(file.0 == removed.0 && file.1.num == removed.1));
}

// Puts each file in the place of the one of its level and number.
fn add_files(files: &mut Vec<(usize, FileMetaData)>, added: Vec<(usize, FileMetaData)>)
    requires { vec_len files.old + vec_len added ≤ vec_capacity files.old }
    ensures { map new_file_of files.new.items
        ≡ fold files_with (map new_file_of files.old.items) (map new_file_of added.items) }
{
    for file in added {
        add_file(files, file);
    }
}

fn add_file(files: &mut Vec<(usize, FileMetaData)>, file: (usize, FileMetaData))
    requires { vec_len files.old + 1 ≤ vec_capacity files.old }
    ensures files { map new_file_of files.new.items
        ≡ files_with (map new_file_of files.old.items) (new_file_of file) }
    ensures length { vec_len files.new ≤ vec_len files.old + 1 }
    ensures capacity { vec_capacity files.old ≤ vec_capacity files.new }
{
    remove_file(files, (file.0, file.1.num));
    let _ = files.push(file);
}
