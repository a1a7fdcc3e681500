//! The numbers of a store's files: those of names, and those that manifests name.
// LevelDB: db/repair.cc, Repairer::FindFiles
ghost use Rattle.std.specs.Prelude.{◌≡◌, IfErr, IfOk, MatchOption, fold, map, max};
ghost use Rattle.leveldb_base.specs.Error.{IsOutOfMemory};
ghost use Rattle.leveldb_files.specs.Edits.Edit.{Edit, IsEdit};
ghost use Rattle.leveldb_repair.specs.Numbers.{FindsGreatest, IsGreatestNumber, IsNumberInRecords, IsRaised, RaisesToFile};
ghost use Rattle.leveldb_version.specs.Edits.VersionEdit.{edit_of, new_file_of};
ghost use Rattle.leveldb_version_set.specs.Repairs.Repairing.{numbers_in};

use crate::folder::path_in;
use leveldb_base::error::{Result, StatusCode};
use leveldb_base::types::{FileMetaData, FileNum, FileType};
use leveldb_env::env::Env;
use leveldb_env::env::whole_files::read_file;
use leveldb_mem::log::read_records;
use leveldb_store::opening::listing::ListedFile;
use leveldb_version::version_edit::VersionEdit;
use std::alloc::Global;

/// The greatest number that the name of one of these files has, of whatever type it is; 0 where
/// there is none.
pub fn greatest_number(files: &[ListedFile]) -> FileNum
    ensures { IsGreatestNumber files.now result }
{
    let mut greatest = 0;
    for file in files {
        greatest = greatest.max(file.number);
    }
    greatest
}

/// The greatest number that the name of one of these files of a store's folder has, or that a
/// manifest among them names: the number of a log, of a file that an edit adds, or the one before
/// the next file's. The numbers of a repair's files are above it, so that none of them is taken for
/// a file that a manifest names and that is missing.
/// A manifest is read up to its first bad end. One with a record that is no edit names no number:
/// no store opens with it. `Corruption` where one is missing.
pub fn greatest_in_folder<E: Env>(
    alloc: Global,
    env: &mut E,
    store: &str,
    files: &[ListedFile],
) -> Result<FileNum>
    ensures { FindsGreatest E.Env store.now files.now env.old result env.new }
{
    let mut greatest = greatest_number(files);
    for file in files {
        greatest = raised_to_file(alloc, env, store, file, greatest)?;
    }
    Ok(greatest)
}

// The greatest of a number and of those that a file names, if it is a manifest.
fn raised_to_file<E: Env>(
    alloc: Global,
    env: &mut E,
    store: &str,
    file: &ListedFile,
    least: FileNum,
) -> Result<FileNum>
    ensures { RaisesToFile E.Env store.now file.now least env.old result env.new }
{
    let FileType::Descriptor = file.kind else {
        return Ok(least);
    };
    let path = path_in(alloc, store, &file.name)?;
    let text = read_file(alloc, env, &path)?;
    let mut source: &[u8] = &text;
    let (records, _) = read_records(alloc, &mut source, true)?;
    raised_to_records(alloc, records.as_slice(), least)
}

// The greatest of a number and of those in the edits that records are. It is the number itself
// where one of them is no edit.
fn raised_to_records(alloc: Global, records: &[Vec<u8>], least: FileNum) -> Result<FileNum>
    ensures ok { IfOk result (λ number.
        IsRaised (IsNumberInRecords (map (λ v. v.items) records.now)) least number) }
    ensures memory { IfErr result IsOutOfMemory }
{
    let mut greatest = least;
    for record in records {
        let Some(edit) = edit_in(alloc, record.as_slice())? else {
            return Ok(least);
        };
        greatest = raised_to_edit(&edit, greatest);
    }
    Ok(greatest)
}

// The edit that a record encodes, if it is one.
fn edit_in(alloc: Global, bytes: &[u8]) -> Result<Option<VersionEdit>>
    ensures ok { IfOk result (λ found. MatchOption found
        ((edit : Edit) → ¬ IsEdit bytes.now edit) (λ edit. IsEdit bytes.now (edit_of edit))) }
    ensures memory { IfErr result IsOutOfMemory }
{
    match VersionEdit::decode_from(alloc, bytes) {
        Ok(edit) => Ok(Some(edit)),
        Err(status) if status.code == StatusCode::Corruption => Ok(None),
        Err(status) => Err(status),
    }
}

// The greatest of a number and of those in an edit.
fn raised_to_edit(edit: &VersionEdit, least: FileNum) -> FileNum
    ensures { result ≡ fold max least (numbers_in (edit_of edit.now)) }
{
    let log = edit.log_number.unwrap_or(0);
    let previous = edit.prev_log_number.unwrap_or(0);
    let next = edit.next_file_number.unwrap_or(0);
    let greatest = least.max(log).max(previous).max(next.saturating_sub(1));
    raised_to_files(edit.new_files.as_slice(), greatest)
}

// The greatest of a number and of those of files.
fn raised_to_files(files: &[(usize, FileMetaData)], least: FileNum) -> FileNum
    ensures { result ≡ fold max least (map (λ file. file.number) (map new_file_of files.now)) }
{
    let mut greatest = least;
    for (_, file) in files {
        greatest = greatest.max(file.num);
    }
    greatest
}
