//! Which files overlap a range of user keys.
// LevelDB: db/version_set.cc, SomeFileOverlapsRange
ghost use Rattle.std.specs.Prelude.{◌≡◌, ◌&&◌, IfErr, IfOk, filter, find, map};
ghost use Rattle.std.specs.List.{list_any};
ghost use Rattle.std.specs.Option.{option_copied, option_map};
ghost use Rattle.leveldb_base.specs.Error.{IsOutOfMemory};
ghost use Rattle.leveldb_files.specs.Levels.Overlap.{IsWidened, overlaps, sticks_out};
ghost use Rattle.leveldb_files.specs.Levels.Summary.{total_size};
ghost use Rattle.leveldb_version.specs.Versions.Version.{borrowed_files};
ghost use Rattle.leveldb_version.specs.Edits.VersionEdit.{new_file_of};

use super::key_range::KeyRange;
use leveldb_base::cmp::{Cmp, UserCmp};
use leveldb_base::error::Result;
use leveldb_base::types::FileMetaData;
use std::alloc::Global;

/// Whether a file overlaps the range.
pub(super) fn is_overlapped<C: Cmp>(
    ucmp: &C,
    files: &[(usize, FileMetaData)],
    range: &KeyRange<'_>,
) -> bool
    ensures { result
        ≡ list_any (overlaps (C.cmp ucmp.now) range.now) (map new_file_of files.now) }
{
    for file in files {
        if range.overlaps(ucmp, file) {
            return true;
        }
    }
    false
}

/// How many bytes the files that overlap the range have together, up to 2^64 - 1.
pub(super) fn overlap_size<C: Cmp>(
    ucmp: &C,
    files: &[(usize, FileMetaData)],
    range: &KeyRange<'_>,
) -> usize
    ensures { result ≡ total_size
        (filter (overlaps (C.cmp ucmp.now) range.now) (map new_file_of files.now)) }
{
    let mut size: usize = 0;
    for file in files {
        if range.overlaps(ucmp, file) {
            size = size.saturating_add(file.1.size);
        }
    }
    size
}

/// The files that overlap the range.
pub(super) fn files_in<'a, C: Cmp>(
    alloc: Global,
    ucmp: &C,
    files: &'a [(usize, FileMetaData)],
    range: &KeyRange<'_>,
) -> Result<Vec<&'a (usize, FileMetaData)>>
    ensures ok { IfOk result (λ found. borrowed_files found.items
        ≡ filter (overlaps (C.cmp ucmp.now) range.now) (map new_file_of files.now)) }
    ensures memory { IfErr result IsOutOfMemory }
{
    let mut found = Vec::new(alloc);
    for file in files {
        if range.overlaps(ucmp, file) {
            found.push(file)?;
        }
    }
    Ok(found)
}

/// Makes the range the least that covers it and that no file sticks out of which overlaps it.
pub(super) fn widen<'a, C: UserCmp>(
    ucmp: &C,
    files: &'a [(usize, FileMetaData)],
    range: &mut KeyRange<'a>,
)
    ensures { IsWidened (C.cmp ucmp.now) (map new_file_of files.now) range.old range.new }
{
    while let Some(file) = first_sticking_out(ucmp, files, range) {
        range.widen(ucmp, file);
    }
}

// The first file that overlaps the range and sticks out of it.
fn first_sticking_out<'a, C: Cmp>(
    ucmp: &C,
    files: &'a [(usize, FileMetaData)],
    range: &KeyRange<'_>,
) -> Option<&'a (usize, FileMetaData)>
    ensures { option_map new_file_of (option_copied result) ≡ find
        (λ file. overlaps (C.cmp ucmp.now) range.now file
        && sticks_out (C.cmp ucmp.now) range.now file) (map new_file_of files.now) }
{
    for file in files {
        if range.overlaps(ucmp, file) && range.sticks_out(ucmp, file) {
            return Some(file);
        }
    }
    None
}
