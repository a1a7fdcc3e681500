//! The order of a version's files, and the part that is a level.
// LevelDB: db/version_set.cc, VersionSet::Builder::BySmallestKey
ghost use Rattle.std.specs.Prelude.{◌≡◌, IsPermutation, IfErr, OnOk, map};
ghost use Rattle.std.specs.List.Sorted.{IsNonDecreasingBy};
ghost use Rattle.leveldb_base.specs.Error.{IsOutOfMemory};
ghost use Rattle.leveldb_files.specs.Levels.Summary.{total_size};
ghost use Rattle.leveldb_version.specs.Versions.Version.{AreInVersionOrder, IsRangeOfLevel, at_level, version_order};
ghost use Rattle.leveldb_version.specs.Edits.VersionEdit.{new_file_of};

use leveldb_base::cmp::{Cmp, UserCmp};
use leveldb_base::error::Result;
use leveldb_base::key_types::cmp_internal_key;
use leveldb_base::types::FileMetaData;
use std::cmp::Ordering;

/// How many bytes the files have together, up to 2^64 - 1.
pub fn total_size(files: &[(usize, FileMetaData)]) -> usize
    ensures { result ≡ total_size (map new_file_of files.now) }
{
    let mut size: usize = 0;
    for file in files {
        size = size.saturating_add(file.1.size);
    }
    size
}

/// Puts files in the order of a version.
pub(super) fn sort_files<C: UserCmp>(ucmp: &C, files: &mut Vec<(usize, FileMetaData)>) -> Result<()>
    ensures same_files { IsPermutation files.old.items files.new.items }
    ensures in_order { OnOk result
        (AreInVersionOrder (C.cmp ucmp.now) (map new_file_of files.new.items)) }
    ensures memory { IfErr result IsOutOfMemory }
{
    files.sort_by(|a, b| cmp_files(ucmp, a, b))?;
    Ok(())
}

// The order of a version's files: by level, in level 0 by number, and from level 1 on by the
// smallest key.
fn cmp_files<C: Cmp>(ucmp: &C, a: &(usize, FileMetaData), b: &(usize, FileMetaData)) -> Ordering
    ensures { result ≡ version_order (C.cmp ucmp.now) (new_file_of a.now) (new_file_of b.now) }
{
    let in_level = if a.0 == 0 {
        a.1.num.cmp(&b.1.num)
    } else {
        cmp_internal_key(ucmp, &a.1.smallest, &b.1.smallest)
    };
    a.0.cmp(&b.0).then(in_level)
}

/// The files of a level, among files in the order of their levels.
pub(super) fn part_of_level(
    files: &[(usize, FileMetaData)],
    level: usize,
) -> &[(usize, FileMetaData)]
    requires { IsNonDecreasingBy (λ file. file.0) files.now }
    ensures { result.now ≡ at_level level files.now }
{
    let (start, end) = range_of_level(files, level);
    &files[start..end]
}

/// Where they are among the files: the index of the first, and the one after the last, found by
/// halving.
pub(super) fn range_of_level(files: &[(usize, FileMetaData)], level: usize) -> (usize, usize)
    requires { IsNonDecreasingBy (λ file. file.0) files.now }
    ensures { IsRangeOfLevel level files.now result.0 result.1 }
{
    let start = files.partition_point(|file| file.0 < level);
    let end = files.partition_point(|file| file.0 <= level);
    (start, end)
}
