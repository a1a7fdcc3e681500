//! What a choice of files for a compaction asks of a version.
// LevelDB: db/version_set.cc, Version::GetOverlappingInputs
ghost use Rattle.std.specs.Prelude.{◌≡◌, ◌<◌, IfErr, IfOk};
ghost use Rattle.leveldb_base.specs.Error.{IsOutOfMemory};
ghost use Rattle.leveldb_version.specs.Versions.DeeperLevels.{closed_range, is_base_level_for};
ghost use Rattle.leveldb_files.specs.Levels.Overlap.{AreInputs, overlapping};
ghost use Rattle.leveldb_version.specs.Versions.Search.{AreDisjointLevels};
ghost use Rattle.leveldb_files.specs.Levels.Summary.{total_size};
ghost use Rattle.leveldb_version.specs.Versions.Version.{at_level, borrowed_files, new_files_of};

use super::Version;
use super::key_range::KeyRange;
use super::order::part_of_level;
use super::overlap::{files_in, overlap_size};
use super::search::FilesLeft;
use leveldb_base::cmp::UserCmp;
use leveldb_base::error::Result;
use leveldb_base::key_types::UserKey;
use leveldb_base::types::FileMetaData;
use std::alloc::Global;

impl<C: UserCmp> Version<C> {
    /// The order of user keys.
    pub fn ucmp(&self) -> &C
        ensures { result.now ≡ self.now.cmp }
    {
        &self.cmp
    }

    /// A copy of the version, whose files share the bytes of their keys with it.
    pub fn copy(&self, alloc: Global) -> Result<Version<C>>
    where
        C: Copy + Drop,
        ensures ok { IfOk result (λ copy. copy ≡ self.now) }
        ensures memory { IfErr result IsOutOfMemory }
    {
        Ok(Version {
            cmp: self.cmp,
            files: self.files.to_vec(alloc)?,
            chosen: self.chosen,
        })
    }

    /// The files of all levels, each with its level.
    pub fn all_files(&self) -> &[(usize, FileMetaData)]
        ensures { result.now ≡ self.now.files }
    {
        self.files.as_slice()
    }

    /// The files of a level, whichever number it is.
    pub fn part(&self, level: usize) -> &[(usize, FileMetaData)]
        ensures { result.now ≡ at_level level self.now.files }
    {
        part_of_level(self.files.as_slice(), level)
    }

    /// The files of a level that overlap the range from one user key to another, both in it.
    pub fn files_between(
        &self,
        alloc: Global,
        level: usize,
        low: UserKey<'_>,
        high: UserKey<'_>,
    ) -> Result<Vec<&(usize, FileMetaData)>>
        ensures ok { IfOk result (λ found. borrowed_files found.items ≡ overlapping
            (C.cmp self.now.cmp) level (closed_range low.now high.now) (new_files_of self.now)) }
        ensures memory { IfErr result IsOutOfMemory }
    {
        let range = KeyRange::closed(low, high);
        files_in(alloc, &self.cmp, self.part(level), &range)
    }

    /// The files of a level that overlap the range from one user key to another, both in it. In
    /// level 0 it is widened first, as `overlapping_inputs` does.
    pub fn inputs_between<'a>(
        &'a self,
        alloc: Global,
        level: usize,
        low: UserKey<'a>,
        high: UserKey<'a>,
    ) -> Result<Vec<&'a (usize, FileMetaData)>>
        requires { level < 7 }
        ensures ok { IfOk result (λ inputs. AreInputs (C.cmp self.now.cmp) level
            (closed_range low.now high.now) (new_files_of self.now) (borrowed_files inputs.items)) }
        ensures memory { IfErr result IsOutOfMemory }
    {
        self.inputs_of(alloc, level, KeyRange::closed(low, high))
    }

    /// How many bytes the files have together that `files_between` gives, up to 2^64 - 1.
    pub fn size_between(&self, level: usize, low: UserKey<'_>, high: UserKey<'_>) -> usize
        ensures { result ≡ total_size (overlapping
            (C.cmp self.now.cmp) level (closed_range low.now high.now) (new_files_of self.now)) }
    {
        let range = KeyRange::closed(low, high);
        overlap_size(&self.cmp, self.part(level), &range)
    }

    /// Whether no file deeper than a level has a user key in its range, if the files of each level
    /// from 1 on are apart.
    pub fn is_base_level_for(&self, level: usize, key: UserKey<'_>) -> bool
        ensures { let cmp = C.cmp self.now.cmp in
            let files = new_files_of self.now in
            AreDisjointLevels cmp files
            → result ≡ is_base_level_for cmp level files key.now }
    {
        let count = self.files.partition_point(|file| file.0 <= level);
        let mut deeper = FilesLeft::new(&self.files[count..]);
        deeper.next(&self.cmp, key).is_none()
    }
}
