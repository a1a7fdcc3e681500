//! The seeks that a version's files may take, and samples of reads that cost one.
// LevelDB: db/version_set.cc, Version::UpdateStats
ghost use Rattle.std.specs.Prelude.{◌≡◌, ◌<◌, ◌^◌, IfErr, IfOk, OnOk, map};
ghost use Rattle.std.specs.List.{list_any};
ghost use Rattle.std.specs.List.Sorted.{IsNonDecreasingBy};
ghost use Rattle.leveldb_base.specs.Error.{IsOutOfMemory};
ghost use Rattle.leveldb_base.specs.KeyTypes.{user_part};
ghost use Rattle.leveldb_version.specs.Versions.Sampling.{ChargesForSample, SamplesRead};
ghost use Rattle.leveldb_version.specs.Versions.Search.{AreDisjointLevels};
ghost use Rattle.leveldb_version.specs.Versions.Version.{after_seek, has_last_seek, is_named, new_files_of, with_first_seeks};

use super::order::{part_of_level, range_of_level};
use super::search::FilesLeft;
use super::{GetStats, Version};
use leveldb_base::cmp::UserCmp;
use leveldb_base::error::Result;
use leveldb_base::key_types::{InternalKey, UserKey, split_sequence};
use leveldb_base::types::{FileMetaData, FileNum};

impl<C: UserCmp> Version<C> {
    /// The file that is charged with a seek for a sample of the keys that are read, by its level
    /// and number: the first one that a look-up of the user key tries, if there is a second.
    pub fn sampled(&self, key: UserKey<'_>) -> Option<(usize, FileNum)>
        ensures { let cmp = C.cmp self.now.cmp in
            let files = new_files_of self.now in
            AreDisjointLevels cmp files → ChargesForSample cmp key.now files result }
    {
        let mut files = FilesLeft::new(self.files.as_slice());
        let first = files.next(&self.cmp, key)?;
        files.next(&self.cmp, key)?;
        Some((first.0, first.1.num))
    }

    /// Charges the file with a seek that is charged for a sample of this key. Returns whether that
    /// chooses it for a compaction, as `update_stats` does.
    // LevelDB: Version::RecordReadSample
    pub fn record_read_sample(&mut self, key: InternalKey<'_>) -> bool
        ensures { SamplesRead (C.cmp self.old.cmp) (user_part key.now) self.old self.new result }
    {
        let (user, _) = split_sequence(key);
        let file = self.sampled(user);
        self.update_stats(GetStats { file })
    }
}

/// Whether there is a file of this level and number that may take one more seek at most, among
/// files in the order of their levels.
pub(super) fn has_last_seek(files: &[(usize, FileMetaData)], at: (usize, FileNum)) -> bool
    requires { IsNonDecreasingBy (λ file. file.0) files.now }
    ensures { result ≡ list_any (has_last_seek at) files.now }
{
    is_last_seek_among(part_of_level(files, at.0), at)
}

// The same, looked for in each of these files.
fn is_last_seek_among(files: &[(usize, FileMetaData)], at: (usize, FileNum)) -> bool
    ensures { result ≡ list_any (has_last_seek at) files.now }
{
    for file in files {
        if is_named(file, at) && file.1.allowed_seeks <= 1 {
            return true;
        }
    }
    false
}

// A seek costs about as much time as the compaction of this many bytes.
const BYTES_A_SEEK: usize = 16 << 10;

// A small file may take this many seeks.
const LEAST_SEEKS: usize = 100;

/// A copy of a file as a version gets it: it may take a hundred fruitless seeks before it is
/// compacted, or one for each 16 KiB if that is more.
pub(super) fn with_first_seeks(level: usize, file: &FileMetaData) -> Result<(usize, FileMetaData)>
    ensures ok { IfOk result (λ copy. copy ≡ with_first_seeks (level, file.now)) }
    ensures fits { OnOk result ((file.now.num < 2 ^ 64) × (file.now.size < 2 ^ 64)) }
    ensures memory { IfErr result IsOutOfMemory }
{
    let seeks = (file.size / BYTES_A_SEEK).max(LEAST_SEEKS);
    let mut copy = file.clone()?;
    copy.allowed_seeks = seeks;
    Ok((level, copy))
}

/// Takes one off the seeks of the file of this level and number, if it has any, among files in the
/// order of their levels.
pub(super) fn take_seek(files: &mut [(usize, FileMetaData)], at: (usize, FileNum))
    requires { IsNonDecreasingBy (λ file. file.0) files.old }
    ensures { files.new ≡ map (after_seek at) files.old }
{
    let (start, end) = range_of_level(files, at.0);
    take_seek_among(&mut files[start..end], at);
}

// The same, of each of these files.
fn take_seek_among(files: &mut [(usize, FileMetaData)], at: (usize, FileNum))
    ensures { files.new ≡ map (after_seek at) files.old }
{
    for file in files.iter_mut() {
        take_seek_if_named(file, at);
    }
}

// Takes one off the seeks of the file, if it has any and has this level and number.
fn take_seek_if_named(file: &mut (usize, FileMetaData), at: (usize, FileNum))
    ensures { file.new ≡ after_seek at file.old }
{
    if is_named(file, at) {
        file.1.allowed_seeks = file.1.allowed_seeks.saturating_sub(1);
    }
}

// Whether the file has this level and number.
fn is_named(file: &(usize, FileMetaData), at: (usize, FileNum)) -> bool
    ensures { result ≡ is_named at file.now }
{
    file.0 == at.0 && file.1.num == at.1
}
