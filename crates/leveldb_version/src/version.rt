//! A version: the files of a store by levels, and the calls on them that only look.
// LevelDB: db/version_set.cc, Version
ghost use Rattle.std.specs.Prelude.{◌≡◌, ◌<◌, ◌≤◌, [], None, IfOk, IfErr, length, map, string_bytes};
ghost use Rattle.std.specs.Option.{option_copied, option_map};
ghost use Rattle.leveldb_base.specs.Error.{IsOutOfMemory};
ghost use Rattle.leveldb_base.specs.KeyTypes.{user_part};
ghost use Rattle.leveldb_files.specs.Levels.Overlap.{AreDisjointRanges, AreInputs, IsFileFor, is_overlapped, may_go_to, named_range, output_level};
ghost use Rattle.leveldb_files.specs.Levels.Summary.{files_of_level, summary_text, total_size};
ghost use Rattle.leveldb_version.specs.Versions.Version.{AreInVersionOrder, FilesFit, IsVersionOf, at_level, borrowed_files, charged, new_files_of};
ghost use Rattle.leveldb_version.specs.Edits.VersionEdit.{new_file_of};

use leveldb_base::cmp::{Cmp, UserCmp};
use leveldb_base::error::Result;
use leveldb_base::key_types::{InternalKey, UserKey, split_sequence};
use leveldb_base::types::{FileMetaData, FileNum};
use std::alloc::Global;
use std::marker::Model;

mod change;
mod choices;
mod find;
mod get;
mod iters;
mod key_range;
mod order;
mod overlap;
mod score;
mod search;
mod seeks;
mod summary;

pub use crate::version_iter::{VersionIter, new_version_iter};
use find::file_with_key;
use key_range::KeyRange;
pub use order::total_size;
use order::{part_of_level, sort_files};
use overlap::{files_in, is_overlapped, overlap_size, widen};
pub use score::product;
use seeks::{has_last_seek, take_seek, with_first_seeks};
pub use summary::summary_of;

/// The file that a look-up charges with a seek, if one: its level and number.
#[derive(Clone, Copy, Debug, PartialEq)]
pub struct GetStats {
    pub file: Option<(usize, FileNum)>,
}

/// The files of a store by levels: in level 0 by number, and from level 1 on by smallest key.
#[derive(Drop)]
pub struct Version<C: Cmp> {
    cmp: C,

    // The files with their levels, in the order of a version.
    files: Vec<(usize, FileMetaData)>,

    // The level and number of the file that was chosen for a compaction.
    chosen: Option<(usize, FileNum)>,
}

impl<C: Cmp> Model for Version<C> {
    ghost use Rattle.leveldb_version.specs.Versions.Version.{VersionValue};

    ghost Value = { VersionValue C };

    ghost view = { λ it. record { cmp = it.cmp; files = it.files.items; chosen = it.chosen } };

    ghost use Rattle.std.specs.Prelude.{map};
    ghost use Rattle.leveldb_version.specs.Versions.Version.{AreInVersionOrder, FilesFit};
    ghost use Rattle.leveldb_version.specs.Edits.VersionEdit.{new_file_of};

    ghost invariant = { λ it. AreInVersionOrder (C.cmp it.cmp) (map new_file_of it.files.items)
        × FilesFit it.files.items };
}

impl<C: UserCmp> Version<C> {
    /// A version of no files.
    pub fn new(alloc: Global, cmp: C) -> Version<C>
        ensures { result ≡ record { cmp = cmp; files = []; chosen = None } }
    {
        Version {
            cmp,
            files: Vec::new(alloc),
            chosen: None,
        }
    }

    /// A version of copies of these files, each with its level and its first seeks.
    pub fn of_files(alloc: Global, cmp: C, files: &[(usize, FileMetaData)]) -> Result<Version<C>>
    where
        C: Drop,
        ensures ok { IfOk result (IsVersionOf (C.cmp cmp) cmp files.now) }
        ensures fit { IfOk result (λ version. FilesFit version.files) }
        ensures memory { IfErr result IsOutOfMemory }
    {
        let mut sorted = Vec::with_capacity(alloc, files.len())?;
        for file in files {
            sorted.push(with_first_seeks(file.0, &file.1)?)?;
        }
        sort_files(&cmp, &mut sorted)?;
        Ok(Version {
            cmp,
            files: sorted,
            chosen: None,
        })
    }

    /// The files of a level, each with the level.
    pub fn files(&self, level: usize) -> &[(usize, FileMetaData)]
        requires { level < 7 }
        ensures files { result.now ≡ at_level level self.now.files }
        ensures in_order { AreInVersionOrder (C.cmp self.now.cmp) (map new_file_of result.now) }
    {
        part_of_level(self.files.as_slice(), level)
    }

    /// How many bytes the files of a level have together, up to 2^64 - 1.
    pub fn num_level_bytes(&self, level: usize) -> usize
        requires { level < 7 }
        ensures { result ≡ total_size (files_of_level level (new_files_of self.now)) }
    {
        total_size(self.files(level))
    }

    /// How many files a level has.
    pub fn num_level_files(&self, level: usize) -> usize
        requires { level < 7 }
        ensures { result ≡ length (files_of_level level (new_files_of self.now)) }
    {
        self.files(level).len()
    }

    /// Which files each level has, as `VersionSet::current_summary`, in the version's order.
    pub fn level_summary(&self, alloc: Global) -> Result<String>
        ensures ok { IfOk result (λ text.
            string_bytes text ≡ summary_text (new_files_of self.now)) }
        ensures memory { IfErr result IsOutOfMemory }
    {
        summary_of(alloc, self.files.as_slice())
    }

    /// The level and number of the file that was chosen for a compaction by its seeks, if one is.
    pub fn file_to_compact(&self) -> Option<(usize, FileNum)>
        ensures { result ≡ self.now.chosen }
    {
        self.chosen
    }

    /// Whether a file of the level overlaps the range between two user keys, ends included. An
    /// empty key is an open end.
    pub fn overlap_in_level(
        &self,
        level: usize,
        smallest: UserKey<'_>,
        largest: UserKey<'_>,
    ) -> bool
        requires { level < 7 }
        ensures { result ≡ is_overlapped (C.cmp self.now.cmp) level
            (named_range smallest.now largest.now) (new_files_of self.now) }
    {
        let range = KeyRange::named(smallest, largest);
        self.is_overlapped(level, &range)
    }

    /// The files of the level that overlap the range between the user keys of two internal keys,
    /// ends included, where an empty user key is an open end. In level 0 the range is widened
    /// until no file sticks out of it that overlaps it.
    pub fn overlapping_inputs<'a>(
        &'a self,
        alloc: Global,
        level: usize,
        begin: InternalKey<'a>,
        end: InternalKey<'a>,
    ) -> Result<Vec<&'a (usize, FileMetaData)>>
        requires { level < 7 }
        ensures ok { IfOk result (λ inputs. AreInputs (C.cmp self.now.cmp) level
            (named_range (user_part begin.now) (user_part end.now))
            (new_files_of self.now) (borrowed_files inputs.items)) }
        ensures memory { IfErr result IsOutOfMemory }
    {
        let (begin, _) = split_sequence(begin);
        let (end, _) = split_sequence(end);
        self.inputs_of(alloc, level, KeyRange::named(begin, end))
    }

    // The files of the level that overlap a range, which in level 0 is widened first.
    fn inputs_of<'a>(
        &'a self,
        alloc: Global,
        level: usize,
        range: KeyRange<'a>,
    ) -> Result<Vec<&'a (usize, FileMetaData)>>
        requires { level < 7 }
        ensures ok { IfOk result (λ inputs. AreInputs (C.cmp self.now.cmp) level range.entry
            (new_files_of self.now) (borrowed_files inputs.items)) }
        ensures memory { IfErr result IsOutOfMemory }
    {
        let files = self.files(level);
        let mut range = range;
        if level == 0 {
            widen(&self.cmp, files, &mut range);
        }
        files_in(alloc, &self.cmp, files, &range)
    }

    /// The level for the table of a memtable with these first and last user keys: level 0 if it
    /// overlaps a file there, else down as long as the next level has none that it overlaps and
    /// the one after it at most 20 MiB of such, to level 2 at most. An empty key is an open end.
    pub fn pick_memtable_output_level(&self, min: UserKey<'_>, max: UserKey<'_>) -> usize
        ensures level { result ≡ output_level (C.cmp self.now.cmp)
            (named_range min.now max.now) (new_files_of self.now) }
        ensures deepest { result ≤ 2 }
    {
        let range = KeyRange::named(min, max);
        if self.is_overlapped(0, &range) || !self.may_go_to(&range, 1) {
            0
        } else if !self.may_go_to(&range, 2) {
            1
        } else {
            2
        }
    }

    // Whether a new table with this range may go down into a level.
    fn may_go_to(&self, range: &KeyRange<'_>, level: usize) -> bool
        requires { level < 6 }
        ensures { result ≡ may_go_to (C.cmp self.now.cmp) range.now (new_files_of self.now) level }
    {
        !self.is_overlapped(level, range)
            && overlap_size(&self.cmp, self.files(level + 1), range) <= GREATEST_OVERLAP
    }

    fn is_overlapped(&self, level: usize, range: &KeyRange<'_>) -> bool
        requires { level < 7 }
        ensures { result
            ≡ is_overlapped (C.cmp self.now.cmp) level range.now (new_files_of self.now) }
    {
        is_overlapped(&self.cmp, self.files(level), range)
    }

    /// The file of a level from 1 on that has a user key in its range, if its files are apart and
    /// none is turned round. Of level 0 nothing is said.
    pub fn file_for(&self, level: usize, key: UserKey<'_>) -> Option<&(usize, FileMetaData)>
        requires { level < 7 }
        ensures { let files = files_of_level level (new_files_of self.now) in
            0 < level → AreDisjointRanges (C.cmp self.now.cmp) files
            → IsFileFor (C.cmp self.now.cmp) files key.now
            (option_map new_file_of (option_copied result)) }
    {
        file_with_key(&self.cmp, self.files(level), key)
    }

    /// Charges a file with a seek. Returns whether that chooses it for a compaction: if it has at
    /// most one seek left and none is chosen. Else it has one less from now on, if it has any.
    pub fn update_stats(&mut self, stats: GetStats) -> bool
        ensures { (self.new, result) ≡ charged self.old stats.file }
    {
        let Some(file) = stats.file else {
            return false;
        };
        if self.chosen.is_none() && has_last_seek(self.files.as_slice(), file) {
            self.chosen = Some(file);
            return true;
        }
        take_seek(&mut self.files, file);
        false
    }
}

// The most bytes of files two levels down that a new table may overlap.
const GREATEST_OVERLAP: usize = 10 * (2 << 20);
