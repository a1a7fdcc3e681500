//! Where a compaction's outputs are cut, so that none overlaps too much of the level after its own.
// LevelDB: db/version_set.cc, Compaction::ShouldStopBefore
ghost use Rattle.std.specs.Prelude.{◌≡◌, ◌+◌, map, take_while};
ghost use Rattle.std.specs.List.{prefix_len};
ghost use Rattle.std.specs.Ordering.{is_gt};
ghost use Rattle.leveldb_base.specs.KeyTypes.{internal_cmp};
ghost use Rattle.leveldb_version_set.specs.Compactions.Cut.{PassesFiles, no_key, size_with};
ghost use Rattle.leveldb_files.specs.Levels.Summary.{files_of_level};
ghost use Rattle.leveldb_version.specs.Versions.Version.{new_files_of};
ghost use Rattle.leveldb_version.specs.Edits.VersionEdit.{new_file_of};

use super::Compaction;
use leveldb_base::cmp::UserCmp;
use leveldb_base::key_types::{InternalKey, cmp_internal_key};
use leveldb_base::types::FileMetaData;
use leveldb_version::version::{product, total_size};
use std::marker::Model;

/// How far the keys of an output have come over the files two levels below a compaction's.
#[derive(Clone, Copy)]
pub struct OutputCut {
    // How many of the files end before the last key.
    passed: usize,

    // How many bytes of them the output has passed.
    overlapped: usize,

    begun: bool,
}

impl Model for OutputCut {
    ghost use Rattle.leveldb_version_set.specs.Compactions.Cut.{CutValue};

    ghost Value = { CutValue };

    ghost view = { λ it. record {
      passed = it.passed;
      overlapped = it.overlapped;
      begun = it.begun;
    } };

    ghost inverse = { λ it. record {
      passed = it.passed;
      overlapped = it.overlapped;
      begun = it.begun;
    } };
}

impl OutputCut {
    /// Before the first key.
    pub fn new() -> OutputCut
        ensures { result ≡ no_key }
    {
        OutputCut {
            passed: 0,
            overlapped: 0,
            begun: false,
        }
    }

    /// Whether an output is to end before this key, as it has passed more bytes two levels down
    /// than ten files may have. The keys come in order, each once, those that are dropped, too.
    pub fn stops_before<C: UserCmp + Copy + Drop>(
        &mut self,
        compaction: &Compaction<C>,
        key: InternalKey<'_>,
    ) -> bool
        ensures { let it = compaction.now in
            PassesFiles (C.cmp it.version.cmp)
            (files_of_level (it.level + 2) (new_files_of it.version)) it.max_file_size key.now
            self.old result self.new }
    {
        self.passes(
            compaction.ucmp(),
            compaction.files_two_down(),
            compaction.max_file_size(),
            key,
        )
    }

    // Passes the files that end before the key. Returns whether the output has passed more bytes
    // with it than ten files may have; then the next one has passed none.
    fn passes<C: UserCmp>(
        &mut self,
        ucmp: &C,
        files: &[(usize, FileMetaData)],
        max_file_size: usize,
        key: InternalKey<'_>,
    ) -> bool
        ensures { PassesFiles (C.cmp ucmp.now) (map new_file_of files.now) max_file_size key.now
            self.old result self.new }
    {
        let left = &files[self.passed.min(files.len())..];
        let passed = files_before(ucmp, left, key);
        let size = self.size_with(passed);
        let stops = size as u128 > product(10, max_file_size);
        self.passed = self.passed.saturating_add(passed.len());
        self.overlapped = if stops { 0 } else { size };
        self.begun = true;
        stops
    }

    // How many bytes the open output has passed with these files.
    fn size_with(&self, files: &[(usize, FileMetaData)]) -> usize
        ensures { result ≡ size_with self.now (map new_file_of files.now) }
    {
        if self.begun {
            self.overlapped.saturating_add(total_size(files))
        } else {
            self.overlapped
        }
    }
}

// The files from the first one on that end before a key.
fn files_before<'v, C: UserCmp>(
    ucmp: &C,
    files: &'v [(usize, FileMetaData)],
    key: InternalKey<'_>,
) -> &'v [(usize, FileMetaData)]
    ensures { map new_file_of result.now
        ≡ take_while (λ file. is_gt (internal_cmp (C.cmp ucmp.now) key.now file.largest))
        (map new_file_of files.now) }
{
    let count = count_before(ucmp, files, key);
    &files[..count]
}

// How many files from the first one on end before a key.
fn count_before<C: UserCmp>(
    ucmp: &C,
    files: &[(usize, FileMetaData)],
    key: InternalKey<'_>,
) -> usize
    ensures { result
        ≡ prefix_len (λ file. is_gt (internal_cmp (C.cmp ucmp.now) key.now file.largest))
        (map new_file_of files.now) }
{
    let mut count = 0;
    for file in files {
        if !cmp_internal_key(ucmp, key, &file.1.largest).is_gt() {
            return count;
        }
        count += 1;
    }
    count
}
