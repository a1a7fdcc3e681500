//! The order in which a look-up of a key goes through the files of a version.
// LevelDB: db/version_set.cc, Version::ForEachOverlapping
ghost use Rattle.std.specs.Prelude.{◌≡◌, ◌↔◌, ◌++◌, IsTrue, map};
ghost use Rattle.std.specs.List.Sorted.{IsNonDecreasingBy};
ghost use Rattle.std.specs.Option.{option_copied, option_map};
ghost use Rattle.leveldb_files.specs.Levels.Levels.{IsInRange};
ghost use Rattle.leveldb_version.specs.Versions.Search.{TakesNextFile, files_left};
ghost use Rattle.leveldb_version.specs.Versions.Version.{AreInVersionOrder};
ghost use Rattle.leveldb_version.specs.Edits.VersionEdit.{new_file_of};

use super::find::file_with_key;
use super::order::part_of_level;
use leveldb_base::cmp::{Cmp, UserCmp};
use leveldb_base::key_types::{UserKey, split_sequence};
use leveldb_base::types::FileMetaData;
use std::marker::Model;

/// The files of a version that a look-up may still try.
#[derive(Drop)]
pub(super) struct FilesLeft<'a> {
    // Those of level 0, of which the last is tried first.
    newest: &'a [(usize, FileMetaData)],

    // Those of deeper levels, in the order of a version.
    deeper: &'a [(usize, FileMetaData)],
}

impl<'a> Model for FilesLeft<'a> {
    ghost use Rattle.leveldb_version.specs.Versions.Search.{FilesLeftValue};

    ghost Value = { FilesLeftValue };

    ghost use Rattle.std.specs.Prelude.{map};
    ghost use Rattle.leveldb_version.specs.Edits.VersionEdit.{new_file_of};

    ghost view = { λ it. record {
      newest = map new_file_of it.newest.now;
      deeper = map new_file_of it.deeper.now;
    } };

    ghost use Rattle.std.specs.Prelude.{◌≡◌, ◌<◌, All};

    ghost invariant = { λ it. All (λ file. file.0 ≡ 0) it.newest.now
        × All (λ file. 0 < file.0) it.deeper.now };
}

impl<'a> FilesLeft<'a> {
    /// All files of a version.
    pub(super) fn new(files: &'a [(usize, FileMetaData)]) -> FilesLeft<'a>
        requires { IsNonDecreasingBy (λ file. file.0) files.now }
        ensures { files_left result ≡ map new_file_of files.now }
    {
        let count = files.partition_point(|file| file.0 == 0);
        FilesLeft {
            newest: &files[..count],
            deeper: &files[count..],
        }
    }

    /// Takes the file that a look-up of a user key tries next, and leaves those that it may try
    /// after it.
    pub(super) fn next<C: UserCmp>(
        &mut self,
        ucmp: &C,
        key: UserKey<'_>,
    ) -> Option<&'a (usize, FileMetaData)>
        requires { AreInVersionOrder (C.cmp ucmp.now) (files_left self.old) }
        ensures { TakesNextFile (C.cmp ucmp.now) key.now (files_left self.old)
            (option_map new_file_of (option_copied result)) (files_left self.new) }
    {
        while let Some((file, older)) = self.newest.split_last() {
            self.newest = older;
            if is_in_range(ucmp, file, key) {
                return Some(file);
            }
        }
        self.next_of_deeper(ucmp, key)
    }

    // Takes the file of the first deeper level that has one with the key in its range, and leaves
    // those of the levels below it.
    fn next_of_deeper<C: UserCmp>(
        &mut self,
        ucmp: &C,
        key: UserKey<'_>,
    ) -> Option<&'a (usize, FileMetaData)>
        requires { AreInVersionOrder (C.cmp ucmp.now) self.old.deeper }
        ensures next { TakesNextFile (C.cmp ucmp.now) key.now self.old.deeper
            (option_map new_file_of (option_copied result)) self.new.deeper }
        ensures newest { self.new.newest ≡ self.old.newest }
    {
        while let Some(first) = self.deeper.first() {
            let level = part_of_level(self.deeper, first.0);
            self.deeper = &self.deeper[level.len()..];
            let found = file_with_key(ucmp, level, key);
            if found.is_some() {
                return found;
            }
        }
        None
    }
}

// Whether a user key is in the range of a file.
fn is_in_range<C: Cmp>(ucmp: &C, file: &(usize, FileMetaData), key: UserKey<'_>) -> bool
    ensures { IsTrue result ↔ IsInRange (C.cmp ucmp.now) (new_file_of file.now) key.now }
{
    let (smallest, _) = split_sequence(&file.1.smallest);
    let (largest, _) = split_sequence(&file.1.largest);
    !ucmp.cmp(key, smallest).is_lt() && !ucmp.cmp(largest, key).is_lt()
}
