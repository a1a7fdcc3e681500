//! Ranges of user keys, and how files are to them.
// LevelDB: db/version_set.cc, AfterFile and BeforeFile
ghost use Rattle.std.specs.Prelude.{◌≡◌};
ghost use Rattle.std.specs.Option.{option_copied};
ghost use Rattle.leveldb_version.specs.Versions.DeeperLevels.{closed_range};
ghost use Rattle.leveldb_files.specs.Levels.Overlap.{is_above, is_below, named_end, named_range, overlaps, sticks_out, widened_by};
ghost use Rattle.leveldb_version.specs.Edits.VersionEdit.{new_file_of};

use leveldb_base::cmp::Cmp;
use leveldb_base::key_types::{UserKey, split_sequence};
use leveldb_base::types::FileMetaData;
use std::marker::Model;

/// A range of user keys with its ends; an end that is none is open.
#[derive(Drop)]
pub(super) struct KeyRange<'a> {
    begin: Option<UserKey<'a>>,
    end: Option<UserKey<'a>>,
}

impl<'a> Model for KeyRange<'a> {
    ghost use Rattle.leveldb_files.specs.Levels.Overlap.{UserRange};

    ghost Value = { UserRange };

    ghost use Rattle.std.specs.Option.{option_copied};

    ghost view = { λ it. record { begin = option_copied it.begin; end = option_copied it.end } };
}

impl<'a> KeyRange<'a> {
    /// The range between two keys that name its ends: an empty key is an open end.
    pub(super) fn named(begin: UserKey<'a>, end: UserKey<'a>) -> KeyRange<'a>
        ensures { result ≡ named_range begin.now end.now }
    {
        KeyRange {
            begin: named_end(begin),
            end: named_end(end),
        }
    }

    /// The range from one key to another, with both of them, whichever keys they are.
    pub(super) fn closed(low: UserKey<'a>, high: UserKey<'a>) -> KeyRange<'a>
        ensures { result ≡ closed_range low.now high.now }
    {
        KeyRange {
            begin: Some(low),
            end: Some(high),
        }
    }

    /// Whether the range from the file's first user key to its last meets this one.
    pub(super) fn overlaps<C: Cmp>(&self, ucmp: &C, file: &(usize, FileMetaData)) -> bool
        ensures { result ≡ overlaps (C.cmp ucmp.now) self.now (new_file_of file.now) }
    {
        let (smallest, _) = split_sequence(&file.1.smallest);
        let (largest, _) = split_sequence(&file.1.largest);
        !self.is_below(ucmp, largest) && !self.is_above(ucmp, smallest)
    }

    /// Whether the file begins before the range or ends after it.
    pub(super) fn sticks_out<C: Cmp>(&self, ucmp: &C, file: &(usize, FileMetaData)) -> bool
        ensures { result ≡ sticks_out (C.cmp ucmp.now) self.now (new_file_of file.now) }
    {
        let (smallest, _) = split_sequence(&file.1.smallest);
        let (largest, _) = split_sequence(&file.1.largest);
        self.is_below(ucmp, smallest) || self.is_above(ucmp, largest)
    }

    /// Widens the range to that of the file.
    pub(super) fn widen<C: Cmp>(&mut self, ucmp: &C, file: &'a (usize, FileMetaData))
        ensures { self.new ≡ widened_by (C.cmp ucmp.now) self.old (new_file_of file.now) }
    {
        let (smallest, _) = split_sequence(&file.1.smallest);
        let (largest, _) = split_sequence(&file.1.largest);
        if self.is_below(ucmp, smallest) {
            self.begin = Some(smallest);
        }
        if self.is_above(ucmp, largest) {
            self.end = Some(largest);
        }
    }

    // Whether the key is before the range.
    fn is_below<C: Cmp>(&self, ucmp: &C, key: UserKey<'_>) -> bool
        ensures { result ≡ is_below (C.cmp ucmp.now) self.now key.now }
    {
        match self.begin {
            Some(begin) => ucmp.cmp(key, begin).is_lt(),
            None => false,
        }
    }

    // Whether the key is after the range.
    fn is_above<C: Cmp>(&self, ucmp: &C, key: UserKey<'_>) -> bool
        ensures { result ≡ is_above (C.cmp ucmp.now) self.now key.now }
    {
        match self.end {
            Some(end) => ucmp.cmp(end, key).is_lt(),
            None => false,
        }
    }
}

// The end that a key names: the empty key is an open end.
fn named_end(key: UserKey<'_>) -> Option<UserKey<'_>>
    ensures { option_copied result ≡ named_end key.now }
{
    if key.is_empty() { None } else { Some(key) }
}
