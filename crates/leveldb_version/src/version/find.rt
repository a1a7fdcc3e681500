//! The file of a level that has a key, found by halving.
// LevelDB: db/version_set.cc, FindFile
ghost use Rattle.std.specs.Prelude.{◌≡◌, ◌≤◌, Contains, IfSome, length, map};
ghost use Rattle.std.specs.List.Sorted.{IsSortedByKey};
ghost use Rattle.std.specs.Option.{option_copied, option_map};
ghost use Rattle.std.specs.Ordering.{is_lt};
ghost use Rattle.leveldb_base.specs.KeyTypes.{internal_cmp, user_part};
ghost use Rattle.leveldb_files.specs.Levels.Overlap.{AreDisjointRanges, IsFileFor, PartsFiles, ends_before};
ghost use Rattle.leveldb_version.specs.Edits.VersionEdit.{new_file_of};

use leveldb_base::cmp::{Cmp, UserCmp};
use leveldb_base::key_types::{UserKey, split_sequence};
use leveldb_base::types::{FileMetaData, MAX_SEQUENCE_NUMBER, SequenceNumber};

/// The file that has a user key in its range, among files in order that are apart. It is one of the
/// files whatever they are.
pub(super) fn file_with_key<'a, C: UserCmp>(
    ucmp: &C,
    files: &'a [(usize, FileMetaData)],
    key: UserKey<'_>,
) -> Option<&'a (usize, FileMetaData)>
    ensures one { IfSome (option_map new_file_of (option_copied result))
        (Contains (map new_file_of files.now)) }
    ensures found { let them = map new_file_of files.now in
        IsSortedByKey (λ file. file.smallest) (internal_cmp (C.cmp ucmp.now)) them
        → AreDisjointRanges (C.cmp ucmp.now) them
        → IsFileFor (C.cmp ucmp.now) them key.now
        (option_map new_file_of (option_copied result)) }
{
    let index = find_file(ucmp, files, key, MAX_SEQUENCE_NUMBER);
    if index == files.len() {
        return None;
    }
    let file = &files[index];
    if begins_after(ucmp, file, key) {
        return None;
    }
    Some(file)
}

// The index of the first file whose largest key is at or after that of a look-up of a user key as
// of a sequence number, or the number of files, found by halving.
fn find_file<C: Cmp>(
    ucmp: &C,
    files: &[(usize, FileMetaData)],
    key: UserKey<'_>,
    sequence: SequenceNumber,
) -> usize
    ensures bound { result ≤ length files.now }
    ensures parts { PartsFiles (C.cmp ucmp.now) key.now sequence
        (map new_file_of files.now) result }
{
    files.partition_point(|file| ends_before(ucmp, file, key, sequence))
}

// Whether the file's largest key is before that of a look-up as of a sequence number.
fn ends_before<C: Cmp>(
    ucmp: &C,
    file: &(usize, FileMetaData),
    key: UserKey<'_>,
    sequence: SequenceNumber,
) -> bool
    ensures { result ≡ ends_before (C.cmp ucmp.now) key.now sequence (new_file_of file.now) }
{
    let (last, its_sequence) = split_sequence(&file.1.largest);
    ucmp.cmp(last, key)
        .then(sequence.cmp(&its_sequence))
        .is_lt()
}

// Whether the file begins after a user key.
fn begins_after<C: Cmp>(ucmp: &C, file: &(usize, FileMetaData), key: UserKey<'_>) -> bool
    ensures { result
        ≡ is_lt (C.cmp ucmp.now key.now (user_part (new_file_of file.now).smallest)) }
{
    let (first, _) = split_sequence(&file.1.smallest);
    ucmp.cmp(key, first).is_lt()
}
