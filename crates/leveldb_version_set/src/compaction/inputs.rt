//! The files that a compaction takes of a level and of the next.
// LevelDB: db/version_set.cc, VersionSet::SetupOtherInputs
ghost use Rattle.std.specs.Prelude.{◌≡◌, ◌↔◌, ◌<◌, [], None, IfErr, IfOk, IfSome, if◌then◌else◌, map};
ghost use Rattle.std.specs.List.{list_any};
ghost use Rattle.std.specs.Ordering.{is_lt};
ghost use Rattle.leveldb_base.specs.Error.{IsOutOfMemory};
ghost use Rattle.leveldb_base.specs.KeyTypes.{internal_cmp, user_part};
ghost use Rattle.leveldb_version.specs.Versions.DeeperLevels.{closed_range};
ghost use Rattle.leveldb_version_set.specs.Compactions.Contradictions.{begins_by, ends_from, is_among_inputs};
ghost use Rattle.leveldb_version_set.specs.Compactions.Inputs.{AreChosen, AreKeyEnds, MayTake};
ghost use Rattle.leveldb_files.specs.Levels.Overlap.{AreInputs, named_range};
ghost use Rattle.leveldb_version.specs.Versions.Version.{borrowed_files, new_files_of};
ghost use Rattle.leveldb_version.specs.Edits.VersionEdit.{new_file_of};

use leveldb_base::cmp::{Cmp, UserCmp};
use leveldb_base::error::Result;
use leveldb_base::key_types::{InternalKey, UserKey, cmp_internal_key, split_sequence};
use leveldb_base::types::FileMetaData;
use leveldb_version::version::Version;
use std::alloc::Global;

/// The files that a compaction takes of a level and of the next.
#[derive(Drop)]
pub struct Inputs<'v> {
    pub of_level: Vec<&'v (usize, FileMetaData)>,
    pub of_next: Vec<&'v (usize, FileMetaData)>,
}

/// The least first key of some files and the greatest last one, in the order of internal keys.
pub(crate) fn ends_of<'a, C: UserCmp>(
    ucmp: &C,
    files: &[&'a (usize, FileMetaData)],
) -> Option<(InternalKey<'a>, InternalKey<'a>)>
    ensures ends { IfSome result (λ ends.
        AreKeyEnds (C.cmp ucmp.now) (borrowed_files files.now) ends.0.now ends.1.now) }
    ensures none { (result ≡ None) ↔ (files.now ≡ []) }
{
    if files.is_empty() {
        return None;
    }
    let first = files[0];
    let mut low: &'a [u8] = &first.1.smallest;
    let mut high: &'a [u8] = &first.1.largest;
    for file in files {
        low = lesser(ucmp, low, &file.1.smallest);
        high = greater(ucmp, high, &file.1.largest);
    }
    Some((low, high))
}

// The lesser of two keys.
pub(super) fn lesser<'a, C: UserCmp>(
    ucmp: &C,
    low: InternalKey<'a>,
    key: InternalKey<'a>,
) -> InternalKey<'a>
    ensures { result.now ≡ (if is_lt (internal_cmp (C.cmp ucmp.now) key.now low.now)
        then key.now else low.now) }
{
    if cmp_internal_key(ucmp, key, low).is_lt() {
        key
    } else {
        low
    }
}

// The greater of two keys.
pub(super) fn greater<'a, C: UserCmp>(
    ucmp: &C,
    high: InternalKey<'a>,
    key: InternalKey<'a>,
) -> InternalKey<'a>
    ensures { result.now ≡ (if is_lt (internal_cmp (C.cmp ucmp.now) high.now key.now)
        then key.now else high.now) }
{
    if cmp_internal_key(ucmp, high, key).is_lt() {
        key
    } else {
        high
    }
}

/// Files of a level that were chosen, and all of the next level that overlap the range from end to
/// end of them; none where none is chosen.
pub(crate) fn with_next<'v, C: UserCmp>(
    alloc: Global,
    version: &'v Version<C>,
    level: usize,
    chosen: Vec<&'v (usize, FileMetaData)>,
) -> Result<Option<Inputs<'v>>>
    requires level { level < 6 }
    requires chosen { AreChosen (C.cmp version.now.cmp) (new_files_of version.now) level
        (borrowed_files chosen.items) }
    ensures may { IfOk result (λ inputs. IfSome inputs
        (MayTake (C.cmp version.now.cmp) (new_files_of version.now) level)) }
    ensures same { IfOk result (λ inputs. IfSome inputs (λ it. it.of_level ≡ chosen.entry)) }
    ensures none { IfOk result (λ inputs. (inputs ≡ None) ↔ (chosen.entry.items ≡ [])) }
    ensures memory { IfErr result IsOutOfMemory }
{
    let Some((first, last)) = ends_of(version.ucmp(), chosen.as_slice()) else {
        return Ok(None);
    };
    let (low, _) = split_sequence(first);
    let (high, _) = split_sequence(last);
    let of_next = version.files_between(alloc, level + 1, low, high)?;
    Ok(Some(Inputs {
        of_level: chosen,
        of_next,
    }))
}

/// The files of a level that overlap a range, as `Version::overlapping_inputs`: a compaction may
/// begin with them.
pub(crate) fn inputs_in<'v, C: UserCmp>(
    alloc: Global,
    version: &'v Version<C>,
    level: usize,
    begin: InternalKey<'v>,
    end: InternalKey<'v>,
) -> Result<Vec<&'v (usize, FileMetaData)>>
    requires { level < 7 }
    ensures chosen { IfOk result (λ chosen. AreChosen (C.cmp version.now.cmp)
        (new_files_of version.now) level (borrowed_files chosen.items)) }
    ensures inputs { IfOk result (λ chosen. AreInputs (C.cmp version.now.cmp) level
        (named_range (user_part begin.now) (user_part end.now)) (new_files_of version.now)
        (borrowed_files chosen.items)) }
    ensures memory { IfErr result IsOutOfMemory }
{
    version.overlapping_inputs(alloc, level, begin, end)
}

/// The files of a level that overlap the range between the user keys of two keys, both in it,
/// whichever they are; in level 0 it is widened first. A compaction may begin with them.
pub(crate) fn inputs_within<'v, C: UserCmp>(
    alloc: Global,
    version: &'v Version<C>,
    level: usize,
    low: InternalKey<'v>,
    high: InternalKey<'v>,
) -> Result<Vec<&'v (usize, FileMetaData)>>
    requires { level < 7 }
    ensures chosen { IfOk result (λ chosen. AreChosen (C.cmp version.now.cmp)
        (new_files_of version.now) level (borrowed_files chosen.items)) }
    ensures inputs { IfOk result (λ chosen. AreInputs (C.cmp version.now.cmp) level
        (closed_range (user_part low.now) (user_part high.now)) (new_files_of version.now)
        (borrowed_files chosen.items)) }
    ensures memory { IfErr result IsOutOfMemory }
{
    let (low, _) = split_sequence(low);
    let (high, _) = split_sequence(high);
    version.inputs_between(alloc, level, low, high)
}

/// Whether a user key is within the range from the first key of one of the files to the last key of
/// one.
pub(super) fn is_among<C: Cmp>(ucmp: &C, files: &[(usize, FileMetaData)], key: UserKey<'_>) -> bool
    ensures { result
        ≡ is_among_inputs (C.cmp ucmp.now) (map new_file_of files.now) key.now }
{
    one_begins_by(ucmp, files, key) && one_ends_from(ucmp, files, key)
}

// Whether one of the files doesn't begin after a user key.
fn one_begins_by<C: Cmp>(ucmp: &C, files: &[(usize, FileMetaData)], key: UserKey<'_>) -> bool
    ensures { result
        ≡ list_any (begins_by (C.cmp ucmp.now) key.now) (map new_file_of files.now) }
{
    for file in files {
        if begins_by(ucmp, file, key) {
            return true;
        }
    }
    false
}

// Whether the file doesn't begin after a user key.
fn begins_by<C: Cmp>(ucmp: &C, file: &(usize, FileMetaData), key: UserKey<'_>) -> bool
    ensures { result ≡ begins_by (C.cmp ucmp.now) key.now (new_file_of file.now) }
{
    let (first, _) = split_sequence(&file.1.smallest);
    !ucmp.cmp(key, first).is_lt()
}

// Whether one of the files doesn't end before a user key, looked for from the last one on: in order
// they end later and later, but for those of level 0.
fn one_ends_from<C: Cmp>(ucmp: &C, files: &[(usize, FileMetaData)], key: UserKey<'_>) -> bool
    ensures { result
        ≡ list_any (ends_from (C.cmp ucmp.now) key.now) (map new_file_of files.now) }
{
    let mut left = files;
    while let Some((file, rest)) = left.split_last() {
        if ends_from(ucmp, file, key) {
            return true;
        }
        left = rest;
    }
    false
}

// Whether the file doesn't end before a user key.
fn ends_from<C: Cmp>(ucmp: &C, file: &(usize, FileMetaData), key: UserKey<'_>) -> bool
    ensures { result ≡ ends_from (C.cmp ucmp.now) key.now (new_file_of file.now) }
{
    let (last, _) = split_sequence(&file.1.largest);
    !ucmp.cmp(last, key).is_lt()
}
