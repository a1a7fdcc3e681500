//! Whether a store may begin with what the edits of its manifest leave.
// LevelDB: db/version_set.cc, VersionSet::Recover
ghost use Rattle.std.specs.Prelude.{◌≡◌, ◌≢◌, ◌≤◌, ◌<◌, ◌+◌, ◌^◌, ◌↔◌, List, Some, IfErr, IfOk, IsTrue, OnOk, map, string_bytes};
ghost use Rattle.std.specs.Option.{option_map};
ghost use Rattle.std.specs.declared.cmp.Ordering.TheVariants.{Less};
ghost use Rattle.leveldb_base.specs.KeyTypes.{internal_cmp, user_part};
ghost use Rattle.leveldb_files.specs.Levels.Levels.{AreDisjoint};
ghost use Rattle.leveldb_version_set.specs.Sets.Recover.{IsUsable, WhyUnusable};
ghost use Rattle.leveldb_version_set.specs.Sets.Replay.{IsReplayOf};
ghost use Rattle.leveldb_version_set.specs.Sets.Usable.{AreAllApart, ArePeers, ClashesWith, HasClash, HasStartNumbers, IsApartFrom, IsClash, IsOtherComparator, LacksStartNumber, next_number_of};
ghost use Rattle.leveldb_files.specs.Edits.Edit.{Edit};
ghost use Rattle.leveldb_version.specs.Edits.VersionEdit.{new_file_of};

use super::check_key_ranges;
use super::replay::Replayed;
use leveldb_base::cmp::Cmp;
use leveldb_base::error::{Result, StatusCode, err};
use leveldb_base::key_types::{cmp_internal_key, split_sequence};
use leveldb_base::types::{FileMetaData, FileNum};
use std::alloc::Global;

/// Checks that a store may begin with what edits leave, with a comparator of this order and name.
/// The comparator, the log number, the next file's and the last sequence number must be set, else
/// `Corruption`; another comparator is `InvalidArgument`. A number past the greatest, a file whose
/// keys are no range, and files of one level from 1 on that overlap are `Corruption`; such files
/// that share a user key are `NotSupported`.
pub(super) fn check_usable<C: Cmp>(alloc: Global, ucmp: &C, left: &Replayed) -> Result<()>
    ensures ok { OnOk result ((edits : List Edit) → IsReplayOf edits left.now
        → IsUsable (C.cmp ucmp.now) (C.name ucmp.now) edits) }
    ensures cause { IfErr result (λ status. (edits : List Edit) → IsReplayOf edits left.now
        → WhyUnusable (C.cmp ucmp.now) (C.name ucmp.now) edits status) }
{
    let files = left.full.new_files.as_slice();
    check_comparator(alloc, ucmp.id(), &left.full.comparator)?;
    check_start_numbers(alloc, left)?;
    check_fit(alloc, left.numbers_fit)?;
    check_key_ranges(alloc, ucmp, files)?;
    check_apart(alloc, ucmp, files)
}

// Checks the comparator's name.
fn check_comparator(alloc: Global, name: &str, found: &Option<String>) -> Result<()>
    ensures ok { OnOk result (option_map string_bytes found.now ≡ Some name.now) }
    ensures cause { IfErr result
        (IsOtherComparator name.now (option_map string_bytes found.now)) }
{
    match found {
        None => err(
            alloc,
            StatusCode::Corruption,
            "the manifest names no comparator",
        ),
        Some(found) => check_name(alloc, name, found),
    }
}

fn check_name(alloc: Global, name: &str, found: &str) -> Result<()>
    ensures ok { OnOk result (found.now ≡ name.now) }
    ensures cause { IfErr result (λ status.
        (status.code ≡ StatusCode.InvalidArgument) × (found.now ≢ name.now)) }
{
    if found == name {
        return Ok(());
    }
    err(
        alloc,
        StatusCode::InvalidArgument,
        "the store has another comparator",
    )
}

// Checks that the log number, the next file's and the last sequence number are set.
fn check_start_numbers(alloc: Global, left: &Replayed) -> Result<()>
    ensures ok { OnOk result (HasStartNumbers left.now) }
    ensures cause { IfErr result (LacksStartNumber left.now) }
{
    if left.log_number.is_none() {
        return err(
            alloc,
            StatusCode::Corruption,
            "the manifest has no log number",
        );
    }
    if left.next_file.is_none() {
        return err(
            alloc,
            StatusCode::Corruption,
            "the manifest has no number of a next file",
        );
    }
    if left.last_sequence.is_none() {
        return err(
            alloc,
            StatusCode::Corruption,
            "the manifest has no last sequence number",
        );
    }
    Ok(())
}

// Checks that last sequence numbers fit.
fn check_fit(alloc: Global, fit: bool) -> Result<()>
    ensures ok { OnOk result (IsTrue fit) }
    ensures cause { IfErr result (λ status.
        (status.code ≡ StatusCode.Corruption) × ¬ IsTrue fit) }
{
    if fit {
        return Ok(());
    }
    err(
        alloc,
        StatusCode::Corruption,
        "a last sequence number is too great",
    )
}

// Checks that files of one level from 1 on are apart in user keys.
fn check_apart<C: Cmp>(alloc: Global, ucmp: &C, files: &[(usize, FileMetaData)]) -> Result<()>
    ensures ok { OnOk result (AreAllApart (C.cmp ucmp.now) (map new_file_of files.now)
        (map new_file_of files.now)) }
    ensures cause { IfErr result (HasClash (C.cmp ucmp.now) (map new_file_of files.now)) }
{
    for file in files {
        check_apart_from(alloc, ucmp, file, files)?;
    }
    Ok(())
}

// Checks one file against each other.
fn check_apart_from<C: Cmp>(
    alloc: Global,
    ucmp: &C,
    file: &(usize, FileMetaData),
    files: &[(usize, FileMetaData)],
) -> Result<()>
    ensures ok { OnOk result
        (IsApartFrom (C.cmp ucmp.now) (new_file_of file.now) (map new_file_of files.now)) }
    ensures cause { IfErr result
        (ClashesWith (C.cmp ucmp.now) (new_file_of file.now) (map new_file_of files.now)) }
{
    for other in files {
        check_pair(alloc, ucmp, file, other)?;
    }
    Ok(())
}

// Checks one file against one other.
fn check_pair<C: Cmp>(
    alloc: Global,
    ucmp: &C,
    a: &(usize, FileMetaData),
    b: &(usize, FileMetaData),
) -> Result<()>
    ensures ok { OnOk result (ArePeers (new_file_of a.now) (new_file_of b.now)
        → AreDisjoint (C.cmp ucmp.now) (new_file_of a.now) (new_file_of b.now)) }
    ensures cause { IfErr result
        (IsClash (C.cmp ucmp.now) (new_file_of a.now) (new_file_of b.now)) }
{
    if !are_peers(a, b) {
        return Ok(());
    }
    if ends_below(ucmp, &a.1, &b.1) {
        return Ok(());
    }
    if ends_below(ucmp, &b.1, &a.1) {
        return Ok(());
    }
    if ends_before(ucmp, &a.1, &b.1) {
        return shared_user_key(alloc);
    }
    if ends_before(ucmp, &b.1, &a.1) {
        return shared_user_key(alloc);
    }
    err(
        alloc,
        StatusCode::Corruption,
        "two files of a level overlap",
    )
}

// The error for files of one level where one begins with the user key that the other ends with.
fn shared_user_key(alloc: Global) -> Result<()>
    ensures ok { OnOk result ⊥ }
    ensures cause { IfErr result (λ status. status.code ≡ StatusCode.NotSupported) }
{
    err(
        alloc,
        StatusCode::NotSupported,
        "two files of a level share a user key",
    )
}

// Whether two files are of one level from 1 on.
fn are_peers(a: &(usize, FileMetaData), b: &(usize, FileMetaData)) -> bool
    ensures { IsTrue result ↔ ArePeers (new_file_of a.now) (new_file_of b.now) }
{
    a.0 == b.0 && a.0 > 0 && a.1.num != b.1.num
}

// Whether the user keys of the first file end before those of the second begin.
fn ends_below<C: Cmp>(ucmp: &C, a: &FileMetaData, b: &FileMetaData) -> bool
    ensures { IsTrue result
        ↔ (C.cmp ucmp.now (user_part a.now.largest) (user_part b.now.smallest) ≡ Less) }
{
    let (end, _) = split_sequence(&a.largest);
    let (start, _) = split_sequence(&b.smallest);
    ucmp.cmp(end, start).is_lt()
}

// Whether the keys of the first file end before those of the second begin.
fn ends_before<C: Cmp>(ucmp: &C, a: &FileMetaData, b: &FileMetaData) -> bool
    ensures { IsTrue result
        ↔ (internal_cmp (C.cmp ucmp.now) a.now.largest b.now.smallest ≡ Less) }
{
    cmp_internal_key(ucmp, &a.largest, &b.smallest).is_lt()
}

/// The number that the next file takes: above those that edits left and that of their manifest, and
/// not below `old`. `NotSupported` if it or the one after it isn't a number of 64 bits.
pub(super) fn next_number_after(
    alloc: Global,
    old: FileNum,
    manifest: FileNum,
    left: &Replayed,
) -> Result<FileNum>
    ensures ok { IfOk result (λ next. next ≡ next_number_of old manifest left.now) }
    ensures fits { IfOk result (λ next. next + 1 < 2 ^ 64) }
    ensures cause { IfErr result (λ status. (status.code ≡ StatusCode.NotSupported)
        × (2 ^ 64 ≤ next_number_of old manifest left.now + 1)) }
{
    let logs = left
        .log_number
        .unwrap_or(0)
        .max(left.previous_log.unwrap_or(0));
    let greatest = left.next_file.unwrap_or(0).max(manifest.max(logs));
    let next = old.max(greatest.saturating_add(1));
    if next == FileNum::MAX {
        return err(
            alloc,
            StatusCode::NotSupported,
            "the numbers of files are used up",
        );
    }
    Ok(next)
}
