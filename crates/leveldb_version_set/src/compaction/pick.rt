//! Which compaction is asked for: by a version's score, by reads, or by a range.
// LevelDB: db/version_set.cc, VersionSet::PickCompaction and CompactRange
ghost use Rattle.std.specs.Prelude.{◌≡◌, ◌<◌, ◌↔◌, ◌⊎◌, ◌==◌, [], true, Contains, IfErr, IfOk, IfSome, IsTrue, None, find, map};
ghost use Rattle.std.specs.Option.{option_copied, option_map};
ghost use Rattle.std.specs.Ordering.{is_gt};
ghost use Rattle.leveldb_base.specs.Error.{IsOutOfMemory};
ghost use Rattle.leveldb_base.specs.KeyTypes.{internal_cmp, user_part};
ghost use Rattle.leveldb_version_set.specs.Compactions.Inputs.{AreChosen, AreOrdered, AreWithin, HaveGrown, IsCountPast, KeepsFiles, MayTake, input_files};
ghost use Rattle.leveldb_files.specs.Levels.Overlap.{named_range};
ghost use Rattle.leveldb_version_set.specs.Compactions.Picking.{IsAskedByReads, IsAskedFor, IsCompactionOf, IsOfFile, IsOfRange, asking_file, file_after, file_by_reads, needs_compaction, used_pointer};
ghost use Rattle.leveldb_files.specs.Levels.Summary.{total_size};
ghost use Rattle.leveldb_version.specs.Versions.Version.{at_level, borrowed_files, new_files_of};
ghost use Rattle.leveldb_files.specs.Edits.Edit.{NewFile};
ghost use Rattle.leveldb_version.specs.Edits.VersionEdit.{new_file_of, pointer_of};
ghost use Rattle.leveldb_files.specs.Edits.VersionSet.{pointer_at};

use super::Compaction;
use super::inputs::{Inputs, ends_of, greater, inputs_in, inputs_within, lesser, with_next};
use leveldb_base::cmp::UserCmp;
use leveldb_base::error::Result;
use leveldb_base::key_types::{InternalKey, TAG_LEN, cmp_internal_key};
use leveldb_base::types::{FileMetaData, FileNum};
use leveldb_version::version::{Version, product};
use leveldb_version::version_edit::CompactionPointer;
use std::alloc::Global;

/// Whether a version asks for a compaction, by its score or by reads.
pub fn needs_compaction<C: UserCmp>(version: &Version<C>) -> bool
    ensures { result ≡ needs_compaction version.now }
{
    version.level_by_score().is_some() || file_by_reads(version).is_some()
}

/// The compaction for which a version asks: by its score or else by reads.
pub fn pick_compaction<C: UserCmp + Copy + Drop>(
    alloc: Global,
    version: &Version<C>,
    pointers: &[CompactionPointer],
    max_file_size: usize,
) -> Result<Option<Compaction<C>>>
    ensures ok { IfOk result (IsAskedFor (C.cmp version.now.cmp) (map pointer_of pointers.now)
        version.now max_file_size) }
    ensures memory { IfErr result IsOutOfMemory }
{
    let file = asking_file(version, pointers);
    compaction_with(alloc, version, file, max_file_size)
}

/// The compaction for which reads ask, whatever the version's score.
pub fn compaction_by_reads<C: UserCmp + Copy + Drop>(
    alloc: Global,
    version: &Version<C>,
    max_file_size: usize,
) -> Result<Option<Compaction<C>>>
    ensures ok { IfOk result (IsAskedByReads (C.cmp version.now.cmp) version.now max_file_size) }
    ensures memory { IfErr result IsOutOfMemory }
{
    let file = file_by_reads(version);
    compaction_with(alloc, version, file, max_file_size)
}

/// The compaction of the files of a level that overlap the range between two keys, if there are
/// some: an empty user key is an open end. From level 1 on it begins with no more of them than have
/// more bytes than `max_file_size` with the last one, which no clause says.
pub fn compact_range<C: UserCmp + Copy + Drop>(
    alloc: Global,
    version: &Version<C>,
    level: usize,
    begin: InternalKey<'_>,
    end: InternalKey<'_>,
    max_file_size: usize,
) -> Result<Option<Compaction<C>>>
    requires { level < 6 }
    ensures ok { IfOk result (IsOfRange (C.cmp version.now.cmp) version.now level
        (named_range (user_part begin.now) (user_part end.now)) max_file_size) }
    ensures memory { IfErr result IsOutOfMemory }
{
    let mut chosen = inputs_in(alloc, version, level, begin, end)?;
    if level > 0 {
        let count = count_past(chosen.as_slice(), max_file_size);
        chosen.truncate(count);
    }
    compaction_of(alloc, version, level, true, max_file_size, chosen)
}

// The file for which a version asks for a compaction.
fn asking_file<'v, C: UserCmp>(
    version: &'v Version<C>,
    pointers: &[CompactionPointer],
) -> Option<&'v (usize, FileMetaData)>
    ensures there { IfSome result (λ file.
        Contains (at_level file.now.0 version.now.files) file.now × (file.now.0 < 6)) }
    ensures value { option_map new_file_of (option_copied result) ≡ asking_file
        (C.cmp version.now.cmp) (map pointer_of pointers.now) version.now }
{
    match version.level_by_score() {
        Some(level) => {
            let pointer = used_pointer(pointers, level);
            file_after(version.ucmp(), version.files(level), pointer)
        }
        None => file_by_reads(version),
    }
}

// The first of a level's files that ends after the pointer; the first one, if none does or there is
// no pointer.
fn file_after<'v, C: UserCmp>(
    ucmp: &C,
    files: &'v [(usize, FileMetaData)],
    pointer: Option<InternalKey<'_>>,
) -> Option<&'v (usize, FileMetaData)>
    ensures there { IfSome result (λ file. Contains files.now file.now) }
    ensures value { option_map new_file_of (option_copied result) ≡ file_after (C.cmp ucmp.now)
        (option_copied pointer.entry) (map new_file_of files.now) }
{
    match pointer {
        Some(pointer) => first_ending_after(ucmp, files, pointer).or(files.first()),
        None => files.first(),
    }
}

// The first file that ends after a key.
fn first_ending_after<'v, C: UserCmp>(
    ucmp: &C,
    files: &'v [(usize, FileMetaData)],
    key: InternalKey<'_>,
) -> Option<&'v (usize, FileMetaData)>
    ensures there { IfSome result (λ file. Contains files.now file.now) }
    ensures value { option_map new_file_of (option_copied result)
        ≡ find (λ file. is_gt (internal_cmp (C.cmp ucmp.now) file.largest key.now))
        (map new_file_of files.now) }
{
    for file in files {
        if cmp_internal_key(ucmp, &file.1.largest, key).is_gt() {
            return Some(file);
        }
    }
    None
}

// The file that reads have chosen, while it is in its level and that isn't the last one.
fn file_by_reads<C: UserCmp>(version: &Version<C>) -> Option<&(usize, FileMetaData)>
    ensures there { IfSome result (λ file.
        Contains (at_level file.now.0 version.now.files) file.now × (file.now.0 < 6)) }
    ensures value { option_map new_file_of (option_copied result) ≡ file_by_reads version.now }
{
    let Some((level, number)) = version.file_to_compact() else {
        return None;
    };
    if level < 6 {
        file_of_number(version.files(level), number)
    } else {
        None
    }
}

// The file of this number.
fn file_of_number(
    files: &[(usize, FileMetaData)],
    number: FileNum,
) -> Option<&(usize, FileMetaData)>
    ensures there { IfSome result (λ file. Contains files.now file.now) }
    ensures value { option_map new_file_of (option_copied result)
        ≡ find (λ file. file.number == number) (map new_file_of files.now) }
{
    for file in files {
        if file.1.num == number {
            return Some(file);
        }
    }
    None
}

// The pointer of a level, if the last one that was set is an internal key.
fn used_pointer(pointers: &[CompactionPointer], level: usize) -> Option<InternalKey<'_>>
    ensures { option_copied result ≡ used_pointer (map pointer_of pointers.now) level }
{
    let key = last_pointer(pointers, level)?;
    if key.len() < TAG_LEN { None } else { Some(key) }
}

// The pointer of a level that was set last.
fn last_pointer(pointers: &[CompactionPointer], level: usize) -> Option<&[u8]>
    ensures { option_copied result ≡ pointer_at (map pointer_of pointers.now) level }
{
    let mut last: Option<&[u8]> = None;
    for pointer in pointers {
        if pointer.level == level {
            last = Some(&pointer.key);
        }
    }
    last
}

// The compaction of a file's level that takes the file; none where there is no file.
fn compaction_with<'v, C: UserCmp + Copy + Drop>(
    alloc: Global,
    version: &'v Version<C>,
    file: Option<&'v (usize, FileMetaData)>,
    max_file_size: usize,
) -> Result<Option<Compaction<C>>>
    requires there { IfSome file (λ file.
        Contains (at_level file.now.0 version.now.files) file.now × (file.now.0 < 6)) }
    ensures ok { IfOk result (IsOfFile (C.cmp version.now.cmp) version.now
        (option_map new_file_of (option_copied file.entry)) max_file_size) }
    ensures memory { IfErr result IsOutOfMemory }
{
    let Some(file) = file else {
        return Ok(None);
    };
    let chosen = chosen_with(alloc, version, file)?;
    compaction_of(alloc, version, file.0, false, max_file_size, chosen)
}

// The files with which a compaction of a file's level begins: the file, and in level 0 those that
// overlap it and one another.
fn chosen_with<'v, C: UserCmp>(
    alloc: Global,
    version: &'v Version<C>,
    file: &'v (usize, FileMetaData),
) -> Result<Vec<&'v (usize, FileMetaData)>>
    requires level { file.now.0 < 6 }
    requires there { Contains (at_level file.now.0 version.now.files) file.now }
    ensures chosen { IfOk result (λ chosen. AreChosen (C.cmp version.now.cmp)
        (new_files_of version.now) file.now.0 (borrowed_files chosen.items)) }
    ensures file { IfOk result (λ chosen.
        AreOrdered (C.cmp version.now.cmp) (new_files_of version.now)
        → Contains (borrowed_files chosen.items) (new_file_of file.now)) }
    ensures memory { IfErr result IsOutOfMemory }
{
    if file.0 == 0 {
        return inputs_within(alloc, version, 0, &file.1.smallest, &file.1.largest);
    }
    let mut chosen = Vec::new(alloc);
    chosen.push(file)?;
    Ok(chosen)
}

// How many files there are up to the one with which they have more bytes than this, or all of them.
fn count_past(files: &[&(usize, FileMetaData)], limit: usize) -> usize
    ensures { IsCountPast limit (borrowed_files files.now) result }
{
    let mut left = limit;
    let mut count = 0;
    for file in files {
        count += 1;
        if file.1.size > left {
            return count;
        }
        left -= file.1.size;
    }
    count
}

// The compaction of the chosen files of a level with those of the next, and with more of the level
// where that costs no more of the next; none where none is chosen.
fn compaction_of<'v, C: UserCmp + Copy + Drop>(
    alloc: Global,
    version: &'v Version<C>,
    level: usize,
    manual: bool,
    max_file_size: usize,
    chosen: Vec<&'v (usize, FileMetaData)>,
) -> Result<Option<Compaction<C>>>
    requires level { level < 6 }
    requires chosen { AreChosen (C.cmp version.now.cmp) (new_files_of version.now) level
        (borrowed_files chosen.items) }
    ensures each { IfOk result (λ picked. IfSome picked
        (IsCompactionOf (C.cmp version.now.cmp) version.now manual max_file_size)) }
    ensures level { IfOk result (λ picked. IfSome picked (λ it. it.level ≡ level)) }
    ensures keeps { AreOrdered (C.cmp version.now.cmp) (new_files_of version.now)
        → IfOk result (λ picked. IfSome picked (λ it. (file : NewFile)
        → Contains (borrowed_files chosen.entry.items) file
        → Contains (new_files_of it.inputs) file)) }
    ensures none { IfOk result (λ picked. (picked ≡ None) ↔ (chosen.entry.items ≡ [])) }
    ensures memory { IfErr result IsOutOfMemory }
{
    let begun = with_next(alloc, version, level, chosen)?;
    let Some(narrow) = begun else {
        return Ok(None);
    };
    let inputs = grown(alloc, version, level, max_file_size, narrow)?;
    let compaction = Compaction::new(alloc, version, level, manual, max_file_size, &inputs)?;
    Ok(Some(compaction))
}

// Inputs with more files of the level, where they take as many of the next and have fewer bytes
// than 25 files may; else the same.
fn grown<'v, C: UserCmp>(
    alloc: Global,
    version: &'v Version<C>,
    level: usize,
    max_file_size: usize,
    narrow: Inputs<'v>,
) -> Result<Inputs<'v>>
    requires level { level < 6 }
    requires may { MayTake (C.cmp version.now.cmp) (new_files_of version.now) level narrow }
    ensures may { IfOk result
        (MayTake (C.cmp version.now.cmp) (new_files_of version.now) level) }
    ensures keeps { AreOrdered (C.cmp version.now.cmp) (new_files_of version.now)
        → IfOk result (KeepsFiles narrow.entry) }
    ensures better { IfOk result (λ inputs.
        (inputs ≡ narrow.entry) ⊎ HaveGrown max_file_size narrow.entry inputs) }
    ensures memory { IfErr result IsOutOfMemory }
{
    if narrow.of_next.is_empty() {
        return Ok(narrow);
    }
    match wider(alloc, version, level, &narrow)? {
        Some(wide) if is_better(&narrow, &wide, max_file_size) => Ok(wide),
        _ => Ok(narrow),
    }
}

// The files of the level that overlap the range of the inputs of both levels, with those of the
// next.
fn wider<'v, C: UserCmp>(
    alloc: Global,
    version: &'v Version<C>,
    level: usize,
    narrow: &Inputs<'v>,
) -> Result<Option<Inputs<'v>>>
    requires level { level < 6 }
    requires may { MayTake (C.cmp version.now.cmp) (new_files_of version.now) level narrow.now }
    ensures may { IfOk result (λ inputs. IfSome inputs
        (MayTake (C.cmp version.now.cmp) (new_files_of version.now) level)) }
    ensures keeps { AreOrdered (C.cmp version.now.cmp) (new_files_of version.now)
        → IfOk result (λ inputs. IfSome inputs (KeepsFiles narrow.now)) }
    ensures memory { IfErr result IsOutOfMemory }
{
    let Some((low, high)) = ends_of_both(version.ucmp(), narrow) else {
        return Ok(None);
    };
    let chosen = inputs_within(alloc, version, level, low, high)?;
    with_next(alloc, version, level, chosen)
}

// A key that is no later than any first key of the inputs, and one that is no earlier than any of
// their last ones; none where none is of the level.
fn ends_of_both<'v, C: UserCmp>(
    ucmp: &C,
    inputs: &Inputs<'v>,
) -> Option<(InternalKey<'v>, InternalKey<'v>)>
    ensures ends { IfSome result (λ ends.
        AreWithin (C.cmp ucmp.now) (input_files inputs.now) ends.0.now ends.1.now) }
    ensures none { (result ≡ None) ↔ (inputs.now.of_level.items ≡ []) }
{
    let Some((low, high)) = ends_of(ucmp, inputs.of_level.as_slice()) else {
        return None;
    };
    match ends_of(ucmp, inputs.of_next.as_slice()) {
        Some((first, last)) => Some((lesser(ucmp, low, first), greater(ucmp, high, last))),
        None => Some((low, high)),
    }
}

// Whether wider inputs are taken.
fn is_better(narrow: &Inputs<'_>, wide: &Inputs<'_>, max_file_size: usize) -> bool
    ensures { IsTrue result ↔ HaveGrown max_file_size narrow.now wide.now }
{
    let size = size_of(wide.of_level.as_slice()).saturating_add(size_of(wide.of_next.as_slice()));
    wide.of_level.len() > narrow.of_level.len()
        && wide.of_next.len() == narrow.of_next.len()
        && (size as u128) < product(25, max_file_size)
}

// How many bytes the files have together, up to 2^64 - 1.
fn size_of(files: &[&(usize, FileMetaData)]) -> usize
    ensures { result ≡ total_size (borrowed_files files.now) }
{
    let mut size: usize = 0;
    for file in files {
        size = size.saturating_add(file.1.size);
    }
    size
}
