//! What the records of a manifest leave: one edit of all that there is, and its numbers.
// LevelDB: db/version_set.cc, VersionSet::Recover
ghost use Rattle.std.specs.Prelude.{◌≡◌, ◌≤◌, ◌⊎◌, ◌↔◌, [], IfOk, IfErr, IfSome, IsErrAnd, IsTrue, OnOk, if◌then◌else◌};
ghost use Rattle.leveldb_base.specs.Error.{IsOutOfMemory};
ghost use Rattle.leveldb_base.specs.KeyTypes.{greatest_sequence};
ghost use Rattle.leveldb_base.specs.declared.error.StatusCode.TheVariants.{NotSupported};
ghost use Rattle.leveldb_env.specs.Env.{ChangesFiles, FilesUnchanged, SameLocks, same};
ghost use Rattle.leveldb_env.specs.EnvFile.{opened};
ghost use Rattle.leveldb_mem.specs.Log.{bad, clean};
ghost use Rattle.leveldb_version_set.specs.Sets.FilesInOrder.{ArePlaced, ordered_files};
ghost use Rattle.leveldb_version_set.specs.Sets.Replay.{AreReplayedTo, EncodesNoEdit, HasReplayCause, IsReplayOfFile, ReplaysFileRest, ReplaysRest, ReplaysRestTo, StopsFileReplay, StopsReplay, TakesEdit, with_files};

use super::files_in_order::FilesInOrder;
use super::full_edit::add_pointers;
use leveldb_base::error::{Result, StatusCode, err};
use leveldb_base::types::{FileNum, MAX_SEQUENCE_NUMBER, SequenceNumber};
use leveldb_env::env::{Env, EnvFile, Source};
use leveldb_mem::log::{Found, ReaderCore};
use leveldb_version::version_edit::VersionEdit;
use std::alloc::Global;

/// What the edits of a manifest leave.
#[derive(Drop)]
pub(super) struct Replayed {
    // The comparator's name, the compaction pointers and the live files.
    pub(super) full: VersionEdit,

    // The numbers that edits set last.
    pub(super) log_number: Option<FileNum>,
    pub(super) previous_log: Option<FileNum>,
    pub(super) next_file: Option<FileNum>,
    pub(super) last_sequence: Option<SequenceNumber>,

    // Whether each last sequence number is at most the greatest.
    pub(super) numbers_fit: bool,
}

/// What the records of a log's file leave, each applied after those before it, and whether the file
/// ends between two records. One record is held at a time.
/// Returns `Corruption` if one encodes no edit, and `NotSupported` if one has 2^64 bytes.
pub(super) fn replay_file<E: Env>(
    alloc: Global,
    env: &mut E,
    path: &str,
) -> Result<(Replayed, bool)>
    ensures does { IsTrue E.models_disk
        → ChangesFiles E.models_disk same FilesUnchanged (E.observed env.old)
        (E.observed env.new) result }
    ensures locks { SameLocks E.models_disk (E.observed env.old) (E.observed env.new) }
    ensures ok { IfOk result (λ found. IsReplayOfFile E.models_disk
        ((E.observed env.old).disk.files path.now) found.0 (if found.1 then clean else bad)) }
    ensures cause { HasReplayCause E.models_disk path.now (E.observed env.old)
        (E.failures env.old) (E.failures env.new) result }
{
    let mut file = env.open_sequential_file(path)?;
    replay_rest(alloc, env, &mut file)
}

// The same of what an open file has from its offset on.
fn replay_rest<E: Env>(alloc: Global, env: &mut E, file: &mut E::File) -> Result<(Replayed, bool)>
    ensures ok { IfOk result (λ found. ReplaysFileRest E.Env (opened env.old file.old)
        found.0 (if found.1 then clean else bad) (opened env.new file.new)) }
    ensures err { IfErr result (λ status.
        StopsFileReplay E.Env (opened env.old file.old) status (opened env.new file.new)) }
{
    replay(alloc, &mut EnvFile { env, file })
}

// The same of what a source still gives.
fn replay<S: Source>(alloc: Global, source: &mut S) -> Result<(Replayed, bool)>
    ensures ok { IfOk result (λ found. ReplaysRest S.gives source.old
        found.0 (if found.1 then clean else bad) source.new) }
    ensures err { IfErr result (λ status.
        StopsReplay S.gives source.old status source.new) }
{
    let (mut left, files, is_clean) = replay_records(alloc, source)?;
    left.full.new_files = files.into_list(alloc)?;
    Ok((left, is_clean))
}

// The same, with the files apart from what else the records leave.
fn replay_records<S: Source>(
    alloc: Global,
    source: &mut S,
) -> Result<(Replayed, FilesInOrder, bool)>
    ensures ok { IfOk result (λ found. ReplaysRestTo S.gives source.old
        (with_files found.0.full (ordered_files found.1)) found.0
        (if found.2 then clean else bad) source.new) }
    ensures err { IfErr result (λ status.
        StopsReplay S.gives source.old status source.new) }
{
    let mut left = nothing(alloc);
    let mut files = FilesInOrder::new(alloc);
    let mut core = ReaderCore::new(alloc, true);
    let mut record = Vec::new(alloc);
    for count in 0..u64::MAX {
        match core.next_record(source, &mut record)? {
            Found::Record => add_record(alloc, &mut left, &mut files, &record)?,
            Found::End => return Ok((left, files, true)),
            Found::WrongChecksum => return Ok((left, files, false)),
            Found::Damage(_) => return Ok((left, files, false)),
        }
    }
    too_many(alloc)
}

// The error for records that can't be counted.
fn too_many<T>(alloc: Global) -> Result<T>
    ensures { IsErrAnd result (λ status. status.code ≡ NotSupported) }
{
    err(
        alloc,
        StatusCode::NotSupported,
        "a manifest has less than 2^64 records",
    )
}

// What no edit leaves.
fn nothing(alloc: Global) -> Replayed
    ensures { AreReplayedTo [] (with_files result.full []) result }
{
    Replayed {
        full: VersionEdit::new(alloc),
        log_number: None,
        previous_log: None,
        next_file: None,
        last_sequence: None,
        numbers_fit: true,
    }
}

// Applies the edit that a record encodes: to the files, and to what else there is.
fn add_record(
    alloc: Global,
    left: &mut Replayed,
    files: &mut FilesInOrder,
    bytes: &[u8],
) -> Result<()>
    requires placed { ArePlaced files.old }
    ensures ok { OnOk result (TakesEdit bytes.now
        left.old (ordered_files files.old) left.new (ordered_files files.new)) }
    ensures placed { OnOk result (ArePlaced files.new) }
    ensures cause { IfErr result (λ status.
        IsOutOfMemory status ⊎ EncodesNoEdit bytes.now status) }
{
    let edit = VersionEdit::decode_from(alloc, bytes)?;
    left.full
        .compaction_ptrs
        .reserve(edit.compaction_ptrs.len())?;
    files.remove_all(&edit.deleted);
    files.add_all(edit.new_files)?;
    left.log_number = edit.log_number.or(left.log_number);
    left.previous_log = edit.prev_log_number.or(left.previous_log);
    left.next_file = edit.next_file_number.or(left.next_file);
    left.last_sequence = edit.last_seq.or(left.last_sequence);
    left.numbers_fit = fits_too(left.numbers_fit, edit.last_seq);
    left.full.comparator = edit.comparator.or(left.full.comparator.take());
    add_pointers(&mut left.full.compaction_ptrs, edit.compaction_ptrs);
    Ok(())
}

// Whether all last sequence numbers fit, where those before this one do or don't.
fn fits_too(fit: bool, last: Option<SequenceNumber>) -> bool
    ensures { IsTrue result ↔ (IsTrue fit × IfSome last (λ n. n ≤ greatest_sequence)) }
{
    match last {
        Some(n) => fit && n <= MAX_SEQUENCE_NUMBER,
        None => fit,
    }
}
