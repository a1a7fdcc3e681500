//! The version set that a store's manifest leaves, with the logs that are replayed.
// LevelDB: db/db_impl.cc, DBImpl::Recover
ghost use Rattle.std.specs.Prelude.{◌≡◌, ◌⊎◌, ◌<◌, ◌^◌, ◌↔◌, ℕ, All, IfErr, IfOk, IfSome, IsErrAnd, IsTrue, OnOk, map};
ghost use Rattle.leveldb_base.specs.Error.{IsOutOfMemory};
ghost use Rattle.leveldb_base.specs.declared.error.StatusCode.TheVariants.{Corruption};
ghost use Rattle.leveldb_env.specs.Env.{FilesUnchanged, Run, SameLocks};
ghost use Rattle.leveldb_version.specs.Edits.VersionEdit.{new_file_of};
ghost use Rattle.leveldb_version_set.specs.Sets.VersionSetValue.{AreFileNumbersUsedUp, new_version_set};
ghost use Rattle.leveldb_files.specs.Stores.Format.{format_of};
ghost use Rattle.leveldb_store.specs.Openings.Listing.{AreFilesIn, MatchesName, names_of};
ghost use Rattle.leveldb_store.specs.Keeping.OpenStore.{AreNumbersGiven};
ghost use Rattle.leveldb_store.specs.Openings.OpeningSteps.{ChecksSet, HasNumber, LacksTable, MarksNames, ReadsSet, RecoversSet};
ghost use Rattle.leveldb_store.specs.Openings.OpensStore.{AreTablesThere, IsBareFolder};
ghost use Rattle.leveldb_store.specs.Logs.ReplayLog.{HasCauseOr};

use super::listing::{ListedFile, list_files};
use super::logs::find_logs;
use leveldb_base::cmp::{Cmp, UserCmp};
use leveldb_base::error::{Result, Status, StatusCode, err};
use leveldb_base::names::table_file_name;
use leveldb_base::types::{FileMetaData, FileNum};
use leveldb_env::compressor::{CompressorList, Compressors};
use leveldb_env::env::Env;
use leveldb_env::env::whole_files::found;
use leveldb_env::filter::FilterPolicy;
use leveldb_env::options::Options;
use leveldb_version_set::version_set::LiveFiles;
use std::alloc::Global;
use std::collections::BTreeSet;

// A version set that was recovered, whether its next edit begins a new manifest, and the numbers of
// the logs that are replayed.
#[derive(Drop)]
pub(super) struct RecoveredSet<E: Env> {
    pub(super) versions: LiveFiles<E>,
    pub(super) needs_new_manifest: bool,
    pub(super) logs: BTreeSet<FileNum>,
}

// Recovers the set of the manifest that `CURRENT` names. Its live tables are there with their
// sizes, and the logs that are replayed have their own names. The folder is listed unless it was.
pub(super) fn recover_set<E: Env, C: UserCmp, FP: FilterPolicy>(
    alloc: Global,
    env: &mut E,
    store: &str,
    options: &Options<C, FP>,
    listed: Option<Vec<ListedFile>>,
) -> Result<RecoveredSet<E>>
    requires { IfSome listed (λ files. AreFilesIn E.Env store.now env.old files.items) }
    ensures { RecoversSet E.Env (format_of C.Cmp FP.FilterPolicy
        ⟦<CompressorList as Compressors>⟧.codings options.now)
        options.now.reuse_manifest options.now.max_file_size store.now env.old result env.new }
{
    let files = files_in(alloc, env, store, listed)?;
    let mut versions = numbered_set(alloc, store, &options.cmp, files.as_slice())?;
    let needs_new_manifest = versions.recover(env, options)?;
    let logs = logs_to_replay(alloc, env, store, &versions, files.as_slice())?;
    Ok(RecoveredSet {
        versions,
        needs_new_manifest,
        logs,
    })
}

// Reads the set of the manifest that `CURRENT` names, to be read alone, with the numbers of the
// logs that are replayed. They are checked as those of a set that is recovered.
pub(super) fn read_set<E: Env, C: UserCmp, FP: FilterPolicy>(
    alloc: Global,
    env: &mut E,
    store: &str,
    options: &Options<C, FP>,
) -> Result<(LiveFiles<E>, BTreeSet<FileNum>)>
    ensures { ReadsSet E.Env (format_of C.Cmp FP.FilterPolicy
        ⟦<CompressorList as Compressors>⟧.codings options.now) store.now env.old result env.new }
{
    let files = list_files(alloc, env, store)?;
    let mut versions = numbered_set(alloc, store, &options.cmp, files.as_slice())?;
    versions.read(env, options)?;
    let logs = logs_to_replay(alloc, env, store, &versions, files.as_slice())?;
    Ok((versions, logs))
}

// A set without files for a store whose folder has these files: their numbers are used.
fn numbered_set<E: Env, C: Cmp>(
    alloc: Global,
    store: &str,
    cmp: &C,
    files: &[ListedFile],
) -> Result<LiveFiles<E>>
    requires { All MatchesName files.now }
    ensures ok { IfOk result (MarksNames (new_version_set store.now (C.name cmp.now))
        (names_of files.now)) }
    ensures cause { IfErr result (λ status. IsOutOfMemory status ⊎ ((n : ℕ)
        × HasNumber (names_of files.now) n × AreFileNumbersUsedUp n status)) }
{
    let mut versions = LiveFiles::new(alloc, store, cmp)?;
    mark_numbers(&mut versions, files)?;
    Ok(versions)
}

// The numbers of the logs that are replayed among these files. The set's live tables are there with
// their sizes, and their numbers were given.
fn logs_to_replay<E: Env>(
    alloc: Global,
    env: &mut E,
    store: &str,
    versions: &LiveFiles<E>,
    files: &[ListedFile],
) -> Result<BTreeSet<FileNum>>
    requires { All MatchesName files.now }
    ensures { ChecksSet E.Env store.now versions.now (names_of files.now) env.old result env.new }
{
    check_tables(alloc, env, store, versions.files())?;
    check_numbers(alloc, versions)?;
    find_logs(
        alloc,
        store,
        files,
        versions.log_num(),
        versions.prev_log_num(),
    )
}

// The files in the store's folder, which is listed unless it was.
fn files_in<E: Env>(
    alloc: Global,
    env: &mut E,
    store: &str,
    listed: Option<Vec<ListedFile>>,
) -> Result<Vec<ListedFile>>
    requires { IfSome listed (λ files. AreFilesIn E.Env store.now env.old files.items) }
    ensures still { IsTrue E.models_disk
        → Run (FilesUnchanged (E.observed env.old).disk.files) (E.observed env.old)
        (E.observed env.new) }
    ensures locks { SameLocks E.models_disk (E.observed env.old) (E.observed env.new) }
    ensures lists { IfOk result (λ files. AreFilesIn E.Env store.now env.old files.items) }
    ensures cause { HasCauseOr (λ status. (status.code ≡ Corruption) × (IsTrue E.models_disk
        → IsBareFolder store.now (E.observed env.old).disk.files))
        (E.failures env.old) (E.failures env.new) result }
{
    match listed {
        Some(files) => Ok(files),
        None => list_files(alloc, env, store),
    }
}

// Makes the numbers of all files used.
fn mark_numbers<E: Env>(versions: &mut LiveFiles<E>, files: &[ListedFile]) -> Result<()>
    requires { All MatchesName files.now }
    ensures ok { OnOk result (MarksNames versions.old (names_of files.now) versions.new) }
    ensures cause { IfErr result (λ status. (n : ℕ) × HasNumber (names_of files.now) n
        × AreFileNumbersUsedUp n status) }
{
    for file in files {
        versions.mark_file_number_used(file.number)?;
    }
    Ok(())
}

// Checks that each of the tables is there, with as many bytes as its edit says.
fn check_tables<E: Env>(
    alloc: Global,
    env: &mut E,
    store: &str,
    files: &[(usize, FileMetaData)],
) -> Result<()>
    ensures still { IsTrue E.models_disk
        → Run (FilesUnchanged (E.observed env.old).disk.files) (E.observed env.old)
        (E.observed env.new) }
    ensures locks { SameLocks E.models_disk (E.observed env.old) (E.observed env.new) }
    ensures there { OnOk result (IsTrue E.models_disk → AreTablesThere store.now
        (E.observed env.old).disk.files (map new_file_of files.now)) }
    ensures cause { HasCauseOr (λ status. (status.code ≡ Corruption) × (IsTrue E.models_disk
        → LacksTable store.now (E.observed env.old).disk.files (map new_file_of files.now)))
        (E.failures env.old) (E.failures env.new) result }
{
    for (_, file) in files {
        let path = table_file_name(alloc, store, file.num)?;
        let size = found(alloc, &path, env.size_of(&path))?;
        if size != file.size {
            return other_size(alloc, &path, size, file.size);
        }
    }
    Ok(())
}

// An error as `Corruption: db/000009.ldb has 177 bytes, and the manifest says 190`, without the
// text where there is no memory for it.
#[cold]
fn other_size(alloc: Global, path: &str, size: usize, said: usize) -> Result<()>
    ensures { IsErrAnd result (λ status. status.code ≡ Corruption) }
{
    Err(Status {
        code: StatusCode::Corruption,
        err: format!(in alloc;
            "Corruption: {path} has {size} bytes, and the manifest says {said}"
        ).ok(),
    })
}

// Checks that the number of each live table was given. The next one has 64 bits.
fn check_numbers<E: Env>(alloc: Global, versions: &LiveFiles<E>) -> Result<()>
    ensures ok { OnOk result (AreNumbersGiven versions.now versions.now.full.added) }
    ensures fits { versions.now.next_file < 2 ^ 64 }
    ensures cause { IfErr result (λ status. (status.code ≡ Corruption)
        × (AreNumbersGiven versions.now versions.now.full.added → ⊥)) }
{
    let next = versions.next_file_num();
    if are_below(next, versions.files()) {
        return Ok(());
    }
    err(
        alloc,
        StatusCode::Corruption,
        "the number of a live table isn't given",
    )
}

// Whether the number of each file is below this one.
fn are_below(next: FileNum, files: &[(usize, FileMetaData)]) -> bool
    ensures { IsTrue result ↔ All (λ file. file.1.num < next) files.now }
{
    files.iter().all(|file| file.1.num < next)
}
