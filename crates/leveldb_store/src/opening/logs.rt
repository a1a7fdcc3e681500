//! Which logs of a store are replayed.
// LevelDB: db/db_impl.cc, DBImpl::Recover
ghost use Rattle.std.specs.Prelude.{◌≡◌, ◌≢◌, ◌⊎◌, ◌↔◌, [], ◌∷◌, All, IfErr, IfOk, IsTrue, OnOk, string_bytes};
ghost use Rattle.leveldb_base.specs.Error.{IsOutOfMemory};
ghost use Rattle.leveldb_base.specs.Names.{file_name};
ghost use Rattle.leveldb_base.specs.declared.error.StatusCode.TheVariants.{Corruption};
ghost use Rattle.leveldb_base.specs.declared.types.FileType.TheVariants.{Log};
ghost use Rattle.leveldb_store.specs.Openings.Listing.{MatchesName, names_of};
ghost use Rattle.leveldb_store.specs.Openings.OpeningSteps.{AddsLog, AreReplayedLogs, HasMisnamedLog, IsReplayed};

use super::listing::ListedFile;
use leveldb_base::error::{Result, StatusCode, err};
use leveldb_base::names::log_file_name;
use leveldb_base::types::{FileNum, FileType};
use std::alloc::Global;
use std::collections::BTreeSet;

// The numbers of the logs among these files that are replayed, each of which is under its own name.
pub(super) fn find_logs(
    alloc: Global,
    store: &str,
    files: &[ListedFile],
    log: FileNum,
    previous: FileNum,
) -> Result<BTreeSet<FileNum>>
    requires { All MatchesName files.now }
    ensures ok { IfOk result (λ logs.
        AreReplayedLogs (names_of files.now) log previous logs.keys) }
    ensures cause { IfErr result (λ status. IsOutOfMemory status ⊎ ((status.code ≡ Corruption)
        × HasMisnamedLog (names_of files.now) log previous)) }
{
    let mut logs = BTreeSet::new(alloc);
    for file in files {
        add_log(alloc, store, file, log, previous, &mut logs)?;
    }
    Ok(logs)
}

// Adds the number of this file, if it is a log that is replayed.
fn add_log(
    alloc: Global,
    store: &str,
    file: &ListedFile,
    log: FileNum,
    previous: FileNum,
    logs: &mut BTreeSet<FileNum>,
) -> Result<()>
    requires { MatchesName file.now }
    ensures ok { OnOk result
        (AddsLog log previous (string_bytes file.now.name) logs.old.keys logs.new.keys) }
    ensures cause { IfErr result (λ status. IsOutOfMemory status ⊎ ((status.code ≡ Corruption)
        × HasMisnamedLog (string_bytes file.now.name ∷ []) log previous)) }
{
    if !is_replayed_log(file, log, previous) {
        return Ok(());
    }
    check_log_name(alloc, store, file.name.as_str(), file.number)?;
    logs.insert(file.number)?;
    Ok(())
}

// Whether the file is a log that is replayed.
fn is_replayed_log(file: &ListedFile, log: FileNum, previous: FileNum) -> bool
    ensures { IsTrue result ↔ ((file.now.kind ≡ Log) × IsReplayed log previous file.now.number) }
{
    is_log(file.kind) && is_replayed(file.number, log, previous)
}

// Whether the type is a log's.
fn is_log(kind: FileType) -> bool
    ensures { IsTrue result ↔ (kind ≡ Log) }
{
    match kind {
        FileType::Log => true,
        _ => false,
    }
}

// Whether the log of a number is replayed, by the manifest's log number and that of the log before.
fn is_replayed(number: FileNum, log: FileNum, previous: FileNum) -> bool
    ensures { IsTrue result ↔ IsReplayed log previous number }
{
    number >= log || (number == previous && number > 0)
}

// Checks that a log's name is the one that a store gives to a log of its number.
fn check_log_name(alloc: Global, store: &str, name: &str, number: FileNum) -> Result<()>
    ensures ok { OnOk result (name.now ≡ file_name Log number) }
    ensures cause { IfErr result (λ status. IsOutOfMemory status
        ⊎ ((status.code ≡ Corruption) × (name.now ≢ file_name Log number))) }
{
    let path = format!(in alloc; "{store}/{name}")?;
    if path.as_str() == log_file_name(alloc, store, number)?.as_str() {
        return Ok(());
    }
    err(
        alloc,
        StatusCode::Corruption,
        "a log isn't under the name of its number",
    )
}
