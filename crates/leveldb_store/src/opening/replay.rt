//! The replay of all logs: what comes to tables, and what stays in memory of the log that is used
//! on.
// LevelDB: db/db_impl.cc, DBImpl::Recover
ghost use Rattle.std.specs.Prelude.{◌≡◌, ◌≢◌, [], None, IfOk, IfSome, IsTrue, OnOk, map};
ghost use Rattle.leveldb_version.specs.Edits.VersionEdit.{new_file_of};
ghost use Rattle.leveldb_store.specs.Tables.BuildTable.{choices_of};
ghost use Rattle.leveldb_files.specs.Stores.Format.{format_of};
ghost use Rattle.leveldb_store.specs.Openings.OpeningSteps.{ReplaysLogs, ReplaysNext, TablesAll, UsesLastLog};
ghost use Rattle.leveldb_store.specs.Logs.ReplayLog.{FailsToBuildRest, HasCauseOr, IsUnusable, MakesTablesOnly};

use super::replay_log::{ReplayedLog, check_empty_if_torn, replay_log};
use leveldb_base::cmp::{Cmp, InternalKeyCmp, UserCmp};
use leveldb_base::error::Result;
use leveldb_base::types::{FileMetaData, FileNum, SequenceNumber};
use leveldb_env::compressor::{CompressorList, Compressors};
use leveldb_env::env::Env;
use leveldb_env::filter::{FilterPolicy, InternalFilterPolicy};
use leveldb_env::options::Options;
use leveldb_mem::memtable::MemTable;
use leveldb_version_set::version_set::LiveFiles;
use std::alloc::Global;
use std::collections::BTreeSet;

// A log that goes on to be used: its number, how many bytes it has, and its entries.
#[derive(Drop)]
pub(super) struct UsedLog<C: Cmp> {
    pub(super) number: FileNum,
    pub(super) size: usize,
    pub(super) entries: MemTable<C>,
}

// What the logs that were replayed so far have left.
#[derive(Drop)]
pub(super) struct Replay<C: Cmp> {
    // The tables that were made, in their order.
    pub(super) tables: Vec<FileMetaData>,
    // The log that is used on, if the last one is.
    pub(super) used: Option<UsedLog<C>>,
    // Whether there was another log.
    pub(super) leaves_log: bool,
    // Whether all of them end cleanly, so that the next one may have batches.
    pub(super) is_clean: bool,
    // The number of the last entry.
    pub(super) last: SequenceNumber,
}

// Replays the logs of these numbers in rising order. The last one may be used on where the options
// say so.
pub(super) fn replay_logs<E: Env, C: UserCmp + Copy + Drop, FP: FilterPolicy + Copy + Drop>(
    alloc: Global,
    env: &mut E,
    store: &str,
    options: &Options<C, FP>,
    versions: &mut LiveFiles<E>,
    mut logs: BTreeSet<FileNum>,
) -> Result<Replay<C>>
    requires store { store.now ≡ versions.old.store }
    ensures replays { ReplaysLogs E.Env (choices_of C.Cmp FP.FilterPolicy
        ⟦<InternalKeyCmp<C> as Cmp>⟧ ⟦<InternalFilterPolicy<FP> as FilterPolicy>⟧
        ⟦<CompressorList as Compressors>⟧.codings options.now)
        options.now.write_buffer_size versions.old logs.keys env.old result versions.new env.new }
    ensures uses { UsesLastLog E.Env options.now.reuse_logs options.now.write_buffer_size
        versions.old logs.keys env.old result }
    ensures order { IfOk result (λ replay.
        IfSome replay.used (λ used. used.entries.cmp ≡ options.now.cmp)) }
{
    let mut replay = Replay {
        tables: Vec::new(alloc),
        used: None,
        leaves_log: false,
        is_clean: true,
        last: 0,
    };
    while let Some(number) = logs.pop_first() {
        let may_go_on = options.reuse_logs && logs.is_empty() && number >= versions.log_num();
        replay_next(
            alloc,
            env,
            store,
            options,
            versions,
            &mut replay,
            number,
            may_go_on,
        )?;
    }
    Ok(replay)
}

// Replays one more log.
fn replay_next<E: Env, C: UserCmp + Copy + Drop, FP: FilterPolicy + Copy + Drop>(
    alloc: Global,
    env: &mut E,
    store: &str,
    options: &Options<C, FP>,
    versions: &mut LiveFiles<E>,
    replay: &mut Replay<C>,
    number: FileNum,
    may_go_on: bool,
) -> Result<()>
    requires store { store.now ≡ versions.old.store }
    requires none { replay.old.used ≡ None }
    ensures replays { ReplaysNext E.Env (choices_of C.Cmp FP.FilterPolicy
        ⟦<InternalKeyCmp<C> as Cmp>⟧ ⟦<InternalFilterPolicy<FP> as FilterPolicy>⟧
        ⟦<CompressorList as Compressors>⟧.codings options.now)
        options.now.write_buffer_size number may_go_on replay.old versions.old env.old result
        replay.new versions.new env.new }
    ensures unused { OnOk result (IsTrue may_go_on → replay.new.used ≡ None
        → IsTrue E.models_disk → IsUnusable options.now.write_buffer_size versions.old.store
        (E.observed env.old).disk.files number) }
    ensures order { OnOk result
        (IfSome replay.new.used (λ used. used.entries.cmp ≡ options.now.cmp)) }
{
    let log = replay_log(alloc, env, store, options, versions, replay.last, number)?;
    check_empty_if_torn(alloc, replay.is_clean, log.size)?;
    replay.last = log.last;
    replay.is_clean = replay.is_clean && log.is_clean;
    if may_go_on && log.is_clean && log.tables.is_empty() {
        replay.used = Some(UsedLog {
            number,
            size: log.size,
            entries: log.rest,
        });
        return Ok(());
    }
    replay.leaves_log = true;
    let mut tables = tables_made(alloc, env, store, options, versions, log)?;
    replay.tables.append(&mut tables)?;
    Ok(())
}

// The tables of a log, once all its entries are in tables.
fn tables_made<E: Env, C: UserCmp + Copy + Drop, FP: FilterPolicy + Copy + Drop>(
    alloc: Global,
    env: &mut E,
    store: &str,
    options: &Options<C, FP>,
    versions: &mut LiveFiles<E>,
    log: ReplayedLog<C>,
) -> Result<Vec<FileMetaData>>
    requires store { store.now ≡ versions.old.store }
    requires order { log.rest.cmp ≡ options.now.cmp }
    ensures spares { MakesTablesOnly E.Env versions.old env.old versions.new env.new }
    ensures ok { IfOk result (λ tables. TablesAll E.Env
        (format_of C.Cmp FP.FilterPolicy ⟦<CompressorList as Compressors>⟧.codings options.now)
        log versions.old (map (λ file. new_file_of (0, file)) tables.items) versions.new env.new) }
    ensures cause { HasCauseOr (λ status. (log.rest.kept.entries ≢ [])
        × FailsToBuildRest E.Env (choices_of C.Cmp FP.FilterPolicy ⟦<InternalKeyCmp<C> as Cmp>⟧
        ⟦<InternalFilterPolicy<FP> as FilterPolicy>⟧ ⟦<CompressorList as Compressors>⟧.codings
        options.now) log versions.old status) (E.failures env.old) (E.failures env.new) result }
{
    if log.rest.len() == 0 {
        return Ok(log.tables);
    }
    let mut log = log;
    log.make_table(alloc, env, store, options, versions)?;
    Ok(log.tables)
}
