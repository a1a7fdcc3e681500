//! The last steps of an opening: what the logs of a store that was recovered have comes to memory
//! or to tables, and batches may be appended.
// LevelDB: db/db_impl.cc, DBImpl::Recover and DB::Open
ghost use Rattle.std.specs.Prelude.{◌≡◌, IfOk, None};
ghost use Rattle.leveldb_env.specs.Env.{SameLocks};
ghost use Rattle.leveldb_store.specs.Tables.BuildTable.{choices_of};
ghost use Rattle.leveldb_store.specs.Openings.OpeningSteps.{OpensToWrite, LogsIfWanted, MayBeWritten};

use super::edit::log_edit;
use super::log_to_write::open_log;
use super::recovered_set::RecoveredSet;
use super::replay::replay_logs;
use crate::open_store::OpenStore;
use leveldb_base::cmp::{Cmp, InternalKeyCmp, UserCmp};
use leveldb_base::error::Result;
use leveldb_base::types::{FileMetaData, FileNum};
use leveldb_env::compressor::{CompressorList, Compressors};
use leveldb_env::env::Env;
use leveldb_env::filter::{FilterPolicy, InternalFilterPolicy};
use leveldb_env::options::Options;
use leveldb_version_set::version_set::VersionSet;
use std::alloc::Global;

// Replays the logs of the store, opens the log to write, and has the tables that were made take the
// place of the logs before it. Where there are none and the manifest is in use, no edit is logged.
pub(super) fn open_to_write<E: Env, C: UserCmp + Copy + Drop, FP: FilterPolicy + Copy + Drop>(
    alloc: Global,
    env: &mut E,
    name: &str,
    options: &Options<C, FP>,
    set: RecoveredSet<E>,
) -> Result<OpenStore<E, C>>
    requires { MayBeWritten E.models_disk (C.cmp options.now.cmp) name.now
        set.needs_new_manifest set.versions (E.observed env.old).disk.files }
    ensures begins { OpensToWrite E.Env (choices_of C.Cmp FP.FilterPolicy
        ⟦<InternalKeyCmp<C> as Cmp>⟧ ⟦<InternalFilterPolicy<FP> as FilterPolicy>⟧
        ⟦<CompressorList as Compressors>⟧.codings options.now)
        name.now set.versions set.logs.keys env.old options.now.write_buffer_size result env.new }
    ensures cmp { IfOk result (λ value. value.cmp ≡ options.now.cmp) }
    ensures none_waits { IfOk result (λ value. value.imm ≡ None) }
{
    let path = String::from_str(alloc, name)?;
    let needs_new_manifest = set.needs_new_manifest;
    let mut files = set.versions;
    let replay = replay_logs(alloc, env, name, options, &mut files, set.logs)?;
    files.set_last_seq(files.last_seq().max(replay.last));
    let (log, mem) = open_log(alloc, env, name, options.cmp, &mut files, replay.used)?;
    let mut versions = VersionSet::of_files(alloc, options.cmp, files)?;
    let wanted = needs_new_manifest | replay.leaves_log;
    log_if_wanted(alloc, env, &mut versions, wanted, log.number, replay.tables)?;
    Ok(OpenStore {
        alloc,
        name: path,
        cmp: options.cmp,
        versions,
        log,
        mem,
        imm: None,
        kept_to: None,
    })
}

// Logs the edit that has these tables in place of the logs below a number, if it is wanted.
fn log_if_wanted<E: Env, C: UserCmp + Copy + Drop>(
    alloc: Global,
    env: &mut E,
    versions: &mut VersionSet<E, C>,
    wanted: bool,
    log: FileNum,
    tables: Vec<FileMetaData>,
) -> Result<()>
    ensures logs { LogsIfWanted E.Env wanted log tables.items versions.old.set env.old result
        versions.new.set env.new }
    ensures cmp { versions.new.current.cmp ≡ versions.old.current.cmp }
    ensures locks { SameLocks E.models_disk (E.observed env.old) (E.observed env.new) }
{
    if wanted {
        return log_edit(alloc, env, versions, log, tables);
    }
    Ok(())
}
