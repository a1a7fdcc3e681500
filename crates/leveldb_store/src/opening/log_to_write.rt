//! The log to which batches are appended: the last one, or a new one.
// LevelDB: db/db_impl.cc, DB::Open
ghost use Rattle.std.specs.Prelude.{◌≡◌, ◌+◌, ◌<◌, ◌^◌, IfSome, OnOk, OnErr};
ghost use Rattle.leveldb_base.specs.Error.{IsOutOfMemory};
ghost use Rattle.leveldb_env.specs.Env.{HasCause, created, emptied};
ghost use Rattle.leveldb_files.specs.Stores.Paths.{log_path};
ghost use Rattle.leveldb_version_set.specs.Sets.VersionSetValue.{AreFileNumbersUsedUp, with_number_given};
ghost use Rattle.leveldb_store.specs.Openings.OpeningSteps.{OpensFile, OpensLog};
ghost use Rattle.leveldb_store.specs.Logs.ReplayLog.{HasCauseOr};
ghost use Rattle.leveldb_store.specs.Writing.Switch.{MayGiveNumber};

use super::replay::UsedLog;
use crate::open_store::OpenLog;
use leveldb_base::cmp::UserCmp;
use leveldb_base::error::Result;
use leveldb_base::names::log_file_name;
use leveldb_base::types::FileNum;
use leveldb_env::env::Env;
use leveldb_mem::log::LogFile;
use leveldb_mem::memtable::MemTable;
use leveldb_version_set::version_set::LiveFiles;
use std::alloc::Global;

// The log that is used on, or a new one of the next number, and its entries.
pub(super) fn open_log<E: Env, C: UserCmp + Copy>(
    alloc: Global,
    env: &mut E,
    store: &str,
    cmp: C,
    versions: &mut LiveFiles<E>,
    used: Option<UsedLog<C>>,
) -> Result<(OpenLog<E>, MemTable<C>)>
    requires { IfSome used (λ log. log.entries.cmp ≡ cmp) }
    ensures opens { OpensLog E.Env store.now cmp used versions.old env.old result versions.new
        env.new }
{
    match used {
        Some(log) => {
            let open = reopen_log(alloc, env, store, log.number, log.size)?;
            Ok((open, log.entries))
        }
        None => {
            let open = make_log(alloc, env, store, versions)?;
            Ok((open, MemTable::new(alloc, cmp)))
        }
    }
}

// The log of this number, which has `size` bytes.
fn reopen_log<E: Env>(
    alloc: Global,
    env: &mut E,
    store: &str,
    number: FileNum,
    size: usize,
) -> Result<OpenLog<E>>
    ensures opens { OpensFile E.Env store.now (created (log_path store.now number)) number size
        env.old result env.new }
    ensures cause { HasCause IsOutOfMemory (E.failures env.old) (E.failures env.new) result }
{
    let path = log_file_name(alloc, store, number)?;
    let file = LogFile::open(alloc, env, path, size)?;
    Ok(OpenLog { number, file })
}

// A new log of the next number.
fn make_log<E: Env>(
    alloc: Global,
    env: &mut E,
    store: &str,
    versions: &mut LiveFiles<E>,
) -> Result<OpenLog<E>>
    ensures opens { OpensFile E.Env store.now
        (emptied (log_path store.now versions.old.next_file)) versions.old.next_file 0 env.old
        result env.new }
    ensures given { OnOk result (versions.new ≡ with_number_given versions.old) }
    ensures fits { OnOk result (versions.old.next_file + 1 < 2 ^ 64) }
    ensures number_fits { versions.old.next_file < 2 ^ 64 }
    ensures err { OnErr result (MayGiveNumber versions.old versions.new) }
    ensures cause { HasCauseOr (AreFileNumbersUsedUp versions.old.next_file)
        (E.failures env.old) (E.failures env.new) result }
{
    let number = versions.new_file_number()?;
    let path = log_file_name(alloc, store, number)?;
    let file = LogFile::make(alloc, env, path)?;
    Ok(OpenLog { number, file })
}
