//! Opening a store to be read alone: it is listed and read as by `open`, and nothing is written.
ghost use Rattle.std.specs.Prelude.{◌≡◌, ◌≢◌, ◌<◌, ◌^◌, IfErr, IfOk, IsTrue, None, OnOk};
ghost use Rattle.leveldb_base.specs.Error.{IsOutOfMemory};
ghost use Rattle.leveldb_base.specs.declared.error.StatusCode.TheVariants.{InvalidArgument};
ghost use Rattle.leveldb_env.specs.Env.{FilesUnchanged, HasCause, Run, SameLocks};
ghost use Rattle.leveldb_files.specs.Stores.Format.{format_of};
ghost use Rattle.leveldb_mem.specs.Log.{log_block_size};
ghost use Rattle.leveldb_mem.specs.Log.Writer.{broken_writer, new_writer};
ghost use Rattle.leveldb_files.specs.Stores.Paths.{current_path, log_path};
ghost use Rattle.leveldb_store.specs.Openings.OpensToRead.{FailsToOpenToRead, OpensToRead};
ghost use Rattle.leveldb_store.specs.Logs.ReplayLog.{HasCauseOr};

use super::read_logs::read_logs;
use super::recovered_set::read_set;
use crate::open_store::{OpenLog, OpenStore};
use leveldb_base::cmp::UserCmp;
use leveldb_base::error::{Result, StatusCode, err};
use leveldb_base::names::{current_file_name, log_file_name};
use leveldb_base::types::FileNum;
use leveldb_env::compressor::{CompressorList, Compressors};
use leveldb_env::env::Env;
use leveldb_env::filter::FilterPolicy;
use leveldb_env::options::Options;
use leveldb_mem::log::LogFile;
use leveldb_version_set::version_set::VersionSet;
use std::alloc::Global;

impl<E: Env, C: UserCmp + Copy + Drop> OpenStore<E, C> {
    /// Opens the store under this path to be read alone: no call changes a file or a lock, neither
    /// this one nor a later one, since the store is broken from the start. All that its logs have
    /// comes to one memtable. `InvalidArgument` if there is no store, whatever the options say, or
    /// its comparator is another; `Corruption` where the files are no store; `NotSupported` if the
    /// memtable can't have what the logs have.
    pub fn open_to_read<FP: FilterPolicy + Copy + Drop>(
        alloc: Global,
        env: &mut E,
        name: &str,
        options: &Options<C, FP>,
    ) -> Result<OpenStore<E, C>>
        ensures opens { OpensToRead E.Env name.now (format_of C.Cmp FP.FilterPolicy
            ⟦<CompressorList as Compressors>⟧.codings options.now) env.old result env.new }
        ensures cause { HasCause (FailsToOpenToRead E.Env name.now (format_of C.Cmp FP.FilterPolicy
            ⟦<CompressorList as Compressors>⟧.codings options.now) env.old env.new)
            (E.failures env.old) (E.failures env.new) result }
        ensures cmp { IfOk result (λ value. value.cmp ≡ options.now.cmp) }
    {
        let path = String::from_str(alloc, name)?;
        check_current(alloc, env, name)?;
        let (mut files, numbers) = read_set(alloc, env, name, options)?;
        let logs = read_logs(alloc, env, name, options.cmp, numbers)?;
        files.set_last_seq(files.last_seq().max(logs.last));
        let log = unopened_log(alloc, name, files.log_num())?;
        let versions = VersionSet::of_files(alloc, options.cmp, files)?;
        Ok(OpenStore {
            alloc,
            name: path,
            cmp: options.cmp,
            versions,
            log,
            mem: logs.rest,
            imm: None,
            kept_to: None,
        })
    }
}

// Checks that `CURRENT` is there, without which there is no store.
fn check_current<E: Env>(alloc: Global, env: &mut E, store: &str) -> Result<()>
    ensures still { IsTrue E.models_disk
        → Run (FilesUnchanged (E.observed env.old).disk.files) (E.observed env.old)
        (E.observed env.new) }
    ensures locks { SameLocks E.models_disk (E.observed env.old) (E.observed env.new) }
    ensures there { OnOk result (IsTrue E.models_disk
        → (E.observed env.old).disk.files (current_path store.now) ≢ None) }
    ensures cause { HasCauseOr (λ status. (status.code ≡ InvalidArgument) × (IsTrue E.models_disk
        → (E.observed env.old).disk.files (current_path store.now) ≡ None))
        (E.failures env.old) (E.failures env.new) result }
{
    let current = current_file_name(alloc, store)?;
    if env.exists(&current)? {
        return Ok(());
    }
    err(alloc, StatusCode::InvalidArgument, "there is no store")
}

// A log of this number to which nothing is appended.
fn unopened_log<E: Env>(alloc: Global, store: &str, number: FileNum) -> Result<OpenLog<E>>
    ensures number { IfOk result (λ log. (log.number ≡ number) × (number < 2 ^ 64)) }
    ensures file { IfOk result (λ log. log.file ≡ record {
      path = log_path store.now number;
      writer = broken_writer (new_writer log_block_size 0);
    }) }
    ensures memory { IfErr result IsOutOfMemory }
{
    let path = log_file_name(alloc, store, number)?;
    let file = LogFile::unopened(alloc, path);
    Ok(OpenLog { number, file })
}
