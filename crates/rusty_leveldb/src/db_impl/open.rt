//! Opening a store: its lock is taken, and its files are read.
// LevelDB: db/db_impl.cc, DB::Open
ghost use Rattle.rusty_leveldb.specs.Engines.Engine.{opening_of};
ghost use Rattle.leveldb_store.specs.Tables.BuildTable.{choices_of};
ghost use Rattle.rusty_leveldb.specs.Engines.Calls.{EngineOpens};
ghost use Rattle.rusty_leveldb.specs.Engines.AnyValue.{IsAnyValue};

use super::close::give_back;
use super::engine::{Engine, Mode};
use super::names::check_name;
use crate::read_samples::ReadSamples;
use leveldb_base::cmp::{Cmp, InternalKeyCmp, UserCmp};
use leveldb_base::error::Result;
use leveldb_base::names::lock_file_name;
use leveldb_env::compressor::{CompressorList, Compressors};
use leveldb_env::env::Env;
use leveldb_env::filter::{FilterPolicy, InternalFilterPolicy};
use leveldb_env::options::Options;
use leveldb_iter::snapshot::SnapshotList;
use leveldb_store::open_store::OpenStore;
use leveldb_version::table_cache::TableCache;
use std::alloc::Global;
use std::marker::PhantomData;

impl<E: Env, C: UserCmp + Copy, FP: FilterPolicy + Copy> Engine<E, C, FP> {
    /// Opens the store under this name, which isn't empty and doesn't end in a slash. A missing
    /// store is made, or `InvalidArgument` if the options say so; one that is there is opened, or
    /// `AlreadyExists` if they say so; a locked one is `LockError`. Options that `Options::check`
    /// refuses make no call. An opening that fails gives back the lock that it took, unless the
    /// device failed once more. At its end it does one compaction, where the score of a level asks
    /// for one; if that fails, the opening is Ok and a line goes to the options' log, but where it
    /// broke the store it isn't opened. A store that is locked, or is missing and isn't to be made,
    /// or is there and must not be, or that has tables or logs and no `CURRENT`, or a manifest
    /// whose edits can't be used, is never opened; its files stay as they are, but that its lock's
    /// file may be made.
    pub fn open(
        alloc: Global,
        name: &str,
        env: &mut E,
        options: Options<C, FP>,
    ) -> Result<Engine<E, C, FP>>
        requires any { IsAnyValue options }
        ensures { let codings = ⟦<CompressorList as Compressors>⟧.codings in
            EngineOpens E.Env (choices_of C.Cmp FP.FilterPolicy ⟦<InternalKeyCmp<C> as Cmp>⟧
            ⟦<InternalFilterPolicy<FP> as FilterPolicy>⟧ codings) name.now options
            (opening_of C.Cmp FP.FilterPolicy codings options) env.old result env.new }
    {
        check_name(alloc, name)?;
        options.check(alloc)?;
        let lock = lock_file_name(alloc, name)?;
        let mut tables = TableCache::new(alloc, name, &options)?;
        env.mkdir(name)?;
        env.lock(&lock)?;
        let mut options = options;
        match OpenStore::open(alloc, env, name, &options) {
            Ok(store) => {
                let mut store = store;
                let mut log = options.log.take();
                let ended = store.end_opening(env, &options, &mut tables, &mut log);
                options.log = log;
                let removal = match ended {
                    Ok(removal) => removal,
                    Err(e) => {
                        let _ = give_back(env, &lock);
                        return Err(e);
                    }
                };
                Ok(Engine {
                    alloc,
                    options,
                    lock,
                    store,
                    tables,
                    policy: PhantomData,
                    snapshots: SnapshotList::new(alloc),
                    samples: ReadSamples::new(alloc),
                    looked_at: 0,
                    removal,
                    mode: Mode::Open,
                })
            }
            Err(status) => {
                let _ = give_back(env, &lock);
                Err(status)
            }
        }
    }
}
