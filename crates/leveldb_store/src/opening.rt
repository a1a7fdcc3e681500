//! Opening a store over its manifest, its tables and its logs.
// LevelDB: db/db_impl.cc, DB::Open
ghost use Rattle.std.specs.Prelude.{◌≡◌, IfOk, None};
ghost use Rattle.leveldb_env.specs.Env.{HasCause};
ghost use Rattle.leveldb_store.specs.Tables.BuildTable.{choices_of};
ghost use Rattle.leveldb_files.specs.Stores.Format.{format_of};
ghost use Rattle.leveldb_store.specs.Openings.OpensStore.{FailsToOpen, OpensStore};
ghost use Rattle.leveldb_store.specs.Keeping.SoundCall.{BytesAreAppended};

mod begin;
mod edit;
mod find;
pub mod listing;
mod log_to_write;
mod logs;
mod read_logs;
mod recover;
mod recovered_set;
mod replay;
pub(crate) mod replay_log;
mod sync;
mod to_read;

use crate::open_store::OpenStore;
use begin::open_to_write;
use leveldb_base::cmp::{Cmp, InternalKeyCmp, UserCmp};
use leveldb_base::error::Result;
use leveldb_env::compressor::{CompressorList, Compressors};
use leveldb_env::env::Env;
use leveldb_env::filter::{FilterPolicy, InternalFilterPolicy};
use leveldb_env::options::Options;
use recover::recover;
use std::alloc::Global;

impl<E: Env, C: UserCmp + Copy + Drop> OpenStore<E, C> {
    /// Opens the store under this path, whose lock the caller holds. A missing one is made, or
    /// `InvalidArgument` if the options say so; one that is there is `AlreadyExists` if they say
    /// so. What its logs have comes to memory, or to tables where a log isn't used on.
    /// Returns `Corruption` where the files are no store. Obsolete files are left to `end_opening`.
    pub fn open<FP: FilterPolicy + Copy + Drop>(
        alloc: Global,
        env: &mut E,
        name: &str,
        options: &Options<C, FP>,
    ) -> Result<OpenStore<E, C>>
        ensures opens { OpensStore E.Env name.now (format_of C.Cmp FP.FilterPolicy
            ⟦<CompressorList as Compressors>⟧.codings options.now)
            options.now.create_if_missing options.now.error_if_exists env.old
            options.now.write_buffer_size result env.new }
        ensures cause { HasCause (FailsToOpen E.Env name.now (choices_of C.Cmp FP.FilterPolicy
            ⟦<InternalKeyCmp<C> as Cmp>⟧ ⟦<InternalFilterPolicy<FP> as FilterPolicy>⟧
            ⟦<CompressorList as Compressors>⟧.codings options.now) options.now.create_if_missing
            options.now.error_if_exists env.old env.new) (E.failures env.old) (E.failures env.new)
            result }
        ensures bytes { BytesAreAppended E.Env env.old env.new }
        ensures cmp { IfOk result (λ value. value.cmp ≡ options.now.cmp) }
        ensures none_waits { IfOk result (λ value. value.imm ≡ None) }
    {
        let set = recover(alloc, env, name, options)?;
        open_to_write(alloc, env, name, options, set)
    }
}
