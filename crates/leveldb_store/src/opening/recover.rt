//! A store that is found or made, and recovered.
// LevelDB: db/db_impl.cc, DBImpl::Recover
ghost use Rattle.leveldb_files.specs.Stores.Format.{format_of};
ghost use Rattle.leveldb_store.specs.Openings.OpeningSteps.{RecoversStore};

use super::find::find_store;
use super::recovered_set::{RecoveredSet, recover_set};
use super::sync::sync_logs;
use leveldb_base::cmp::UserCmp;
use leveldb_base::error::Result;
use leveldb_env::compressor::{CompressorList, Compressors};
use leveldb_env::env::Env;
use leveldb_env::filter::FilterPolicy;
use leveldb_env::options::Options;
use std::alloc::Global;

// Finds the store or makes it, and recovers its set. All bytes of the logs that are replayed are
// kept then.
pub(super) fn recover<E: Env, C: UserCmp, FP: FilterPolicy>(
    alloc: Global,
    env: &mut E,
    store: &str,
    options: &Options<C, FP>,
) -> Result<RecoveredSet<E>>
    ensures { RecoversStore E.Env (format_of C.Cmp FP.FilterPolicy
        ⟦<CompressorList as Compressors>⟧.codings options.now) store.now
        options.now.create_if_missing options.now.error_if_exists env.old result env.new }
{
    let listed = find_store(alloc, env, store, options)?;
    let set = recover_set(alloc, env, store, options, listed)?;
    sync_logs(alloc, env, store, &set.logs)?;
    Ok(set)
}
