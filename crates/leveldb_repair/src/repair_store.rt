//! The repair of the files in a store's folder: all that is found goes to new tables, which a new
//! manifest names.
// LevelDB: db/repair.cc, Repairer::Run
ghost use Rattle.leveldb_repair.specs.RepairStore.{RepairsStore};
ghost use Rattle.leveldb_store.specs.Tables.BuildTable.{choices_of};

use crate::found_walk::ReadFiles;
use crate::write_found::set_above;
use leveldb_base::cmp::{Cmp, InternalKeyCmp, UserCmp};
use leveldb_base::error::Result;
use leveldb_env::compressor::{CompressorList, Compressors};
use leveldb_env::env::Env;
use leveldb_env::filter::{FilterPolicy, InternalFilterPolicy};
use leveldb_env::infolog::Logger;
use leveldb_env::options::Options;
use std::alloc::Global;

mod children;
mod clash;
mod find;
mod restore;

use children::children_of;
use find::find;
use restore::{RepairPlan, restore_walks};

/// Makes a store of all entries that are found in a store's folder, whose lock the caller holds: of
/// each readable table, and of each log as far as `found_logs` reads it. They go to new tables in
/// level 1, and a new manifest names these alone. What is left out is a line for `log`. Nothing is
/// deleted.
///
/// `InvalidArgument` where neither a table nor a log is there, `Corruption` where two entries of
/// one key and number differ, and the causes of `found_tables`, `found_logs` and `set_above`; then
/// no file has changed. After a later Err some of the tables and the manifest may be there, and
/// `CURRENT` may name it.
pub fn repair_store<E: Env, C: UserCmp + Copy + Drop, FP: FilterPolicy + Copy + Drop>(
    alloc: Global,
    env: &mut E,
    store: &str,
    options: &Options<C, FP>,
    log: &mut Option<Logger>,
) -> Result<()>
    ensures { RepairsStore (choices_of C.Cmp FP.FilterPolicy ⟦<InternalKeyCmp<C> as Cmp>⟧
        ⟦<InternalFilterPolicy<FP> as FilterPolicy>⟧ ⟦<CompressorList as Compressors>⟧.codings
        options.now) E.Env store.now env.old result env.new }
{
    let found = find(alloc, env, store, options, log)?;
    let greatest = found.greatest;
    let mut versions = set_above(alloc, store, &options.cmp, greatest)?;
    let children = children_of(alloc, found.tables, found.logs.as_slice())?;
    let plan = RepairPlan {
        alloc,
        store,
        options,
        greatest,
    };
    let mut files = ReadFiles {
        compressors: &options.compressor_list,
        store,
        below: greatest + 1,
    };
    restore_walks(env, &mut files, children, &mut versions, &plan)
}
