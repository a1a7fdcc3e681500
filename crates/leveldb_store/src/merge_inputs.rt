//! The walk over what a compaction merges.
// LevelDB: db/version_set.cc, VersionSet::MakeInputIterator
ghost use Rattle.std.specs.Prelude.{IfErr, IfOk};
ghost use Rattle.leveldb_base.specs.Error.{IsOutOfMemory};
ghost use Rattle.leveldb_store.specs.Compactions.MergeInputs.{MergesTablesOf};

use leveldb_base::cmp::{Cmp, InternalKeyCmp, UserCmp};
use leveldb_base::error::Result;
use leveldb_env::env::Env;
use leveldb_env::filter::FilterPolicy;
use leveldb_iter::merging_iter::MergeCore;
use leveldb_iter::walk::Walk;
use leveldb_version::table_cache::{ReadTables, ReadsTables};
use leveldb_version::version::Version;
use leveldb_version_set::version_set::InputWalk;
use std::alloc::Global;

/// The walk over all entries of the tables of a version's files, as those that a compaction takes,
/// at no position. This reads nothing.
pub fn merge_inputs<
    'v,
    'b,
    E: Env,
    C: UserCmp + Copy + Drop,
    FP: FilterPolicy + Copy + Drop,
    K: ReadsTables<E, C, FP>,
>(alloc: Global, cmp: C, inputs: &'v Version<C>) -> Result<InputWalk<'v, C>>
where
    E: 'b,
    C: 'b,
    FP: 'b,
    K: 'b,
    ensures merges { let walk = ⟦<InputWalk<'v, C> as Walk<E, ReadTables<'b, E, C, FP, K>>>⟧ in
        IfOk result (MergesTablesOf ⟦<InternalKeyCmp<C> as Cmp>⟧ E.Env C.Cmp FP.FilterPolicy
        K.codings walk inputs.now cmp) }
    ensures memory { IfErr result IsOutOfMemory }
{
    let iters = inputs.new_iters(alloc)?;
    let cmp = InternalKeyCmp(cmp);
    Ok(MergeCore::new::<E, ReadTables<'b, E, C, FP, K>>(cmp, iters))
}
