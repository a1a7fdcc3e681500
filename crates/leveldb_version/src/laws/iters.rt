//! The law of the walks over a version's tables.
ghost use Rattle.leveldb_env.specs.Compressor.{Codings};
ghost use Rattle.leveldb_version.specs.Walks.VersionIters.{OrdersInternalKeys, VersionItersAreLayers};

use leveldb_base::cmp::{Cmp, InternalKeyCmp, UserCmp};
use leveldb_env::env::Env;
use leveldb_env::filter::FilterPolicy;

/// Where the files of a version are tables in levels, its walks are over lists whose entries are
/// layers, the newer first: together exactly the entries of the tables. The comparator of internal
/// keys orders them as such walks ask for it.
pub fn version_iters_are_layers<E: Env, C: UserCmp, FP: FilterPolicy, K>()
    ensures layers { (codings : K → Codings) → VersionItersAreLayers
        ⟦<InternalKeyCmp<C> as Cmp>⟧ E.Env C.Cmp FP.FilterPolicy codings }
    ensures orders { (cmp : C) → OrdersInternalKeys ⟦<InternalKeyCmp<C> as Cmp>⟧ (C.cmp cmp) cmp }
{}
