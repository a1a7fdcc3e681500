//! The children of a store's merge: walks over memory, and walks over tables.
// LevelDB: db/db_impl.cc, the children of DBImpl::NewInternalIterator
ghost use Rattle.std.specs.Prelude.{◌≡◌};

use leveldb_base::cmp::{Cmp, InternalKeyCmp, UserCmp};
use leveldb_base::error::Result;
use leveldb_base::types::LdbIterator;
use leveldb_env::env::Env;
use leveldb_env::filter::FilterPolicy;
use leveldb_iter::in_memory::InMemory;
use leveldb_iter::walk::Walk;
use leveldb_version::table_cache::{ReadTables, ReadsTables};
use leveldb_version::version_iter::VersionIter;

/// A child of a store's merge. All children of a merge are of one type.
#[derive(Drop)]
pub enum StoreWalk<'a, C: UserCmp + Copy + Drop, M>
where
    InternalKeyCmp<C>: Cmp,
{
    /// Over a memtable.
    Memory(InMemory<M>),
    /// Over tables.
    Tables(VersionIter<'a, C>),
}

impl<
    'a,
    'b,
    E: Env,
    C: UserCmp + Copy + Drop,
    FP: FilterPolicy + Copy + Drop,
    K: ReadsTables<E, C, FP>,
    M: LdbIterator,
> Walk<E, ReadTables<'b, E, C, FP, K>> for StoreWalk<'a, C, M> {
    ghost use Rattle.leveldb_store.specs.Reading.StoreWalk.{IsStoreOver, IsStoreAt, FailsInStore, store_here};
    ghost use Rattle.leveldb_store.specs.Reading.StoreWalkLaws.{store_laws};
    ghost use Rattle.leveldb_version.specs.Walks.VersionIter.{KeepsReading};

    ghost over = { IsStoreOver ⟦<InternalKeyCmp<C> as Cmp>⟧ E.Env C.Cmp FP.FilterPolicy K.codings
        M.LdbIterator };

    ghost is_at = { IsStoreAt ⟦<InternalKeyCmp<C> as Cmp>⟧ E.Env C.Cmp FP.FilterPolicy K.codings
        M.LdbIterator };

    ghost here = { store_here M.LdbIterator };

    ghost fails = { FailsInStore ⟦<InternalKeyCmp<C> as Cmp>⟧ E.Env C.Cmp FP.FilterPolicy K.codings
        M.LdbIterator };

    ghost keeps = { KeepsReading ⟦<InternalKeyCmp<C> as Cmp>⟧ E.Env C.Cmp FP.FilterPolicy
        K.codings };

    fn advance(&mut self, env: &mut E, tables: &mut ReadTables<'b, E, C, FP, K>) -> Result<bool> {
        match self {
            StoreWalk::Memory(walk) => walk.advance(env, tables),
            StoreWalk::Tables(walk) => walk.advance(env, tables),
        }
    }

    fn prev(&mut self, env: &mut E, tables: &mut ReadTables<'b, E, C, FP, K>) -> Result<bool> {
        match self {
            StoreWalk::Memory(walk) => walk.prev(env, tables),
            StoreWalk::Tables(walk) => walk.prev(env, tables),
        }
    }

    fn seek(
        &mut self,
        env: &mut E,
        tables: &mut ReadTables<'b, E, C, FP, K>,
        key: &[u8],
    ) -> Result<()> {
        match self {
            StoreWalk::Memory(walk) => walk.seek(env, tables, key),
            StoreWalk::Tables(walk) => walk.seek(env, tables, key),
        }
    }

    fn seek_to_first(
        &mut self,
        env: &mut E,
        tables: &mut ReadTables<'b, E, C, FP, K>,
    ) -> Result<()> {
        match self {
            StoreWalk::Memory(walk) => walk.seek_to_first(env, tables),
            StoreWalk::Tables(walk) => walk.seek_to_first(env, tables),
        }
    }

    fn seek_to_last(
        &mut self,
        env: &mut E,
        tables: &mut ReadTables<'b, E, C, FP, K>,
    ) -> Result<()> {
        match self {
            StoreWalk::Memory(walk) => walk.seek_to_last(env, tables),
            StoreWalk::Tables(walk) => walk.seek_to_last(env, tables),
        }
    }

    fn reset(&mut self) {
        match self {
            StoreWalk::Memory(walk) => walk.0.reset(),
            StoreWalk::Tables(walk) => Walk::<E, ReadTables<'b, E, C, FP, K>>::reset(walk),
        }
    }

    // Each move asks each child for its pair.
    #[inline(always)]
    fn current(&self) -> Option<(&[u8], &[u8])> {
        match self {
            StoreWalk::Memory(walk) => walk.0.current(),
            StoreWalk::Tables(walk) => Walk::<E, ReadTables<'b, E, C, FP, K>>::current(walk),
        }
    }

    fn valid(&self) -> bool {
        match self {
            StoreWalk::Memory(walk) => walk.0.valid(),
            StoreWalk::Tables(walk) => Walk::<E, ReadTables<'b, E, C, FP, K>>::valid(walk),
        }
    }

    ghost laws = { store_laws M.in_range };
}
