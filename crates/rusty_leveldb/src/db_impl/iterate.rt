//! Iterators over a store's view.
// LevelDB: db/db_impl.cc, DBImpl::NewIterator
ghost use Rattle.std.specs.Prelude.{◌≡◌, None, Some, IfErr, IfOk};
ghost use Rattle.std.specs.Option.{option_map};
ghost use Rattle.leveldb_base.specs.Error.{IsOutOfMemory};
ghost use Rattle.rusty_leveldb.specs.Walks.Iterator.{EngineIterates, IsMadeOver};
ghost use Rattle.rusty_leveldb.specs.Engines.Serves.{snapshot_of};
ghost use Rattle.rusty_leveldb.specs.Engines.AnyValue.{IsAnyValue};

use super::engine::Engine;
use crate::db_iter::{DBIterator, StoreIterator, StoreTables};
use crate::read_samples::ReadSamples;
use leveldb_base::cmp::{Cmp, InternalKeyCmp, UserCmp};
use leveldb_base::error::Result;
use leveldb_base::types::SequenceNumber;
use leveldb_env::compressor::{CompressorList, Compressors};
use leveldb_env::env::Env;
use leveldb_env::filter::FilterPolicy;
use leveldb_iter::snapshot::Snapshot;
use leveldb_iter::walk::Walk;
use leveldb_store::open_store::{OpenStore, StoreView};
use leveldb_version::table_cache::{ReadTables, ReadsTables, TableCache};
use std::alloc::Global;

impl<E: Env, C: UserCmp + Copy, FP: FilterPolicy + Copy> Engine<E, C, FP> {
    /// An iterator over the store as it is now, at no position.
    pub fn new_iter<'a>(&'a mut self, env: &'a mut E) -> Result<DBIterator<'a, E, C, FP>>
        requires any { IsAnyValue self.old }
        ensures reference { IfOk result (λ it. it.env.ghost_name ≡ env.entry.ghost_name) }
        ensures iterates { let codings = ⟦<CompressorList as Compressors>⟧.codings in
            let walk = ⟦<StoreView<'a, C> as Walk<E, StoreTables<'a, E, C, FP>>>⟧ in
            EngineIterates ⟦<InternalKeyCmp<C> as Cmp>⟧ E.Env C.Cmp FP.FilterPolicy codings walk
            self.old env.old None result }
    {
        self.iter_at(env, None)
    }

    /// An iterator over the store as it was when a snapshot was given out, at no position. A
    /// snapshot that isn't held is `InvalidArgument`.
    pub fn new_iter_at<'a>(
        &'a mut self,
        env: &'a mut E,
        snapshot: Snapshot,
    ) -> Result<DBIterator<'a, E, C, FP>>
        requires any { IsAnyValue self.old }
        ensures reference { IfOk result (λ it. it.env.ghost_name ≡ env.entry.ghost_name) }
        ensures iterates { let codings = ⟦<CompressorList as Compressors>⟧.codings in
            let walk = ⟦<StoreView<'a, C> as Walk<E, StoreTables<'a, E, C, FP>>>⟧ in
            EngineIterates ⟦<InternalKeyCmp<C> as Cmp>⟧ E.Env C.Cmp FP.FilterPolicy codings walk
            self.old env.old (Some (snapshot_of snapshot)) result }
    {
        self.iter_at(env, Some(snapshot))
    }

    // An iterator over the store as it is now, or at a snapshot.
    fn iter_at<'a>(
        &'a mut self,
        env: &'a mut E,
        at: Option<Snapshot>,
    ) -> Result<DBIterator<'a, E, C, FP>>
        ensures reference { IfOk result (λ it. it.env.ghost_name ≡ env.entry.ghost_name) }
        ensures iterates { let codings = ⟦<CompressorList as Compressors>⟧.codings in
            let walk = ⟦<StoreView<'a, C> as Walk<E, StoreTables<'a, E, C, FP>>>⟧ in
            EngineIterates ⟦<InternalKeyCmp<C> as Cmp>⟧ E.Env C.Cmp FP.FilterPolicy codings walk
            self.old env.old (option_map snapshot_of at) result }
    {
        self.check_not_closed()?;
        let sequence = self.sequence_at(at)?;
        let alloc = self.alloc;
        let tables = &mut self.tables;
        let options = &self.options;
        let store = &self.store;
        let samples = &mut self.samples;
        let policy = options.filter_policy;
        let compressors = &options.compressor_list;
        iter_over(
            alloc,
            store,
            env,
            tables,
            policy,
            compressors,
            samples,
            sequence,
        )
    }
}

// An iterator over the view of an open store at a sequence number.
pub(super) fn iter_over<
    'a,
    E: Env + 'a,
    C: UserCmp + Copy + 'a,
    FP: FilterPolicy + Copy + 'a,
    K: ReadsTables<E, C, FP> + 'a,
>(
    alloc: Global,
    store: &'a OpenStore<E, C>,
    env: &'a mut E,
    tables: &'a mut TableCache<E, C, FP>,
    policy: FP,
    compressors: &'a K,
    samples: &'a mut ReadSamples,
    sequence: SequenceNumber,
) -> Result<StoreIterator<'a, E, C, FP, K, StoreView<'a, C>>>
    ensures made { let walk = ⟦<StoreView<'a, C> as Walk<E, ReadTables<'a, E, C, FP, K>>>⟧ in
        IfOk result (IsMadeOver ⟦<InternalKeyCmp<C> as Cmp>⟧ E.Env C.Cmp FP.FilterPolicy K.codings
        walk store.now policy compressors.now env.entry tables.old sequence) }
    ensures cause { IfErr result IsOutOfMemory }
{
    let view = store.view::<FP, K>(sequence)?;
    let tables = store.reading(store.cmp(), policy, compressors, tables);
    Ok(StoreIterator {
        alloc,
        view,
        env,
        tables,
        store,
        samples,
        counted: 0,
    })
}
