//! An engine that only reads: it opens a store without a lock, and changes no file of it.
ghost use Rattle.std.specs.Prelude.{◌≡◌, ◌++◌, ℕ, List, IfOk, map};
ghost use Rattle.std.specs.Global.{Vec};
ghost use Rattle.leveldb_files.specs.Stores.Format.{format_of};
ghost use Rattle.rusty_leveldb.specs.Engines.Engine.{opening_of};
ghost use Rattle.rusty_leveldb.specs.Openings.ReadAlone.{ReaderGets, ReaderIterates, ReaderOpens, ReaderWalks};
ghost use Rattle.rusty_leveldb.specs.Engines.AnyValue.{IsAnyValue};
ghost use Rattle.rusty_leveldb.specs.Walks.Scan.{bytes_of_copy};
ghost use Rattle.rusty_leveldb.specs.Walks.StoreScan.{ReaderScans};

use super::iterate::iter_over;
use super::names::check_name;
use super::scan::scan_store;
use crate::db_iter::{DBIterator, StoreTables};
use crate::read_samples::ReadSamples;
use crate::scan::Scan;
use bytes::Bytes;
use leveldb_base::cmp::{Cmp, InternalKeyCmp, UserCmp};
use leveldb_base::error::Result;
use leveldb_base::key_types::check_key_size;
use leveldb_env::compressor::{CompressorList, Compressors};
use leveldb_env::env::Env;
use leveldb_env::filter::FilterPolicy;
use leveldb_env::options::Options;
use leveldb_iter::moves::{Move, Step};
use leveldb_iter::walk::Walk;
use leveldb_store::open_store::{OpenStore, StoreView};
use leveldb_version::table_cache::TableCache;
use std::alloc::Global;
use std::marker::{Model, PhantomData};

/// A store that is read alone, without its environment: what its files held when it was opened. It
/// has no lock and no snapshots, and nothing is written to it. `O` are the options that it was
/// opened with, and `T` holds its open tables; there are calls only for the defaults.
pub struct ReadOnlyEngine<E: Env, C: Cmp, FP, O = Options<C, FP>, T = TableCache<E, C, FP>> {
    alloc: Global,
    // A parameter, since a struct with bounds that owns the options' boxes can't have a model.
    options: O,
    store: OpenStore<E, C>,
    // A parameter, since no contract may name a type that has tables beside the options' boxes.
    tables: T,
    // The defaults of the two name the filters' policy.
    policy: PhantomData<FP>,
    // What its iterators read. No compaction is ever looked for.
    samples: ReadSamples,
}

impl<E: Env, C: Cmp + Drop, FP: Drop, O: Drop, T: Drop> Drop for ReadOnlyEngine<E, C, FP, O, T> {
    // One call for whoever drops one, in place of one for each part of it.
    fn drop(self) {
        let ReadOnlyEngine {
            alloc: _,
            options,
            store,
            tables,
            policy: _,
            samples,
        } = self;
        drop(options);
        drop(store);
        drop(tables);
        drop(samples);
    }
}

impl<E: Env, C: Cmp, FP, O, T> Model for ReadOnlyEngine<E, C, FP, O, T> {
    ghost use Rattle.rusty_leveldb.specs.Openings.ReaderValue.{ReaderValue};

    ghost Value = { ReaderValue C O T };

    ghost view = { λ it. record { options = it.options; store = it.store; tables = it.tables } };
}

impl<E: Env, C: UserCmp + Copy, FP: FilterPolicy + Copy> ReadOnlyEngine<E, C, FP> {
    /// Opens the store under this name to be read alone: no lock is asked for, and no file is made
    /// or changed, whoever has the store open. It shows what `Engine::open` would find now. A name
    /// or options that `Engine::open` refuses make no call; a missing store is `InvalidArgument`
    /// whatever the options say, and one that is there may be there. All that its logs have comes
    /// to memory.
    pub fn open(
        alloc: Global,
        name: &str,
        env: &mut E,
        options: Options<C, FP>,
    ) -> Result<ReadOnlyEngine<E, C, FP>>
        requires any { IsAnyValue options }
        ensures { let codings = ⟦<CompressorList as Compressors>⟧.codings in
            ReaderOpens ⟦<InternalKeyCmp<C> as Cmp>⟧ E.Env
            (format_of C.Cmp FP.FilterPolicy codings) name.now options
            (opening_of C.Cmp FP.FilterPolicy codings options) env.old result env.new }
    {
        check_name(alloc, name)?;
        options.check(alloc)?;
        let tables = TableCache::new(alloc, name, &options)?;
        let store = OpenStore::open_to_read(alloc, env, name, &options)?;
        Ok(ReadOnlyEngine {
            alloc,
            options,
            store,
            tables,
            policy: PhantomData,
            samples: ReadSamples::new(alloc),
        })
    }

    /// The key's value, or none if it has none.
    pub fn get(&mut self, env: &mut E, key: &[u8]) -> Result<Option<Bytes>>
        requires any { IsAnyValue self.old }
        ensures { let codings = ⟦<CompressorList as Compressors>⟧.codings in
            ReaderGets ⟦<InternalKeyCmp<C> as Cmp>⟧ E.Env
            (format_of C.Cmp FP.FilterPolicy codings) self.old env.old key.now result self.new
            env.new }
    {
        check_key_size(self.alloc, key)?;
        let last = self.store.last_sequence();
        self.options.cmp = self.store.cmp();
        self.store
            .get(env, &self.options, &mut self.tables, last, key)
    }

    /// Makes moves of a walk over the store, from no position on. `steps` gains where each led. A
    /// move that fails leaves no position, and the next one goes on from there.
    pub fn walk(&mut self, env: &mut E, moves: &[Move], steps: &mut Vec<Step>) -> Result<()>
        requires any { IsAnyValue self.old }
        ensures { let codings = ⟦<CompressorList as Compressors>⟧.codings in
            (given : List Step) × (steps.new.items ≡ steps.old.items ++ given)
            × ReaderWalks ⟦<InternalKeyCmp<C> as Cmp>⟧ E.Env
            (format_of C.Cmp FP.FilterPolicy codings) self.old env.old moves.now given result
            self.new env.new }
    {
        steps.reserve(moves.len())?;
        let last = self.store.last_sequence();
        self.options.cmp = self.store.cmp();
        self.store
            .walk(env, &self.options, &mut self.tables, last, moves, steps)
    }

    /// Appends to `pairs` copies of the first `count` pairs of a scan over the store. After an error
    /// `pairs` is as it was. A key of more than 2^30 bytes is `InvalidArgument`.
    pub fn scan(
        &mut self,
        env: &mut E,
        scan: Scan<'_>,
        count: usize,
        pairs: &mut Vec<(Vec<u8>, Vec<u8>)>,
    ) -> Result<()>
        requires any { IsAnyValue self.old }
        ensures { let codings = ⟦<CompressorList as Compressors>⟧.codings in
            (given : List (Vec ℕ × Vec ℕ)) × (pairs.new.items ≡ pairs.old.items ++ given)
            × ReaderScans ⟦<InternalKeyCmp<C> as Cmp>⟧ E.Env
            (format_of C.Cmp FP.FilterPolicy codings) self.old env.old scan.entry count
            (map bytes_of_copy given) result self.new env.new }
    {
        scan.check_key(self.alloc)?;
        let alloc = self.alloc;
        let last = self.store.last_sequence();
        let options = &self.options;
        let policy = options.filter_policy;
        let compressors = &options.compressor_list;
        scan_store(
            alloc,
            &self.store,
            env,
            &mut self.tables,
            policy,
            compressors,
            last,
            scan,
            count,
            pairs,
        )
    }

    /// An iterator over the store, at no position.
    pub fn new_iter<'a>(&'a mut self, env: &'a mut E) -> Result<DBIterator<'a, E, C, FP>>
        requires any { IsAnyValue self.old }
        ensures reference { IfOk result (λ it. it.env.ghost_name ≡ env.entry.ghost_name) }
        ensures iterates { let codings = ⟦<CompressorList as Compressors>⟧.codings in
            let walk = ⟦<StoreView<'a, C> as Walk<E, StoreTables<'a, E, C, FP>>>⟧ in
            ReaderIterates ⟦<InternalKeyCmp<C> as Cmp>⟧ E.Env C.Cmp FP.FilterPolicy codings walk
            self.old env.old result }
    {
        let alloc = self.alloc;
        let last = self.store.last_sequence();
        let tables = &mut self.tables;
        let options = &self.options;
        let store = &self.store;
        let samples = &mut self.samples;
        let policy = options.filter_policy;
        let compressors = &options.compressor_list;
        iter_over(
            alloc,
            store,
            env,
            tables,
            policy,
            compressors,
            samples,
            last,
        )
    }
}
