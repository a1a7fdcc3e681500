//! The public store that is read alone: an engine that only reads, beside a borrow of its
//! environment, which each call gives to it.
ghost use Rattle.std.specs.Prelude.{◌≡◌, ◌++◌, ℕ, List, IfOk, map};
ghost use Rattle.std.specs.Global.{Vec};
ghost use Rattle.leveldb_files.specs.Stores.Format.{format_of};
ghost use Rattle.rusty_leveldb.specs.Engines.Calls.{result_map};
ghost use Rattle.rusty_leveldb.specs.Engines.Engine.{opening_of};
ghost use Rattle.rusty_leveldb.specs.Openings.ReadAlone.{ReaderGets, ReaderIterates, ReaderOpens, ReaderWalks};
ghost use Rattle.rusty_leveldb.specs.Engines.AnyValue.{IsAnyValue};
ghost use Rattle.rusty_leveldb.specs.Walks.Scan.{bytes_of_copy};
ghost use Rattle.rusty_leveldb.specs.Walks.StoreScan.{ReaderScans};

use super::read_only::ReadOnlyEngine;
use super::store::Store;
use crate::db_iter::{DBIterator, StoreTables};
use crate::scan::Scan;
use bytes::Bytes;
use leveldb_base::cmp::{Cmp, InternalKeyCmp, UserCmp};
use leveldb_base::error::Result;
use leveldb_env::compressor::{CompressorList, Compressors};
use leveldb_env::env::Env;
use leveldb_env::filter::FilterPolicy;
use leveldb_env::options::Options;
use leveldb_iter::moves::{Move, Step};
use leveldb_iter::walk::Walk;
use leveldb_store::open_store::StoreView;
use std::alloc::Global;

/// A store that is read alone: it shows the map that `DB::open` would have found when it was
/// opened. No call of it changes a file or a lock, so it may be dropped at any time, and nothing
/// needs to be closed.
///
/// | Code | Where a call may return it |
/// |---|---|
/// | `OutOfMemory` | any call: memory ran out |
/// | that of the environment | any call but `new_iter`: a call of the device failed; of `walk` and iterators, moves |
/// | `InvalidArgument` | `open_read_only`: a name, an option, a missing store or a comparator that doesn't fit; `get` and moves: a key of more than 2^30 bytes |
/// | `NotSupported` | `open_read_only`: its logs have entries for 2 GiB or more, numbers of files are used up, tables share a user key, or files are greater than it reads; reads of tables: a compressor isn't set |
/// | `Corruption` | a file of the store is damaged or missing |
pub type ReadOnlyDB<'e, E, C, FP> = Store<'e, E, ReadOnlyEngine<E, C, FP>>;

/// Opens the store under this name to be read alone, whoever has its lock. No lock is asked for,
/// and no file is made or changed. A missing store is `InvalidArgument` whatever the options say.
/// What is read of files that another process changes meanwhile no contract says.
///
/// Ok: it shows the history that `DB::open` would find, and the last number that this would have.
/// Err: it has a cause. But no contract says which environment this is, since its borrow is gone
/// with the store that wasn't opened: use `ReadOnlyEngine::open` where you go on with that.
pub fn open_read_only<'e, E: Env, C: UserCmp + Copy, FP: FilterPolicy + Copy>(
    alloc: Global,
    name: &str,
    env: &'e mut E,
    opt: Options<C, FP>,
) -> Result<ReadOnlyDB<'e, E, C, FP>>
    requires any { IsAnyValue opt }
    ensures same_reference { IfOk result (λ db. db.env.ghost_name ≡ env.entry.ghost_name) }
    ensures opens { let codings = ⟦<CompressorList as Compressors>⟧.codings in
        (left : E) × IfOk result (λ db. db.env.now ≡ left)
        × ReaderOpens ⟦<InternalKeyCmp<C> as Cmp>⟧ E.Env (format_of C.Cmp FP.FilterPolicy codings)
        name.now opt (opening_of C.Cmp FP.FilterPolicy codings opt) env.old
        (result_map (λ db. db.state) result) left }
{
    let engine = ReadOnlyEngine::open(alloc, name, &mut *env, opt)?;
    Ok(Store::around(env, engine))
}

impl<'e, E: Env, C: UserCmp + Copy, FP: FilterPolicy + Copy> Store<
    'e,
    E,
    ReadOnlyEngine<E, C, FP>,
> {
    /// Returns the key's value, or none if it has none.
    ///
    /// Ok: the value that the history's map has. Err: nothing changes.
    pub fn get(&mut self, key: &[u8]) -> Result<Option<Bytes>>
        requires any { IsAnyValue self.old }
        ensures same_reference { self.new.env.ghost_name ≡ self.old.env.ghost_name }
        ensures gets { let codings = ⟦<CompressorList as Compressors>⟧.codings in
            ReaderGets ⟦<InternalKeyCmp<C> as Cmp>⟧ E.Env
            (format_of C.Cmp FP.FilterPolicy codings) self.old.state self.old.env.now key.now
            result self.new.state self.new.env.now }
    {
        self.state.get(&mut *self.env, key)
    }

    /// Makes moves of a walk over the store, from no position on. `steps` gains where each led. A
    /// move that fails leaves no position, and the next one goes on from there.
    ///
    /// Ok: each move led where a walk over the history's sorted map leads. Err: no move was made.
    pub fn walk(&mut self, moves: &[Move], steps: &mut Vec<Step>) -> Result<()>
        requires any { IsAnyValue self.old }
        ensures same_reference { self.new.env.ghost_name ≡ self.old.env.ghost_name }
        ensures walks { let codings = ⟦<CompressorList as Compressors>⟧.codings in
            (given : List Step) × (steps.new.items ≡ steps.old.items ++ given)
            × ReaderWalks ⟦<InternalKeyCmp<C> as Cmp>⟧ E.Env
            (format_of C.Cmp FP.FilterPolicy codings) self.old.state self.old.env.now moves.now
            given result self.new.state self.new.env.now }
    {
        self.state.walk(&mut *self.env, moves, steps)
    }

    /// Appends to `pairs` copies of the first `count` pairs of a scan over the store. A key of more
    /// than 2^30 bytes is `InvalidArgument`.
    ///
    /// Ok: they are the first of the scan, of all pairs of the history's sorted map; fewer than
    /// `count` if no more are there. Err: `pairs` is as it was, and nothing changes.
    pub fn scan(
        &mut self,
        scan: Scan<'_>,
        count: usize,
        pairs: &mut Vec<(Vec<u8>, Vec<u8>)>,
    ) -> Result<()>
        requires any { IsAnyValue self.old }
        ensures same_reference { self.new.env.ghost_name ≡ self.old.env.ghost_name }
        ensures scans { let codings = ⟦<CompressorList as Compressors>⟧.codings in
            (given : List (Vec ℕ × Vec ℕ)) × (pairs.new.items ≡ pairs.old.items ++ given)
            × ReaderScans ⟦<InternalKeyCmp<C> as Cmp>⟧ E.Env
            (format_of C.Cmp FP.FilterPolicy codings) self.old.state self.old.env.now scan.entry
            count (map bytes_of_copy given) result self.new.state self.new.env.now }
    {
        self.state.scan(&mut *self.env, scan, count, pairs)
    }

    /// Returns an iterator over the store, at no position. It borrows the store: until it ends
    /// nothing else is done with that.
    ///
    /// Ok: the iterator is over the history's sorted map, and so is each move (`ReaderIterates`,
    /// `MovesIterator`); no move changes a file or a lock. Err: there is no memory for an iterator.
    /// After it: once this was called, also in vain, no contract says what the store shows. Use
    /// `walk` where you need the store after an iterator.
    pub fn new_iter<'a>(&'a mut self) -> Result<DBIterator<'a, E, C, FP>>
        requires any { IsAnyValue self.old }
        ensures { let codings = ⟦<CompressorList as Compressors>⟧.codings in
            let walk = ⟦<StoreView<'a, C> as Walk<E, StoreTables<'a, E, C, FP>>>⟧ in
            ReaderIterates ⟦<InternalKeyCmp<C> as Cmp>⟧ E.Env C.Cmp FP.FilterPolicy codings walk
            self.old.state self.old.env.now result }
    {
        let Store { env, state } = self;
        state.new_iter(&mut **env)
    }
}
