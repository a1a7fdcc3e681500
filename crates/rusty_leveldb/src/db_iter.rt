//! Iterators over a store's view.
// LevelDB: db/db_iter.cc
ghost use Rattle.std.specs.Prelude.{◌≡◌, ◌-◌, None, IfErr, IfOk, IsErrAnd, is_some};
ghost use Rattle.leveldb_base.specs.Error.{IsOutOfMemory};
ghost use Rattle.leveldb_base.specs.Types.{copied_pair, last_position, next_position, pair_of, position_within, previous_position, seek_position};
ghost use Rattle.leveldb_base.specs.declared.error.StatusCode.TheVariants.{InvalidArgument};
ghost use Rattle.leveldb_base.specs.KeyTypes.{IsLongKey};
ghost use Rattle.rusty_leveldb.specs.Headline as headline;
ghost use Rattle.rusty_leveldb.specs.Walks.ReadSamples.{CountsRead};

use crate::read_samples::ReadSamples;
pub use crate::read_samples::sample_period;
use leveldb_base::cmp::{Cmp, InternalKeyCmp, UserCmp};
use leveldb_base::error::Result;
use leveldb_base::key_types::check_key_size;
use leveldb_base::types::copy_pair;
use leveldb_env::compressor::{CompressorList, Compressors};
use leveldb_env::env::Env;
use leveldb_env::filter::FilterPolicy;
use leveldb_iter::walk::{CountsBytes, Walk};
use leveldb_store::open_store::{OpenStore, StoreView};
use leveldb_version::table_cache::{ReadTables, ReadsTables};
use std::alloc::Global;

/// An iterator over the pairs of a store, in the order of their keys, as the store was when the
/// iterator was made, or at a snapshot. It is at one of the pairs or at no position. A move that
/// fails leaves no position, and the iterator can go on from there.
///
/// It borrows the store: until it ends nothing else is done with that. `DBIterator` is what a store
/// gives. `K` are the compressors by which tables are read, and `V` is the view.
#[derive(Drop)]
pub struct StoreIterator<'a, E: Env, C: UserCmp + Copy + Drop, FP: FilterPolicy + Copy + Drop, K, V>
where
    InternalKeyCmp<C>: Cmp,
{
    pub(crate) alloc: Global,
    pub(crate) view: V,
    pub(crate) env: &'a mut E,
    pub(crate) tables: ReadTables<'a, E, C, FP, K>,
    // The store whose files are charged for samples of what is read.
    pub(crate) store: &'a OpenStore<E, C>,
    pub(crate) samples: &'a mut ReadSamples,
    // How many of the bytes that the view has read are counted.
    pub(crate) counted: u64,
}

/// The open tables of a store, as its iterators read them.
pub type StoreTables<'a, E, C, FP> = ReadTables<'a, E, C, FP, CompressorList>;

/// An iterator over the pairs of a store.
pub type DBIterator<'a, E, C, FP> = StoreIterator<'a, E, C, FP, CompressorList, StoreView<'a, C>>;

impl<
    'a,
    E: Env,
    C: UserCmp + Copy + Drop,
    FP: FilterPolicy + Copy + Drop,
    K: ReadsTables<E, C, FP>,
    V: Walk<E, ReadTables<'a, E, C, FP, K>> + CountsBytes,
> StoreIterator<'a, E, C, FP, K, V> {
    ghost use Rattle.rusty_leveldb.specs.Engines.Witness.{iterating_in};
    ghost use Rattle.rusty_leveldb.specs.Says.{SaysMoved, SaysPair};
    ghost use Rattle.rusty_leveldb.specs.Walks.Iterator.{MovesIterator, no_cause, ok_move, pair_in};

    /// Moves to the next pair, from no position to the first, and from the last to no position.
    /// Returns whether it is at a pair.
    pub fn advance(&mut self) -> Result<bool>
        ensures says { SaysMoved (iterating_in ⟦<InternalKeyCmp<C> as Cmp>⟧ E.Env C.Cmp
            FP.FilterPolicy K.codings V.Walk) headline.advance
            (E.failures self.old.env.now) self.old result (E.failures self.new.env.now) self.new }
        ensures moves { MovesIterator ⟦<InternalKeyCmp<C> as Cmp>⟧ E.Env C.Cmp FP.FilterPolicy
            K.codings V.Walk no_cause (λ _. next_position) self.old result self.new }
        ensures valid { IfOk result (λ is_valid. is_valid ≡ is_some
            (pair_in V.Walk self.new)) }
    {
        let moved = self.view.advance(self.env, &mut self.tables);
        self.count_read();
        moved
    }

    /// Moves to the pair before, and from the first or from no position to no position.
    /// Returns whether it is at a pair.
    pub fn prev(&mut self) -> Result<bool>
        ensures says { SaysMoved (iterating_in ⟦<InternalKeyCmp<C> as Cmp>⟧ E.Env C.Cmp
            FP.FilterPolicy K.codings V.Walk) headline.prev
            (E.failures self.old.env.now) self.old result (E.failures self.new.env.now) self.new }
        ensures moves { MovesIterator ⟦<InternalKeyCmp<C> as Cmp>⟧ E.Env C.Cmp FP.FilterPolicy
            K.codings V.Walk no_cause (λ _ _. previous_position) self.old result self.new }
        ensures valid { IfOk result (λ is_valid. is_valid ≡ is_some
            (pair_in V.Walk self.new)) }
    {
        let moved = self.view.prev(self.env, &mut self.tables);
        self.count_read();
        moved
    }

    /// Moves to the first pair whose key is at or after `key`, or to no position where all are
    /// before it. A key of more than 2^30 bytes is `InvalidArgument`.
    pub fn seek(&mut self, key: &[u8]) -> Result<()>
        ensures says { SaysMoved (iterating_in ⟦<InternalKeyCmp<C> as Cmp>⟧ E.Env C.Cmp
            FP.FilterPolicy K.codings V.Walk) (headline.seek key.now)
            (E.failures self.old.env.now) self.old result (E.failures self.new.env.now) self.new }
        ensures moves { MovesIterator ⟦<InternalKeyCmp<C> as Cmp>⟧ E.Env C.Cmp FP.FilterPolicy
            K.codings V.Walk (λ e. (e.code ≡ InvalidArgument) × IsLongKey key.now)
            (λ order pairs _. seek_position order pairs key.now) self.old result self.new }
        ensures long { IsLongKey key.now → IsErrAnd result (λ e. e.code ≡ InvalidArgument) }
    {
        if let Err(status) = check_key_size(self.alloc, key) {
            self.reset();
            return Err(status);
        }
        let moved = self.view.seek(self.env, &mut self.tables, key);
        self.count_read();
        moved
    }

    /// Moves to the first pair, or to no position in an empty store.
    pub fn seek_to_first(&mut self) -> Result<()>
        ensures says { SaysMoved (iterating_in ⟦<InternalKeyCmp<C> as Cmp>⟧ E.Env C.Cmp
            FP.FilterPolicy K.codings V.Walk) headline.seek_to_first
            (E.failures self.old.env.now) self.old result (E.failures self.new.env.now) self.new }
        ensures moves { MovesIterator ⟦<InternalKeyCmp<C> as Cmp>⟧ E.Env C.Cmp FP.FilterPolicy
            K.codings V.Walk no_cause (λ _ pairs _. position_within pairs 0) self.old result
            self.new }
    {
        let moved = self.view.seek_to_first(self.env, &mut self.tables);
        self.count_read();
        moved
    }

    /// Moves to the last pair, or to no position in an empty store.
    pub fn seek_to_last(&mut self) -> Result<()>
        ensures { MovesIterator ⟦<InternalKeyCmp<C> as Cmp>⟧ E.Env C.Cmp FP.FilterPolicy
            K.codings V.Walk no_cause (λ _ pairs _. last_position pairs) self.old result self.new }
    {
        let moved = self.view.seek_to_last(self.env, &mut self.tables);
        self.count_read();
        moved
    }

    /// Moves as `advance` does, and returns a copy of the pair that it is then at. Where there is
    /// no memory for the copy, it is at no position.
    pub fn next(&mut self) -> Result<Option<(Vec<u8>, Vec<u8>)>>
        ensures moves { MovesIterator ⟦<InternalKeyCmp<C> as Cmp>⟧ E.Env C.Cmp FP.FilterPolicy
            K.codings V.Walk no_cause (λ _. next_position) self.old result self.new }
        ensures pair { IfOk result (λ copied. copied_pair copied
            ≡ pair_in V.Walk self.new) }
    {
        if !self.advance()? {
            return Ok(None);
        }
        match copy_pair(self.alloc, self.view.current()) {
            Ok(pair) => Ok(pair),
            Err(status) => {
                self.reset();
                Err(status)
            }
        }
    }

    /// Moves to no position.
    pub fn reset(&mut self)
        ensures says { SaysMoved (iterating_in ⟦<InternalKeyCmp<C> as Cmp>⟧ E.Env C.Cmp
            FP.FilterPolicy K.codings V.Walk) headline.reset
            (E.failures self.old.env.now) self.old ok_move (E.failures self.new.env.now) self.new }
        ensures moves { MovesIterator ⟦<InternalKeyCmp<C> as Cmp>⟧ E.Env C.Cmp FP.FilterPolicy
            K.codings V.Walk no_cause (λ _ _ _. None) self.old ok_move self.new }
        ensures none { pair_in V.Walk self.new ≡ None }
    {
        self.view.reset();
    }

    /// The key and the value of the pair that it is at, borrowed until it moves or ends.
    pub fn current(&self) -> Option<(&[u8], &[u8])>
        ensures says { SaysPair (iterating_in ⟦<InternalKeyCmp<C> as Cmp>⟧ E.Env C.Cmp
            FP.FilterPolicy K.codings V.Walk) self.now (pair_of result) }
        ensures pair { pair_of result
            ≡ pair_in V.Walk self.now }
    {
        self.view.current()
    }

    /// Whether it is at a pair.
    pub fn valid(&self) -> bool
        ensures { result ≡ is_some
            (pair_in V.Walk self.now) }
    {
        self.view.valid()
    }

    // Counts the bytes that the view has read since they were counted last, and samples the key of
    // the pair that it is at, if a key is to be sampled. Without memory for that the sample is
    // lost.
    #[inline]
    fn count_read(&mut self)
        ensures samples { CountsRead (C.cmp self.old.store.now.cmp) self.old.store.now
            (V.CountsBytes.counted self.old.view - self.old.counted) (pair_in V.Walk self.old)
            self.old.samples.now self.new.samples.now }
        ensures counted { self.new.counted ≡ V.CountsBytes.counted self.old.view }
        ensures rest { self.new ≡ record self.old {
          samples = self.new.samples;
          counted = self.new.counted;
        } }
    {
        let read = self.view.bytes_read();
        let bytes = read.saturating_sub(self.counted);
        self.counted = read;
        if self.samples.count(bytes)
            && let Some((key, _)) = self.view.current()
        {
            let _ = self.samples.sample(self.store, key);
        }
    }
}
