//! The public store: an engine beside a borrow of its environment, which each call gives to it.
// LevelDB: include/leveldb/db.h
ghost use Rattle.std.specs.Prelude.{◌≡◌, ◌∷◌, ◌++◌, List, [], Some, None, false, IfOk, map};
ghost use Rattle.std.specs.Option.{option_map};
ghost use Rattle.leveldb_mem.specs.WriteBatch.{item_of};
ghost use Rattle.rusty_leveldb.specs.Engines.Serves.{snapshot_of};
ghost use Rattle.rusty_leveldb.specs.Engines.Witness.{iterating_in, shown_by};
ghost use Rattle.rusty_leveldb.specs.Headline as headline;
ghost use Rattle.rusty_leveldb.specs.Machines.Shown.{changes_of};
ghost use Rattle.rusty_leveldb.specs.Says.{DoneOr, FoundOr, Says, SaysAbandoned, SaysOpened};
ghost use Rattle.rusty_leveldb.specs.Says.{SaysIterated, SaysReleased, SnapshotOr, WalkedOr, move_for};
ghost use Rattle.rusty_leveldb.specs.Engines.Engine.{opening_of};
ghost use Rattle.leveldb_store.specs.Tables.BuildTable.{choices_of};
ghost use Rattle.leveldb_files.specs.Stores.Format.{format_of};
ghost use Rattle.rusty_leveldb.specs.Engines.Calls.{EngineAbandons, EngineCloses, EngineCompacts, EngineFlushes, EngineGets};
ghost use Rattle.rusty_leveldb.specs.Engines.Calls.{EngineHolds, EngineOpens, EngineReleases, EngineWalks};
ghost use Rattle.rusty_leveldb.specs.Engines.Calls.{EngineWrites, result_map};
ghost use Rattle.rusty_leveldb.specs.Walks.Iterator.{EngineIterates};
ghost use Rattle.rusty_leveldb.specs.Engines.AnyValue.{IsAnyValue};

use super::engine::Engine;
use crate::db_iter::{DBIterator, StoreTables};
use bytes::Bytes;
use leveldb_base::cmp::{Cmp, DefaultCmp, InternalKeyCmp, UserCmp};
use leveldb_base::error::Result;
use leveldb_disks::disk_env::PosixDiskEnv;
use leveldb_env::compressor::{CompressorList, Compressors};
use leveldb_env::env::Env;
use leveldb_env::filter::{BloomPolicy, FilterPolicy, InternalFilterPolicy};
use leveldb_env::mem_env::MemEnv;
use leveldb_env::options::Options;
use leveldb_iter::moves::{Move, Step};
use leveldb_iter::snapshot::Snapshot;
use leveldb_iter::walk::Walk;
use leveldb_mem::write_batch::WriteBatch;
use leveldb_store::open_store::StoreView;
use std::alloc::Global;

/// A store's state beside a borrow of its environment, for as long as the store is used.
/// To use the state alone, call the engine with the environment.
pub struct Store<'e, E: Env, S: Drop> {
    pub(super) env: &'e mut E,
    pub(super) state: S,
}

/// A store that was opened: an ordered map from keys to values, kept in an environment's files.
///
/// Whatever calls are made and wherever crashes come, opening it again finds exactly the map of
/// some prefix of the batches that were handed to its log. Each batch is found whole or not at all,
/// and each that a synced write, `flush` or `close` made durable is found. A look-up, and each move
/// of an iterator, gives what the sorted map of that history gives, now or at a snapshot. A call
/// that fails changes no answer and has a named cause; at worst it breaks the store, which may then
/// be read and abandoned. The lock is held until `close` or `abandon` gives it back, also if the
/// store is dropped. Of a store of which an iterator was asked for no contract says more:
/// `new_iter`.
///
/// Contracts say so of an environment that shows what its disk holds and does what its trait says.
/// Those in memory are proved to; the operating system's files are assumed to be such a disk
/// (docs/promise.md, What is assumed).
///
/// | Code | Where a call may return it |
/// |---|---|
/// | `OutOfMemory` | any call but `release_snapshot` and `abandon`: memory ran out |
/// | that of the environment | any call but those for snapshots and iterators: a call of the device failed; of `walk` and iterators, moves |
/// | `InvalidArgument` | any call but `abandon`, of a closed store; a key or a batch of more than 2^30 bytes; a snapshot that isn't held; in `open` a name, an option, a missing store or a comparator that doesn't fit |
/// | `IOError`, "reopen the store" | `put`, `delete`, `write`, `flush`, `compact_range`, `close`: the store broke earlier |
/// | `NotSupported` | `put`, `delete`, `write`, `compact_range`, `open`: entries count for 2 GiB or more, no table is made of them, or numbers of entries or files are used up; `open`, reads of tables, and `put`, `delete`, `write`, `compact_range`, which may have to merge some: a compressor isn't set; `get_snapshot`: numbers are used up; `open`: files of more than it reads |
/// | that of a compressor | `put`, `delete`, `write`, `compact_range`, `open`: it failed to encode a block |
/// | `LockError`, `AlreadyExists` | `open`: the lock is held; a store is there that must not be |
/// | `Corruption` | a file of the store is damaged or missing |
///
/// At each call `Ok`, `Err` and `Crash` say what it leaves, and name in brackets the row of the
/// machine that its contract has for this (`specs/Engines/Calls`).
pub type DB<'e, E, C, FP> = Store<'e, E, Engine<E, C, FP>>;

/// A store in memory, with LevelDB's order of bytes and its filters.
pub type MemDB<'e> = DB<'e, MemEnv, DefaultCmp, BloomPolicy>;

/// A store in real files, with LevelDB's order of bytes and its filters.
pub type DiskDB<'e, R> = DB<'e, PosixDiskEnv<R>, DefaultCmp, BloomPolicy>;

impl<E: Env, S: Drop> Drop for Store<'_, E, S> {
    /// A store that is dropped leaves its environment as it is: its lock stays held.
    fn drop(self)
        ensures { self.exit.0.now ≡ self.entry.env.now }
    {
        let Store { env: _, state } = self;
        drop(state);
    }
}

impl<'e, E: Env, S: Drop> Store<'e, E, S> {
    /// A state beside its environment, as an engine that was opened there.
    pub fn around(env: &'e mut E, state: S) -> Store<'e, E, S>
        ensures same_reference { result.env.ghost_name ≡ env.entry.ghost_name }
        ensures env { result.env.now ≡ env.old }
        ensures state { result.state ≡ state }
    {
        Store { env, state }
    }
}

impl<'e, E: Env, C: UserCmp + Copy, FP: FilterPolicy + Copy> Store<'e, E, Engine<E, C, FP>> {
    /// Opens the store under this name, which isn't empty and doesn't end in a slash. A missing
    /// store is made, or `InvalidArgument` if the options say so; one that is there is opened, or
    /// `AlreadyExists` if they say so; a locked one is `LockError`. Options that `Options::check`
    /// refuses make no call.
    ///
    /// Ok: the history is as it was, with the batch or without it whose write had broken the store;
    /// nothing is held, and the lock is (`Opens`).
    /// Err: the history is as it was, and the lock, unless the device failed once more
    /// (`NotOpened`). But no contract says which environment this is, since its borrow is gone with
    /// the store that wasn't opened: use this where a failed opening ends the program, and else
    /// `Engine::open`, which says it of the environment that you give it, with `Store::around`.
    /// Crash: a prefix of the history, with all that was durable.
    pub fn open(
        alloc: Global,
        name: &str,
        env: &'e mut E,
        options: Options<C, FP>,
    ) -> Result<DB<'e, E, C, FP>>
        requires any { IsAnyValue options }
        ensures says { let codings = ⟦<CompressorList as Compressors>⟧.codings in
            (left : E) × IfOk result (λ db. db.env.now ≡ left)
            × SaysOpened E.Env (shown_by ⟦<InternalKeyCmp<C> as Cmp>⟧ E.Env C.Cmp FP.FilterPolicy
            codings) name.now (format_of C.Cmp FP.FilterPolicy codings options) env.old
            (result_map (λ db. db.state) result) left }
        ensures same_reference { IfOk result (λ db. db.env.ghost_name ≡ env.entry.ghost_name) }
        ensures opens { let codings = ⟦<CompressorList as Compressors>⟧.codings in
            (left : E) × IfOk result (λ db. db.env.now ≡ left)
            × EngineOpens E.Env (choices_of C.Cmp FP.FilterPolicy ⟦<InternalKeyCmp<C> as Cmp>⟧
            ⟦<InternalFilterPolicy<FP> as FilterPolicy>⟧ codings) name.now options
            (opening_of C.Cmp FP.FilterPolicy codings options) env.old
            (result_map (λ db. db.state) result) left }
    {
        let engine = Engine::open(alloc, name, &mut *env, options)?;
        Ok(Store::around(env, engine))
    }

    /// Sets the key to this value, without a sync.
    ///
    /// Ok: the history ends with this one change (`Writes`), which each look-up finds from now on.
    /// Err: no answer changes; out of memory or by the device the store may be broken, and then the
    /// change may be found when it is opened again (`NotWritten`).
    /// Crash: the latest changes may be lost, up to those that are durable.
    pub fn put(&mut self, key: &[u8], value: &[u8]) -> Result<()>
        requires any { IsAnyValue self.old }
        ensures says { let codings = ⟦<CompressorList as Compressors>⟧.codings in
            Says E.Env (shown_by ⟦<InternalKeyCmp<C> as Cmp>⟧ E.Env C.Cmp FP.FilterPolicy codings)
            self.old.state self.old.env.now
            (headline.write (record { key = key.now; value = Some value.now } ∷ []) false)
            (DoneOr result) self.new.state self.new.env.now }
        ensures same_reference { self.new.env.ghost_name ≡ self.old.env.ghost_name }
        ensures serves { let choices = choices_of C.Cmp FP.FilterPolicy
            ⟦<InternalKeyCmp<C> as Cmp>⟧ ⟦<InternalFilterPolicy<FP> as FilterPolicy>⟧
            ⟦<CompressorList as Compressors>⟧.codings in
            EngineWrites E.Env choices self.old.state self.old.env.now
            (item_of key.now (Some value.now) ∷ []) false result self.new.state self.new.env.now }
    {
        self.state.put(&mut *self.env, key, value)
    }

    /// Deletes the key, which may be missing, without a sync.
    ///
    /// Ok: the history ends with this one change (`Writes`), and no look-up finds the key.
    /// Err: no answer changes; out of memory or by the device the store may be broken, and then the
    /// change may be found when it is opened again (`NotWritten`).
    /// Crash: the latest changes may be lost, up to those that are durable.
    pub fn delete(&mut self, key: &[u8]) -> Result<()>
        requires any { IsAnyValue self.old }
        ensures says { let codings = ⟦<CompressorList as Compressors>⟧.codings in
            Says E.Env (shown_by ⟦<InternalKeyCmp<C> as Cmp>⟧ E.Env C.Cmp FP.FilterPolicy codings)
            self.old.state self.old.env.now
            (headline.write (record { key = key.now; value = None } ∷ []) false) (DoneOr result)
            self.new.state self.new.env.now }
        ensures same_reference { self.new.env.ghost_name ≡ self.old.env.ghost_name }
        ensures serves { let choices = choices_of C.Cmp FP.FilterPolicy
            ⟦<InternalKeyCmp<C> as Cmp>⟧ ⟦<InternalFilterPolicy<FP> as FilterPolicy>⟧
            ⟦<CompressorList as Compressors>⟧.codings in
            EngineWrites E.Env choices self.old.state self.old.env.now
            (item_of key.now None ∷ []) false result self.new.state self.new.env.now }
    {
        self.state.delete(&mut *self.env, key)
    }

    /// Makes the batch's changes together, in their order and after all others. A memtable that is
    /// full becomes a table first, and then one compaction is done where a level's score or reads
    /// ask for it. Where the memtable has room, but has grown by a part, one is done where a level's
    /// score asks for it. If that fails, so does the write; made again it goes through, unless the
    /// store broke.
    ///
    /// Ok: the history ends with the batch (`Writes`); with `sync` all of it is durable.
    /// Err: no answer changes; out of memory or by the device the store may be broken, as it is by
    /// an append or a sync of the log that fails, and then the batch may be found, whole and last,
    /// when it is opened again (`NotWritten`).
    /// Crash: the latest batches may be lost, each whole, up to those that are durable.
    pub fn write(&mut self, batch: WriteBatch, sync: bool) -> Result<()>
        requires any { IsAnyValue self.old }
        ensures says { let codings = ⟦<CompressorList as Compressors>⟧.codings in
            Says E.Env (shown_by ⟦<InternalKeyCmp<C> as Cmp>⟧ E.Env C.Cmp FP.FilterPolicy codings)
            self.old.state self.old.env.now (headline.write (changes_of batch.items) sync)
            (DoneOr result) self.new.state self.new.env.now }
        ensures same_reference { self.new.env.ghost_name ≡ self.old.env.ghost_name }
        ensures serves { let choices = choices_of C.Cmp FP.FilterPolicy
            ⟦<InternalKeyCmp<C> as Cmp>⟧ ⟦<InternalFilterPolicy<FP> as FilterPolicy>⟧
            ⟦<CompressorList as Compressors>⟧.codings in
            EngineWrites E.Env choices self.old.state self.old.env.now batch.items sync result
            self.new.state self.new.env.now }
    {
        self.state.write(&mut *self.env, batch, sync)
    }

    /// Makes all batches durable.
    ///
    /// Ok: all are (`AllDurable`).
    /// Err: no answer changes; an open store is broken, or, out of memory, may be as it was
    /// (`NotFlushed`).
    /// Crash: the latest batches may be lost, up to those that were durable before.
    pub fn flush(&mut self) -> Result<()>
        requires any { IsAnyValue self.old }
        ensures says { let codings = ⟦<CompressorList as Compressors>⟧.codings in
            Says E.Env (shown_by ⟦<InternalKeyCmp<C> as Cmp>⟧ E.Env C.Cmp FP.FilterPolicy codings)
            self.old.state self.old.env.now headline.flush (DoneOr result)
            self.new.state self.new.env.now }
        ensures same_reference { self.new.env.ghost_name ≡ self.old.env.ghost_name }
        ensures serves { let choices = choices_of C.Cmp FP.FilterPolicy
            ⟦<InternalKeyCmp<C> as Cmp>⟧ ⟦<InternalFilterPolicy<FP> as FilterPolicy>⟧
            ⟦<CompressorList as Compressors>⟧.codings in
            EngineFlushes E.Env choices self.old.state self.old.env.now result self.new.state
            self.new.env.now }
    {
        self.state.flush(&mut *self.env)
    }

    /// Makes tables of all entries in memory, and compacts those that overlap the range between two
    /// keys, ends included, from level 0 down to the deepest that has such a table: from levels 1
    /// to 5, or level 1. An empty key is an open end. Entries that no look-up finds any more may
    /// go.
    ///
    /// Ok: no answer changes (`Keeps`); tables alone have all that is found, now and at each
    /// snapshot, and no file of these levels overlaps the range.
    /// Err: no answer changes; out of memory or by the device the store may be broken
    /// (`NotCompacted`). If it isn't, a part may be done, and the next call goes on from there.
    /// Crash: the latest batches may be lost, up to those that are durable.
    pub fn compact_range(&mut self, from: &[u8], to: &[u8]) -> Result<()>
        requires any { IsAnyValue self.old }
        ensures says { let codings = ⟦<CompressorList as Compressors>⟧.codings in
            Says E.Env (shown_by ⟦<InternalKeyCmp<C> as Cmp>⟧ E.Env C.Cmp FP.FilterPolicy codings)
            self.old.state self.old.env.now headline.compact_range (DoneOr result)
            self.new.state self.new.env.now }
        ensures same_reference { self.new.env.ghost_name ≡ self.old.env.ghost_name }
        ensures serves { let choices = choices_of C.Cmp FP.FilterPolicy
            ⟦<InternalKeyCmp<C> as Cmp>⟧ ⟦<InternalFilterPolicy<FP> as FilterPolicy>⟧
            ⟦<CompressorList as Compressors>⟧.codings in
            EngineCompacts E.Env choices self.old.state self.old.env.now from.now to.now result
            self.new.state self.new.env.now }
    {
        self.state.compact_range(&mut *self.env, from, to)
    }

    /// What the last removal of obsolete files returned, as `Engine::last_removal` says it.
    pub fn last_removal(&self) -> &Result<()>
        ensures { result.now ≡ self.now.state.removal }
    {
        self.state.last_removal()
    }

    /// Returns the key's value, or none if it has none. A broken store is read, too.
    ///
    /// Ok: the value that the history's map has (`FindsValue`).
    /// Err: nothing changes (`StaysAsItWas`).
    /// Crash: as without this call.
    pub fn get(&mut self, key: &[u8]) -> Result<Option<Bytes>>
        requires any { IsAnyValue self.old }
        ensures says { let codings = ⟦<CompressorList as Compressors>⟧.codings in
            Says E.Env (shown_by ⟦<InternalKeyCmp<C> as Cmp>⟧ E.Env C.Cmp FP.FilterPolicy codings)
            self.old.state self.old.env.now (headline.get None key.now) (FoundOr result)
            self.new.state self.new.env.now }
        ensures same_reference { self.new.env.ghost_name ≡ self.old.env.ghost_name }
        ensures serves { let choices = choices_of C.Cmp FP.FilterPolicy
            ⟦<InternalKeyCmp<C> as Cmp>⟧ ⟦<InternalFilterPolicy<FP> as FilterPolicy>⟧
            ⟦<CompressorList as Compressors>⟧.codings in
            EngineGets E.Env choices self.old.state self.old.env.now None key.now result
            self.new.state self.new.env.now }
    {
        self.state.get(&mut *self.env, key)
    }

    /// Returns the value that the key had when the snapshot was given out, or none if it had none.
    /// A snapshot that isn't held is `InvalidArgument`; it is known by its two numbers, so one that
    /// an earlier opening gave out may be taken for one that is held.
    ///
    /// Ok: the value that the history's map had (`FindsValue`).
    /// Err: nothing changes (`StaysAsItWas`).
    /// Crash: as without this call.
    pub fn get_at(&mut self, snapshot: &Snapshot, key: &[u8]) -> Result<Option<Bytes>>
        requires any { IsAnyValue self.old }
        ensures says { let codings = ⟦<CompressorList as Compressors>⟧.codings in
            Says E.Env (shown_by ⟦<InternalKeyCmp<C> as Cmp>⟧ E.Env C.Cmp FP.FilterPolicy codings)
            self.old.state self.old.env.now (headline.get (Some snapshot.now.number) key.now)
            (FoundOr result) self.new.state self.new.env.now }
        ensures same_reference { self.new.env.ghost_name ≡ self.old.env.ghost_name }
        ensures serves { let choices = choices_of C.Cmp FP.FilterPolicy
            ⟦<InternalKeyCmp<C> as Cmp>⟧ ⟦<InternalFilterPolicy<FP> as FilterPolicy>⟧
            ⟦<CompressorList as Compressors>⟧.codings in
            EngineGets E.Env choices self.old.state self.old.env.now
            (Some (snapshot_of snapshot.now)) key.now result self.new.state self.new.env.now }
    {
        self.state.get_at(&mut *self.env, *snapshot, key)
    }

    /// Holds the store as it is now: look-ups at the snapshot find what look-ups find now, until it
    /// is released or the store is closed. It makes no call of the device.
    ///
    /// Ok: one more snapshot is held, under a new number (`Gives`).
    /// Err: nothing changes (`StaysAsItWas`).
    /// Crash: as without this call; no snapshot is held after it.
    pub fn get_snapshot(&mut self) -> Result<Snapshot>
        requires any { IsAnyValue self.old }
        ensures says { let codings = ⟦<CompressorList as Compressors>⟧.codings in
            Says E.Env (shown_by ⟦<InternalKeyCmp<C> as Cmp>⟧ E.Env C.Cmp FP.FilterPolicy codings)
            self.old.state self.old.env.now headline.get_snapshot (SnapshotOr result)
            self.new.state self.new.env.now }
        ensures same_reference { self.new.env.ghost_name ≡ self.old.env.ghost_name }
        ensures serves { let choices = choices_of C.Cmp FP.FilterPolicy
            ⟦<InternalKeyCmp<C> as Cmp>⟧ ⟦<InternalFilterPolicy<FP> as FilterPolicy>⟧
            ⟦<CompressorList as Compressors>⟧.codings in
            EngineHolds E.Env choices self.old.state self.old.env.now result self.new.state
            self.new.env.now }
    {
        self.state.get_snapshot()
    }

    /// Releases a snapshot, whatever memory there is. One that isn't held is `InvalidArgument`. It
    /// makes no call of the device.
    ///
    /// Ok: the snapshot isn't held any more (`Releases`).
    /// Err: nothing changes (`StaysAsItWas`).
    /// Crash: as without this call; no snapshot is held after it.
    pub fn release_snapshot(&mut self, snapshot: Snapshot) -> Result<()>
        requires any { IsAnyValue self.old }
        ensures says { let codings = ⟦<CompressorList as Compressors>⟧.codings in
            SaysReleased E.Env (shown_by ⟦<InternalKeyCmp<C> as Cmp>⟧ E.Env C.Cmp FP.FilterPolicy
            codings) self.old.state self.old.env.now snapshot result self.new.state
            self.new.env.now }
        ensures same_reference { self.new.env.ghost_name ≡ self.old.env.ghost_name }
        ensures serves { let choices = choices_of C.Cmp FP.FilterPolicy
            ⟦<InternalKeyCmp<C> as Cmp>⟧ ⟦<InternalFilterPolicy<FP> as FilterPolicy>⟧
            ⟦<CompressorList as Compressors>⟧.codings in
            EngineReleases E.Env choices self.old.state self.old.env.now snapshot result
            self.new.state self.new.env.now }
    {
        self.state.release_snapshot(snapshot)
    }

    /// Makes moves of a walk over the store as it is now, or over a snapshot, from no position on.
    /// `steps` gains where each led. A move that fails leaves no position, and the next one goes on
    /// from there. A snapshot that isn't held is `InvalidArgument`.
    ///
    /// Ok: each move led where a walk over the history's sorted map leads (`WalksView`).
    /// Err: no move was made, and nothing changes (`StaysAsItWas`).
    /// Crash: as without this call.
    pub fn walk(
        &mut self,
        at: Option<Snapshot>,
        moves: &[Move],
        steps: &mut Vec<Step>,
    ) -> Result<()>
        requires any { IsAnyValue self.old }
        ensures says { let codings = ⟦<CompressorList as Compressors>⟧.codings in
            (given : List Step) × (steps.new.items ≡ steps.old.items ++ given)
            × Says E.Env (shown_by ⟦<InternalKeyCmp<C> as Cmp>⟧ E.Env C.Cmp FP.FilterPolicy codings)
            self.old.state self.old.env.now
            (headline.walk (option_map (λ one. one.number) at) (map move_for moves.now))
            (WalkedOr given result) self.new.state self.new.env.now }
        ensures same_reference { self.new.env.ghost_name ≡ self.old.env.ghost_name }
        ensures walks { let choices = choices_of C.Cmp FP.FilterPolicy
            ⟦<InternalKeyCmp<C> as Cmp>⟧ ⟦<InternalFilterPolicy<FP> as FilterPolicy>⟧
            ⟦<CompressorList as Compressors>⟧.codings in
            (given : List Step) × (steps.new.items ≡ steps.old.items ++ given)
            × EngineWalks E.Env choices self.old.state self.old.env.now
            (option_map snapshot_of at) moves.now given result self.new.state self.new.env.now }
    {
        self.state.walk(&mut *self.env, at, moves, steps)
    }

    /// Returns an iterator over the store as it is now, at no position. It borrows the store: until
    /// it ends nothing else is done with that.
    ///
    /// Ok: the iterator is over the history's sorted map, and so is each move (`EngineIterates`,
    /// `MovesIterator`); no move changes a file or a lock.
    /// Err: there is no iterator, for a named cause.
    /// After it: once this was called, also in vain, no contract says what the store is or holds,
    /// nor what later calls on it do. Use `walk` where you need the store after an iterator.
    pub fn new_iter<'a>(&'a mut self) -> Result<DBIterator<'a, E, C, FP>>
        requires any { IsAnyValue self.old }
        ensures says { let codings = ⟦<CompressorList as Compressors>⟧.codings in
            let walk = ⟦<StoreView<'a, C> as Walk<E, StoreTables<'a, E, C, FP>>>⟧ in
            let keys = ⟦<InternalKeyCmp<C> as Cmp>⟧ in
            SaysIterated (iterating_in keys E.Env C.Cmp FP.FilterPolicy codings walk) E.Env
            (shown_by keys E.Env C.Cmp FP.FilterPolicy codings) (λ it. it.env.now)
            self.old.state self.old.env.now None result }
        ensures iterates { let codings = ⟦<CompressorList as Compressors>⟧.codings in
            let walk = ⟦<StoreView<'a, C> as Walk<E, StoreTables<'a, E, C, FP>>>⟧ in
            EngineIterates ⟦<InternalKeyCmp<C> as Cmp>⟧ E.Env C.Cmp FP.FilterPolicy codings walk
            self.old.state self.old.env.now None result }
    {
        let Store { env, state } = self;
        state.new_iter(&mut **env)
    }

    /// Returns an iterator over the store as it was when a snapshot was given out, at no position.
    /// A snapshot that isn't held is `InvalidArgument`. Its moves, and what is known of the store
    /// after it, are as of `new_iter`.
    pub fn new_iter_at<'a>(&'a mut self, snapshot: &Snapshot) -> Result<DBIterator<'a, E, C, FP>>
        requires any { IsAnyValue self.old }
        ensures says { let codings = ⟦<CompressorList as Compressors>⟧.codings in
            let walk = ⟦<StoreView<'a, C> as Walk<E, StoreTables<'a, E, C, FP>>>⟧ in
            let keys = ⟦<InternalKeyCmp<C> as Cmp>⟧ in
            SaysIterated (iterating_in keys E.Env C.Cmp FP.FilterPolicy codings walk) E.Env
            (shown_by keys E.Env C.Cmp FP.FilterPolicy codings) (λ it. it.env.now)
            self.old.state self.old.env.now (Some snapshot.now.number) result }
        ensures iterates { let codings = ⟦<CompressorList as Compressors>⟧.codings in
            let walk = ⟦<StoreView<'a, C> as Walk<E, StoreTables<'a, E, C, FP>>>⟧ in
            EngineIterates ⟦<InternalKeyCmp<C> as Cmp>⟧ E.Env C.Cmp FP.FilterPolicy codings walk
            self.old.state self.old.env.now (Some (snapshot_of snapshot.now)) result }
    {
        let snapshot = *snapshot;
        let Store { env, state } = self;
        state.new_iter_at(&mut **env, snapshot)
    }

    /// Makes all batches durable and gives back the lock. From then on each call but `abandon` is
    /// `InvalidArgument`.
    ///
    /// Ok: all are durable, no snapshot can be read any more, and the lock is free (`Closes`).
    /// Err: no answer changes; an open store is broken and keeps its lock, which `abandon` gives
    /// back (`NotClosed`).
    /// Crash: the latest batches may be lost, up to those that were durable before.
    pub fn close(&mut self) -> Result<()>
        requires any { IsAnyValue self.old }
        ensures says { let codings = ⟦<CompressorList as Compressors>⟧.codings in
            Says E.Env (shown_by ⟦<InternalKeyCmp<C> as Cmp>⟧ E.Env C.Cmp FP.FilterPolicy codings)
            self.old.state self.old.env.now headline.close (DoneOr result)
            self.new.state self.new.env.now }
        ensures same_reference { self.new.env.ghost_name ≡ self.old.env.ghost_name }
        ensures serves { let choices = choices_of C.Cmp FP.FilterPolicy
            ⟦<InternalKeyCmp<C> as Cmp>⟧ ⟦<InternalFilterPolicy<FP> as FilterPolicy>⟧
            ⟦<CompressorList as Compressors>⟧.codings in
            EngineCloses E.Env choices self.old.state self.old.env.now result self.new.state
            self.new.env.now }
    {
        self.state.close(&mut *self.env)
    }

    /// Gives back the lock, where `close` hasn't. Nothing is synced; of a closed store nothing is
    /// done.
    ///
    /// Ok: nothing is held, and the lock is free (`IsAbandoned`).
    /// Err: the device failed; nothing is held, and the lock is as it was (`NotUnlocked`).
    /// Crash: the latest batches may be lost, up to those that are durable.
    pub fn abandon(self) -> Result<()>
        ensures says { SaysAbandoned E.Env (shown_by ⟦<InternalKeyCmp<C> as Cmp>⟧ E.Env C.Cmp
            FP.FilterPolicy ⟦<CompressorList as Compressors>⟧.codings) self.entry.state
            self.entry.env.now result self.exit.0.now }
        ensures abandons { let formats = format_of C.Cmp FP.FilterPolicy
            ⟦<CompressorList as Compressors>⟧.codings in
            EngineAbandons ⟦<InternalKeyCmp<C> as Cmp>⟧ E.Env formats self.entry.state
            self.entry.env.now result self.exit.0.now }
    {
        let Store { env, state } = self;
        state.abandon(env)
    }
}
