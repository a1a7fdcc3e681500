//! Writing to a store: batches, and syncs of its log.
// LevelDB: db/db_impl.cc, DBImpl::Write
ghost use Rattle.std.specs.Prelude.{◌≡◌, ◌∷◌, [], Some, None, IfOk, false, is_some};
ghost use Rattle.leveldb_mem.specs.WriteBatch.{item_of};
ghost use Rattle.rusty_leveldb.specs.Machines.State.{open_mode};
ghost use Rattle.leveldb_store.specs.Tables.BuildTable.{choices_of};
ghost use Rattle.leveldb_version.specs.Tables.TableCache.{table_options};
ghost use Rattle.leveldb_store.specs.Keeping.OpenStore.{IsUnbroken};
ghost use Rattle.leveldb_store.specs.Writing.Due.{MovesLookedAt, is_compaction_due};
ghost use Rattle.leveldb_store.specs.Writing.Removal.{EndsByRemoval, but_removal};
ghost use Rattle.rusty_leveldb.specs.Engines.Calls.{EngineFlushes, EngineWrites};
ghost use Rattle.rusty_leveldb.specs.Engines.Room.{EngineMakesRoom, StoreMakesRoom};
ghost use Rattle.rusty_leveldb.specs.Engines.AnyValue.{IsAnyValue};

use super::engine::{Engine, keep_removal, mode_by};
use crate::read_samples::ReadSamples;
use leveldb_base::cmp::{Cmp, InternalKeyCmp, UserCmp};
use leveldb_base::error::Result;
use leveldb_base::types::SequenceNumber;
use leveldb_env::compressor::{CompressorList, Compressors};
use leveldb_env::env::Env;
use leveldb_env::filter::{FilterPolicy, InternalFilterPolicy};
use leveldb_env::infolog::Logger;
use leveldb_env::options::Options;
use leveldb_mem::write_batch::WriteBatch;
use leveldb_store::open_store::{OpenStore, Removal};
use leveldb_version::table_cache::TableCache;

impl<E: Env, C: UserCmp + Copy, FP: FilterPolicy + Copy> Engine<E, C, FP> {
    /// Sets the key to this value, without a sync. `DB::put` says what each result means.
    pub fn put(&mut self, env: &mut E, key: &[u8], value: &[u8]) -> Result<()>
        requires any { IsAnyValue self.old }
        ensures { let choices = choices_of C.Cmp FP.FilterPolicy
            ⟦<InternalKeyCmp<C> as Cmp>⟧ ⟦<InternalFilterPolicy<FP> as FilterPolicy>⟧
            ⟦<CompressorList as Compressors>⟧.codings in
            EngineWrites E.Env choices self.old env.old (item_of key.now (Some value.now) ∷ [])
            false result self.new env.new }
    {
        self.check_open()?;
        let mut batch = WriteBatch::new(self.alloc)?;
        batch.put(key, value)?;
        self.write(env, batch, false)
    }

    /// Deletes the key, without a sync. `DB::delete` says what each result means.
    pub fn delete(&mut self, env: &mut E, key: &[u8]) -> Result<()>
        requires any { IsAnyValue self.old }
        ensures { let choices = choices_of C.Cmp FP.FilterPolicy
            ⟦<InternalKeyCmp<C> as Cmp>⟧ ⟦<InternalFilterPolicy<FP> as FilterPolicy>⟧
            ⟦<CompressorList as Compressors>⟧.codings in
            EngineWrites E.Env choices self.old env.old (item_of key.now None ∷ []) false result
            self.new env.new }
    {
        self.check_open()?;
        let mut batch = WriteBatch::new(self.alloc)?;
        batch.delete(key)?;
        self.write(env, batch, false)
    }

    /// Makes the batch's changes together, after all others; with `sync` they are durable once this
    /// is Ok. A memtable that is full becomes a table first, and the compaction is done for which
    /// the store asks then; where the memtable has room, the one is done that is due. An append or
    /// a sync of the log that fails breaks the engine. `DB::write` says what each result means.
    pub fn write(&mut self, env: &mut E, batch: WriteBatch, sync: bool) -> Result<()>
        requires any { IsAnyValue self.old }
        ensures { let choices = choices_of C.Cmp FP.FilterPolicy
            ⟦<InternalKeyCmp<C> as Cmp>⟧ ⟦<InternalFilterPolicy<FP> as FilterPolicy>⟧
            ⟦<CompressorList as Compressors>⟧.codings in
            EngineWrites E.Env choices self.old env.old batch.items sync result self.new env.new }
    {
        self.check_open()?;
        // A batch that there is isn't too long.
        let _ = batch.contents();
        self.make_room(env)?;
        let written = self.store.write_batch(env, batch, sync);
        self.mode = mode_by(&self.store);
        written
    }

    // Makes room in the memtable of an engine that is open, where it is full, and does the
    // compaction then for which its store asks; where it isn't full, the one that is due. Entries
    // that are shadowed at the smallest number at which the engine is read may go. If that breaks
    // the store, the engine is broken.
    fn make_room(&mut self, env: &mut E) -> Result<()>
        requires { self.old.mode ≡ open_mode }
        ensures { let choices = choices_of C.Cmp FP.FilterPolicy
            ⟦<InternalKeyCmp<C> as Cmp>⟧ ⟦<InternalFilterPolicy<FP> as FilterPolicy>⟧
            ⟦<CompressorList as Compressors>⟧.codings in
            EngineMakesRoom E.Env choices self.old env.old result self.new env.new }
    {
        self.options.cmp = self.store.cmp();
        let smallest = self.snapshots.smallest_held(self.store.last_sequence());
        let mut log = self.options.log.take();
        let made = room_in(
            &mut self.store,
            env,
            &self.options,
            &mut self.tables,
            &mut self.samples,
            &mut self.looked_at,
            smallest,
            &mut log,
        );
        self.options.log = log;
        self.mode = mode_by(&self.store);
        keep_removal(&mut self.removal, made)
    }

    /// Makes all batches durable. `DB::flush` says what each result means.
    pub fn flush(&mut self, env: &mut E) -> Result<()>
        requires any { IsAnyValue self.old }
        ensures { let choices = choices_of C.Cmp FP.FilterPolicy
            ⟦<InternalKeyCmp<C> as Cmp>⟧ ⟦<InternalFilterPolicy<FP> as FilterPolicy>⟧
            ⟦<CompressorList as Compressors>⟧.codings in
            EngineFlushes E.Env choices self.old env.old result self.new env.new }
    {
        self.check_open()?;
        let synced = self.store.sync(env);
        self.mode = mode_by(&self.store);
        synced
    }
}

// Makes room in the memtable of a store, where it is full. Then the files are charged that samples
// charge, and the compaction is done for which the store asks. Where it isn't full, one is looked
// for once for each part by which it grows, also where it fails then. What the removal of obsolete
// files fails of is a line for `log`, and an Ok has what the last one returned.
fn room_in<E: Env, C: UserCmp + Copy + Drop, FP: FilterPolicy + Copy + Drop>(
    store: &mut OpenStore<E, C>,
    env: &mut E,
    options: &Options<C, FP>,
    tables: &mut TableCache<E, C, FP>,
    samples: &mut ReadSamples,
    looked_at: &mut usize,
    smallest: SequenceNumber,
    log: &mut Option<Logger>,
) -> Result<Removal>
    requires usable { IsUnbroken store.old }
    requires order { C.cmp options.now.cmp ≡ C.cmp store.old.cmp }
    ensures makes { let choices = choices_of C.Cmp FP.FilterPolicy
        ⟦<InternalKeyCmp<C> as Cmp>⟧ ⟦<InternalFilterPolicy<FP> as FilterPolicy>⟧
        ⟦<CompressorList as Compressors>⟧.codings options.now in
        StoreMakesRoom ⟦<InternalKeyCmp<C> as Cmp>⟧ E.Env
        (table_options choices.format options.now) store.old env.old tables.old choices
        options.now.write_buffer_size smallest
        (is_compaction_due options.now.max_file_size looked_at.old store.old) (but_removal result)
        store.new env.new tables.new }
    ensures looks { MovesLookedAt options.now.write_buffer_size options.now.max_file_size store.old
        looked_at.old looked_at.new }
    ensures removes { IfOk result (λ removal.
        EndsByRemoval E.Env env.old store.old removal store.new env.new) }
    ensures log { is_some log.new ≡ is_some log.old }
{
    if !store.is_full(options.write_buffer_size) {
        if !store.look_for_compaction(options.max_file_size, looked_at) {
            return Ok(None);
        }
        return store.compact_if_asked(env, options, tables, smallest, log);
    }
    *looked_at = 0;
    let made = store.make_room(env, options, tables, log)?;
    samples.charge(store);
    let compacted = store.compact_if_asked(env, options, tables, smallest, log)?;
    Ok(compacted.or(made))
}
