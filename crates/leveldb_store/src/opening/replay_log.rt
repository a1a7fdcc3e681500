//! The replay of a log: its batches go into a memtable, one after another, and each memtable that
//! is full becomes a table.
// LevelDB: db/db_impl.cc, DBImpl::RecoverLogFile
ghost use Rattle.std.specs.Prelude.{◌≡◌, ◌≢◌, ◌⊎◌, ◌<◌, [], IfErr, IfOk, OnOk, false, length};
ghost use Rattle.leveldb_base.specs.History.{AreUpTo};
ghost use Rattle.leveldb_base.specs.declared.error.StatusCode.TheVariants.{Corruption};
ghost use Rattle.leveldb_mem.specs.MemTable.{FailsToPrepare, bytes_in};
ghost use Rattle.leveldb_store.specs.Tables.BuildTable.{choices_of};
ghost use Rattle.leveldb_store.specs.Logs.ReplayLog.{Follows, HasReplayedNone, MakesRestTable, ReplaysFile, TakesBatch, TakesNextBatch};

use crate::build::build_memtable;
use crate::log_replay::{LogReplay, NextBatch};
use leveldb_base::cmp::{Cmp, InternalKeyCmp, UserCmp};
use leveldb_base::error::{Result, StatusCode, err};
use leveldb_base::types::{FileMetaData, FileNum, MAX_SEQUENCE_NUMBER, SequenceNumber};
use leveldb_env::compressor::{CompressorList, Compressors};
use leveldb_env::env::Env;
use leveldb_env::filter::{FilterPolicy, InternalFilterPolicy};
use leveldb_env::options::Options;
use leveldb_mem::memtable::MemTable;
use leveldb_mem::write_batch::WriteBatch;
use leveldb_version_set::version_set::LiveFiles;
use std::alloc::Global;

/// What is in memory of a log that was replayed, and the number of the last entry. Where no table
/// is made, as of a store that is read alone, that is also said of several logs.
#[derive(Drop)]
pub(crate) struct ReplayedLog<C: Cmp> {
    /// The tables that were made of it, one after another.
    pub(crate) tables: Vec<FileMetaData>,
    /// Its entries that are in no table.
    pub(crate) rest: MemTable<C>,
    /// The greatest number of an entry, of this log or of those before it.
    pub(crate) last: SequenceNumber,
    /// Whether it ends between two records.
    pub(crate) is_clean: bool,
    /// How many bytes it has.
    pub(crate) size: usize,
}

/// Replays a log up to its first bad end, batch by batch: each batch goes into a memtable, and one
/// that isn't empty and is at or above the options' write buffer size after a batch becomes a table
/// of level 0 under the next number.
/// `Corruption` if the log is missing, a record is no batch, or a batch begins at or below a number
/// before it, or its numbers don't fit.
pub(crate) fn replay_log<E: Env, C: UserCmp + Copy + Drop, FP: FilterPolicy + Copy + Drop>(
    alloc: Global,
    env: &mut E,
    store: &str,
    options: &Options<C, FP>,
    versions: &mut LiveFiles<E>,
    last: SequenceNumber,
    number: FileNum,
) -> Result<ReplayedLog<C>>
    requires store { store.now ≡ versions.old.store }
    ensures replays { ReplaysFile E.Env (choices_of C.Cmp FP.FilterPolicy
        ⟦<InternalKeyCmp<C> as Cmp>⟧ ⟦<InternalFilterPolicy<FP> as FilterPolicy>⟧
        ⟦<CompressorList as Compressors>⟧.codings options.now) options.now.write_buffer_size
        versions.old last number env.old result versions.new env.new }
    ensures order { IfOk result (λ log. log.rest.cmp ≡ options.now.cmp) }
{
    let mut log = LogReplay::open(alloc, env, store, number)?;
    let mut replayed = ReplayedLog::begun(alloc, options.cmp, last, log.size());
    let mut batch = WriteBatch::new(alloc)?;
    'batches: loop {
        match log.next_batch(env, &mut batch)? {
            NextBatch::More => {}
            NextBatch::CleanEnd => {
                replayed.is_clean = true;
                return Ok(replayed);
            }
            NextBatch::BadEnd => return Ok(replayed),
        }
        replayed.take_batch(alloc, env, store, options, versions, &batch)?;
    }
}

impl<C: UserCmp + Copy + Drop> ReplayedLog<C> {
    // No record is read of a log of this size.
    pub(super) fn begun(alloc: Global, cmp: C, last: SequenceNumber, size: usize) -> ReplayedLog<C>
        ensures { HasReplayedNone cmp last size result }
    {
        ReplayedLog {
            tables: Vec::new(alloc),
            rest: MemTable::new(alloc, cmp),
            last,
            is_clean: false,
            size,
        }
    }

    // Adds the next batch. If the memtable is full then, it becomes a table.
    fn take_batch<E: Env, FP: FilterPolicy + Copy + Drop>(
        &mut self,
        alloc: Global,
        env: &mut E,
        store: &str,
        options: &Options<C, FP>,
        versions: &mut LiveFiles<E>,
        batch: &WriteBatch,
    ) -> Result<()>
        requires store { store.now ≡ versions.old.store }
        requires order { self.old.rest.cmp ≡ options.now.cmp }
        requires up_to { AreUpTo self.old.last self.old.rest.kept.entries }
        ensures takes { TakesNextBatch E.Env (choices_of C.Cmp FP.FilterPolicy
            ⟦<InternalKeyCmp<C> as Cmp>⟧ ⟦<InternalFilterPolicy<FP> as FilterPolicy>⟧
            ⟦<CompressorList as Compressors>⟧.codings options.now) options.now.write_buffer_size
            batch.now self.old versions.old env.old result self.new versions.new env.new }
    {
        check_follows(alloc, self.last, batch)?;
        self.add_batch(batch)?;
        if self.rest.len() > 0 && self.rest.approx_mem_usage() >= options.write_buffer_size {
            self.make_table(alloc, env, store, options, versions)?;
        }
        Ok(())
    }

    // Adds the entries of a batch to those that are in no table.
    pub(super) fn add_batch(&mut self, batch: &WriteBatch) -> Result<()>
        requires follows { Follows self.old.last batch.now }
        requires up_to { AreUpTo self.old.last self.old.rest.kept.entries }
        ensures ok { OnOk result (TakesBatch self.old batch.now self.new) }
        ensures cause { IfErr result (FailsToPrepare self.old.rest.kept (length batch.now.items)
            (bytes_in batch.now.items)) }
    {
        self.rest.prepare(batch)?;
        self.rest.insert_prepared(batch.sequence(), batch);
        if batch.count() > 0 {
            self.last = batch.sequence() + u64::from(batch.count() - 1);
        }
        Ok(())
    }

    // Makes a table of the entries that are in none, and a new memtable.
    pub(super) fn make_table<E: Env, FP: FilterPolicy + Copy + Drop>(
        &mut self,
        alloc: Global,
        env: &mut E,
        store: &str,
        options: &Options<C, FP>,
        versions: &mut LiveFiles<E>,
    ) -> Result<()>
        requires store { store.now ≡ versions.old.store }
        requires order { self.old.rest.cmp ≡ options.now.cmp }
        requires some { self.old.rest.kept.entries ≢ [] }
        ensures makes { MakesRestTable E.Env (choices_of C.Cmp FP.FilterPolicy
            ⟦<InternalKeyCmp<C> as Cmp>⟧ ⟦<InternalFilterPolicy<FP> as FilterPolicy>⟧
            ⟦<CompressorList as Compressors>⟧.codings options.now)
            self.old versions.old env.old result self.new versions.new env.new }
    {
        let number = versions.new_file_number()?;
        let file = build_memtable(alloc, env, store, options, &self.rest, number)?;
        self.tables.push(file)?;
        self.rest = MemTable::new(alloc, options.cmp);
        Ok(())
    }
}

// A log is empty that comes after one with a bad end: `is_clean` says whether none before it has
// one.
pub(super) fn check_empty_if_torn(alloc: Global, is_clean: bool, size: usize) -> Result<()>
    ensures ok { OnOk result (is_clean ≡ false → size ≡ 0) }
    ensures cause { IfErr result (λ status.
        (status.code ≡ Corruption) × (is_clean ≡ false) × (0 < size)) }
{
    if !is_clean && size > 0 {
        return err(
            alloc,
            StatusCode::Corruption,
            "a log is torn, and one after it isn't empty",
        );
    }
    Ok(())
}

// A batch begins above all entries before it, and its numbers fit.
pub(super) fn check_follows(alloc: Global, last: SequenceNumber, batch: &WriteBatch) -> Result<()>
    ensures ok { OnOk result (Follows last batch.now) }
    ensures cause { IfErr result (λ status.
        (status.code ≡ Corruption) × (Follows last batch.now → ⊥)) }
{
    let first = batch.sequence();
    if first <= last {
        return err(
            alloc,
            StatusCode::Corruption,
            "a batch begins among earlier ones",
        );
    }
    if first > MAX_SEQUENCE_NUMBER || first + u64::from(batch.count()) > MAX_SEQUENCE_NUMBER + 1 {
        return err(
            alloc,
            StatusCode::Corruption,
            "a sequence number is too great",
        );
    }
    Ok(())
}
