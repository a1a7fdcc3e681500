//! Memtables that are filled one after another, with batches whose numbers may fall.
// LevelDB: db/repair.cc, Repairer::ConvertLogToTable
ghost use Rattle.std.specs.Prelude.{◌≡◌, ◌<◌, ◌⊎◌, [], IfErr, IfOk, IsTrue, OnOk, length};
ghost use Rattle.leveldb_base.specs.Error.{IsOutOfMemory};
ghost use Rattle.leveldb_base.specs.History.{AreUpTo};
ghost use Rattle.leveldb_mem.specs.MemTable.{HasRoom};
ghost use Rattle.leveldb_store.specs.Logs.NextFound.{HasEntryNumbers};
ghost use Rattle.leveldb_repair.specs.FoundLogs.{AddsBatch, AreAllTables, BeginsNext, HaveEntries, InsertsBatch, IsTooLargeAlone, KeepsEntries};

use leveldb_base::cmp::UserCmp;
use leveldb_base::error::{Result, StatusCode};
use leveldb_base::types::SequenceNumber;
use leveldb_mem::memtable::MemTable;
use leveldb_mem::write_batch::WriteBatch;
use std::alloc::Global;
use std::mem::replace;

// Memtables whose entries came one after another. In each the numbers of these rose.
#[derive(Drop)]
pub(super) struct Memtables<C: UserCmp + Copy + Drop> {
    cmp: C,
    // those to which no more entries come
    pub(super) full: Vec<MemTable<C>>,
    // the last one
    pub(super) latest: MemTable<C>,
    // the greatest number of an entry of the last one, or 0
    pub(super) last: SequenceNumber,
}

impl<C: UserCmp + Copy + Drop> Memtables<C> {
    // One memtable, without entries.
    pub(super) fn new(alloc: Global, cmp: C) -> Memtables<C>
        ensures none { HaveEntries [] result }
        ensures empty { result.latest.kept.entries ≡ [] }
        ensures cmp { result.cmp ≡ cmp }
    {
        Memtables {
            cmp,
            full: Vec::new(alloc),
            latest: MemTable::new(alloc, cmp),
            last: 0,
        }
    }

    // Adds the entries of a batch to the last memtable, if they are above all entries there and fit
    // beside these, and else to a new one.
    pub(super) fn add(&mut self, alloc: Global, batch: &WriteBatch) -> Result<()>
        requires up_to { AreUpTo self.old.last self.old.latest.kept.entries }
        requires numbered { HasEntryNumbers batch.now }
        ensures adds { OnOk result (AddsBatch self.old batch.now self.new) }
        ensures cause { IfErr result (λ status. IsOutOfMemory status
            ⊎ IsTooLargeAlone batch.now status) }
    {
        if batch.count() == 0 {
            return Ok(());
        }
        if self.last < batch.sequence() && self.has_made_room(batch)? {
            self.insert(batch);
            return Ok(());
        }
        self.begin_next(alloc)?;
        self.latest.prepare(batch)?;
        self.insert(batch);
        Ok(())
    }

    // Takes the memory for a batch in the last memtable. Returns whether it fits there.
    fn has_made_room(&mut self, batch: &WriteBatch) -> Result<bool>
        ensures keeps { KeepsEntries self.old self.new }
        ensures room { IfOk result (λ fits.
            IsTrue fits → HasRoom self.new.latest.kept batch.now.items) }
        ensures memory { IfErr result IsOutOfMemory }
    {
        match self.latest.prepare(batch) {
            Ok(()) => Ok(true),
            Err(status) if status.code == StatusCode::NotSupported => Ok(false),
            Err(status) => Err(status),
        }
    }

    // Inserts a batch into the last memtable, which has room for it and whose entries are below it.
    fn insert(&mut self, batch: &WriteBatch)
        requires up_to { AreUpTo self.old.last self.old.latest.kept.entries }
        requires above { self.old.last < batch.now.first }
        requires numbered { HasEntryNumbers batch.now }
        requires some { 0 < length batch.now.items }
        requires room { HasRoom self.old.latest.kept batch.now.items }
        ensures { InsertsBatch self.old batch.now self.new }
    {
        self.latest.insert_prepared(batch.sequence(), batch);
        self.last = batch.sequence() + u64::from(batch.count() - 1);
    }

    // Begins another memtable.
    fn begin_next(&mut self, alloc: Global) -> Result<()>
        ensures next { OnOk result (BeginsNext self.old self.new) }
        ensures memory { IfErr result IsOutOfMemory }
    {
        let next = MemTable::new(alloc, self.cmp);
        self.full.push(replace(&mut self.latest, next))?;
        self.last = 0;
        Ok(())
    }

    // All memtables, but not the last one where it has no entry.
    pub(super) fn into_tables(self) -> Result<Vec<MemTable<C>>>
        ensures all { IfOk result (λ tables. AreAllTables self tables.items) }
        ensures memory { IfErr result IsOutOfMemory }
    {
        let Memtables { full, latest, .. } = self;
        let mut tables = full;
        if latest.len() > 0 {
            tables.push(latest)?;
        }
        Ok(tables)
    }
}
