//! The parts of writing a batch: memory for it, its record, and its entries; and syncs of the log.
// LevelDB: db/db_impl.cc, DBImpl::Write
ghost use Rattle.std.specs.Prelude.{◌≡◌, ◌+◌, IfErr, IfOk, OnErr, OnOk};
ghost use Rattle.leveldb_env.specs.Env.{AreBytes};
ghost use Rattle.leveldb_mem.specs.Log.Writer.{broken_writer};
ghost use Rattle.leveldb_mem.specs.WriteBatch.{BatchOf, batch_bytes};
ghost use Rattle.leveldb_store.specs.Keeping.SoundCall.{IsSoundCall, any_meaning};
ghost use Rattle.leveldb_store.specs.Writing.Write.{AppendsToLog, AreNumbersUsedUp, CanBeInserted, HasNumbers, InsertsBatch, PreparesBatch, SyncsLog, with_writer};
ghost use Rattle.leveldb_store.specs.Writing.WriteBatch.{SyncsBatches};
ghost use Rattle.leveldb_store.specs.Keeping.Written.{SparesRest};

use super::OpenStore;
use leveldb_base::cmp::UserCmp;
use leveldb_base::error::{Result, StatusCode, err};
use leveldb_base::types::{MAX_SEQUENCE_NUMBER, SequenceNumber};
use leveldb_env::env::Env;
use leveldb_mem::write_batch::WriteBatch;

impl<E: Env, C: UserCmp + Copy> OpenStore<E, C> {
    // Takes the memory for a batch's entries, and gives the batch its numbers.
    // `NotSupported` if the numbers are used up, or the entries are too many for a memtable.
    pub(super) fn prepare(&mut self, batch: &mut WriteBatch) -> Result<()>
        ensures { PreparesBatch self.old batch.old result self.new batch.new }
    {
        let first = self.next_sequence(batch.count())?;
        self.mem.prepare(batch)?;
        batch.set_sequence(first);
        Ok(())
    }

    // Inserts the entries of a batch that was prepared. It takes no memory.
    pub(super) fn insert(&mut self, batch: &WriteBatch)
        requires { CanBeInserted self.old batch.now }
        ensures { InsertsBatch self.old batch.now self.new }
    {
        let last = self.versions.last_seq() + u64::from(batch.count());
        self.mem.insert_prepared(batch.sequence(), batch);
        self.versions.set_last_seq(last);
    }

    // The first number of a batch of `count` entries after the last.
    fn next_sequence(&self, count: u32) -> Result<SequenceNumber>
        ensures ok { IfOk result (λ first. first ≡ self.now.set.last_sequence + 1) }
        ensures numbers { OnOk result (HasNumbers self.now.set.last_sequence count) }
        ensures cause { IfErr result (AreNumbersUsedUp self.now.set.last_sequence count) }
    {
        let last = self.versions.last_seq();
        let left = MAX_SEQUENCE_NUMBER.saturating_sub(last);
        if left == 0 || left < u64::from(count) {
            return err(
                self.alloc,
                StatusCode::NotSupported,
                "the sequence numbers are used up",
            );
        }
        Ok(last + 1)
    }

    /// Makes a crash keep all batches. An error breaks the store.
    pub fn sync(&mut self, env: &mut E) -> Result<()>
        ensures syncs { SyncsLog E.Env self.old env.old result self.new env.new }
        ensures breaks { OnErr result
            (self.new ≡ with_writer self.old (broken_writer self.old.log.writer)) }
        ensures spares { SparesRest E.models_disk self.old (E.observed env.old) self.new
            (E.observed env.new) }
        ensures batches { SyncsBatches E.Env (C.cmp self.old.cmp) self.old env.old result self.new
            env.new }
        ensures sound { IsSoundCall E.Env (C.cmp self.old.cmp) any_meaning self.old env.old result
            self.new env.new }
    {
        self.log.file.sync(env)
    }

    // Appends the record of a batch to the log. If that fails once it has begun, the store is
    // broken, and the batch may be found when it is opened again.
    pub(super) fn append(&mut self, env: &mut E, batch: &WriteBatch) -> Result<()>
        ensures appends { AppendsToLog E.Env self.old env.old
            (batch_bytes batch.now.first batch.now.items) result self.new env.new }
        ensures encoded { BatchOf (batch_bytes batch.now.first batch.now.items) batch.now.first
            batch.now.items }
        ensures bytes { AreBytes (batch_bytes batch.now.first batch.now.items) }
    {
        let text = batch.contents();
        self.log.file.append(env, text)
    }
}
