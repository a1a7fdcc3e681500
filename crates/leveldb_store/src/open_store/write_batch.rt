//! Writing a batch: its record comes to the log, and its entries to the memtable.
// LevelDB: db/db_impl.cc, DBImpl::Write
ghost use Rattle.std.specs.Prelude.{◌≡◌, ◌≤◌, OnOk, length};
ghost use Rattle.leveldb_env.specs.Env.{AreBytes};
ghost use Rattle.leveldb_mem.specs.WriteBatch.{BatchOf, batch_bytes, max_length};
ghost use Rattle.leveldb_store.specs.Keeping.OpenStore.{IsUnbroken};
ghost use Rattle.leveldb_store.specs.Keeping.SoundCall.{IsSoundCall, any_meaning};
ghost use Rattle.leveldb_store.specs.Writing.Write.{LogsText};
ghost use Rattle.leveldb_store.specs.Writing.WriteBatch.{WritesBatch};

use super::OpenStore;
use leveldb_base::cmp::UserCmp;
use leveldb_base::error::Result;
use leveldb_env::env::Env;
use leveldb_mem::write_batch::WriteBatch;

impl<E: Env, C: UserCmp + Copy> OpenStore<E, C> {
    /// Writes a batch, and makes it durable with all before it if `sync` is set. It gets the next
    /// numbers. Returns `NotSupported`, and makes no call of the device, if the numbers are used up
    /// or the entries are too many for the memtable. If its append or its sync fails once it has
    /// begun, the store is broken: the batch isn't seen, and may be there when the store is opened
    /// again.
    pub fn write_batch(&mut self, env: &mut E, batch: WriteBatch, sync: bool) -> Result<()>
        requires usable { IsUnbroken self.old }
        ensures writes { WritesBatch E.Env (C.cmp self.old.cmp) self.old env.old batch.items sync
            result self.new env.new }
        ensures sound { IsSoundCall E.Env (C.cmp self.old.cmp) any_meaning self.old env.old result
            self.new env.new }
        ensures short { OnOk result (length (batch_bytes 0 batch.items) ≤ max_length) }
    {
        let mut batch = batch;
        self.prepare(&mut batch)?;
        self.log_batch(env, &batch, sync)?;
        self.insert(&batch);
        Ok(())
    }

    // Appends the record of a batch to the log, and syncs it if `sync` is set.
    fn log_batch(&mut self, env: &mut E, batch: &WriteBatch, sync: bool) -> Result<()>
        ensures logs { LogsText E.Env self.old env.old
            (batch_bytes batch.now.first batch.now.items) sync result self.new env.new }
        ensures encoded { BatchOf (batch_bytes batch.now.first batch.now.items) batch.now.first
            batch.now.items }
        ensures bytes { AreBytes (batch_bytes batch.now.first batch.now.items) }
    {
        self.append(env, batch)?;
        if sync { self.sync(env) } else { Ok(()) }
    }
}
