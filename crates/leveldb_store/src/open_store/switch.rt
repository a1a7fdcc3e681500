//! A switch of the log: the memtable (`mem`) becomes the immutable one (`imm`), and batches go to a
//! log of the next number.
// LevelDB: db/db_impl.cc, DBImpl::MakeRoomForWrite
ghost use Rattle.std.specs.Prelude.{◌≡◌, ◌≢◌, ◌↔◌, [], None, IsTrue, false};
ghost use Rattle.leveldb_files.specs.Stores.Format.{Meaning};
ghost use Rattle.leveldb_store.specs.Keeping.SoundCall.{IsSoundCall, any_meaning};
ghost use Rattle.leveldb_store.specs.Writing.Switch.{SwitchesLog};
ghost use Rattle.leveldb_store.specs.Keeping.Written.{KeepsWritten};

use super::{OpenLog, OpenStore};
use leveldb_base::cmp::UserCmp;
use leveldb_base::error::Result;
use leveldb_base::names::log_file_name;
use leveldb_env::env::Env;
use leveldb_mem::log::LogFile;
use leveldb_mem::memtable::MemTable;

impl<E: Env, C: UserCmp + Copy> OpenStore<E, C> {
    /// Whether there is an immutable memtable: entries of the logs before the one that is written,
    /// which aren't in a table yet.
    pub fn has_imm(&self) -> bool
        ensures { (result ≡ false) ↔ (self.now.imm ≡ None) }
    {
        self.imm.is_some()
    }

    /// Makes a crash keep all batches, and begins a log of the next number: batches go to it, and
    /// the entries of the one before are the immutable memtable. After an Err they are where they
    /// were. The store is broken if a sync of the log failed once it had begun. A number that was
    /// given for a log that couldn't be made isn't given again.
    pub fn switch_log(&mut self, env: &mut E) -> Result<()>
        requires none_waits { self.old.imm ≡ None }
        requires some { self.old.mem.entries ≢ [] }
        ensures switches { SwitchesLog E.Env self.old env.old result self.new env.new }
        ensures keeps { IsTrue E.models_disk → (meaning : Meaning)
            → KeepsWritten (C.cmp self.old.cmp) meaning self.old (E.observed env.old) self.new
            (E.observed env.new) }
        ensures sound { IsSoundCall E.Env (C.cmp self.old.cmp) any_meaning self.old env.old result
            self.new env.new }
    {
        let number = self.versions.new_file_number()?;
        let path = log_file_name(self.alloc, &self.name, number)?;
        self.sync(env)?;
        let file = LogFile::make(self.alloc, env, path)?;
        let fresh = MemTable::new(self.alloc, self.cmp);
        self.imm = Some(std::mem::replace(&mut self.mem, fresh));
        self.log = OpenLog { number, file };
        Ok(())
    }
}
