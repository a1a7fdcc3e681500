//! The end of a store's work: giving back its lock.
// LevelDB: db/db_impl.cc, the destructor of DBImpl
ghost use Rattle.std.specs.Prelude.{false};
ghost use Rattle.leveldb_env.specs.Env.{lock_set, same, ChangesFiles, FilesUnchanged, ChangesLocks, HasCause};
ghost use Rattle.leveldb_store.specs.Tables.BuildTable.{choices_of};
ghost use Rattle.leveldb_files.specs.Stores.Format.{format_of};
ghost use Rattle.rusty_leveldb.specs.Engines.Calls.{EngineAbandons, EngineCloses};
ghost use Rattle.rusty_leveldb.specs.Engines.AnyValue.{IsAnyValue};

use super::engine::{Engine, Mode};
use leveldb_base::cmp::{Cmp, InternalKeyCmp, UserCmp};
use leveldb_base::error::{Result, StatusCode};
use leveldb_env::compressor::{CompressorList, Compressors};
use leveldb_env::env::Env;
use leveldb_env::filter::{FilterPolicy, InternalFilterPolicy};

impl<E: Env, C: UserCmp + Copy, FP: FilterPolicy + Copy> Engine<E, C, FP> {
    /// Makes a crash keep all batches and gives back the lock. An open store that fails to do so is
    /// broken, and keeps its lock.
    pub fn close(&mut self, env: &mut E) -> Result<()>
        requires any { IsAnyValue self.old }
        ensures { let choices = choices_of C.Cmp FP.FilterPolicy
            ⟦<InternalKeyCmp<C> as Cmp>⟧ ⟦<InternalFilterPolicy<FP> as FilterPolicy>⟧
            ⟦<CompressorList as Compressors>⟧.codings in
            EngineCloses E.Env choices self.old env.old result self.new env.new }
    {
        self.check_open()?;
        if let Err(status) = self.store.sync(env) {
            self.mode = Mode::Broken;
            return Err(status);
        }
        if let Err(status) = give_back(env, &self.lock) {
            self.mode = Mode::Broken;
            return Err(status);
        }
        self.mode = Mode::Closed;
        Ok(())
    }

    /// Gives back the lock, where `close` hasn't. Nothing is synced; a closed store does nothing.
    pub fn abandon(self, env: &mut E) -> Result<()>
        ensures { let formats = format_of C.Cmp FP.FilterPolicy
            ⟦<CompressorList as Compressors>⟧.codings in
            EngineAbandons ⟦<InternalKeyCmp<C> as Cmp>⟧ E.Env formats self env.old result env.new }
    {
        if self.mode == Mode::Closed {
            return Ok(());
        }
        give_back(env, &self.lock)
    }
}

/// Frees a lock, which may be free already.
pub(crate) fn give_back<E: Env>(env: &mut E, lock: &str) -> Result<()>
    ensures does { ChangesFiles E.models_disk same FilesUnchanged (E.observed env.old)
        (E.observed env.new) result }
    ensures locks { ChangesLocks E.models_disk (lock_set lock.now false) (E.observed env.old)
        (E.observed env.new) result }
    ensures cause { HasCause (λ _. ⊥) (E.failures env.old) (E.failures env.new) result }
{
    match env.unlock(lock) {
        Err(status) if status.code == StatusCode::LockError => Ok(()),
        other => other,
    }
}
