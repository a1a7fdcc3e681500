//! Compacting a range of keys.
// LevelDB: db/db_impl.cc, DBImpl::CompactRange
ghost use Rattle.std.specs.Prelude.{◌≡◌, is_some};
ghost use Rattle.leveldb_store.specs.Tables.BuildTable.{choices_of};
ghost use Rattle.rusty_leveldb.specs.Engines.Calls.{EngineCompacts};
ghost use Rattle.rusty_leveldb.specs.Compactions.Compact.{EngineCompactsStore};
ghost use Rattle.rusty_leveldb.specs.Machines.State.{open_mode};
ghost use Rattle.rusty_leveldb.specs.Engines.AnyValue.{IsAnyValue};

use super::engine::{Engine, keep_removal, mode_by};
use leveldb_base::cmp::{Cmp, InternalKeyCmp, UserCmp};
use leveldb_base::error::Result;
use leveldb_base::key_types::check_key_size;
use leveldb_env::compressor::{CompressorList, Compressors};
use leveldb_env::env::Env;
use leveldb_env::filter::{FilterPolicy, InternalFilterPolicy};

impl<E: Env, C: UserCmp + Copy, FP: FilterPolicy + Copy> Engine<E, C, FP> {
    /// Makes tables of all entries in memory, and compacts those that overlap the range between two
    /// user keys, ends included; an empty key is an open end. `DB::compact_range` says what each
    /// result means.
    pub fn compact_range(&mut self, env: &mut E, from: &[u8], to: &[u8]) -> Result<()>
        requires any { IsAnyValue self.old }
        ensures { let choices = choices_of C.Cmp FP.FilterPolicy
            ⟦<InternalKeyCmp<C> as Cmp>⟧ ⟦<InternalFilterPolicy<FP> as FilterPolicy>⟧
            ⟦<CompressorList as Compressors>⟧.codings in
            EngineCompacts E.Env choices self.old env.old from.now to.now result self.new env.new }
    {
        self.check_open()?;
        check_key_size(self.alloc, from)?;
        check_key_size(self.alloc, to)?;
        self.compact_store(env, from, to)
    }

    // Compacts the store of an engine that is open, once the files are charged that samples charge.
    // Entries that are shadowed at the smallest number at which the engine is read may go. If that
    // breaks the store, the engine is broken.
    fn compact_store(&mut self, env: &mut E, from: &[u8], to: &[u8]) -> Result<()>
        requires { self.old.mode ≡ open_mode }
        ensures compacts { let choices = choices_of C.Cmp FP.FilterPolicy
            ⟦<InternalKeyCmp<C> as Cmp>⟧ ⟦<InternalFilterPolicy<FP> as FilterPolicy>⟧
            ⟦<CompressorList as Compressors>⟧.codings in
            EngineCompactsStore E.Env choices self.old env.old from.now to.now result self.new
            env.new }
        ensures sink { is_some self.new.options.log ≡ is_some self.old.options.log }
    {
        self.options.cmp = self.store.cmp();
        let smallest = self.snapshots.smallest_held(self.store.last_sequence());
        self.samples.charge(&mut self.store);
        let mut log = self.options.log.take();
        let compacted = self.store.compact_range(
            env,
            &self.options,
            &mut self.tables,
            smallest,
            &mut log,
            from,
            to,
        );
        self.options.log = log;
        self.mode = mode_by(&self.store);
        keep_removal(&mut self.removal, compacted)
    }
}
