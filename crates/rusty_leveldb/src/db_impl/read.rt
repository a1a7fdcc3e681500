//! Reading from a store.
// LevelDB: db/db_impl.cc, DBImpl::Get
ghost use Rattle.std.specs.Prelude.{◌≡◌, None, Some, OnOk, IfErr};
ghost use Rattle.leveldb_base.specs.KeyTypes.{IsLongKey};
ghost use Rattle.leveldb_base.specs.declared.error.StatusCode.TheVariants.{InvalidArgument};
ghost use Rattle.rusty_leveldb.specs.Engines.Serves.{snapshot_of};
ghost use Rattle.leveldb_store.specs.Tables.BuildTable.{choices_of};
ghost use Rattle.rusty_leveldb.specs.Engines.Calls.{EngineGets};
ghost use Rattle.rusty_leveldb.specs.Engines.AnyValue.{IsAnyValue};

use super::engine::Engine;
use bytes::Bytes;
use leveldb_base::cmp::{Cmp, InternalKeyCmp, UserCmp};
use leveldb_base::error::Result;
use leveldb_base::key_types::check_key_size;
use leveldb_env::compressor::{CompressorList, Compressors};
use leveldb_env::env::Env;
use leveldb_env::filter::{FilterPolicy, InternalFilterPolicy};
use leveldb_iter::snapshot::Snapshot;

impl<E: Env, C: UserCmp + Copy, FP: FilterPolicy + Copy> Engine<E, C, FP> {
    /// The key's value, or none if it has none.
    pub fn get(&mut self, env: &mut E, key: &[u8]) -> Result<Option<Bytes>>
        requires any { IsAnyValue self.old }
        ensures { let choices = choices_of C.Cmp FP.FilterPolicy
            ⟦<InternalKeyCmp<C> as Cmp>⟧ ⟦<InternalFilterPolicy<FP> as FilterPolicy>⟧
            ⟦<CompressorList as Compressors>⟧.codings in
            EngineGets E.Env choices self.old env.old None key.now result self.new env.new }
    {
        self.check_not_closed()?;
        check_key_size(self.alloc, key)?;
        let last = self.store.last_sequence();
        self.options.cmp = self.store.cmp();
        self.store
            .get(env, &self.options, &mut self.tables, last, key)
    }

    /// The key's value at a snapshot, or none if it had none. A snapshot that isn't held is
    /// `InvalidArgument`.
    pub fn get_at(&mut self, env: &mut E, snapshot: Snapshot, key: &[u8]) -> Result<Option<Bytes>>
        requires any { IsAnyValue self.old }
        ensures { let choices = choices_of C.Cmp FP.FilterPolicy
            ⟦<InternalKeyCmp<C> as Cmp>⟧ ⟦<InternalFilterPolicy<FP> as FilterPolicy>⟧
            ⟦<CompressorList as Compressors>⟧.codings in
            EngineGets E.Env choices self.old env.old (Some (snapshot_of snapshot)) key.now result
            self.new env.new }
    {
        self.check_not_closed()?;
        self.check_held(snapshot)?;
        check_key_size(self.alloc, key)?;
        self.options.cmp = self.store.cmp();
        let sequence = snapshot.sequence();
        self.store
            .get(env, &self.options, &mut self.tables, sequence, key)
    }
}
