//! Looking a key up: in the memtables, and then in the tables of the version.
// LevelDB: db/db_impl.cc, DBImpl::Get
ghost use Rattle.std.specs.Prelude.{◌≡◌, IfErr, IfOk};
ghost use Rattle.leveldb_base.specs.Entries.{FindsNewest, lookup_copied, value_found};
ghost use Rattle.leveldb_base.specs.Error.{IsOutOfMemory};
ghost use Rattle.leveldb_files.specs.Stores.Format.{format_of};
ghost use Rattle.leveldb_version.specs.Versions.Sampling.{ChargesForSample};
ghost use Rattle.leveldb_version.specs.Versions.Search.{LooksUpNewest};
ghost use Rattle.leveldb_version.specs.Tables.TableCache.{table_options};
ghost use Rattle.leveldb_version.specs.Versions.Version.{new_files_of};
ghost use Rattle.leveldb_store.specs.Keeping.OpenStore.{AreInLevels, AreNumbersGiven};
ghost use Rattle.leveldb_version_set.specs.Sets.CurrentVersion.{IsCurrent};
ghost use Rattle.leveldb_store.specs.Reading.Read.{FindsInMemory, LooksUpKey, sought_key, with_charge};

use super::OpenStore;
use bytes::Bytes;
use leveldb_base::cmp::{Cmp, InternalKeyCmp, UserCmp};
use leveldb_base::error::Result;
use leveldb_base::key_types::{LookupKey, UserKey};
use leveldb_base::types::{FileNum, Lookup, MAX_SEQUENCE_NUMBER, SequenceNumber};
use leveldb_env::compressor::{CompressorList, Compressors};
use leveldb_env::env::Env;
use leveldb_env::filter::FilterPolicy;
use leveldb_env::options::Options;
use leveldb_mem::memtable::MemTable;
use leveldb_version::table_cache::TableCache;
use leveldb_version::version::GetStats;
use std::alloc::Global;

impl<E: Env, C: UserCmp + Copy + Drop> OpenStore<E, C> {
    /// The key's value at a sequence number, or none if it has none. A table that can't be read is
    /// an error. Where the look-up goes through two tables or more, the first has one seek less
    /// before it is compacted.
    pub fn get<FP: FilterPolicy + Copy + Drop>(
        &mut self,
        env: &mut E,
        options: &Options<C, FP>,
        tables: &mut TableCache<E, C, FP>,
        sequence: SequenceNumber,
        key: &[u8],
    ) -> Result<Option<Bytes>>
        requires { C.cmp options.now.cmp ≡ C.cmp self.old.cmp }
        ensures { let by = table_options (format_of C.Cmp FP.FilterPolicy
            ⟦<CompressorList as Compressors>⟧.codings options.now) options.now in
            LooksUpKey ⟦<InternalKeyCmp<C> as Cmp>⟧ E.Env by self.old env.old tables.old sequence
            key.now result self.new env.new tables.new }
    {
        let found = self.newest_in_memory(sequence, key);
        if !found.is_absent() {
            return copied(self.alloc, found);
        }
        let (found, stats) = self.newest_in_tables(env, options, tables, sequence, key)?;
        self.charge(stats);
        Ok(found.into_value())
    }

    /// Charges a file of the version with a seek, as a look-up does that goes through its table to
    /// another.
    pub fn charge(&mut self, stats: GetStats)
        ensures { self.new ≡ with_charge self.old stats.file }
    {
        self.versions.update_stats(stats);
    }

    /// The file that a sample of this user key charges with a seek, by its level and number: the
    /// first that a look-up of the key tries, if there is a second.
    pub fn sampled(&self, key: UserKey<'_>) -> Option<(usize, FileNum)>
        ensures { ChargesForSample (C.cmp self.now.cmp) key.now (new_files_of self.now.current)
            result }
    {
        self.versions.current().sampled(key)
    }

    // What the memtables have of the key at a number.
    fn newest_in_memory(&self, sequence: SequenceNumber, key: &[u8]) -> Lookup<&[u8]>
        ensures { FindsInMemory self.now sequence key.now (lookup_copied result) }
    {
        let mem = newest_up_to(&self.mem, key, sequence);
        if !mem.is_absent() {
            return mem;
        }
        match &self.imm {
            Some(imm) => newest_up_to(imm, key, sequence),
            None => mem,
        }
    }

    // What the version's tables have of the key at a number, and the file that the search charges
    // with a seek. The version has the live files, whose numbers were given, and the levels are
    // apart.
    fn newest_in_tables<FP: FilterPolicy + Copy + Drop>(
        &self,
        env: &mut E,
        options: &Options<C, FP>,
        tables: &mut TableCache<E, C, FP>,
        sequence: SequenceNumber,
        key: &[u8],
    ) -> Result<(Lookup<Bytes>, GetStats)>
        requires { C.cmp options.now.cmp ≡ C.cmp self.now.cmp }
        ensures searches { let by = table_options (format_of C.Cmp FP.FilterPolicy
            ⟦<CompressorList as Compressors>⟧.codings options.now) options.now in
            LooksUpNewest ⟦<InternalKeyCmp<C> as Cmp>⟧ E.Env by (sought_key sequence key.now)
            env.old tables.old self.now.current result env.new tables.new }
        ensures current { IsCurrent (C.cmp self.now.cmp) self.now.cmp self.now.set
            self.now.current }
        ensures given { AreNumbersGiven self.now.set self.now.set.full.added }
        ensures levels { AreInLevels E.models_disk (C.cmp self.now.cmp) self.now.set.full.added }
    {
        let version = self.versions.current();
        let last = sequence.min(MAX_SEQUENCE_NUMBER);
        let sought = LookupKey::new(self.alloc, key, last)?;
        version.get(self.alloc, env, options, tables, &sought)
    }
}

// What a memtable has of the key up to a number.
fn newest_up_to<'a, C: UserCmp>(
    memtable: &'a MemTable<C>,
    key: &[u8],
    last: SequenceNumber,
) -> Lookup<&'a [u8]>
    ensures { FindsNewest memtable.now.kept.entries last key.now (lookup_copied result) }
{
    // This says that no entry has a number past the greatest.
    let _ = memtable.iter();
    memtable.newest(key, last.min(MAX_SEQUENCE_NUMBER))
}

// A copy of the value that was found, or none.
fn copied(alloc: Global, found: Lookup<&[u8]>) -> Result<Option<Bytes>>
    ensures ok { IfOk result (λ copy. copy ≡ value_found (lookup_copied found.entry)) }
    ensures memory { IfErr result IsOutOfMemory }
{
    match found {
        Lookup::Value(value) => Ok(Some(Bytes::copy_from_slice(alloc, value)?)),
        Lookup::Deleted | Lookup::Absent => Ok(None),
    }
}
