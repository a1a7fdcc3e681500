//! Looking a key up in the tables of a version.
// LevelDB: db/version_set.cc, Version::Get
ghost use Rattle.std.specs.Prelude.{◌≡◌, ◌<◌, ◌≤◌, IfErr, IfOk, IsSomeAnd, length};
ghost use Rattle.leveldb_base.specs.Entries.{found_at};
ghost use Rattle.leveldb_table.specs.BlockWalk.{pair_with};
ghost use Rattle.leveldb_files.specs.Stores.Format.{format_of};
ghost use Rattle.leveldb_version.specs.Versions.Search.{LooksUpNewest, SearchesTable};
ghost use Rattle.leveldb_version.specs.Tables.TableCache.{table_options};

use super::search::FilesLeft;
use super::{GetStats, Version};
use crate::table_cache::TableCache;
use bytes::Bytes;
use leveldb_base::cmp::{Cmp, InternalKeyCmp, UserCmp};
use leveldb_base::error::{Result, StatusCode, err};
use leveldb_base::key_types::{LookupKey, TAG_LEN, ValueType, parse_internal_key};
use leveldb_base::types::{FileNum, Lookup};
use leveldb_env::compressor::{CompressorList, Compressors};
use leveldb_env::env::Env;
use leveldb_env::filter::FilterPolicy;
use leveldb_env::options::Options;
use std::alloc::Global;

impl<C: UserCmp + Copy + Drop> Version<C> {
    /// What the version's tables have of a key: the value or the deletion of its newest entry at or
    /// below the key's number, or nothing. It looks in the files whose range has the key, those of
    /// level 0 from the newest to the oldest and then the one of each deeper level, and ends at the
    /// first whose table has an entry of the key. If it looked in two or more, the first is charged
    /// with a seek. A table that can't be read is an error: `Corruption` if it is damaged or
    /// missing, `NotSupported` if a compressor isn't set, or the compressor's own code.
    pub fn get<E: Env, FP: FilterPolicy + Copy + Drop>(
        &self,
        alloc: Global,
        env: &mut E,
        options: &Options<C, FP>,
        tables: &mut TableCache<E, C, FP>,
        key: &LookupKey,
    ) -> Result<(Lookup<Bytes>, GetStats)>
        requires order { C.cmp options.now.cmp ≡ C.cmp self.now.cmp }
        requires tagged { 8 ≤ length key.now }
        ensures { let by = table_options (format_of C.Cmp FP.FilterPolicy
            ⟦<CompressorList as Compressors>⟧.codings options.now) options.now in
            LooksUpNewest ⟦<InternalKeyCmp<C> as Cmp>⟧ E.Env by key.now env.old tables.old self.now
            result env.new tables.new }
    {
        let mut files = FilesLeft::new(self.files.as_slice());
        let mut first = None;
        let mut stats = GetStats { file: None };
        while let Some(file) = files.next(&self.cmp, key.user_key()) {
            stats.file = first;
            let found = newest_in_table(alloc, env, options, tables, file.1.num, key)?;
            if !found.is_absent() {
                return Ok((found, stats));
            }
            first = first.or(Some((file.0, file.1.num)));
        }
        Ok((Lookup::Absent, stats))
    }
}

// What the table of a file has of a key at or below its number.
fn newest_in_table<E: Env, C: UserCmp + Copy + Drop, FP: FilterPolicy + Copy + Drop>(
    alloc: Global,
    env: &mut E,
    options: &Options<C, FP>,
    tables: &mut TableCache<E, C, FP>,
    number: FileNum,
    key: &LookupKey,
) -> Result<Lookup<Bytes>>
    ensures { let by = table_options (format_of C.Cmp FP.FilterPolicy
        ⟦<CompressorList as Compressors>⟧.codings options.now) options.now in
        SearchesTable ⟦<InternalKeyCmp<C> as Cmp>⟧ E.Env by key.now env.old tables.old number result
        env.new tables.new }
{
    let value = tables.find(env, options, number, key.internal_key())?;
    value_at(alloc, tables.found_key(), value, key.user_key())
}

// What a table's pair of this key and value, if there is one, says of a user's key, if it is one of
// that key. `Corruption` if its own key has no tag.
fn value_at(alloc: Global, found: &[u8], value: Option<Bytes>, key: &[u8]) -> Result<Lookup<Bytes>>
    ensures ok { IfOk result (λ newest. newest ≡ found_at key.now (pair_with found.now value)) }
    ensures damaged { IfErr result (λ status. (status.code ≡ StatusCode.Corruption)
        × IsSomeAnd (pair_with found.now value) (λ it. length it.0 < 8)) }
{
    let Some(value) = value else {
        return Ok(Lookup::Absent);
    };
    if found.len() < TAG_LEN {
        return err(
            alloc,
            StatusCode::Corruption,
            "a table has a key without a tag",
        );
    }
    let (kind, _, user) = parse_internal_key(found);
    if user != key {
        return Ok(Lookup::Absent);
    }
    match kind {
        ValueType::TypeDeletion => Ok(Lookup::Deleted),
        ValueType::TypeValue => Ok(Lookup::Value(value)),
    }
}
