//! Tables made of the entries that a store has in memory.
// LevelDB: db/builder.cc
ghost use Rattle.std.specs.Prelude.{◌≡◌, ◌⊎◌, List, [], IfErr, OnOk, map};
ghost use Rattle.leveldb_base.specs.Entries.{internal_pair};
ghost use Rattle.leveldb_base.specs.History.{AreRising};
ghost use Rattle.leveldb_base.specs.KeyTypes.{internal_cmp};
ghost use Rattle.leveldb_base.specs.Types.{Pair, position_within};
ghost use Rattle.leveldb_env.specs.EnvFile.{opened};
ghost use Rattle.leveldb_iter.specs.Walk.{key_order};
ghost use Rattle.leveldb_table.specs.TableBuilder.{order_of};
ghost use Rattle.leveldb_files.specs.Stores.Batches.{Each};
ghost use Rattle.leveldb_files.specs.Stores.Store.{IsInternalPair};
ghost use Rattle.leveldb_store.specs.Tables.BuildTable.{IsUnused, MakesTable, ReadsNoFile, StaysOver, StopsAtPair, WalkFails, choices_of, puts_all};
ghost use Rattle.leveldb_store.specs.Tables.TableFile.{AddsAllToFile, IsThere, StopsWriting};

use crate::table_file::{TableFile, copied_key, new_builder};
use leveldb_base::cmp::{Cmp, InternalKeyCmp, UserCmp};
use leveldb_base::error::Result;
use leveldb_base::names::table_file_name;
use leveldb_base::types::{FileMetaData, FileNum};
use leveldb_env::compressor::{CompressorList, Compressors};
use leveldb_env::env::Env;
use leveldb_env::filter::{FilterPolicy, InternalFilterPolicy};
use leveldb_env::options::Options;
use leveldb_iter::in_memory::InMemory;
use leveldb_iter::walk::Walk;
use leveldb_mem::memtable::MemTable;
use std::alloc::Global;

/// Makes the table of the pairs that a walk over internal keys goes to, from the first on, under
/// the name of a number in the store's folder. The file is created, each block is appended when it
/// is full, and then the file is synced. Over no pair no call is made, and the size is 0. After an
/// Err the file may be there, whole or in part.
pub fn build_table<
    E: Env,
    T,
    W: Walk<E, T>,
    C: UserCmp + Copy + Drop,
    FP: FilterPolicy + Copy + Drop,
>(
    alloc: Global,
    env: &mut E,
    tables: &mut T,
    store: &str,
    options: &Options<C, FP>,
    from: &mut W,
    number: FileNum,
) -> Result<FileMetaData>
    requires reads { ReadsNoFile W.Walk }
    requires over { (pairs : List Pair) × W.over (env.old, tables.old) from.old
        (key_order ⟦<InternalKeyCmp<C> as Cmp>⟧ (record { 0 = options.now.cmp })) pairs }
    ensures makes { (pairs : List Pair) → W.over (env.old, tables.old) from.old
        (key_order ⟦<InternalKeyCmp<C> as Cmp>⟧ (record { 0 = options.now.cmp })) pairs
        → MakesTable (choices_of C.Cmp FP.FilterPolicy ⟦<InternalKeyCmp<C> as Cmp>⟧
        ⟦<InternalFilterPolicy<FP> as FilterPolicy>⟧ ⟦<CompressorList as Compressors>⟧.codings
        options.now) pairs E.Env (WalkFails W.Walk (env.old, tables.old) from.old) store.now number
        env.old result env.new }
    ensures walk { StaysOver W.Walk (env.old, tables.old) from.old (env.new, tables.new) from.new }
{
    let path = table_file_name(alloc, store, number)?;
    from.seek_to_first(env, tables)?;
    let Some((first, _)) = from.current() else {
        return Ok(FileMetaData {
            num: number,
            ..FileMetaData::default()
        });
    };
    let smallest = copied_key(alloc, first)?;
    let core = new_builder(alloc, options);
    let mut table = TableFile::create(alloc, env, &path, number, core, smallest)?;
    add_pairs(&mut table, env, tables, &options.compressor_list, from)?;
    table.finish(env, &options.compressor_list)
}

/// Makes the table of a memtable's entries under the name of a number in the store's folder, as
/// `build_table` does.
pub fn build_memtable<E: Env, C: UserCmp + Copy + Drop, FP: FilterPolicy + Copy + Drop>(
    alloc: Global,
    env: &mut E,
    store: &str,
    options: &Options<C, FP>,
    memtable: &MemTable<C>,
    number: FileNum,
) -> Result<FileMetaData>
    requires order { C.cmp memtable.now.cmp ≡ C.cmp options.now.cmp }
    ensures makes { MakesTable (choices_of C.Cmp FP.FilterPolicy ⟦<InternalKeyCmp<C> as Cmp>⟧
        ⟦<InternalFilterPolicy<FP> as FilterPolicy>⟧ ⟦<CompressorList as Compressors>⟧.codings
        options.now) (map internal_pair memtable.now.kept.entries) E.Env (λ status. ⊥) store.now
        number env.old result env.new }
    ensures entries { Each IsInternalPair (map internal_pair memtable.now.kept.entries)
        memtable.now.kept.entries }
    ensures rising { AreRising (internal_cmp (C.cmp options.now.cmp))
        (map internal_pair memtable.now.kept.entries) }
{
    let mut walk = InMemory(memtable.iter());
    build_table(alloc, env, &mut (), store, options, &mut walk, number)
}

// Adds the pairs of a walk that is at the first one to a table that has none.
fn add_pairs<E: Env, T, W: Walk<E, T>, C: Cmp + Copy + Drop, FP: FilterPolicy + Drop>(
    table: &mut TableFile<E, C, FP>,
    env: &mut E,
    tables: &mut T,
    compressors: &CompressorList,
    from: &mut W,
) -> Result<()>
    requires unused { IsUnused C.Cmp FP.FilterPolicy (⟦<CompressorList as Compressors>⟧.codings
        compressors.now) table.old.core }
    requires reads { ReadsNoFile W.Walk }
    requires first { (pairs : List Pair) × W.is_at (env.old, tables.old) from.old
        (key_order C.Cmp (order_of table.old.core)) pairs (position_within pairs 0) }
    ensures ok { let codings = ⟦<CompressorList as Compressors>⟧.codings compressors.now in
        (pairs : List Pair) → W.is_at (env.old, tables.old) from.old
        (key_order C.Cmp (order_of table.old.core)) pairs (position_within pairs 0)
        → OnOk result (AddsAllToFile C.Cmp FP.FilterPolicy codings E.Env table.old.core
        (opened env.old table.old.file) pairs table.new.core (opened env.new table.new.file)) }
    ensures err { let codings = ⟦<CompressorList as Compressors>⟧.codings compressors.now in
        (pairs : List Pair) → W.is_at (env.old, tables.old) from.old
        (key_order C.Cmp (order_of table.old.core)) pairs (position_within pairs 0)
        → IfErr result (λ status. IsThere E.Env (opened env.old table.old.file)
        → StopsWriting E.Env (λ why.
        StopsAtPair C.Cmp FP.FilterPolicy codings puts_all table.old.core [] pairs why
        ⊎ WalkFails W.Walk (env.old, tables.old) from.old why) (opened env.old table.old.file)
        status env.new) }
    ensures same { (table.new.number ≡ table.old.number)
        × (table.new.smallest ≡ table.old.smallest) }
    ensures walk { StaysOver W.Walk (env.old, tables.old) from.old (env.new, tables.new) from.new }
{
    'adding: while let Some((key, value)) = from.current() {
        table.add(env, compressors, key, value)?;
        from.advance(env, tables)?;
    }
    Ok(())
}
