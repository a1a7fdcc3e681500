//! Moves of a walk over a table that is found in a cache by its number.
// LevelDB: db/table_cache.cc, TableCache::NewIterator
ghost use Rattle.leveldb_version.specs.Tables.TableCache.{options_by};
ghost use Rattle.leveldb_version.specs.Tables.TableMoves.{LeavesPairs, MovesInNumbered, StepsInOpen};

use crate::table_cache::{TableCache, table_key};
use leveldb_base::cmp::{Cmp, InternalKeyCmp, UserCmp};
use leveldb_base::error::Result;
use leveldb_base::types::FileNum;
use leveldb_env::compressor::{CompressorList, Compressors};
use leveldb_env::env::Env;
use leveldb_env::filter::{FilterPolicy, InternalFilterPolicy};
use leveldb_table::block_cache::BlockCache;
use leveldb_table::table_reader::{Table, TableCore, TableReader, TableStep};
use std::alloc::Global;

/// Compressors by which a store's tables are opened and read. A type that holds a borrow of such
/// names it by a type parameter: the checker states no type that has the tables beside the boxes of
/// compressors.
pub trait ReadsTables<E: Env, C: UserCmp + Copy + Drop, FP: FilterPolicy + Copy + Drop>: Compressors
where
    InternalKeyCmp<C>: Cmp,
{
    /// Makes a move in the table of this number, which is opened where it isn't open: by the walk,
    /// or by a new one where there is none yet, which puts blocks that it reads into the cache only
    /// if `fills` says so. Returns whether it is at a pair then.
    fn move_in_table(
        &self,
        env: &mut E,
        tables: &mut TableCache<E, C, FP>,
        cmp: C,
        policy: FP,
        number: FileNum,
        core: &mut Option<TableCore<InternalKeyCmp<C>>>,
        to: TableStep,
        fills: bool,
    ) -> Result<bool>
        ensures { let by = options_by C.Cmp FP.FilterPolicy (Self.codings self.now) cmp policy in
            MovesInNumbered ⟦<InternalKeyCmp<C> as Cmp>⟧ E.Env by number to.entry env.old tables.old
            core.old result env.new tables.new core.new };
}

/// A store's open tables, and what they are opened and read with.
#[derive(Drop)]
pub struct ReadTables<'a, E: Env, C: UserCmp + Copy + Drop, FP: FilterPolicy + Copy + Drop, K>
where
    InternalKeyCmp<C>: Cmp,
{
    /// The open tables.
    pub cache: &'a mut TableCache<E, C, FP>,
    /// The order of users' keys.
    pub cmp: C,
    /// The filter policy.
    pub policy: FP,
    /// The compressors.
    pub compressors: &'a K,
    /// The number of each file that was given is below this.
    pub below: FileNum,
}

impl<E: Env, C: UserCmp + Copy + Drop, FP: FilterPolicy + Copy + Drop> ReadsTables<E, C, FP>
    for CompressorList {
    fn move_in_table(
        &self,
        env: &mut E,
        tables: &mut TableCache<E, C, FP>,
        cmp: C,
        policy: FP,
        number: FileNum,
        core: &mut Option<TableCore<InternalKeyCmp<C>>>,
        to: TableStep,
        fills: bool,
    ) -> Result<bool> {
        tables.move_core(env, cmp, policy, self, number, core, to, fills)
    }
}

/// The same compressors, for walks over whole tables, such as those of a compaction: blocks that
/// they read don't go into the cache, where they would take the place of those that others look
/// for.
#[derive(Drop)]
pub struct ReadOnce<'k, K>(pub &'k K);

impl<K: Compressors> Compressors for ReadOnce<'_, K> {
    ghost codings = { λ once. K.codings once.0.now };
}

impl<
    E: Env,
    C: UserCmp + Copy + Drop,
    FP: FilterPolicy + Copy + Drop,
    K: ReadsTables<E, C, FP>,
> ReadsTables<E, C, FP> for ReadOnce<'_, K> {
    fn move_in_table(
        &self,
        env: &mut E,
        tables: &mut TableCache<E, C, FP>,
        cmp: C,
        policy: FP,
        number: FileNum,
        core: &mut Option<TableCore<InternalKeyCmp<C>>>,
        to: TableStep,
        _fills: bool,
    ) -> Result<bool> {
        self.0
            .move_in_table(env, tables, cmp, policy, number, core, to, false)
    }
}

impl<E: Env, C: UserCmp + Copy + Drop, FP: FilterPolicy + Copy + Drop> TableCache<E, C, FP> {
    // Makes a move in the table of this number, which is the one most recently used then. A walk
    // that begins with it puts the blocks that it reads into the cache, if `fills` says so.
    fn move_core(
        &mut self,
        env: &mut E,
        cmp: C,
        policy: FP,
        compressors: &CompressorList,
        number: FileNum,
        core: &mut Option<TableCore<InternalKeyCmp<C>>>,
        to: TableStep,
        fills: bool,
    ) -> Result<bool>
        ensures { let by = options_by C.Cmp FP.FilterPolicy
            (⟦<CompressorList as Compressors>⟧.codings compressors.now) cmp policy in
            MovesInNumbered ⟦<InternalKeyCmp<C> as Cmp>⟧ E.Env by number to.entry env.old self.old
            core.old result env.new self.new core.new }
    {
        if let Err(status) = self.open_table_by(env, cmp, policy, compressors, number) {
            reset(core);
            return Err(status);
        }
        if let Some(table) = self.tables.peek(&table_key(number)) {
            return step_in(
                self.alloc,
                table,
                env,
                &mut self.blocks,
                compressors,
                core,
                to,
                fills,
            );
        }
        match self.open_by(env, cmp, policy, compressors, number) {
            Ok(table) => step_in(
                self.alloc,
                &table,
                env,
                &mut self.blocks,
                compressors,
                core,
                to,
                fills,
            ),
            Err(status) => {
                reset(core);
                Err(status)
            }
        }
    }
}

// To no position.
fn reset<C: Cmp + Copy + Drop>(core: &mut Option<TableCore<C>>)
    ensures { LeavesPairs core.old core.new }
{
    if let Some(core) = core {
        core.reset();
    }
}

// Makes a move in an open table, by the walk over it, or by a new one where there is none yet.
fn step_in<E: Env, C: Cmp + Copy + Drop, FP: FilterPolicy>(
    alloc: Global,
    table: &Table<E, C, FP>,
    env: &mut E,
    blocks: &mut BlockCache<C>,
    compressors: &CompressorList,
    core: &mut Option<TableCore<C>>,
    to: TableStep,
    fills: bool,
) -> Result<bool>
    ensures { let codings = ⟦<CompressorList as Compressors>⟧.codings compressors.now in
        StepsInOpen C.Cmp E.Env codings table.now to.entry env.old blocks.old core.old result
        env.new blocks.new core.new }
{
    if let Some(core) = core {
        let mut reader = TableReader {
            table,
            env: &mut *env,
            cache: &mut *blocks,
            compressors,
        };
        return core.step(&mut reader, to);
    }
    let begun = TableCore::new(alloc, table)?;
    let mut fresh = begun.filling(fills);
    let mut reader = TableReader {
        table,
        env: &mut *env,
        cache: &mut *blocks,
        compressors,
    };
    let there = fresh.step(&mut reader, to);
    *core = Some(fresh);
    there
}
