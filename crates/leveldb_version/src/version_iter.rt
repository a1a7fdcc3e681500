//! Walks over the tables of files, one after the other.
// LevelDB: db/version_set.cc, Version::NewConcatenatingIterator
ghost use Rattle.std.specs.Prelude.{◌≡◌, ◌≤◌, false, is_some, length, true};
ghost use Rattle.std.specs.List.Sorted.{IsPartitionPoint, IsPartitionedBy};
ghost use Rattle.leveldb_base.specs.Types.{next_position, pair_of, previous_position};
ghost use Rattle.leveldb_version.specs.Tables.TableMoves.{IsToEnd, LeavesPairs, StepsInBlock, core_position};
ghost use Rattle.leveldb_version.specs.Walks.VersionIter.{ends_before_key};
ghost use Rattle.leveldb_version.specs.Walks.VersionIters.{IsNewVersionIter};
ghost use Rattle.leveldb_base.specs.declared.types.FileMetaData.{FileMetaData};

use crate::table_cache::{ReadTables, ReadsTables};
use leveldb_base::cmp::{Cmp, InternalKeyCmp, UserCmp};
use leveldb_base::error::{Result, StatusCode, err};
use leveldb_base::key_types::cmp_internal_key;
use leveldb_base::types::FileMetaData;
use leveldb_env::env::Env;
use leveldb_env::filter::FilterPolicy;
use leveldb_iter::walk::Walk;
use leveldb_table::table_reader::{TableCore, TableStep};
use std::alloc::Global;

/// A walk over the tables of a list of files, whose keys rise from file to file: those of a level
/// from 1 on, or one file of level 0. A table is opened at the first move that needs it, and the
/// walk has one at a time. A move inside a block looks no table up. No key and no value is copied.
/// A table that can't be read is an error, and so is one without a pair: none is passed over.
#[derive(Drop)]
pub struct VersionIter<'a, C: UserCmp + Copy + Drop>
where
    InternalKeyCmp<C>: Cmp,
{
    alloc: Global,
    files: &'a [(usize, FileMetaData)],

    // The index of the file where it is.
    at: usize,

    // In that file's table, once it has begun there.
    core: Option<TableCore<InternalKeyCmp<C>>>,
}

/// A walk over the tables of these files, at no position. It reads nothing.
pub fn new_version_iter<'a, C: UserCmp + Copy + Drop>(
    alloc: Global,
    files: &'a [(usize, FileMetaData)],
) -> VersionIter<'a, C>
    ensures { IsNewVersionIter files.now result }
{
    VersionIter {
        alloc,
        files,
        at: 0,
        core: None,
    }
}

impl<'a, C: UserCmp + Copy + Drop> VersionIter<'a, C> {
    ghost use Rattle.leveldb_version.specs.Walks.VersionIter.{MovesToFile, StepsInFile, KeepsTableOrNone};

    // Moves to no position.
    fn leave(&mut self)
        ensures core { LeavesPairs self.old.core self.new.core }
        ensures at { self.new.at ≡ self.old.at }
        ensures files { self.new.files ≡ self.old.files }
    {
        reset(&mut self.core);
    }

    // Turns to the file of this index; if the walk was at another, it is at no pair of this one.
    fn turn_to(&mut self, at: usize)
        ensures turns { KeepsTableOrNone self.old.at self.old.core at self.new.core }
        ensures at { self.new.at ≡ at }
        ensures files { self.new.files ≡ self.old.files }
    {
        if self.at != at {
            self.core = None;
            self.at = at;
        }
    }

    // Makes a move in the table of the file where it is. Returns whether it is at a pair then. No
    // table is looked up whose number was never given.
    fn step<'b, E: Env, FP: FilterPolicy + Copy + Drop, K: ReadsTables<E, C, FP>>(
        &mut self,
        env: &mut E,
        tables: &mut ReadTables<'b, E, C, FP, K>,
        to: TableStep,
    ) -> Result<bool>
        ensures { StepsInFile ⟦<InternalKeyCmp<C> as Cmp>⟧ E.Env C.Cmp FP.FilterPolicy K.codings
            to.entry (env.old, tables.old) self.old result (env.new, tables.new) self.new }
    {
        let at = self.at;
        if at >= self.files.len() {
            self.leave();
            return Ok(false);
        }
        let number = self.files[at].1.num;
        if number >= tables.below {
            self.leave();
            return err(
                self.alloc,
                StatusCode::Corruption,
                "a file's number was never given",
            );
        }
        tables.compressors.move_in_table(
            env,
            tables.cache,
            tables.cmp,
            tables.policy,
            number,
            &mut self.core,
            to,
            true,
        )
    }

    // Moves to the first or the last pair of the table of the file of this index; past the last
    // file to no position. Returns whether it is at a pair then.
    fn to_file<'b, E: Env, FP: FilterPolicy + Copy + Drop, K: ReadsTables<E, C, FP>>(
        &mut self,
        env: &mut E,
        tables: &mut ReadTables<'b, E, C, FP, K>,
        at: usize,
        to: TableStep,
    ) -> Result<bool>
        requires { IsToEnd to }
        ensures { MovesToFile ⟦<InternalKeyCmp<C> as Cmp>⟧ E.Env C.Cmp FP.FilterPolicy K.codings at
            to.entry (env.old, tables.old) self.old result (env.new, tables.new) self.new }
    {
        if at >= self.files.len() {
            self.leave();
            return Ok(false);
        }
        self.turn_to(at);
        if self.step(env, tables, to)? {
            return Ok(true);
        }
        err(self.alloc, StatusCode::Corruption, "a table has no pairs")
    }
}

// To no position.
fn reset<C: Cmp + Copy + Drop>(core: &mut Option<TableCore<C>>)
    ensures { LeavesPairs core.old core.new }
{
    if let Some(core) = core {
        core.reset();
    }
}

// Whether a walk over a table has begun and is at a pair.
fn is_at_pair<C: Cmp + Copy + Drop>(core: &Option<TableCore<C>>) -> bool
    ensures { result ≡ is_some (core_position core.now) }
{
    match core {
        Some(core) => core.valid(),
        None => false,
    }
}

// To the next pair of the block where it is. Returns whether there is one.
fn next_inside<C: Cmp + Copy + Drop>(core: &mut Option<TableCore<C>>) -> Result<bool>
    ensures { StepsInBlock next_position core.old result core.new }
{
    match core {
        Some(core) => core.step_forward(),
        None => Ok(false),
    }
}

// To the pair before in the block where it is. Returns whether there is one.
fn back_inside<C: Cmp + Copy + Drop>(core: &mut Option<TableCore<C>>) -> Result<bool>
    ensures { StepsInBlock (λ _. previous_position) core.old result core.new }
{
    match core {
        Some(core) => core.step_back(),
        None => Ok(false),
    }
}

// The index of the first file whose largest key is at or after this one, or the number of files,
// found by halving if the first ones come first.
fn file_at_or_after<C: UserCmp>(cmp: &C, files: &[(usize, FileMetaData)], key: &[u8]) -> usize
    ensures bound { result ≤ length files.now }
    ensures parts { let test = ends_before_key (C.cmp cmp.now) key.now in
        IsPartitionedBy test files.now
        → IsPartitionPoint (λ file. test file ≡ true) (λ file. test file ≡ false) files.now result }
{
    files.partition_point(|file| cmp_internal_key(cmp, &file.1.largest, key).is_lt())
}

impl<
    'a,
    'b,
    E: Env,
    C: UserCmp + Copy + Drop,
    FP: FilterPolicy + Copy + Drop,
    K: ReadsTables<E, C, FP>,
> Walk<E, ReadTables<'b, E, C, FP, K>> for VersionIter<'a, C> {
    ghost use Rattle.leveldb_version.specs.Walks.VersionIter.{IsOverTables, IsAtInTables, FailsInTables, KeepsReading, version_here};
    ghost use Rattle.leveldb_version.specs.Walks.VersionIterLaws.{version_laws};

    ghost over = { IsOverTables ⟦<InternalKeyCmp<C> as Cmp>⟧ E.Env C.Cmp FP.FilterPolicy
        K.codings };

    ghost is_at = { IsAtInTables ⟦<InternalKeyCmp<C> as Cmp>⟧ E.Env C.Cmp FP.FilterPolicy
        K.codings };

    ghost here = { version_here };

    ghost fails = { FailsInTables ⟦<InternalKeyCmp<C> as Cmp>⟧ E.Env C.Cmp FP.FilterPolicy
        K.codings };

    ghost keeps = { KeepsReading ⟦<InternalKeyCmp<C> as Cmp>⟧ E.Env C.Cmp FP.FilterPolicy
        K.codings };

    fn advance(&mut self, env: &mut E, tables: &mut ReadTables<'b, E, C, FP, K>) -> Result<bool> {
        if !is_at_pair(&self.core) {
            return self.to_file(env, tables, 0, TableStep::First);
        }
        if next_inside(&mut self.core)? {
            return Ok(true);
        }
        if self.step(env, tables, TableStep::NextBlock)? {
            return Ok(true);
        }
        let next = self.at.saturating_add(1);
        self.to_file(env, tables, next, TableStep::First)
    }

    fn prev(&mut self, env: &mut E, tables: &mut ReadTables<'b, E, C, FP, K>) -> Result<bool> {
        if !is_at_pair(&self.core) {
            return Ok(false);
        }
        if back_inside(&mut self.core)? {
            return Ok(true);
        }
        if self.step(env, tables, TableStep::BlockBefore)? {
            return Ok(true);
        }
        if self.at == 0 {
            return Ok(false);
        }
        let before = self.at - 1;
        self.to_file(env, tables, before, TableStep::Last)
    }

    fn seek(
        &mut self,
        env: &mut E,
        tables: &mut ReadTables<'b, E, C, FP, K>,
        key: &[u8],
    ) -> Result<()> {
        let at = file_at_or_after(&tables.cmp, self.files, key);
        if at == self.files.len() {
            self.leave();
            return Ok(());
        }
        self.turn_to(at);
        if !self.step(env, tables, TableStep::Seek(key))? {
            self.to_file(env, tables, at + 1, TableStep::First)?;
        }
        Ok(())
    }

    fn seek_to_first(
        &mut self,
        env: &mut E,
        tables: &mut ReadTables<'b, E, C, FP, K>,
    ) -> Result<()> {
        self.to_file(env, tables, 0, TableStep::First)?;
        Ok(())
    }

    fn seek_to_last(
        &mut self,
        env: &mut E,
        tables: &mut ReadTables<'b, E, C, FP, K>,
    ) -> Result<()> {
        let Some(last) = self.files.len().checked_sub(1) else {
            self.leave();
            return Ok(());
        };
        self.to_file(env, tables, last, TableStep::Last)?;
        Ok(())
    }

    fn reset(&mut self) {
        self.leave();
    }

    fn current(&self) -> Option<(&[u8], &[u8])> {
        self.core.as_ref()?.current()
    }

    fn valid(&self) -> bool {
        is_at_pair(&self.core)
    }

    ghost laws = { version_laws };
}
