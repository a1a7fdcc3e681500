//! New tables of all that is found, and a manifest that names them.
// LevelDB: db/repair.cc, Repairer::WriteDescriptor
ghost use Rattle.std.specs.Prelude.{◌≡◌, ◌<◌, ◌+◌, ◌^◌, [], IfErr, IfOk};
ghost use Rattle.leveldb_base.specs.Error.{IsOutOfMemory};
ghost use Rattle.leveldb_repair.specs.RepairSteps.{AreOverFound, IsOverAll, IsOverFound};
ghost use Rattle.leveldb_repair.specs.RepairStore.{RepairsStore};
ghost use Rattle.leveldb_repair.specs.WriteFound.{files_of_level_one};
ghost use Rattle.leveldb_store.specs.Tables.BuildTable.{choices_of};
ghost use Rattle.leveldb_store.specs.Compactions.Merging.{LeavesFiles};
ghost use Rattle.leveldb_version_set.specs.Repairs.Repairing.{repaired_edit};
ghost use Rattle.leveldb_version.specs.Edits.VersionEdit.{edit_of};

use super::clash::with_names;
use crate::found_walk::{FoundTable, FoundWalk, ReadFiles, ReadsFound};
use crate::look_over::{LookedOver, look_over};
use crate::write_found::write_found;
use leveldb_base::cmp::{Cmp, InternalKeyCmp, UserCmp};
use leveldb_base::error::{Result, StatusCode, err};
use leveldb_base::types::{FileMetaData, FileNum, LdbIterator, SequenceNumber};
use leveldb_env::compressor::{CompressorList, Compressors};
use leveldb_env::env::Env;
use leveldb_env::filter::{FilterPolicy, InternalFilterPolicy};
use leveldb_env::options::Options;
use leveldb_iter::merging_iter::MergeCore;
use leveldb_iter::walk::Walk;
use leveldb_version::version_edit::VersionEdit;
use leveldb_version_set::version_set::{VersionSet, make_manifest_of};
use std::alloc::Global;

// What a store is made with: its folder and options, and the greatest number of a name or in a
// manifest there.
#[derive(Drop)]
pub(super) struct RepairPlan<'a, C: UserCmp + Copy + Drop, FP: FilterPolicy + Copy + Drop> {
    pub(super) alloc: Global,
    pub(super) store: &'a str,
    pub(super) options: &'a Options<C, FP>,
    pub(super) greatest: FileNum,
}

// Makes a store of all pairs of these walks. Nothing is written where two of one key differ.
pub(super) fn restore_walks<
    E: Env,
    C: UserCmp + Copy + Drop,
    FP: FilterPolicy + Copy + Drop,
    K: ReadsFound<E, C>,
    M: LdbIterator + Drop,
>(
    env: &mut E,
    files: &mut ReadFiles<'_, K>,
    children: Vec<FoundWalk<FoundTable<E, C>, M>>,
    versions: &mut VersionSet<E, C>,
    plan: &RepairPlan<'_, C, FP>,
) -> Result<()>
    requires { versions.old.set.next_file ≡ plan.now.greatest + 2 }
    ensures { let choices = choices_of C.Cmp FP.FilterPolicy ⟦<InternalKeyCmp<C> as Cmp>⟧
        ⟦<InternalFilterPolicy<FP> as FilterPolicy>⟧ ⟦<CompressorList as Compressors>⟧.codings
        plan.now.options.now in
        AreOverFound choices E.Env K.codings M.LdbIterator plan.now.store.now plan.now.greatest
        (env.old, files.old) children.items
        → RepairsStore choices E.Env plan.now.store.now env.old result env.new }
{
    let mut merge = MergeCore::new::<E, ReadFiles<'_, K>>(
        InternalKeyCmp(plan.options.cmp),
        children,
    );
    restore(env, files, &mut merge, versions, plan)
}

// Makes a store of all pairs of a walk, which it looks over first. Where two of one key differ the
// error names their files.
fn restore<E: Env, T, W: Walk<E, T>, C: UserCmp + Copy + Drop, FP: FilterPolicy + Copy + Drop>(
    env: &mut E,
    tables: &mut T,
    walk: &mut W,
    versions: &mut VersionSet<E, C>,
    plan: &RepairPlan<'_, C, FP>,
) -> Result<()>
    requires { versions.old.set.next_file ≡ plan.now.greatest + 2 }
    ensures { let choices = choices_of C.Cmp FP.FilterPolicy ⟦<InternalKeyCmp<C> as Cmp>⟧
        ⟦<InternalFilterPolicy<FP> as FilterPolicy>⟧ ⟦<CompressorList as Compressors>⟧.codings
        plan.now.options.now in
        IsOverFound choices E.Env plan.now.store.now plan.now.greatest W.Walk
        (env.old, tables.old) walk.old
        → RepairsStore choices E.Env plan.now.store.now env.old result env.new }
{
    match look_over(plan.alloc, env, tables, walk) {
        Ok(found) => write_store(env, tables, walk, versions, plan, found),
        Err(status) => Err(with_names(env, plan, status)),
    }
}

// Writes all pairs of a walk to tables, and then a manifest that names them. The pairs were looked
// over.
fn write_store<E: Env, T, W: Walk<E, T>, C: UserCmp + Copy + Drop, FP: FilterPolicy + Copy + Drop>(
    env: &mut E,
    tables: &mut T,
    walk: &mut W,
    versions: &mut VersionSet<E, C>,
    plan: &RepairPlan<'_, C, FP>,
    found: LookedOver,
) -> Result<()>
    requires { versions.old.set.next_file ≡ plan.now.greatest + 2 }
    ensures { let choices = choices_of C.Cmp FP.FilterPolicy ⟦<InternalKeyCmp<C> as Cmp>⟧
        ⟦<InternalFilterPolicy<FP> as FilterPolicy>⟧ ⟦<CompressorList as Compressors>⟧.codings
        plan.now.options.now in
        (from : E) → LeavesFiles E.Env from env.old
        → IsOverAll choices E.Env plan.now.store.now plan.now.greatest W.Walk
        (env.old, tables.old) walk.old from found
        → RepairsStore choices E.Env plan.now.store.now from result env.new }
{
    let (alloc, store) = (plan.alloc, plan.store);
    let made = write_found(alloc, env, tables, walk, versions, store, plan.options)?;
    let next = versions.next_file_num();
    if next == FileNum::MAX {
        return err(
            alloc,
            StatusCode::NotSupported,
            "the numbers of files are used up",
        );
    }
    let edit = edit_of_tables(alloc, plan.options.cmp.id(), next, found.last, made)?;
    make_manifest_of(alloc, env, store, plan.greatest + 1, &edit)
}

// The edit of a manifest of these tables: its comparator has this name, and the next number is the
// next log's.
fn edit_of_tables(
    alloc: Global,
    comparator: &str,
    next: FileNum,
    last: SequenceNumber,
    tables: Vec<FileMetaData>,
) -> Result<VersionEdit>
    requires { next + 1 < 2 ^ 64 }
    ensures ok { IfOk result (λ edit. edit_of edit
        ≡ repaired_edit comparator.now next last (files_of_level_one tables.items)) }
    ensures memory { IfErr result IsOutOfMemory }
{
    let mut edit = edit_without_tables(alloc, comparator, next, last)?;
    for table in tables {
        edit.add_file(1, table)?;
    }
    Ok(edit)
}

// The same without a table.
fn edit_without_tables(
    alloc: Global,
    comparator: &str,
    next: FileNum,
    last: SequenceNumber,
) -> Result<VersionEdit>
    requires { next + 1 < 2 ^ 64 }
    ensures ok { IfOk result (λ edit. edit_of edit ≡ repaired_edit comparator.now next last []) }
    ensures memory { IfErr result IsOutOfMemory }
{
    let mut edit = VersionEdit::new(alloc);
    edit.set_comparator_name(comparator)?;
    edit.set_log_num(next);
    edit.set_prev_log_num(0);
    edit.set_next_file(next + 1);
    edit.set_last_seq(last);
    Ok(edit)
}
