//! One compaction of an open store: other files take the place of those that it takes, and its edit
//! is logged.
// LevelDB: db/db_impl.cc, DBImpl::BackgroundCompaction
ghost use Rattle.std.specs.Prelude.{◌≡◌, ◌++◌, IfErr, IfOk, IfSome, None, Option, OnOk, is_some, map};
ghost use Rattle.leveldb_base.specs.Error.{IsOutOfMemory};
ghost use Rattle.leveldb_files.specs.Stores.Format.{format_of};
ghost use Rattle.leveldb_version_set.specs.Compactions.Picking.{CompactionValue, IsAskedByReads, IsCompactionOf};
ghost use Rattle.leveldb_version.specs.Tables.TableCache.{table_options};
ghost use Rattle.leveldb_store.specs.Tables.BuildTable.{choices_of};
ghost use Rattle.leveldb_store.specs.Compactions.Compact.{CompactsIfAsked, CompactsStore, CompactsTables, LogsPicked};
ghost use Rattle.leveldb_store.specs.Compactions.CompactPicked.{CompactsPicked, CompactsWithoutLoss};
ghost use Rattle.leveldb_store.specs.Keeping.OpenStore.{IsUnbroken};
ghost use Rattle.leveldb_store.specs.Writing.Removal.{EndsByRemoval, but_removal};

use super::{OpenStore, Removal};
use leveldb_base::cmp::{Cmp, InternalKeyCmp, UserCmp};
use leveldb_base::error::Result;
use leveldb_base::types::{FileMetaData, SequenceNumber};
use leveldb_env::compressor::{CompressorList, Compressors};
use leveldb_env::env::Env;
use leveldb_env::filter::{FilterPolicy, InternalFilterPolicy};
use leveldb_env::infolog::Logger;
use leveldb_env::options::Options;
use leveldb_version::table_cache::TableCache;
use leveldb_version::version_edit::VersionEdit;
use leveldb_version_set::compaction::Compaction;

impl<E: Env, C: UserCmp + Copy + Drop> OpenStore<E, C> {
    /// Does the compaction for which the current version asks, by the score of a level or else by
    /// reads, if it asks for one, and deletes the files that are obsolete then; what fails of that
    /// is a line for `log`. An Ok has what the removal returned, if there was one. Entries that are
    /// shadowed at `smallest`, the smallest number at which the store is read, may go, and
    /// deletions up to it that no deeper level needs. There is no immutable memtable.
    ///
    /// After an Err the tables are those that they were, no file has lost a byte, and the next call
    /// tries again, unless the store broke.
    pub fn compact_if_asked<FP: FilterPolicy + Copy + Drop>(
        &mut self,
        env: &mut E,
        options: &Options<C, FP>,
        tables: &mut TableCache<E, C, FP>,
        smallest: SequenceNumber,
        log: &mut Option<Logger>,
    ) -> Result<Removal>
        requires usable { IsUnbroken self.old }
        requires order { C.cmp options.now.cmp ≡ C.cmp self.old.cmp }
        requires none_waits { self.old.imm ≡ None }
        ensures compacts { let choices = choices_of C.Cmp FP.FilterPolicy
            ⟦<InternalKeyCmp<C> as Cmp>⟧ ⟦<InternalFilterPolicy<FP> as FilterPolicy>⟧
            ⟦<CompressorList as Compressors>⟧.codings options.now in
            CompactsTables ⟦<InternalKeyCmp<C> as Cmp>⟧ E.Env
            (table_options choices.format options.now) self.old env.old tables.old choices smallest
            (but_removal result) self.new env.new tables.new }
        ensures asked { CompactsIfAsked (C.cmp self.old.cmp) options.now.max_file_size self.old
            (but_removal result) self.new }
        ensures keeps { CompactsWithoutLoss E.Env (C.cmp self.old.cmp) self.old env.old
            (but_removal result) self.new env.new }
        ensures removes { IfOk result (λ removal.
            EndsByRemoval E.Env env.old self.old removal self.new env.new) }
        ensures log { is_some log.new ≡ is_some log.old }
    {
        let picked = self.versions.pick_compaction(options)?;
        self.compact_picked(env, options, tables, smallest, log, picked)
    }

    // Does the compaction for which reads ask, if they ask for one, and deletes the files that are
    // obsolete then, as `compact_if_asked`.
    pub(super) fn compact_by_reads<FP: FilterPolicy + Copy + Drop>(
        &mut self,
        env: &mut E,
        options: &Options<C, FP>,
        tables: &mut TableCache<E, C, FP>,
        smallest: SequenceNumber,
        log: &mut Option<Logger>,
    ) -> Result<Removal>
        requires usable { IsUnbroken self.old }
        requires order { C.cmp options.now.cmp ≡ C.cmp self.old.cmp }
        requires none_waits { self.old.imm ≡ None }
        ensures compacts { let choices = choices_of C.Cmp FP.FilterPolicy
            ⟦<InternalKeyCmp<C> as Cmp>⟧ ⟦<InternalFilterPolicy<FP> as FilterPolicy>⟧
            ⟦<CompressorList as Compressors>⟧.codings options.now in
            CompactsTables ⟦<InternalKeyCmp<C> as Cmp>⟧ E.Env
            (table_options choices.format options.now) self.old env.old tables.old choices smallest
            (but_removal result) self.new env.new tables.new }
        ensures asked { OnOk result ((picked : Option (CompactionValue C))
            × IsAskedByReads (C.cmp self.old.cmp) self.old.current options.now.max_file_size picked
            × LogsPicked (C.cmp self.old.cmp) picked self.old self.new) }
        ensures keeps { CompactsWithoutLoss E.Env (C.cmp self.old.cmp) self.old env.old
            (but_removal result) self.new env.new }
        ensures removes { IfOk result (λ removal.
            EndsByRemoval E.Env env.old self.old removal self.new env.new) }
        ensures log { is_some log.new ≡ is_some log.old }
    {
        let picked = self.versions.compaction_by_reads(options)?;
        self.compact_picked(env, options, tables, smallest, log, picked)
    }

    // Does a compaction of the current version, if there is one, and deletes the files that are
    // obsolete then.
    pub(super) fn compact_picked<FP: FilterPolicy + Copy + Drop>(
        &mut self,
        env: &mut E,
        options: &Options<C, FP>,
        tables: &mut TableCache<E, C, FP>,
        smallest: SequenceNumber,
        log: &mut Option<Logger>,
        picked: Option<Compaction<C>>,
    ) -> Result<Removal>
        requires usable { IsUnbroken self.old }
        requires order { C.cmp options.now.cmp ≡ C.cmp self.old.cmp }
        requires none_waits { self.old.imm ≡ None }
        requires chosen { IfSome picked (λ it. IsCompactionOf (C.cmp self.old.cmp) self.old.current
            it.manual options.now.max_file_size it) }
        ensures compacts { let choices = choices_of C.Cmp FP.FilterPolicy
            ⟦<InternalKeyCmp<C> as Cmp>⟧ ⟦<InternalFilterPolicy<FP> as FilterPolicy>⟧
            ⟦<CompressorList as Compressors>⟧.codings options.now in
            CompactsTables ⟦<InternalKeyCmp<C> as Cmp>⟧ E.Env
            (table_options choices.format options.now) self.old env.old tables.old choices smallest
            (but_removal result) self.new env.new tables.new }
        ensures does { CompactsPicked (C.cmp self.old.cmp) picked self.old env.old tables.old
            (but_removal result) self.new env.new tables.new }
        ensures keeps { CompactsWithoutLoss E.Env (C.cmp self.old.cmp) self.old env.old
            (but_removal result) self.new env.new }
        ensures removes { IfOk result (λ removal.
            EndsByRemoval E.Env env.old self.old removal self.new env.new) }
        ensures log { is_some log.new ≡ is_some log.old }
    {
        let Some(compaction) = picked else {
            return Ok(None);
        };
        self.compact(env, options, tables, smallest, compaction)?;
        Ok(Some(self.tidy_up(env, tables, log)))
    }

    // Does a compaction of the current version: its edit is logged once the tables are synced that
    // take the place of those that it takes. Entries that are shadowed at `smallest`, the smallest
    // number at which the store is read, may go, and deletions up to it that no deeper level needs.
    // There is no immutable memtable.
    //
    // After an Err the tables are those that they were, and the next call tries again, unless the
    // store broke.
    fn compact<FP: FilterPolicy + Copy + Drop>(
        &mut self,
        env: &mut E,
        options: &Options<C, FP>,
        tables: &mut TableCache<E, C, FP>,
        smallest: SequenceNumber,
        compaction: Compaction<C>,
    ) -> Result<()>
        requires usable { IsUnbroken self.old }
        requires order { C.cmp options.now.cmp ≡ C.cmp self.old.cmp }
        requires none_waits { self.old.imm ≡ None }
        requires chosen { IsCompactionOf (C.cmp self.old.cmp) self.old.current compaction.manual
            options.now.max_file_size compaction }
        ensures compacts { let choices = choices_of C.Cmp FP.FilterPolicy
            ⟦<InternalKeyCmp<C> as Cmp>⟧ ⟦<InternalFilterPolicy<FP> as FilterPolicy>⟧
            ⟦<CompressorList as Compressors>⟧.codings options.now in
            CompactsStore ⟦<InternalKeyCmp<C> as Cmp>⟧ E.Env
            (table_options choices.format options.now) self.old env.old tables.old choices smallest
            compaction result self.new env.new tables.new }
    {
        let level = compaction.level() + 1;
        let made = self.replacements(env, options, tables, smallest, &compaction)?;
        let mut compaction = compaction;
        compaction.add_input_deletions()?;
        let mut edit = compaction.into_edit();
        edit.set_log_num(self.log.number);
        add_files(&mut edit, level, made)?;
        self.log_tables(env, edit)
    }
}

// Adds files of a level to an edit.
fn add_files(edit: &mut VersionEdit, level: usize, files: Vec<FileMetaData>) -> Result<()>
    ensures ok { OnOk result (edit.new.new_files.items
        ≡ edit.old.new_files.items ++ map (λ file. (level, file)) files.items) }
    ensures others { edit.new ≡ record edit.old { new_files = edit.new.new_files } }
    ensures memory { IfErr result IsOutOfMemory }
{
    for file in files {
        edit.add_file(level, file)?;
    }
    Ok(())
}
