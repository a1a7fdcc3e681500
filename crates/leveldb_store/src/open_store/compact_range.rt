//! Compactions of a range of keys.
// LevelDB: db/db_impl.cc, DBImpl::CompactRange
ghost use Rattle.std.specs.Prelude.{◌≡◌, ◌<◌, [], IfErr, IfOk, IfSome, None, OnOk, false, is_some, true};
ghost use Rattle.leveldb_base.specs.Error.{IsOutOfMemory};
ghost use Rattle.leveldb_base.specs.KeyTypes.{user_part};
ghost use Rattle.leveldb_version_set.specs.Sets.CurrentVersion.{IsCurrent};
ghost use Rattle.leveldb_files.specs.Stores.Format.{format_of};
ghost use Rattle.leveldb_files.specs.Levels.Overlap.{is_overlapped, named_range};
ghost use Rattle.leveldb_version_set.specs.Compactions.Picking.{IsCompactionOf};
ghost use Rattle.leveldb_version.specs.Tables.TableCache.{table_options};
ghost use Rattle.leveldb_store.specs.Tables.BuildTable.{choices_of};
ghost use Rattle.leveldb_store.specs.Compactions.Compact.{CompactsRange, CompactsTables, KeepsLevelsAbove, deepest_overlapped};
ghost use Rattle.leveldb_store.specs.Keeping.KeptEntries.{CompactsInTurn, CompactsMemtables};
ghost use Rattle.leveldb_store.specs.Keeping.OpenStore.{IsUnbroken};
ghost use Rattle.leveldb_store.specs.Writing.Removal.{EndsByRemoval, but_removal};
ghost use Rattle.leveldb_store.specs.Writing.Room.{FailsToMakeRoom};
ghost use Rattle.leveldb_store.specs.Writing.RoomSteps.{IsStepToRoom, MakesTablesOfMemory};

use super::{OpenStore, Removal};
use leveldb_base::cmp::{Cmp, InternalKeyCmp, UserCmp};
use leveldb_base::error::Result;
use leveldb_base::key_types::{InternalKey, LookupKey};
use leveldb_base::types::SequenceNumber;
use leveldb_env::compressor::{CompressorList, Compressors};
use leveldb_env::env::Env;
use leveldb_env::filter::{FilterPolicy, InternalFilterPolicy};
use leveldb_env::infolog::Logger;
use leveldb_env::options::Options;
use leveldb_version::table_cache::TableCache;
use leveldb_version_set::compaction::Compaction;

impl<E: Env, C: UserCmp + Copy + Drop> OpenStore<E, C> {
    /// Makes tables of all that is in memory, does the compaction for which reads ask, if they ask
    /// for one, and compacts the tables of level 0 down to the deepest of levels 1 to 5 of which a
    /// file overlapped the range between two user keys, ends included, when the call began, or to
    /// level 1: then no file of these levels overlaps it. An empty key is an open end. Entries that
    /// are shadowed at `smallest`, the smallest number at which the store is read, may go, and
    /// deletions up to it that no deeper level needs. Obsolete files are deleted after each edit,
    /// and their tables closed; what fails of that is a line for `log`, and an Ok has what the last
    /// of these removals returned.
    ///
    /// After an Err some of this may be done; of a store that is written no entry that is read is
    /// lost. Whatever the files are, each entry that was in memory is there still, or was in a
    /// table before anything was compacted. The next call goes on from there, unless the store
    /// broke.
    pub fn compact_range<FP: FilterPolicy + Copy + Drop>(
        &mut self,
        env: &mut E,
        options: &Options<C, FP>,
        tables: &mut TableCache<E, C, FP>,
        smallest: SequenceNumber,
        log: &mut Option<Logger>,
        from: &[u8],
        to: &[u8],
    ) -> Result<Removal>
        requires usable { IsUnbroken self.old }
        requires order { C.cmp options.now.cmp ≡ C.cmp self.old.cmp }
        ensures compacts { let choices = choices_of C.Cmp FP.FilterPolicy
            ⟦<InternalKeyCmp<C> as Cmp>⟧ ⟦<InternalFilterPolicy<FP> as FilterPolicy>⟧
            ⟦<CompressorList as Compressors>⟧.codings options.now in
            CompactsRange ⟦<InternalKeyCmp<C> as Cmp>⟧ E.Env
            (table_options choices.format options.now) self.old env.old tables.old choices smallest
            (named_range from.now to.now) (but_removal result) self.new env.new tables.new }
        ensures entries { CompactsMemtables E.Env (format_of C.Cmp FP.FilterPolicy
            ⟦<CompressorList as Compressors>⟧.codings options.now) self.old env.old self.new
            env.new }
        ensures removes { IfOk result (λ removal.
            EndsByRemoval E.Env env.old self.old removal self.new env.new) }
        ensures log { is_some log.new ≡ is_some log.old }
    {
        let begin = LookupKey::new(self.alloc, from, 0)?;
        let end = LookupKey::new(self.alloc, to, 0)?;
        let deepest = self.deepest_overlapped(from, to);
        let made = self.compact_memtables(env, options, tables, log)?;
        let read = self.compact_by_reads(env, options, tables, smallest, log)?;
        let mut removal = read.or(made);
        let range = (begin.internal_key(), end.internal_key());
        for level in 0..deepest + 1 {
            let last = self.compact_level(env, options, tables, smallest, log, level, range)?;
            removal = last.or(removal);
        }
        Ok(removal)
    }

    // The deepest of the levels 1 to 5 of which a file overlaps the range, or 1.
    fn deepest_overlapped(&self, from: &[u8], to: &[u8]) -> usize
        ensures deepest { result ≡ deepest_overlapped (C.cmp self.now.cmp)
            (named_range from.now to.now) self.now.set.full.added }
        ensures known { result < 6 }
    {
        let version = self.versions.current();
        let mut deepest = 1;
        for level in 2..6 {
            if version.overlap_in_level(level, from, to) {
                deepest = level;
            }
        }
        deepest
    }

    // Makes tables of the entries of the immutable memtable and of the memtable. An Ok has what the
    // last removal of obsolete files returned.
    fn compact_memtables<FP: FilterPolicy + Copy + Drop>(
        &mut self,
        env: &mut E,
        options: &Options<C, FP>,
        tables: &mut TableCache<E, C, FP>,
        log: &mut Option<Logger>,
    ) -> Result<Removal>
        requires usable { IsUnbroken self.old }
        requires order { C.cmp options.now.cmp ≡ C.cmp self.old.cmp }
        ensures step { let choices = choices_of C.Cmp FP.FilterPolicy
            ⟦<InternalKeyCmp<C> as Cmp>⟧ ⟦<InternalFilterPolicy<FP> as FilterPolicy>⟧
            ⟦<CompressorList as Compressors>⟧.codings options.now in
            IsStepToRoom E.Env (C.cmp self.old.cmp) choices.format
            (FailsToMakeRoom E.Env (C.cmp self.old.cmp) self.old env.old choices)
            self.old env.old (but_removal result) self.new env.new }
        ensures tables { MakesTablesOfMemory E.Env (C.cmp self.old.cmp) (format_of C.Cmp
            FP.FilterPolicy ⟦<CompressorList as Compressors>⟧.codings options.now) 2 self.old
            env.old tables.old (but_removal result) self.new env.new tables.new }
        ensures tables_made { OnOk result
            ((self.new.mem.entries ≡ []) × (self.new.imm ≡ None)) }
        ensures removes { IfOk result (λ removal.
            EndsByRemoval E.Env env.old self.old removal self.new env.new) }
        ensures log { is_some log.new ≡ is_some log.old }
    {
        let removal = self.compact_memtable(env, options, tables, log)?;
        if self.mem.len() == 0 {
            return Ok(removal);
        }
        self.switch_log(env)?;
        self.compact_memtable(env, options, tables, log)
    }

    // Compacts the files of a level that overlap the range between the user keys of two internal
    // keys. Each compaction takes one of them at least, and puts none into the level. An Ok has what
    // the last removal of obsolete files returned.
    fn compact_level<FP: FilterPolicy + Copy + Drop>(
        &mut self,
        env: &mut E,
        options: &Options<C, FP>,
        tables: &mut TableCache<E, C, FP>,
        smallest: SequenceNumber,
        log: &mut Option<Logger>,
        level: usize,
        range: (InternalKey<'_>, InternalKey<'_>),
    ) -> Result<Removal>
        requires level { level < 6 }
        requires usable { IsUnbroken self.old }
        requires order { C.cmp options.now.cmp ≡ C.cmp self.old.cmp }
        requires none_waits { self.old.imm ≡ None }
        ensures compacts { let choices = choices_of C.Cmp FP.FilterPolicy
            ⟦<InternalKeyCmp<C> as Cmp>⟧ ⟦<InternalFilterPolicy<FP> as FilterPolicy>⟧
            ⟦<CompressorList as Compressors>⟧.codings options.now in
            CompactsTables ⟦<InternalKeyCmp<C> as Cmp>⟧ E.Env
            (table_options choices.format options.now) self.old env.old tables.old choices smallest
            (but_removal result) self.new env.new tables.new }
        ensures clear { OnOk result (is_overlapped (C.cmp self.old.cmp) level
            (named_range (user_part range.entry.0.now) (user_part range.entry.1.now))
            self.new.set.full.added ≡ false) }
        ensures above { KeepsLevelsAbove level self.old.set.full.added self.new.set.full.added }
        ensures in_turn { CompactsInTurn E.Env (C.cmp self.old.cmp) self.old env.old self.new
            env.new }
        ensures removes { IfOk result (λ removal.
            EndsByRemoval E.Env env.old self.old removal self.new env.new) }
        ensures log { is_some log.new ≡ is_some log.old }
    {
        let mut removal = None;
        while let Some(picked) = self.picked_in_level(options, level, range)? {
            let last = self.compact_picked(env, options, tables, smallest, log, Some(picked))?;
            removal = last.or(removal);
        }
        Ok(removal)
    }

    // The compaction of the files of a level that overlap the range between the user keys of two
    // internal keys, if there are some.
    fn picked_in_level<FP>(
        &self,
        options: &Options<C, FP>,
        level: usize,
        range: (InternalKey<'_>, InternalKey<'_>),
    ) -> Result<Option<Compaction<C>>>
        requires level { level < 6 }
        ensures each { IfOk result (λ picked. IfSome picked (λ it.
            IsCompactionOf (C.cmp self.now.cmp) self.now.current true options.now.max_file_size it
            × (it.level ≡ level))) }
        ensures some { IfOk result (λ picked. is_some picked
            ≡ is_overlapped (C.cmp self.now.cmp) level
            (named_range (user_part range.entry.0.now) (user_part range.entry.1.now))
            self.now.set.full.added) }
        ensures current { IsCurrent (C.cmp self.now.cmp) self.now.cmp self.now.set
            self.now.current }
        ensures memory { IfErr result IsOutOfMemory }
    {
        if self.versions.current().num_level_files(level) == 0 {
            return Ok(None);
        }
        self.versions
            .compact_range(options, level, range.0, range.1)
    }
}
