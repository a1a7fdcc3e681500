//! The files that take the place of those of a compaction: those of new tables, into which its own
//! are merged, or the one file that it moves.
// LevelDB: db/db_impl.cc, DBImpl::InstallCompactionResults
ghost use Rattle.std.specs.Prelude.{◌≡◌, ◌≢◌, ◌+◌, ◌↔◌, IfSome, IsTrue};
ghost use Rattle.std.specs.declared.cmp.Ordering.TheVariants.{Less};
ghost use Rattle.leveldb_base.specs.KeyTypes.{user_part};
ghost use Rattle.leveldb_env.specs.Env.{AreBytes};
ghost use Rattle.leveldb_version.specs.Versions.DeeperLevels.{is_base_level_for};
ghost use Rattle.leveldb_version_set.specs.Compactions.Contradictions.{is_among_inputs};
ghost use Rattle.leveldb_version_set.specs.Compactions.Cut.{PassesFiles};
ghost use Rattle.leveldb_files.specs.Levels.Summary.{files_of_level};
ghost use Rattle.leveldb_files.specs.Stores.Format.{format_of};
ghost use Rattle.leveldb_version_set.specs.Compactions.Picking.{IsCompactionOf};
ghost use Rattle.leveldb_version.specs.Tables.TableCache.{options_by, table_options};
ghost use Rattle.leveldb_version.specs.Versions.Version.{new_files_of};
ghost use Rattle.leveldb_version.specs.Walks.VersionIter.{reading as reading_by};
ghost use Rattle.leveldb_store.specs.Tables.BuildTable.{choices_of};
ghost use Rattle.leveldb_store.specs.Compactions.Compact.{IsMovedAlone, IsOfStore, MakesReplacements, of_level};

use super::OpenStore;
use crate::merge_inputs::merge_inputs;
use crate::merge_tables::{Cuts, MergePlan, merge_tables};
use crate::passing::MergeLevels;
use leveldb_base::cmp::{Cmp, InternalKeyCmp, UserCmp};
use leveldb_base::error::Result;
use leveldb_base::key_types::split_sequence;
use leveldb_base::types::{FileMetaData, SequenceNumber};
use leveldb_env::compressor::{CompressorList, Compressors};
use leveldb_env::env::Env;
use leveldb_env::filter::{FilterPolicy, InternalFilterPolicy};
use leveldb_env::options::Options;
use leveldb_version::table_cache::{ReadOnce, ReadTables, ReadsTables, TableCache};
use leveldb_version_set::compaction::Compaction;
use leveldb_version_set::compaction::cut::OutputCut;
use std::marker::Model;

impl<E: Env, C: UserCmp + Copy + Drop> OpenStore<E, C> {
    // The files that take the place of those that a compaction of the current version takes: its
    // one file, where that only moves, or those of new tables.
    pub(super) fn replacements<FP: FilterPolicy + Copy + Drop>(
        &mut self,
        env: &mut E,
        options: &Options<C, FP>,
        tables: &mut TableCache<E, C, FP>,
        smallest: SequenceNumber,
        compaction: &Compaction<C>,
    ) -> Result<Vec<FileMetaData>>
        requires order { C.cmp options.now.cmp ≡ C.cmp self.old.cmp }
        requires chosen { IsCompactionOf (C.cmp self.old.cmp) self.old.current compaction.now.manual
            options.now.max_file_size compaction.now }
        ensures makes { let choices = choices_of C.Cmp FP.FilterPolicy
            ⟦<InternalKeyCmp<C> as Cmp>⟧ ⟦<InternalFilterPolicy<FP> as FilterPolicy>⟧
            ⟦<CompressorList as Compressors>⟧.codings options.now in
            MakesReplacements ⟦<InternalKeyCmp<C> as Cmp>⟧ E.Env
            (table_options choices.format options.now) self.old env.old tables.old choices smallest
            compaction.now (λ files. of_level (compaction.now.level + 1) files.items) result
            self.new env.new tables.new }
    {
        // The compaction has a copy of this version.
        let _version = self.versions.current();
        if let Some(file) = self.moved_alone(compaction) {
            let mut files = Vec::new(self.alloc);
            files.push(file.clone()?)?;
            return Ok(files);
        }
        let compressors = ReadOnce(&options.compressor_list);
        self.merge_by(env, options, &compressors, tables, smallest, compaction)
    }

    // The file that a compaction only moves, if it takes that one alone, and it isn't turned round.
    fn moved_alone<'c>(&self, compaction: &'c Compaction<C>) -> Option<&'c FileMetaData>
        requires order { C.cmp compaction.now.version.cmp ≡ C.cmp self.now.cmp }
        ensures alone { IfSome result
            (λ file. IsMovedAlone (C.cmp self.now.cmp) compaction.now file.now) }
    {
        if !compaction.is_trivial_move() {
            return None;
        }
        let (_, file) = compaction.input(0, 0)?;
        if !self.are_in_order(&file.smallest, &file.largest) {
            return None;
        }
        Some(file)
    }

    // Whether the last key of a file isn't of a user key before that of its first one.
    fn are_in_order(&self, first: &[u8], last: &[u8]) -> bool
        ensures order { IsTrue result
            ↔ (C.cmp self.now.cmp (user_part last.now) (user_part first.now) ≢ Less) }
        ensures first { AreBytes first.now }
        ensures last { AreBytes last.now }
    {
        let (low, _) = split_sequence(first);
        let (high, _) = split_sequence(last);
        !self.cmp.cmp(high, low).is_lt()
    }

    // Merges the tables that a compaction takes into new ones, which are read with these
    // compressors: those of the options.
    fn merge_by<FP: FilterPolicy + Copy + Drop, K: ReadsTables<E, C, FP>>(
        &mut self,
        env: &mut E,
        options: &Options<C, FP>,
        compressors: &K,
        tables: &mut TableCache<E, C, FP>,
        smallest: SequenceNumber,
        compaction: &Compaction<C>,
    ) -> Result<Vec<FileMetaData>>
        requires order { C.cmp options.now.cmp ≡ C.cmp self.old.cmp }
        requires known { IsOfStore E.models_disk (C.cmp options.now.cmp) self.old compaction.now }
        requires reads { let format = format_of C.Cmp FP.FilterPolicy
            ⟦<CompressorList as Compressors>⟧.codings options.now in
            options_by C.Cmp FP.FilterPolicy (K.codings compressors.now) options.now.cmp
            options.now.filter_policy ≡ table_options format options.now }
        ensures makes { let choices = choices_of C.Cmp FP.FilterPolicy
            ⟦<InternalKeyCmp<C> as Cmp>⟧ ⟦<InternalFilterPolicy<FP> as FilterPolicy>⟧
            ⟦<CompressorList as Compressors>⟧.codings options.now in
            MakesReplacements ⟦<InternalKeyCmp<C> as Cmp>⟧ E.Env
            (table_options choices.format options.now) self.old env.old tables.old choices smallest
            compaction.now (λ files. of_level (compaction.now.level + 1) files.items) result
            self.new env.new tables.new }
    {
        let mut reading = self.reading(options.cmp, options.filter_policy, compressors, tables);
        let merged = self.merge_in(env, options, &mut reading, smallest, compaction);
        // This gives the open tables back.
        let _tables = reading.cache;
        merged
    }

    // `merge_by`, in these tables.
    fn merge_in<'b, FP: FilterPolicy + Copy + Drop, K: ReadsTables<E, C, FP>>(
        &mut self,
        env: &mut E,
        options: &Options<C, FP>,
        reading: &mut ReadTables<'b, E, C, FP, K>,
        smallest: SequenceNumber,
        compaction: &Compaction<C>,
    ) -> Result<Vec<FileMetaData>>
        requires order { C.cmp options.now.cmp ≡ C.cmp self.old.cmp }
        requires known { IsOfStore E.models_disk (C.cmp options.now.cmp) self.old compaction.now }
        requires reads { let format = format_of C.Cmp FP.FilterPolicy
            ⟦<CompressorList as Compressors>⟧.codings options.now in
            reading_by E.Env C.Cmp FP.FilterPolicy K.codings reading.old
            ≡ table_options format options.now }
        requires below { reading.old.below ≡ self.old.set.next_file }
        ensures makes { let choices = choices_of C.Cmp FP.FilterPolicy
            ⟦<InternalKeyCmp<C> as Cmp>⟧ ⟦<InternalFilterPolicy<FP> as FilterPolicy>⟧
            ⟦<CompressorList as Compressors>⟧.codings options.now in
            MakesReplacements ⟦<InternalKeyCmp<C> as Cmp>⟧ E.Env
            (table_options choices.format options.now) self.old env.old reading.old.cache.now
            choices smallest compaction.now (λ files. of_level (compaction.now.level + 1)
            files.items) result self.new env.new reading.new.cache.now }
        ensures reference { reading.new.cache.ghost_name ≡ reading.old.cache.ghost_name }
    {
        let mut walk = merge_inputs::<E, C, FP, K>(self.alloc, options.cmp, compaction.inputs())?;
        let levels = InputLevels { compaction };
        let mut cuts = InputCuts {
            compaction,
            cut: OutputCut::new(),
        };
        let plan = MergePlan {
            alloc: self.alloc,
            store: &self.name,
            options,
            levels: &levels,
            smallest,
        };
        let versions = &mut self.versions;
        merge_tables(env, reading, &mut walk, versions, &plan, &mut cuts)
    }
}

// What is known of user keys in a compaction: its version's deeper levels, each of which has its
// files apart, and the ranges of the files that it takes.
#[derive(Drop)]
struct InputLevels<'c, C: UserCmp + Copy + Drop> {
    compaction: &'c Compaction<C>,
}

impl<'c, C: UserCmp + Copy + Drop> Model for InputLevels<'c, C> {
    ghost use Rattle.leveldb_version_set.specs.Compactions.Picking.{CompactionValue};
    ghost use Rattle.leveldb_version.specs.Versions.Search.{AreDisjointLevels};
    ghost use Rattle.leveldb_version.specs.Versions.Version.{new_files_of};

    ghost Value = { CompactionValue C };

    ghost view = { λ it. it.compaction.now };

    ghost invariant = { λ it. AreDisjointLevels (C.cmp it.compaction.now.version.cmp)
        (new_files_of it.compaction.now.version) };
}

impl<'c, C: UserCmp + Copy + Drop> MergeLevels for InputLevels<'c, C> {
    ghost is_base = { λ it. is_base_level_for (C.cmp it.version.cmp) (it.level + 1)
        (new_files_of it.version) };

    ghost is_among = { λ it. is_among_inputs (C.cmp it.version.cmp) (new_files_of it.inputs) };

    fn is_base_level_for(&self, user: &[u8]) -> bool {
        self.compaction.is_base_level_for(user)
    }

    fn is_among_inputs(&self, user: &[u8]) -> bool {
        self.compaction.is_among_inputs(user)
    }
}

// Where the new tables of a compaction end.
#[derive(Drop)]
struct InputCuts<'c, C: UserCmp + Copy + Drop> {
    compaction: &'c Compaction<C>,
    cut: OutputCut,
}

impl<'c, C: UserCmp + Copy + Drop> Cuts for InputCuts<'c, C> {
    ghost stops_before = { λ old key told new. let it = old.compaction.now in
        PassesFiles (C.cmp it.version.cmp)
        (files_of_level (it.level + 2) (new_files_of it.version)) it.max_file_size key old.cut told
        new.cut × (new.compaction ≡ old.compaction) };

    fn should_stop_before(&mut self, key: &[u8]) -> bool {
        self.cut.stops_before(self.compaction, key)
    }
}
