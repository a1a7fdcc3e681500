//! The table of the immutable memtable (`imm`), and its edit.
// LevelDB: db/db_impl.cc, DBImpl::CompactMemTable and WriteLevel0Table
ghost use Rattle.std.specs.Prelude.{◌≡◌, ◌≢◌, ◌<◌, ◌≤◌, None, IsTrue, OnErr, OnOk, map};
ghost use Rattle.leveldb_base.specs.Entries.{internal_pair};
ghost use Rattle.leveldb_base.specs.History.{AreRising};
ghost use Rattle.leveldb_base.specs.KeyTypes.{internal_cmp};
ghost use Rattle.leveldb_env.specs.Env.{SameLocks};
ghost use Rattle.leveldb_files.specs.Stores.Batches.{Each};
ghost use Rattle.leveldb_version.specs.Versions.Change.{IsVersionAfter};
ghost use Rattle.leveldb_version.specs.Edits.FullEdit.{files_after, files_with};
ghost use Rattle.leveldb_version_set.specs.Sets.CurrentVersion.{IsCurrent};
ghost use Rattle.leveldb_version_set.specs.Sets.LogEdit.{AppendsEdit, WritesBytes};
ghost use Rattle.leveldb_files.specs.Levels.Overlap.{file_range, output_level};
ghost use Rattle.leveldb_files.specs.Stores.Store.{IsInternalPair};
ghost use Rattle.leveldb_files.specs.Edits.Edit.{LevelsFit};
ghost use Rattle.leveldb_version.specs.Edits.VersionEdit.{edit_of, new_file_of};
ghost use Rattle.leveldb_version_set.specs.Sets.VersionSetValue.{OpenManifest, broken, in_use};
ghost use Rattle.leveldb_version_set.specs.Engines.Writing.{table_edit};
ghost use Rattle.leveldb_store.specs.Tables.BuildTable.{MakesTable, choices_of};
ghost use Rattle.leveldb_files.specs.Stores.Format.{Agrees, Meaning, format_of};
ghost use Rattle.leveldb_store.specs.Keeping.KeptEntries.{AddsTableOf};
ghost use Rattle.leveldb_store.specs.Keeping.OpenStore.{AreInLevels, AreNumbersGiven};
ghost use Rattle.leveldb_store.specs.Writing.RoomSteps.{AddsNone};
ghost use Rattle.leveldb_store.specs.Keeping.SoundCall.{IsSoundCall};
ghost use Rattle.leveldb_store.specs.Writing.Switch.{WritesLevel0Table};
ghost use Rattle.leveldb_store.specs.Keeping.Written.{KeepsWritten, imm_entries};

use super::OpenStore;
use crate::build::build_memtable;
use leveldb_base::cmp::{Cmp, InternalKeyCmp, UserCmp};
use leveldb_base::error::{Result, StatusCode, err};
use leveldb_base::key_types::split_sequence;
use leveldb_base::types::{FileMetaData, FileNum};
use leveldb_env::compressor::{CompressorList, Compressors};
use leveldb_env::env::Env;
use leveldb_env::filter::{FilterPolicy, InternalFilterPolicy};
use leveldb_env::options::Options;
use leveldb_version::version_edit::VersionEdit;

impl<E: Env, C: UserCmp + Copy + Drop> OpenStore<E, C> {
    /// Makes a table of the immutable memtable, and logs it in the level that a version picks for
    /// it: then the logs that had its entries aren't needed any more. Returns `IOError`, and does
    /// nothing, if a call on the manifest failed before.
    pub fn write_level0_table<FP: FilterPolicy + Copy + Drop>(
        &mut self,
        env: &mut E,
        options: &Options<C, FP>,
    ) -> Result<()>
        requires waits { self.old.imm ≢ None }
        requires order { C.cmp options.now.cmp ≡ C.cmp self.old.cmp }
        ensures tables { WritesLevel0Table E.Env self.old env.old (choices_of C.Cmp FP.FilterPolicy
            ⟦<InternalKeyCmp<C> as Cmp>⟧ ⟦<InternalFilterPolicy<FP> as FilterPolicy>⟧
            ⟦<CompressorList as Compressors>⟧.codings options.now)
            (map internal_pair (imm_entries self.old.imm)) result self.new env.new }
        ensures keeps { IsTrue E.models_disk → (meaning : Meaning)
            → Agrees (format_of C.Cmp FP.FilterPolicy
            ⟦<CompressorList as Compressors>⟧.codings options.now) meaning
            → KeepsWritten (C.cmp self.old.cmp) meaning self.old (E.observed env.old) self.new
            (E.observed env.new) }
        ensures sound { IsSoundCall E.Env (C.cmp self.old.cmp) (Agrees (format_of C.Cmp
            FP.FilterPolicy ⟦<CompressorList as Compressors>⟧.codings options.now)) self.old
            env.old result self.new env.new }
        ensures none_new { let format = format_of C.Cmp FP.FilterPolicy
            ⟦<CompressorList as Compressors>⟧.codings options.now in OnOk result
            (AddsNone E.Env (C.cmp self.old.cmp) format self.old env.old self.new env.new) }
        ensures added { let format = format_of C.Cmp FP.FilterPolicy
            ⟦<CompressorList as Compressors>⟧.codings options.now in OnOk result
            (AddsTableOf E.Env format (imm_entries self.old.imm) self.old.set self.new.set
            env.new) }
    {
        if self.versions.is_broken() {
            return err(self.alloc, StatusCode::IOError, "reopen the store");
        }
        let number = self.versions.new_file_number()?;
        let file = self.build_imm_table(env, options, number)?;
        let level = self.level_for(&file);
        self.log_table(env, level, file)?;
        self.imm = None;
        Ok(())
    }

    // Makes the table of the immutable memtable, under this number.
    fn build_imm_table<FP: FilterPolicy + Copy + Drop>(
        &self,
        env: &mut E,
        options: &Options<C, FP>,
        number: FileNum,
    ) -> Result<FileMetaData>
        requires waits { self.now.imm ≢ None }
        requires order { C.cmp options.now.cmp ≡ C.cmp self.now.cmp }
        ensures makes { MakesTable (choices_of C.Cmp FP.FilterPolicy
            ⟦<InternalKeyCmp<C> as Cmp>⟧ ⟦<InternalFilterPolicy<FP> as FilterPolicy>⟧
            ⟦<CompressorList as Compressors>⟧.codings options.now)
            (map internal_pair (imm_entries self.now.imm)) E.Env (λ status. ⊥)
            self.now.set.store number env.old result env.new }
        ensures entries { Each IsInternalPair
            (map internal_pair (imm_entries self.now.imm))
            (imm_entries self.now.imm) }
        ensures rising { AreRising (internal_cmp (C.cmp options.now.cmp))
            (map internal_pair (imm_entries self.now.imm)) }
    {
        let Some(imm) = &self.imm else { unreachable!() };
        build_memtable(self.alloc, env, &self.name, options, imm, number)
    }

    // The level for a new table whose entries are newer than those of all others.
    fn level_for(&self, file: &FileMetaData) -> usize
        ensures level { result ≡ output_level (C.cmp self.now.cmp)
            (file_range (new_file_of (result, file.now))) self.now.set.full.added }
        ensures deepest { result ≤ 2 }
    {
        let (smallest, _) = split_sequence(&file.smallest);
        let (largest, _) = split_sequence(&file.largest);
        self.versions
            .current()
            .pick_memtable_output_level(smallest, largest)
    }

    // Logs the edit of a table in a level, which takes the place of the logs below the one to which
    // batches are appended.
    fn log_table(&mut self, env: &mut E, level: usize, file: FileMetaData) -> Result<()>
        requires level { level < 7 }
        requires usable { self.old.set.manifest ≢ broken }
        requires given { file.num < self.old.set.next_file }
        requires levels { AreInLevels E.models_disk (C.cmp self.old.cmp)
            (files_with self.old.set.full.added (new_file_of (level, file))) }
        ensures logs { (manifest : OpenManifest) → self.old.set.manifest ≡ in_use manifest
            → AppendsEdit E.models_disk manifest self.old.set
            (table_edit self.old.log.number (new_file_of (level, file))) (E.observed env.old)
            (E.failures env.old) result self.new.set (E.observed env.new) (E.failures env.new) }
        ensures rest { self.new
            ≡ record self.old { set = self.new.set; current = self.new.current } }
        ensures current { OnOk result (IsVersionAfter (C.cmp self.old.cmp)
            (table_edit self.old.log.number (new_file_of (level, file))) self.old.current
            self.new.current) }
        ensures err { OnErr result (self.new ≡ record self.old { set = self.new.set }) }
        ensures locks { SameLocks E.models_disk (E.observed env.old) (E.observed env.new) }
    {
        let mut edit = VersionEdit::new(self.alloc);
        edit.set_log_num(self.log.number);
        edit.add_file(level, file)?;
        self.log_tables(env, edit)
    }

    // Logs an edit, and has the version that it leaves from then on. The numbers of the files that
    // it adds were given, and the levels are apart after it, where the version has the set's files.
    // After an Err the version is as it was.
    pub(super) fn log_tables(&mut self, env: &mut E, edit: VersionEdit) -> Result<()>
        requires usable { self.old.set.manifest ≢ broken }
        requires fits { LevelsFit (edit_of edit) }
        requires given { AreNumbersGiven self.old.set (edit_of edit).added }
        requires levels { IsCurrent (C.cmp self.old.cmp) self.old.cmp self.old.set self.old.current
            → AreInLevels E.models_disk (C.cmp self.old.cmp)
            (files_after (edit_of edit) self.old.set.full.added) }
        ensures logs { (manifest : OpenManifest) → self.old.set.manifest ≡ in_use manifest
            → AppendsEdit E.models_disk manifest self.old.set (edit_of edit) (E.observed env.old)
            (E.failures env.old) result self.new.set (E.observed env.new) (E.failures env.new) }
        ensures bytes { (manifest : OpenManifest) → self.old.set.manifest ≡ in_use manifest
            → WritesBytes E.models_disk self.old.set (edit_of edit) (E.observed env.old) result
            (E.observed env.new) }
        ensures rest { self.new
            ≡ record self.old { set = self.new.set; current = self.new.current } }
        ensures current { OnOk result (IsVersionAfter (C.cmp self.old.cmp) (edit_of edit)
            self.old.current self.new.current) }
        ensures err { OnErr result (self.new ≡ record self.old { set = self.new.set }) }
        ensures locks { SameLocks E.models_disk (E.observed env.old) (E.observed env.new) }
    {
        self.versions.log_and_apply(env, edit)
    }
}
