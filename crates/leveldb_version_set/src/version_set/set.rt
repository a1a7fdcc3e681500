//! A version set: the live files of a store as its manifest has them, and its current version.
// LevelDB: db/version_set.cc, VersionSet
ghost use Rattle.std.specs.Prelude.{◌≡◌, ◌≢◌, ◌↔◌, ◌+◌, ◌<◌, ◌^◌, Some, map, OnOk, OnErr, IfOk, IfErr, IsTrue, string_bytes};
ghost use Rattle.leveldb_base.specs.Error.{IsOutOfMemory};
ghost use Rattle.leveldb_env.specs.Env.{SameLocks};
ghost use Rattle.leveldb_version.specs.Versions.Change.{IsVersionAfter};
ghost use Rattle.leveldb_version_set.specs.Sets.CurrentVersion.{IsCurrent, new_versions};
ghost use Rattle.leveldb_version_set.specs.Sets.LogEdit.{LogEditResult, WritesBytes};
ghost use Rattle.leveldb_version_set.specs.Sets.Recover.{RecoverResult};
ghost use Rattle.leveldb_files.specs.Levels.Summary.{summary_text};
ghost use Rattle.leveldb_version.specs.Versions.Version.{charged};
ghost use Rattle.leveldb_version.specs.Edits.VersionEdit.{edit_of, new_file_of};
ghost use Rattle.leveldb_version_set.specs.Sets.VersionSetValue.{OpenManifest, with_number_given, with_number_free, with_numbers_used, AreFileNumbersUsedUp, broken, in_use, numbers_in_order};

use super::live_files::LiveFiles;
use super::log_edit::levels_fit;
use leveldb_base::cmp::{Cmp, UserCmp};
use leveldb_base::error::{Result, StatusCode, err};
use leveldb_base::types::{FileMetaData, FileNum, SequenceNumber};
use leveldb_env::env::Env;
use leveldb_env::options::Options;
use leveldb_version::version::{GetStats, Version};
use leveldb_version::version_edit::VersionEdit;
use std::alloc::Global;
use std::collections::BTreeSet;
use std::marker::Model;

/// The live files of a store as the edits of its manifest leave them, and the same files by levels,
/// its current version. The calls that use the disk are given the environment.
#[derive(Drop)]
pub struct VersionSet<E: Env, C: Cmp> {
    pub(super) files: LiveFiles<E>,
    pub(super) current: Version<C>,
}

impl<E: Env, C: Cmp> Model for VersionSet<E, C> {
    ghost use Rattle.leveldb_version_set.specs.Sets.CurrentVersion.{IsCurrent, VersionsValue};

    ghost Value = { VersionsValue C };

    ghost view = { λ it. record { set = it.files; current = it.current } };

    ghost invariant = { λ it. IsCurrent (C.cmp it.current.cmp) it.current.cmp it.files it.current };
}

impl<E: Env, C: UserCmp + Copy + Drop> VersionSet<E, C> {
    /// A version set of no files, for a store under this path with this comparator.
    pub fn new(alloc: Global, store: &str, cmp: &C) -> Result<VersionSet<E, C>>
        ensures ok { IfOk result (λ it. it ≡ new_versions store.now (C.name cmp.now) cmp.now) }
        ensures memory { IfErr result IsOutOfMemory }
    {
        let files = LiveFiles::new(alloc, store, cmp)?;
        let current = Version::new(alloc, *cmp);
        Ok(VersionSet { files, current })
    }

    /// The version set of these files: they get their first seeks, and none of them is chosen for a
    /// compaction.
    pub fn of_files(alloc: Global, cmp: C, live: LiveFiles<E>) -> Result<VersionSet<E, C>>
        ensures set { IfOk result (λ it. it.set ≡ live) }
        ensures cmp { IfOk result (λ it. it.current.cmp ≡ cmp) }
        ensures memory { IfErr result IsOutOfMemory }
    {
        let current = Version::of_files(alloc, cmp, live.files())?;
        Ok(VersionSet {
            files: live,
            current,
        })
    }

    /// Makes it the set that the manifest leaves which `CURRENT` names, with a version of its files
    /// and with the comparator of the options. Returns whether the next edit begins a new manifest,
    /// as `LiveFiles::recover` says. After an Err nothing has changed.
    // LevelDB: VersionSet::Recover
    pub fn recover<FP>(&mut self, env: &mut E, options: &Options<C, FP>) -> Result<bool>
        ensures recovers { RecoverResult E.models_disk (C.cmp options.now.cmp)
            (C.name options.now.cmp) options.now.reuse_manifest options.now.max_file_size
            self.old.set (E.observed env.old) (E.failures env.old)
            result self.new.set (E.observed env.new) (E.failures env.new) }
        ensures cmp { OnOk result (self.new.current.cmp ≡ options.now.cmp) }
        ensures err { OnErr result (self.new ≡ self.old) }
    {
        let plan = self.files.plan(env, options)?;
        let files = plan.left.full.new_files.as_slice();
        let current = Version::of_files(self.files.alloc, options.cmp, files)?;
        let needs_new_manifest = self.files.apply_plan(env, plan)?;
        self.current = current;
        Ok(needs_new_manifest)
    }

    /// Has another version of the same files from now on.
    pub fn add_version(&mut self, version: Version<C>)
        requires { IsCurrent (C.cmp version.cmp) version.cmp self.old.set version }
        ensures { self.new ≡ record self.old { current = version } }
    {
        self.current = version;
    }

    /// Logs an edit with the set's numbers, and then applies it to the files and to the current
    /// version: it is appended to the manifest in use, which is synced, or it begins a new
    /// manifest, which `CURRENT` then names. A call of the environment that fails breaks the set:
    /// from then on every call is `IOError`. Returns `InvalidArgument` if the edit names a level of
    /// 7 or more. After an Err the version is as it was.
    // LevelDB: VersionSet::LogAndApply
    pub fn log_and_apply(&mut self, env: &mut E, edit: VersionEdit) -> Result<()>
        ensures log { LogEditResult E.models_disk self.old.set (edit_of edit) (E.observed env.old)
            (E.failures env.old) result self.new.set (E.observed env.new) (E.failures env.new) }
        ensures bytes { (manifest : OpenManifest) → self.old.set.manifest ≡ in_use manifest
            → WritesBytes E.models_disk self.old.set (edit_of edit) (E.observed env.old) result
            (E.observed env.new) }
        ensures current { IsCurrent (C.cmp self.old.current.cmp) self.old.current.cmp self.old.set
            self.old.current }
        ensures locks { SameLocks E.models_disk (E.observed env.old) (E.observed env.new) }
        ensures ok { OnOk result (IsVersionAfter (C.cmp self.old.current.cmp) (edit_of edit)
            self.old.current self.new.current) }
        ensures err { OnErr result (self.new.current ≡ self.old.current) }
    {
        let alloc = self.files.alloc;
        if self.files.is_broken() {
            return err(alloc, StatusCode::IOError, "reopen the store");
        }
        if !levels_fit(&edit) {
            return err(
                alloc,
                StatusCode::InvalidArgument,
                "an edit names a level that there isn't",
            );
        }
        let next = self.current.with_edit(alloc, &edit)?;
        let edit = self.files.with_numbers(edit);
        self.files.log(env, edit)?;
        self.current = next;
        Ok(())
    }
}

impl<E: Env, C: UserCmp> VersionSet<E, C> {
    /// The current version: it has the live files.
    pub fn current(&self) -> &Version<C>
        ensures version { result.now ≡ self.now.current }
        ensures current { IsCurrent (C.cmp self.now.current.cmp) self.now.current.cmp self.now.set
            self.now.current }
    {
        &self.current
    }

    /// Charges a file of the current version with a seek, as `Version::update_stats` does. Returns
    /// whether that chooses it for a compaction.
    pub fn update_stats(&mut self, stats: GetStats) -> bool
        ensures version { self.new
            ≡ record self.old { current = (charged self.old.current stats.file).0 } }
        ensures chosen { result ≡ (charged self.old.current stats.file).1 }
    {
        self.current.update_stats(stats)
    }

    /// The number that the next file takes.
    pub fn next_file_num(&self) -> FileNum
        ensures { result ≡ self.now.set.next_file }
    {
        self.files.next_file_num()
    }

    /// The number of the manifest, in use or to be made.
    pub fn manifest_num(&self) -> FileNum
        ensures { result ≡ self.now.set.manifest_number }
    {
        self.files.manifest_num()
    }

    /// The greatest number of an entry.
    pub fn last_seq(&self) -> SequenceNumber
        ensures { result ≡ self.now.set.last_sequence }
    {
        self.files.last_seq()
    }

    /// Sets the greatest number of an entry, which the next edit has.
    pub fn set_last_seq(&mut self, num: SequenceNumber)
        ensures { self.new
            ≡ record self.old { set = record self.old.set { last_sequence = num } } }
    {
        self.files.set_last_seq(num);
    }

    /// The number of the log whose changes are in no table yet.
    pub fn log_num(&self) -> FileNum
        ensures { result ≡ self.now.set.log_number }
    {
        self.files.log_num()
    }

    /// The number of the log before it, or 0.
    pub fn prev_log_num(&self) -> FileNum
        ensures { result ≡ self.now.set.previous_log }
    {
        self.files.prev_log_num()
    }

    /// Gives a number for a new file. `NotSupported` if the numbers are used up.
    pub fn new_file_number(&mut self) -> Result<FileNum>
        ensures number { IfOk result (λ n. n ≡ self.old.set.next_file) }
        ensures ok { OnOk result
            (self.new ≡ record self.old { set = with_number_given self.old.set }) }
        ensures fits { OnOk result (self.old.set.next_file + 1 < 2 ^ 64) }
        ensures err { OnErr result (self.new ≡ self.old) }
        ensures cause { IfErr result (AreFileNumbersUsedUp self.old.set.next_file) }
    {
        self.files.new_file_number()
    }

    /// Takes a number back, if it is the one that was given last: it will be given again. No file
    /// may have been made under it.
    pub fn reuse_file_number(&mut self, num: FileNum)
        ensures last { self.old.set.given ≡ Some num
            → self.new ≡ record self.old { set = with_number_free self.old.set num } }
        ensures other { self.old.set.given ≢ Some num → self.new ≡ self.old }
    {
        self.files.reuse_file_number(num);
    }

    /// Makes this number and those below it used, as that of a file that was found.
    /// `NotSupported` if no number is above it.
    pub fn mark_file_number_used(&mut self, num: FileNum) -> Result<()>
        ensures ok { OnOk result
            (self.new ≡ record self.old { set = with_numbers_used self.old.set num }) }
        ensures err { OnErr result (self.new ≡ self.old) }
        ensures cause { IfErr result (AreFileNumbersUsedUp num) }
    {
        self.files.mark_file_number_used(num)
    }

    /// The live files with their levels, in the order in which they were added.
    pub fn files(&self) -> &[(usize, FileMetaData)]
        ensures { map new_file_of result.now ≡ self.now.set.full.added }
    {
        self.files.files()
    }

    /// Whether a call on its manifest failed: then no edit is logged any more.
    pub fn is_broken(&self) -> bool
        ensures { IsTrue result ↔ (self.now.set.manifest ≡ broken) }
    {
        self.files.is_broken()
    }

    /// The numbers of the live files.
    pub fn live_files(&self) -> Result<BTreeSet<FileNum>>
        ensures ok { IfOk result (λ numbers.
            numbers.keys ≡ numbers_in_order self.now.set.full.added) }
        ensures memory { IfErr result IsOutOfMemory }
    {
        self.files.live_files()
    }

    /// Which files each level has, as `level 0: 1 files, 177 bytes ([(5, 177)]); `, for each level
    /// that has some: their numbers and sizes in the order in which they were added.
    pub fn current_summary(&self) -> Result<String>
        ensures ok { IfOk result (λ text.
            string_bytes text ≡ summary_text self.now.set.full.added) }
        ensures memory { IfErr result IsOutOfMemory }
    {
        self.files.current_summary()
    }
}
