//! Recovering a version set from the manifest that `CURRENT` names.
// LevelDB: db/version_set.cc, VersionSet::Recover
ghost use Rattle.std.specs.Prelude.{◌≡◌, ◌<◌, ◌+◌, ◌^◌, ◌↔◌, if◌then◌else◌, is_some, IfOk, IfSome, IsSome, IsTrue, OnOk, string_bytes};
ghost use Rattle.leveldb_version_set.specs.Sets.CurrentFile.{IsCurrentUnread};
ghost use Rattle.leveldb_version.specs.Edits.VersionEdit.{edit_of};
ghost use Rattle.leveldb_base.specs.Error.{IsOutOfMemory};
ghost use Rattle.leveldb_env.specs.Env.{BeforeOrAfter, ChangesFiles, FilesUnchanged, HasCause, Run, SameLocks, synced};
ghost use Rattle.leveldb_mem.specs.Log.{bad, clean};
ghost use Rattle.leveldb_version_set.specs.Sets.Recover.{ReadSetResult, RecoverResult, WhyUnrecovered};
ghost use Rattle.leveldb_version_set.specs.Sets.RecoverSteps.{AppliesPlan, IsFileUnread, IsManifestAt, IsRecoveryPlan, IsSizedReplay, set_installed};

use super::current_file::read_current_file;
use super::live_files::LiveFiles;
use super::replay::{Replayed, replay_file};
use super::usable::{check_usable, next_number_after};
use leveldb_base::cmp::Cmp;
use leveldb_base::error::Result;
use leveldb_base::types::FileNum;
use leveldb_env::env::Env;
use leveldb_env::env::whole_files::found;
use leveldb_env::options::Options;
use leveldb_mem::log::{LogFile, WriterCore};
use std::alloc::Global;

/// What a set is to become by a manifest that was read: where that is, what its edits leave, and
/// whether it goes on to be used.
#[derive(Drop)]
pub(super) struct RecoveryPlan {
    path: String,
    number: FileNum,
    size: usize,
    reuses: bool,
    pub(super) left: Replayed,
    next_file: FileNum,
}

impl<E: Env> LiveFiles<E> {
    /// Makes it the set that the manifest leaves which `CURRENT` names. Returns whether the next
    /// edit begins a new manifest: this one is used on, and synced, where the options say so, its
    /// end is clean and it is below the greatest size of a table.
    /// Fails where a store can't begin with its edits, and then nothing has changed.
    pub fn recover<C: Cmp, FP>(&mut self, env: &mut E, options: &Options<C, FP>) -> Result<bool>
        ensures { RecoverResult E.models_disk (C.cmp options.now.cmp) (C.name options.now.cmp)
            options.now.reuse_manifest options.now.max_file_size
            self.old (E.observed env.old) (E.failures env.old)
            result self.new (E.observed env.new) (E.failures env.new) }
    {
        let plan = self.plan(env, options)?;
        self.apply_plan(env, plan)
    }

    /// Becomes the set that the manifest leaves which `CURRENT` names, to be read alone: no edit is
    /// logged any more, as if a call on its manifest had failed. No file changes.
    /// Fails where a store can't begin with its edits, and then nothing has changed.
    pub fn read<C: Cmp, FP>(&mut self, env: &mut E, options: &Options<C, FP>) -> Result<()>
        ensures { ReadSetResult E.models_disk (C.cmp options.now.cmp) (C.name options.now.cmp)
            self.old (E.observed env.old) (E.failures env.old)
            result self.new (E.observed env.new) (E.failures env.new) }
    {
        let plan = self.plan(env, options)?;
        self.install(plan, None);
        self.broken = true;
        Ok(())
    }

    /// What the set is to become, by the manifest that `CURRENT` names.
    pub(super) fn plan<C: Cmp, FP>(
        &self,
        env: &mut E,
        options: &Options<C, FP>,
    ) -> Result<RecoveryPlan>
        ensures still { IsTrue E.models_disk
            → Run (FilesUnchanged (E.observed env.old).disk.files) (E.observed env.old)
            (E.observed env.new) }
        ensures locks { SameLocks E.models_disk (E.observed env.old) (E.observed env.new) }
        ensures ok { IfOk result (IsRecoveryPlan E.models_disk (C.cmp options.now.cmp)
            (C.name options.now.cmp) options.now.reuse_manifest options.now.max_file_size
            self.now (E.observed env.old).disk.files) }
        ensures cause { HasCause (WhyUnrecovered E.models_disk (C.cmp options.now.cmp)
            (C.name options.now.cmp) options.now.reuse_manifest options.now.max_file_size
            self.now (E.observed env.old) (E.failures env.old) (E.failures env.new))
            (E.failures env.old) (E.failures env.new) result }
    {
        let (path, number) = named_manifest(self.alloc, env, &self.store)?;
        let (left, is_clean, size) = read_manifest(self.alloc, env, &path)?;
        check_usable(self.alloc, &options.cmp, &left)?;
        let next_file = next_number_after(self.alloc, self.next_file, number, &left)?;
        let reuses = is_reusable(
            options.reuse_manifest,
            options.max_file_size,
            is_clean,
            size,
        );
        Ok(RecoveryPlan {
            path,
            number,
            size,
            reuses,
            left,
            next_file,
        })
    }

    /// Becomes what was planned. Returns whether the next edit begins a new manifest.
    pub(super) fn apply_plan(&mut self, env: &mut E, plan: RecoveryPlan) -> Result<bool>
        requires there { IsTrue E.models_disk
            → IsSome ((E.observed env.old).disk.files (string_bytes plan.path)) }
        requires fits { plan.next_file + 1 < 2 ^ 64 }
        ensures recovers { AppliesPlan E.Env plan self.old env.old result self.new env.new }
        ensures files { OnOk result (self.new.full ≡ edit_of plan.left.full) }
    {
        if plan.reuses {
            let file = reopen(env, &plan)?;
            self.install(plan, Some(file));
            return Ok(false);
        }
        self.install(plan, None);
        Ok(true)
    }

    // Becomes what was planned: with the manifest that was read if this is its file, else with a
    // new one that the next edit begins. It takes no memory.
    fn install(&mut self, plan: RecoveryPlan, file: Option<E::File>)
        requires named { IfSome file (λ file.
            IsTrue E.models_disk → E.name_of file ≡ string_bytes plan.path) }
        requires fits { plan.next_file + 1 < 2 ^ 64 }
        ensures { self.new ≡ set_installed self.old plan (is_some file) }
    {
        let left = plan.left;
        self.full = left.full;
        self.given = None;
        self.last_sequence = left.last_sequence.unwrap_or(0);
        self.log_number = left.log_number.unwrap_or(0);
        self.previous_log = left.previous_log.unwrap_or(0);
        self.manifest = None;
        self.broken = false;
        let Some(file) = file else {
            self.manifest_number = plan.next_file;
            self.next_file = plan.next_file + 1;
            return;
        };
        let writer = WriterCore::new_with_off(self.alloc, plan.size);
        self.manifest_number = plan.number;
        self.next_file = plan.next_file;
        self.manifest = Some(LogFile::new(self.alloc, plan.path, file, writer));
    }
}

// The path and the number of the manifest that `CURRENT` names.
fn named_manifest<E: Env>(alloc: Global, env: &mut E, store: &str) -> Result<(String, FileNum)>
    ensures still { IsTrue E.models_disk
        → Run (FilesUnchanged (E.observed env.old).disk.files) (E.observed env.old)
        (E.observed env.new) }
    ensures locks { SameLocks E.models_disk (E.observed env.old) (E.observed env.new) }
    ensures ok { IfOk result (λ found. IsManifestAt E.models_disk store.now
        (E.observed env.old).disk.files (string_bytes found.0) found.1) }
    ensures cause { HasCause (IsCurrentUnread E.models_disk store.now (E.observed env.old)
        (E.failures env.old) (E.failures env.new))
        (E.failures env.old) (E.failures env.new) result }
{
    let (name, number) = read_current_file(alloc, env, store)?;
    let path = format!(in alloc; "{store}/{name}")?;
    Ok((path, number))
}

// What the records of a manifest's file leave, whether it ends between two of them, and its size.
fn read_manifest<E: Env>(alloc: Global, env: &mut E, path: &str) -> Result<(Replayed, bool, usize)>
    ensures still { IsTrue E.models_disk
        → Run (FilesUnchanged (E.observed env.old).disk.files) (E.observed env.old)
        (E.observed env.new) }
    ensures locks { SameLocks E.models_disk (E.observed env.old) (E.observed env.new) }
    ensures ok { IfOk result (λ found. IsSizedReplay E.models_disk
        ((E.observed env.old).disk.files path.now) found.0
        (if found.1 then clean else bad) found.2) }
    ensures cause { HasCause (IsFileUnread E.models_disk path.now (E.observed env.old)
        (E.failures env.old) (E.failures env.new))
        (E.failures env.old) (E.failures env.new) result }
{
    let (left, is_clean) = found(alloc, path, replay_file(alloc, env, path))?;
    let size = found(alloc, path, env.size_of(path))?;
    Ok((left, is_clean, size))
}

// Whether a manifest goes on to be used.
fn is_reusable(reuse: bool, limit: usize, is_clean: bool, size: usize) -> bool
    ensures { IsTrue result ↔ (IsTrue reuse × IsTrue is_clean × (size < limit)) }
{
    reuse && is_clean && size < limit
}

// Opens the manifest that was read, which is there, to be appended to, with all its bytes kept.
fn reopen<E: Env>(env: &mut E, plan: &RecoveryPlan) -> Result<E::File>
    requires { IsTrue E.models_disk
        → IsSome ((E.observed env.old).disk.files (string_bytes plan.now.path)) }
    ensures does { IsTrue E.models_disk
        → ChangesFiles E.models_disk (synced (string_bytes plan.now.path))
        (BeforeOrAfter (synced (string_bytes plan.now.path)))
        (E.observed env.old) (E.observed env.new) result }
    ensures locks { SameLocks E.models_disk (E.observed env.old) (E.observed env.new) }
    ensures named { IfOk result (λ file.
        IsTrue E.models_disk → E.name_of file ≡ string_bytes plan.now.path) }
    ensures cause { HasCause IsOutOfMemory (E.failures env.old) (E.failures env.new) result }
{
    let mut file = env.open_appendable_file(&plan.path)?;
    env.sync(&mut file)?;
    Ok(file)
}
