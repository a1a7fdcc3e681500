//! Logging an edit: into the manifest in use, or into a new one.
// LevelDB: db/version_set.cc, VersionSet::LogAndApply
ghost use Rattle.std.specs.Prelude.{◌≡◌, ◌≢◌, ◌⊎◌, ◌↔◌, ◌<◌, [], All, Some, true, false, IfOk, IfErr, OnOk, IsTrue};
ghost use Rattle.leveldb_base.specs.Error.{IsOutOfMemory};
ghost use Rattle.leveldb_env.specs.Env.{AreBytes, ChangesFiles, HasCause, SameLocks};
ghost use Rattle.leveldb_env.specs.WholeFiles.{IsLost};
ghost use Rattle.leveldb_mem.specs.Log.Writer.{after_frame, frame};
ghost use Rattle.leveldb_version_set.specs.Sets.LogEdit.{AppendingAndSyncing, AppendsEdit, BeginsManifest, LogEditResult, WritesBytes, with_bytes_kept, written_edit};
ghost use Rattle.leveldb_files.specs.Edits.Edit.{Edit, LevelsFit, edit_bytes};
ghost use Rattle.leveldb_version.specs.Edits.VersionEdit.{edit_of};
ghost use Rattle.leveldb_version_set.specs.Sets.VersionSetValue.{OpenManifest, broken, in_use, unmade};

use super::full_edit::{apply_reserved, reserve};
use super::live_files::LiveFiles;
use super::new_manifest::{frame_records, make_manifest};
use leveldb_base::error::Result;
use leveldb_base::names::manifest_file_name;
use leveldb_env::env::Env;
use leveldb_mem::log::LogFile;
use leveldb_version::version_edit::VersionEdit;

impl<E: Env> LiveFiles<E> {
    /// The edit with the set's numbers.
    pub(super) fn with_numbers(&self, edit: VersionEdit) -> VersionEdit
        ensures { edit_of result ≡ written_edit self.now (edit_of edit) }
    {
        let mut edit = edit;
        edit.log_number = edit.log_number.or(Some(self.log_number));
        edit.prev_log_number = Some(0);
        edit.next_file_number = Some(self.next_file);
        edit.last_seq = Some(self.last_sequence);
        edit
    }

    /// Logs an edit that has the set's numbers, and applies it: it is appended to the manifest in
    /// use, which is synced, or it begins a new manifest, which `CURRENT` then names. A call of the
    /// environment that fails breaks the set, which is not broken before.
    pub(super) fn log(&mut self, env: &mut E, edit: VersionEdit) -> Result<()>
        requires usable { self.old.manifest ≢ broken }
        requires numbered { (edit_of edit).previous_log ≡ Some 0 }
        ensures used { (logged : Edit) → edit_of edit ≡ written_edit self.old logged
            → (manifest : OpenManifest) → self.old.manifest ≡ in_use manifest
            → AppendsEdit E.models_disk manifest self.old logged (E.observed env.old)
            (E.failures env.old) result self.new (E.observed env.new) (E.failures env.new) }
        ensures not_made { (logged : Edit) → edit_of edit ≡ written_edit self.old logged
            → self.old.manifest ≡ unmade
            → BeginsManifest E.models_disk self.old logged (E.observed env.old)
            (E.failures env.old) result self.new (E.observed env.new) (E.failures env.new) }
        ensures bytes { (logged : Edit) → edit_of edit ≡ written_edit self.old logged
            → (manifest : OpenManifest) → self.old.manifest ≡ in_use manifest
            → WritesBytes E.models_disk self.old logged (E.observed env.old) result
            (E.observed env.new) }
        ensures locks { SameLocks E.models_disk (E.observed env.old) (E.observed env.new) }
    {
        let text = edit.encode(self.alloc)?;
        let Some(manifest) = &mut self.manifest else {
            return self.begin_manifest(env, edit, text);
        };
        reserve(&mut self.full, &edit)?;
        let appended = append_record(env, manifest, &text);
        self.broken = manifest.is_broken();
        appended?;
        self.given = None;
        self.log_number = edit.log_number.unwrap_or(self.log_number);
        self.previous_log = 0;
        apply_reserved(&mut self.full, edit);
        Ok(())
    }

    // Begins a manifest with one edit of all that there is and this one, and applies it.
    fn begin_manifest(&mut self, env: &mut E, edit: VersionEdit, text: Vec<u8>) -> Result<()>
        requires unmade { self.old.manifest ≡ unmade }
        requires encoded { text.items ≡ edit_bytes (edit_of edit) }
        ensures begins { (logged : Edit) → edit_of edit ≡ written_edit self.old logged
            → BeginsManifest E.models_disk self.old logged (E.observed env.old)
            (E.failures env.old) result self.new (E.observed env.new) (E.failures env.new) }
        ensures locks { SameLocks E.models_disk (E.observed env.old) (E.observed env.new) }
    {
        reserve(&mut self.full, &edit)?;
        let path = manifest_file_name(self.alloc, &self.store, self.manifest_number)?;
        let records = frame_records(self.alloc, &[self.full.encode(self.alloc)?, text])?;
        let number = self.manifest_number;
        let made = make_manifest(self.alloc, env, &self.store, number, path, records);
        self.broken = made.is_err();
        self.manifest = Some(made?);
        self.given = None;
        self.log_number = edit.log_number.unwrap_or(self.log_number);
        self.previous_log = 0;
        apply_reserved(&mut self.full, edit);
        Ok(())
    }
}

/// Whether each level that the edit names is one of the seven.
pub(super) fn levels_fit(edit: &VersionEdit) -> bool
    ensures { IsTrue result ↔ LevelsFit (edit_of edit.now) }
{
    if !pointers_fit(edit) {
        return false;
    }
    if !deleted_fit(edit) {
        return false;
    }
    new_files_fit(edit)
}

// The same of its pointers.
fn pointers_fit(edit: &VersionEdit) -> bool
    ensures { IsTrue result ↔ All (λ it. it.level < 7) edit.now.compaction_ptrs.items }
{
    edit.compaction_ptrs.iter().all(|pointer| pointer.level < 7)
}

// The same of the files that levels lose.
fn deleted_fit(edit: &VersionEdit) -> bool
    ensures { IsTrue result ↔ All (λ it. it.0 < 7) edit.now.deleted.keys }
{
    edit.deleted.iter().all(|file| file.0 < 7)
}

// The same of the files that levels gain.
fn new_files_fit(edit: &VersionEdit) -> bool
    ensures { IsTrue result ↔ All (λ it. it.0 < 7) edit.now.new_files.items }
{
    edit.new_files.iter().all(|file| file.0 < 7)
}

// Appends a record to a manifest, and syncs it. What fails on the device breaks the writer.
fn append_record<E: Env>(env: &mut E, manifest: &mut LogFile<E>, text: &[u8]) -> Result<()>
    requires some { text.now ≢ [] }
    requires usable { manifest.old.writer.broken ≡ false }
    ensures does { IsTrue E.models_disk → ChangesFiles E.models_disk
        (with_bytes_kept manifest.old.path (frame manifest.old.writer text.now))
        (AppendingAndSyncing manifest.old.path (frame manifest.old.writer text.now))
        (E.observed env.old) (E.observed env.new) result }
    ensures locks { SameLocks E.models_disk (E.observed env.old) (E.observed env.new) }
    ensures ok { OnOk result (manifest.new
        ≡ record manifest.old { writer = after_frame manifest.old.writer text.now }) }
    ensures err { IfErr result (λ status. (IsOutOfMemory status × (manifest.new ≡ manifest.old)
        × (IsTrue E.models_disk
        → (E.observed env.new).disk.files ≡ (E.observed env.old).disk.files))
        ⊎ (manifest.new.writer.broken ≡ true)) }
    ensures cause { HasCause (IsLost E.models_disk manifest.old.path (E.observed env.old)
        (E.failures env.old) (E.failures env.new))
        (E.failures env.old) (E.failures env.new) result }
    ensures bytes { AreBytes text.now }
{
    manifest.append(env, text)?;
    manifest.sync(env)
}
