//! The live files of a store: what the edits of its manifest leave, and the numbers that go with
//! them.
// LevelDB: db/version_set.cc, VersionSet
ghost use Rattle.std.specs.Prelude.{◌≡◌, ◌≢◌, ◌↔◌, ◌+◌, ◌<◌, ◌^◌, Some, None, map, OnOk, OnErr, IfOk, IfErr, IsTrue, string_bytes};
ghost use Rattle.leveldb_base.specs.Error.{IsOutOfMemory};
ghost use Rattle.leveldb_files.specs.Levels.Summary.{summary_text};
ghost use Rattle.leveldb_version.specs.Edits.VersionEdit.{new_file_of};
ghost use Rattle.leveldb_version_set.specs.Sets.VersionSetValue.{new_version_set, with_number_given, with_number_free, with_numbers_used, AreFileNumbersUsedUp, broken, numbers_in_order};

use leveldb_base::cmp::Cmp;
use leveldb_base::error::{Result, StatusCode, err};
use leveldb_base::types::{FileMetaData, FileNum, SequenceNumber};
use leveldb_env::env::Env;
use leveldb_mem::log::LogFile;
use leveldb_version::version::summary_of;
use leveldb_version::version_edit::VersionEdit;
use std::alloc::Global;
use std::collections::BTreeSet;
use std::marker::Model;

/// The files of a store with their levels, its compaction pointers and its numbers, as the edits of
/// its manifest leave them; and the manifest, to which more edits are appended. The calls that use
/// the disk are given the environment.
#[derive(Drop)]
pub struct LiveFiles<E: Env> {
    pub(super) alloc: Global,
    pub(super) store: String,

    // The comparator's name, the compaction pointers and the live files.
    pub(super) full: VersionEdit,

    pub(super) next_file: FileNum,

    // The number that was given last, if it may be taken back.
    pub(super) given: Option<FileNum>,

    pub(super) manifest_number: FileNum,
    pub(super) last_sequence: SequenceNumber,
    pub(super) log_number: FileNum,
    pub(super) previous_log: FileNum,
    pub(super) manifest: Option<LogFile<E>>,

    // Whether a call on the manifest has failed.
    pub(super) broken: bool,
}

impl<E: Env> Model for LiveFiles<E> {
    ghost use Rattle.leveldb_version_set.specs.Sets.VersionSetValue.{VersionSetValue, manifest_state};

    ghost Value = { VersionSetValue };

    ghost use Rattle.std.specs.Prelude.{string_bytes};
    ghost use Rattle.leveldb_version.specs.Edits.VersionEdit.{edit_of};

    ghost view = { λ set. record {
      store = string_bytes set.store;
      full = edit_of set.full;
      next_file = set.next_file;
      given = set.given;
      manifest_number = set.manifest_number;
      last_sequence = set.last_sequence;
      log_number = set.log_number;
      previous_log = set.previous_log;
      manifest = manifest_state set.broken set.manifest;
    } };

    ghost use Rattle.std.specs.Prelude.{◌≡◌, false, IfSome};
    ghost use Rattle.leveldb_mem.specs.Log.{log_block_size};

    ghost invariant = { λ set. set.broken ≡ false → IfSome set.manifest (λ manifest.
        (manifest.writer.broken ≡ false) × (manifest.writer.size ≡ log_block_size)) };
}

impl<E: Env> LiveFiles<E> {
    /// No files, for a store under this path with this comparator.
    pub fn new<C: Cmp>(alloc: Global, store: &str, cmp: &C) -> Result<LiveFiles<E>>
        ensures ok { IfOk result (λ set. set ≡ new_version_set store.now (C.name cmp.now)) }
        ensures memory { IfErr result IsOutOfMemory }
    {
        let store = String::from_str(alloc, store)?;
        let mut full = VersionEdit::new(alloc);
        full.set_comparator_name(cmp.id())?;
        Ok(LiveFiles {
            alloc,
            store,
            full,
            next_file: 2,
            given: None,
            manifest_number: 0,
            last_sequence: 0,
            log_number: 0,
            previous_log: 0,
            manifest: None,
            broken: false,
        })
    }

    /// The number that the next file takes.
    pub fn next_file_num(&self) -> FileNum
        ensures { result ≡ self.now.next_file }
    {
        self.next_file
    }

    /// The number of the manifest, in use or to be made.
    pub fn manifest_num(&self) -> FileNum
        ensures { result ≡ self.now.manifest_number }
    {
        self.manifest_number
    }

    /// The greatest number of an entry.
    pub fn last_seq(&self) -> SequenceNumber
        ensures { result ≡ self.now.last_sequence }
    {
        self.last_sequence
    }

    /// Sets the greatest number of an entry, which the next edit has.
    pub fn set_last_seq(&mut self, num: SequenceNumber)
        ensures { self.new ≡ record self.old { last_sequence = num } }
    {
        self.last_sequence = num;
    }

    /// The number of the log whose changes are in no table yet.
    pub fn log_num(&self) -> FileNum
        ensures { result ≡ self.now.log_number }
    {
        self.log_number
    }

    /// The number of the log before it, or 0.
    pub fn prev_log_num(&self) -> FileNum
        ensures { result ≡ self.now.previous_log }
    {
        self.previous_log
    }

    /// Gives a number for a new file. `NotSupported` if the numbers are used up.
    pub fn new_file_number(&mut self) -> Result<FileNum>
        ensures number { IfOk result (λ n. n ≡ self.old.next_file) }
        ensures ok { OnOk result (self.new ≡ with_number_given self.old) }
        ensures fits { OnOk result (self.old.next_file + 1 < 2 ^ 64) }
        ensures err { OnErr result (self.new ≡ self.old) }
        ensures cause { IfErr result (AreFileNumbersUsedUp self.old.next_file) }
    {
        let number = self.next_file;
        self.next_file = next_number(self.alloc, number)?;
        self.given = Some(number);
        Ok(number)
    }

    /// Takes a number back, if it is the one that was given last: it will be given again. No file
    /// may have been made under it.
    pub fn reuse_file_number(&mut self, num: FileNum)
        ensures last { self.old.given ≡ Some num → self.new ≡ with_number_free self.old num }
        ensures other { self.old.given ≢ Some num → self.new ≡ self.old }
        ensures files { self.new.full ≡ self.old.full }
    {
        if self.given == Some(num) {
            self.next_file = num;
            self.given = None;
        }
    }

    /// Makes this number and those below it used, as that of a file that was found.
    /// `NotSupported` if no number is above it.
    pub fn mark_file_number_used(&mut self, num: FileNum) -> Result<()>
        ensures ok { OnOk result (self.new ≡ with_numbers_used self.old num) }
        ensures err { OnErr result (self.new ≡ self.old) }
        ensures cause { IfErr result (AreFileNumbersUsedUp num) }
    {
        let next = next_number(self.alloc, num)?;
        self.next_file = self.next_file.max(next);
        self.given = None;
        Ok(())
    }

    /// The live files with their levels, in the order in which they were added.
    pub fn files(&self) -> &[(usize, FileMetaData)]
        ensures { map new_file_of result.now ≡ self.now.full.added }
    {
        self.full.new_files.as_slice()
    }

    /// Whether a call on its manifest failed: then no edit is logged any more.
    pub fn is_broken(&self) -> bool
        ensures { IsTrue result ↔ (self.now.manifest ≡ broken) }
    {
        self.broken
    }

    /// The numbers of the live files.
    pub fn live_files(&self) -> Result<BTreeSet<FileNum>>
        ensures ok { IfOk result (λ numbers.
            numbers.keys ≡ numbers_in_order self.now.full.added) }
        ensures memory { IfErr result IsOutOfMemory }
    {
        numbers_of(self.alloc, self.full.new_files.as_slice())
    }

    /// Which files each level has, as `level 0: 1 files, 177 bytes ([(5, 177)]); `, for each level
    /// that has some: their numbers and sizes in the order in which they were added.
    pub fn current_summary(&self) -> Result<String>
        ensures ok { IfOk result (λ text.
            string_bytes text ≡ summary_text self.now.full.added) }
        ensures memory { IfErr result IsOutOfMemory }
    {
        summary_of(self.alloc, self.full.new_files.as_slice())
    }
}

// The numbers of files.
fn numbers_of(alloc: Global, files: &[(usize, FileMetaData)]) -> Result<BTreeSet<FileNum>>
    ensures ok { IfOk result (λ numbers.
        numbers.keys ≡ numbers_in_order (map new_file_of files.now)) }
    ensures memory { IfErr result IsOutOfMemory }
{
    let mut numbers = BTreeSet::new(alloc);
    for file in files {
        numbers.insert(file.1.num)?;
    }
    Ok(numbers)
}

// The number after this one.
fn next_number(alloc: Global, num: FileNum) -> Result<FileNum>
    ensures ok { IfOk result (λ next. next ≡ num + 1) }
    ensures cause { IfErr result (AreFileNumbersUsedUp num) }
{
    if num == FileNum::MAX {
        return err(
            alloc,
            StatusCode::NotSupported,
            "the numbers of files are used up",
        );
    }
    Ok(num + 1)
}
