//! A disk in memory that records what its files were at each moment.
// LevelDB: db/fault_injection_test.cc, FaultInjectionTestEnv
ghost use Rattle.std.specs.Prelude.{◌≡◌, ◌<◌, ◌+◌, ◌-◌, ◌^◌, ◌==◌, ◌&&◌, ◌||◌, true, false, Bool, ℕ, List, None, Some, if◌then◌else◌, not, IsErr, IsErrAnd, OnOk};

use crate::mem_env::journal::{Change, Journal, Requested, may_be_made, name_in};
use leveldb_base::error::{Result, Status, StatusCode, err};
use leveldb_env::env::Env;
use leveldb_env::errors::refuse;
use leveldb_env::mem_env::{MemHandle, Pick, files, missing, picks, put_lock, take_lock};
use std::alloc::{AllocError, Global};
use std::collections::BTreeSet;

/// A disk in memory that counts its calls and keeps a journal of those that ask for a change. A
/// call that is chosen before fails, with its change made or not. Calls past the first 2^62 - 1
/// fail, are not counted and change nothing.
pub struct RecordEnv {
    alloc: Global,
    journal: Journal,
    // the names that are locked
    locks: BTreeSet<String>,
    // how many calls there are to the one that is to fail; 0 if none is
    fails_in: u64,
    // whether the change of that call is made
    fails_done: bool,
    // how many calls the device has failed
    failures: u64,
    ghost counted: { failures < 2 ^ 64 },
}

impl Drop for RecordEnv {
    // One call for whoever drops one, in place of one for each part of it.
    fn drop(self) {
        let RecordEnv {
            alloc: _,
            journal,
            locks,
            fails_in: _,
            fails_done: _,
            failures: _,
        } = self;
        drop(journal);
        drop(locks);
    }
}

const STILL_TO_COME: &str = "that moment is still to come";

const NO_CRASH_LEAVES: &str = "no crash leaves these tails";

impl RecordEnv {
    ghost use Rattle.std.specs.Prelude.{◌⊎◌, ◌≤◌, IfOk, IfErr, OnErr};
    ghost use Rattle.leveldb_env.specs.MemEnv.{CopiesFrom, IsNoSuchFile};
    ghost use Rattle.leveldb_base.specs.Error.{IsOutOfMemory};
    ghost use Rattle.leveldb_env.specs.Env.{Files};
    ghost use Rattle.leveldb_env.specs.Picks.{ListsTails, tails_of};
    ghost use Rattle.leveldb_disks.specs.Journal.{requested, finds_file, may_be_made, IsChangeError};
    ghost use Rattle.leveldb_disks.specs.Record.{record_observed, files_in, locked_in, moment_of, failures_of, fails_in, fails_done, SameObserved, is_past, one_more_failure, SameButFailures, CountsCall, ChangesNoFile, RequestsChange, files_then, CanCrashTo, CrashesByChoice, IsCrashOfRecord, IsFresh};

    /// A disk without a name or a lock, at moment 0. No call is chosen to fail.
    pub fn new(alloc: Global) -> RecordEnv
        ensures files { (name : List ℕ) → files_in result name ≡ None }
        ensures fresh { IsFresh result }
    {
        RecordEnv {
            alloc,
            journal: Journal::new(alloc),
            locks: BTreeSet::new(alloc),
            fails_in: 0,
            fails_done: false,
            failures: 0,
        }
    }

    /// Twice the calls made so far.
    pub fn moment(&self) -> u64
        ensures { result ≡ moment_of self.now }
    {
        self.journal.moment()
    }

    /// Chooses the nth call from now, 1 being the next, to return `IOError`; with `done` its change
    /// is made all the same, but for a sync. 0 chooses none. A new choice replaces an earlier one.
    pub fn fail(&mut self, nth: u64, done: bool)
        ensures nth { fails_in self.new ≡ nth }
        ensures done { fails_done self.new ≡ done }
        ensures same { SameObserved self.old self.new }
    {
        self.fails_in = nth;
        self.fails_done = done;
    }

    /// In order of name what the files at a moment have past their kept bytes, where they have any.
    /// `after` says which side of a name change in flight they are on; an append in flight is
    /// whole.
    ///
    /// `InvalidArgument` for a moment that is still to come.
    pub fn tails(&self, alloc: Global, moment: u64, after: bool) -> Result<Vec<(String, Vec<u8>)>>
        ensures tails { IfOk result
            (λ tails. ListsTails (files_then self.now moment after) (tails_of tails.items)) }
        ensures come { OnOk result (moment ≤ moment_of self.now) }
        ensures cause { IfErr result
            (λ e. IsOutOfMemory e
            ⊎ ((e.code ≡ StatusCode.InvalidArgument) × (moment_of self.now < moment))) }
    {
        if moment > self.moment() {
            return err(alloc, StatusCode::InvalidArgument, STILL_TO_COME);
        }
        let files = self.journal.files_at(alloc, moment, after)?;
        Ok(picks::list_tails(&files, alloc)?)
    }

    /// The disk that a crash at a moment leaves by this choice: of each file the kept bytes and the
    /// tail picked for it, then all kept. It begins at moment 0, with no name locked and no call
    /// chosen.
    ///
    /// `InvalidArgument` for a moment that is still to come, for a name given twice or not there,
    /// and for a tail that is too long. Each disk that a crash may leave is left by some choice.
    pub fn disk_at(&self, alloc: Global, moment: u64, pick: &Pick) -> Result<RecordEnv>
        ensures left { IfOk result (IsCrashOfRecord self.now moment pick.now) }
        ensures sides { (side : Bool)
            → (record_observed self.now).at_moment moment (files_then self.now moment side) }
        ensures cause { IfErr result
            (λ e. IsOutOfMemory e
            ⊎ ((e.code ≡ StatusCode.InvalidArgument)
            × (CanCrashTo self.now moment pick.now.after (tails_of pick.now.tails.items) → ⊥))) }
        ensures every { CrashesByChoice self.now moment }
    {
        if moment > self.moment() {
            return err(alloc, StatusCode::InvalidArgument, STILL_TO_COME);
        }
        let files = self.journal.files_at(alloc, moment, pick.after)?;
        if !picks::is_allowed(&files, pick.tails.as_slice()) {
            return err(alloc, StatusCode::InvalidArgument, NO_CRASH_LEAVES);
        }
        let left = picks::left_files(&files, alloc, pick.tails.as_slice())?;
        Ok(RecordEnv {
            journal: Journal::begin(alloc, left)?,
            alloc,
            locks: BTreeSet::new(alloc),
            fails_in: 0,
            fails_done: false,
            failures: 0,
        })
    }

    // Copies bytes of the name's file from an offset on to the front of the target.
    fn copy_at(&self, name: &str, offset: usize, target: &mut [u8]) -> Result<usize>
        ensures copied { IfOk result
            (λ n. CopiesFrom (files_in self.now name.now) offset n target.old target.new) }
        ensures end { IfOk result (λ n. offset + n < 2 ^ 64) }
        ensures cause { IfErr result (IsNoSuchFile (files_in self.now) name.now) }
        ensures err { OnErr result (target.new ≡ target.old) }
    {
        match self.journal.files().get(name) {
            Some(file) => Ok(file.read_at(offset, target)),
            None => missing(self.alloc, name),
        }
    }

    // Whether the next call is the chosen one; none where it isn't counted.
    fn turn(&mut self) -> Option<bool>
        ensures turn { result ≡ (if is_past self.old then None else Some (self.old.fails_in == 1)) }
        ensures next { self.new ≡ record self.old {
          fails_in = if is_past self.old then self.old.fails_in else self.old.fails_in - 1;
        } }
    {
        if self.journal.is_full() {
            return None;
        }
        let chosen = self.fails_in == 1;
        self.fails_in = self.fails_in.saturating_sub(1);
        Some(chosen)
    }

    // The failure of the device, counted.
    #[cold]
    fn refuse_call<T>(&mut self) -> Result<T>
        ensures code { IsErrAnd result (λ e. e.code ≡ StatusCode.IOError) }
        ensures count { failures_of self.new ≡ one_more_failure (failures_of self.old) }
        ensures same { SameButFailures self.old self.new }
    {
        self.failures = self.failures.saturating_add(1);
        Err(Status::new(self.alloc, StatusCode::IOError, "the device refuses"))
    }

    // A call that asks for no change.
    fn look(&mut self) -> Result<()>
        ensures looks { ChangesNoFile self.old self.new }
        ensures files { self.new.journal.files ≡ self.old.journal.files }
        ensures turns { CountsCall (λ _. ⊥) self.old self.new result }
        ensures locks { self.new.locks ≡ self.old.locks }
    {
        let Some(chosen) = self.turn() else {
            return self.refuse_call();
        };
        self.journal.skip();
        if chosen {
            return self.refuse_call();
        }
        Ok(())
    }

    // A call that finds no memory for what it is to return.
    #[cold]
    fn find_no_memory<T>(&mut self) -> Result<T>
        ensures asks { (change : Files → Files) (may : Bool)
            → RequestsChange change may self.old self.new result }
        ensures turns { CountsCall IsOutOfMemory self.old self.new result }
        ensures locks { self.new.locks ≡ self.old.locks }
        ensures err { IsErr result }
    {
        if self.turn().is_none() {
            return self.refuse_call();
        }
        self.journal.skip();
        Err(Status::from(AllocError))
    }

    // Whether a call's change is made: not where it's the chosen one, unless it's to be made all
    // the same.
    fn is_made(&self, chosen: bool, change: &Requested<'_>) -> bool
        ensures { result ≡ (not chosen || (may_be_made change.now && self.now.fails_done)) }
    {
        !chosen || (may_be_made(change) && self.fails_done)
    }

    // A call that asks for a change.
    fn ask(&mut self, change: &Requested<'_>) -> Result<()>
        ensures asks { RequestsChange (requested change.now)
            (may_be_made change.now) self.old self.new result }
        ensures turns { CountsCall
            (IsChangeError change.now (files_in self.old)) self.old self.new result }
        ensures there { OnOk result (finds_file change.now (files_in self.old) ≡ true) }
        ensures locks { self.new.locks ≡ self.old.locks }
    {
        let Some(chosen) = self.turn() else {
            return self.refuse_call();
        };
        let done = self.is_made(chosen, change);
        let there = self.journal.make(self.alloc, change, done)?;
        if chosen {
            return self.refuse_call();
        }
        if !there {
            return missing(self.alloc, name_in(change));
        }
        Ok(())
    }
}

impl Env for RecordEnv {
    ghost use Rattle.std.specs.Prelude.{◌⊎◌, refl, is_ok, is_some, length, map, string_bytes, Ok, Result, IfOk, IfErr, IsSome, IsSomeAnd, OnErr};
    ghost use Rattle.leveldb_base.specs.Error.{IsOutOfMemory};
    ghost use Rattle.leveldb_env.specs.Env.{ListsChildren, bytes_of, emptied, created, deleted, renamed, extended, synced, without_folder, lock_set};
    ghost use Rattle.leveldb_env.specs.MemEnv.{CopiesFrom, IsNoFileOrMemory, IsNoSuchFile, IsAlreadyLocked, IsNotLocked, handle_name, handle_offset, IsMovedBy};
    ghost use Rattle.leveldb_disks.specs.Record.{record_observed, files_in, locked_in, moment_of, failures_of, CountsCall, ChangesNoFile, RequestsChange};
    ghost use Rattle.leveldb_disks.specs.RecordLaws.{record_only_now, record_counts_now, record_failures_below};

    type File = MemHandle;

    ghost models_disk = { true };

    ghost models_moments = { true };

    ghost observed = { record_observed };

    ghost failures = { failures_of };

    ghost name_of = { handle_name };

    ghost offset_of = { handle_offset };

    ghost counts = { record_failures_below };

    ghost only_now = { record_only_now };

    ghost counts_now = { record_counts_now };

    ghost moments_need_disk = { λ modelled. refl };

    fn open_sequential_file(&mut self, name: &str) -> Result<MemHandle>
        ensures looks { ChangesNoFile self.old self.new }
        ensures turns { CountsCall
            (IsNoFileOrMemory (files_in self.old) name.now) self.old self.new result }
        ensures locks { locked_in self.new ≡ locked_in self.old }
        ensures file { IfOk result
            (λ file. (handle_name file ≡ name.now) × (handle_offset file ≡ 0)) }
        ensures there { OnOk result (IsSome (files_in self.old name.now)) }
    {
        self.look()?;
        if !self.journal.files().contains_key(name) {
            return missing(self.alloc, name);
        }
        Ok(MemHandle::new(self.alloc, name)?)
    }

    fn open_random_access_file(&mut self, name: &str) -> Result<MemHandle>
        ensures looks { ChangesNoFile self.old self.new }
        ensures turns { CountsCall
            (IsNoFileOrMemory (files_in self.old) name.now) self.old self.new result }
        ensures locks { locked_in self.new ≡ locked_in self.old }
        ensures file { IfOk result
            (λ file. (handle_name file ≡ name.now) × (handle_offset file ≡ 0)) }
        ensures there { OnOk result (IsSome (files_in self.old name.now)) }
    {
        self.open_sequential_file(name)
    }

    fn open_writable_file(&mut self, name: &str) -> Result<MemHandle>
        ensures asks { RequestsChange (emptied name.now) true self.old self.new result }
        ensures turns { CountsCall IsOutOfMemory self.old self.new result }
        ensures locks { locked_in self.new ≡ locked_in self.old }
        ensures file { IfOk result (λ file. handle_name file ≡ name.now) }
    {
        let Ok(file) = MemHandle::new(self.alloc, name) else {
            return self.find_no_memory();
        };
        self.ask(&Change::Emptied(name))?;
        Ok(file)
    }

    fn open_appendable_file(&mut self, name: &str) -> Result<MemHandle>
        ensures asks { RequestsChange (created name.now) true self.old self.new result }
        ensures turns { CountsCall IsOutOfMemory self.old self.new result }
        ensures locks { locked_in self.new ≡ locked_in self.old }
        ensures file { IfOk result (λ file. handle_name file ≡ name.now) }
    {
        let Ok(file) = MemHandle::new(self.alloc, name) else {
            return self.find_no_memory();
        };
        self.ask(&Change::Created(name))?;
        Ok(file)
    }

    fn read(&mut self, file: &mut MemHandle, target: &mut [u8]) -> Result<usize>
        ensures looks { ChangesNoFile self.old self.new }
        ensures turns { CountsCall
            (IsNoSuchFile (files_in self.old) (handle_name file.old)) self.old self.new result }
        ensures locks { locked_in self.new ≡ locked_in self.old }
        ensures copied { IfOk result
            (λ n. CopiesFrom (files_in self.old (handle_name file.old))
            (handle_offset file.old) n target.old target.new) }
        ensures moved { IfOk result (λ n. IsMovedBy n file.old file.new) }
        ensures err { OnErr result ((target.new ≡ target.old) × (file.new ≡ file.old)) }
    {
        self.look()?;
        let n = self.copy_at(file.name.as_str(), file.offset, target)?;
        file.offset += n;
        Ok(n)
    }

    fn read_at(&mut self, file: &MemHandle, offset: usize, target: &mut [u8]) -> Result<usize>
        ensures looks { ChangesNoFile self.old self.new }
        ensures turns { CountsCall
            (IsNoSuchFile (files_in self.old) (handle_name file.now)) self.old self.new result }
        ensures locks { locked_in self.new ≡ locked_in self.old }
        ensures copied { IfOk result
            (λ n. CopiesFrom (files_in self.old
            (handle_name file.now)) offset n target.old target.new) }
        ensures err { OnErr result (target.new ≡ target.old) }
    {
        self.look()?;
        self.copy_at(file.name.as_str(), offset, target)
    }

    fn append(&mut self, file: &mut MemHandle, bytes: &[u8]) -> Result<()>
        ensures asks { RequestsChange
            (extended (handle_name file.old) bytes.now) true self.old self.new result }
        ensures turns { CountsCall
            (IsNoFileOrMemory (files_in self.old) (handle_name file.old)) self.old self.new result }
        ensures locks { locked_in self.new ≡ locked_in self.old }
        ensures there { OnOk result (IsSome (files_in self.old (handle_name file.old))) }
        ensures file { file.new ≡ file.old }
    {
        self.ask(&Change::Extended(file.name.as_str(), bytes))
    }

    fn sync(&mut self, file: &mut MemHandle) -> Result<()>
        ensures asks { RequestsChange
            (synced (handle_name file.old)) false self.old self.new result }
        ensures turns { CountsCall
            (IsNoFileOrMemory (files_in self.old) (handle_name file.old)) self.old self.new result }
        ensures locks { locked_in self.new ≡ locked_in self.old }
        ensures there { OnOk result (IsSome (files_in self.old (handle_name file.old))) }
        ensures file { file.new ≡ file.old }
    {
        self.ask(&Change::Synced(file.name.as_str()))
    }

    fn exists(&mut self, name: &str) -> Result<bool>
        ensures looks { ChangesNoFile self.old self.new }
        ensures turns { CountsCall (λ _. ⊥) self.old self.new result }
        ensures locks { locked_in self.new ≡ locked_in self.old }
        ensures ok { IfOk result (λ there. there ≡ is_some (files_in self.old name.now)) }
    {
        self.look()?;
        Ok(self.journal.files().contains_key(name))
    }

    fn children(&mut self, alloc: Global, folder: &str) -> Result<Vec<String>>
        ensures looks { ChangesNoFile self.old self.new }
        ensures turns { CountsCall IsOutOfMemory self.old self.new result }
        ensures locks { locked_in self.new ≡ locked_in self.old }
        ensures ok { IfOk result
            (λ names. ListsChildren (files_in self.old) folder.now (map string_bytes names.items)) }
    {
        self.look()?;
        Ok(files::list_children(self.journal.files(), alloc, folder)?)
    }

    fn size_of(&mut self, name: &str) -> Result<usize>
        ensures looks { ChangesNoFile self.old self.new }
        ensures turns { CountsCall
            (IsNoSuchFile (files_in self.old) name.now) self.old self.new result }
        ensures locks { locked_in self.new ≡ locked_in self.old }
        ensures ok { IfOk result
            (λ n. IsSomeAnd (files_in self.old name.now) (λ file. n ≡ length (bytes_of file))) }
    {
        self.look()?;
        match self.journal.files().get(name) {
            Some(found) => Ok(found.size()),
            None => missing(self.alloc, name),
        }
    }

    fn delete(&mut self, name: &str) -> Result<()>
        ensures asks { RequestsChange (deleted name.now) true self.old self.new result }
        ensures turns { CountsCall
            (IsNoFileOrMemory (files_in self.old) name.now) self.old self.new result }
        ensures locks { locked_in self.new ≡ locked_in self.old }
        ensures there { OnOk result (IsSome (files_in self.old name.now)) }
    {
        self.ask(&Change::Deleted(name))
    }

    fn mkdir(&mut self, _folder: &str) -> Result<()>
        ensures looks { ChangesNoFile self.old self.new }
        ensures turns { CountsCall (λ _. ⊥) self.old self.new result }
        ensures locks { locked_in self.new ≡ locked_in self.old }
    {
        self.look()
    }

    fn rmdir(&mut self, folder: &str) -> Result<()>
        ensures asks { RequestsChange (without_folder folder.now) true self.old self.new result }
        ensures turns { CountsCall IsOutOfMemory self.old self.new result }
        ensures locks { locked_in self.new ≡ locked_in self.old }
    {
        self.ask(&Change::Cleared(folder))
    }

    fn rename(&mut self, from: &str, to: &str) -> Result<()>
        ensures asks { RequestsChange (renamed from.now to.now) true self.old self.new result }
        ensures turns { CountsCall
            (IsNoFileOrMemory (files_in self.old) from.now) self.old self.new result }
        ensures locks { locked_in self.new ≡ locked_in self.old }
        ensures there { OnOk result (IsSome (files_in self.old from.now)) }
    {
        self.ask(&Change::Renamed(from, to))
    }

    fn lock(&mut self, name: &str) -> Result<()>
        ensures asks { locked_in self.old name.now ≡ false
            → RequestsChange (created name.now) true self.old self.new result }
        ensures looks { locked_in self.old name.now ≡ true → ChangesNoFile self.old self.new }
        ensures turns { CountsCall
            (λ e. IsOutOfMemory e
            ⊎ IsAlreadyLocked (locked_in self.old) name.now e) self.old self.new result }
        ensures locks { locked_in self.new ≡
            (if is_ok result then lock_set name.now true
            (locked_in self.old) else locked_in self.old) }
        ensures was_free { OnOk result (locked_in self.old name.now ≡ false) }
    {
        if self.locks.contains(name) {
            self.look()?;
            return refuse(self.alloc, StatusCode::LockError, "already locked", name);
        }
        if put_lock(&mut self.locks, self.alloc, name).is_err() {
            return self.find_no_memory();
        }
        let answer = self.ask(&Change::Created(name));
        if answer.is_err() {
            take_lock(&mut self.locks, name);
        }
        answer
    }

    fn unlock(&mut self, name: &str) -> Result<()>
        ensures looks { ChangesNoFile self.old self.new }
        ensures turns { CountsCall
            (IsNotLocked (locked_in self.old) name.now) self.old self.new result }
        ensures locks { locked_in self.new ≡
            (if is_ok result then lock_set name.now false
            (locked_in self.old) else locked_in self.old) }
        ensures was_locked { OnOk result (locked_in self.old name.now ≡ true) }
    {
        self.look()?;
        if take_lock(&mut self.locks, name) {
            return Ok(());
        }
        Err(Status {
            code: StatusCode::LockError,
            err: None,
        })
    }

    fn micros(&mut self) -> Result<u64>
        ensures looks { ChangesNoFile self.old self.new }
        ensures turns { CountsCall (λ _. ⊥) self.old self.new result }
        ensures locks { locked_in self.new ≡ locked_in self.old }
        ensures ok { IfOk result (λ time. time ≡ moment_of self.new) }
    {
        self.look()?;
        Ok(self.moment())
    }
}
