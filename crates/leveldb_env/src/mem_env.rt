//! An environment in memory.
// LevelDB: helpers/memenv/memenv.cc
ghost use Rattle.std.specs.Prelude.{◌≡◌, ◌⊎◌, ◌<◌, ◌+◌, ◌^◌, true, false, refl, ℕ, List, length, map, codes, Ok, IfOk, IfErr, IfSome, IsErrAnd, OnOk, OnErr, Some, None, IsSome, IsSomeAnd, is_some, string_bytes};
ghost use Rattle.std.specs.BTreeSet.{contains_text};
ghost use Rattle.leveldb_base.specs.Error.{status_text, annotated, IsOutOfMemory};
ghost use Rattle.leveldb_env.specs.Env.{bytes_of, emptied, created, deleted, renamed, extended, synced, without_folder, lock_set, DiskCrashesTo, ListsChildren};
ghost use Rattle.leveldb_env.specs.Picks.{picked, tails_of, IsAllowed, IsChoiceError, CrashesByTails};
ghost use Rattle.leveldb_env.specs.MemEnv.{ChangesOrFails, CopiesFrom, IsNoSuchFile, IsNoFileOrMemory, IsAlreadyLocked, IsNotLocked, lock_taken, lock_freed, disk_of, time_of, mem_observed, handle_name, handle_offset, IsMovedBy};
ghost use Rattle.leveldb_env.specs.MemEnvLaws.{mem_failures_below, mem_only_now, mem_counts_now};

pub mod files;
pub mod picks;

use crate::env::Env;
use crate::errors::refuse;
use files::FileMap;
use leveldb_base::error::{Result, Status, StatusCode, err};
pub use picks::Pick;
use std::alloc::{AllocError, Global};
use std::collections::{BTreeMap, BTreeSet};

/// A disk in memory. Each call is done at once or, if it is out of memory, not at all.
pub struct MemEnv {
    alloc: Global,
    files: FileMap,
    // the names that are locked
    locks: BTreeSet<String>,
    // the time that it returns, in microseconds
    micros: u64,
}

impl Drop for MemEnv {
    // One call for whoever drops one, in place of one for each part of it.
    fn drop(self) {
        let MemEnv {
            alloc: _,
            files,
            locks,
            micros: _,
        } = self;
        drop(files);
        drop(locks);
    }
}

/// An open file of a `MemEnv`.
#[derive(Drop)]
pub struct MemHandle {
    /// The name under which it was opened.
    pub name: String,

    /// Where its next read begins.
    pub offset: usize,
}

impl MemEnv {
    /// A disk without a name or a lock, at time 0. No device ever fails a call.
    pub fn new(alloc: Global) -> MemEnv
        ensures files { (name : List ℕ) → (disk_of result).files name ≡ None }
        ensures locks { (name : List ℕ) → (disk_of result).locked name ≡ false }
        ensures time { time_of result ≡ 0 }
        ensures no_failure { (env : MemEnv) → ⟦<MemEnv as Env>⟧.failures env ≡ 0 }
    {
        MemEnv {
            alloc,
            files: BTreeMap::new(alloc),
            locks: BTreeSet::new(alloc),
            micros: 0,
        }
    }

    /// Sets the time that `micros` returns from now on.
    pub fn set_micros(&mut self, micros: u64)
        ensures time { time_of self.new ≡ micros }
        ensures disk { disk_of self.new ≡ disk_of self.old }
    {
        self.micros = micros;
    }

    /// The disk that a crash now leaves by this choice: of each file the kept bytes and the tail
    /// picked for it, then all kept, no lock held, the time as it was. `pick.after` is ignored.
    ///
    /// `InvalidArgument` for a name given twice or not there, and for a tail longer than what was
    /// appended since. Each disk that a crash may leave is left by some choice.
    pub fn crashed(&self, alloc: Global, pick: &Pick) -> Result<MemEnv>
        ensures left { IfOk result
            (λ left. (disk_of left).files ≡ picked (tails_of pick.now.tails.items)
            (disk_of self.now).files) }
        ensures leaves { IfOk result (λ left. DiskCrashesTo (disk_of self.now) (disk_of left)) }
        ensures time { IfOk result (λ left. time_of left ≡ time_of self.now) }
        ensures allowed { OnOk result
            (IsAllowed (disk_of self.now).files (tails_of pick.now.tails.items)) }
        ensures cause { IfErr result
            (IsChoiceError (disk_of self.now).files (tails_of pick.now.tails.items)) }
        ensures every { CrashesByTails (disk_of self.now).files }
    {
        if !picks::is_allowed(&self.files, pick.tails.as_slice()) {
            return err(
                alloc,
                StatusCode::InvalidArgument,
                "no crash leaves these tails",
            );
        }
        Ok(MemEnv {
            alloc,
            files: picks::left_files(&self.files, alloc, pick.tails.as_slice())?,
            locks: BTreeSet::new(alloc),
            micros: self.micros,
        })
    }

    // Copies bytes of the name's file from an offset on to the front of the target.
    fn copy_at(&self, name: &str, offset: usize, target: &mut [u8]) -> Result<usize>
        ensures copied { IfOk result
            (λ n. CopiesFrom ((disk_of self.now).files name.now) offset n target.old target.new) }
        ensures end { IfOk result (λ n. offset + n < 2 ^ 64) }
        ensures cause { IfErr result (IsNoSuchFile (disk_of self.now).files name.now) }
        ensures err { OnErr result (target.new ≡ target.old) }
    {
        match self.files.get(name) {
            Some(file) => Ok(file.read_at(offset, target)),
            None => missing(self.alloc, name),
        }
    }
}

impl MemHandle {
    /// A handle that begins to read at the file's first byte.
    pub fn new(alloc: Global, name: &str) -> std::result::Result<MemHandle, AllocError>
        ensures name { IfOk result (λ handle. string_bytes handle.name ≡ name.now) }
        ensures offset { IfOk result (λ handle. handle.offset ≡ 0) }
    {
        Ok(MemHandle {
            name: String::from_str(alloc, name)?,
            offset: 0,
        })
    }
}

/// The error for a name that no file has.
#[cold]
pub fn missing<T>(alloc: Global, name: &str) -> Result<T>
    ensures code { IsErrAnd result (λ status. status.code ≡ StatusCode.NotFound) }
    ensures text { IsErrAnd result
        (λ status. IfSome status.err
        (λ text. string_bytes text ≡ status_text StatusCode.NotFound
        (annotated (codes "no such file") name.now))) }
{
    refuse(alloc, StatusCode::NotFound, "no such file", name)
}

/// Locks a name.
pub fn put_lock(
    locks: &mut BTreeSet<String>,
    alloc: Global,
    name: &str,
) -> std::result::Result<(), AllocError>
    ensures ok { OnOk result
        (contains_text locks.new ≡ lock_set name.now true (contains_text locks.old)) }
    ensures err { OnErr result (contains_text locks.new ≡ contains_text locks.old) }
{
    locks.insert(String::from_str(alloc, name)?)?;
    Ok(())
}

/// Frees a name. Returns whether it was locked.
pub fn take_lock(locks: &mut BTreeSet<String>, name: &str) -> bool
    ensures held { result ≡ contains_text locks.old name.now }
    ensures freed { contains_text locks.new ≡ lock_set name.now false (contains_text locks.old) }
    ensures unchanged { result ≡ false → contains_text locks.new ≡ contains_text locks.old }
{
    locks.remove(name)
}

impl Env for MemEnv {
    type File = MemHandle;

    ghost models_disk = { true };

    ghost models_moments = { false };

    ghost observed = { mem_observed };

    ghost failures = { λ _. 0 };

    ghost name_of = { handle_name };

    ghost offset_of = { handle_offset };

    ghost counts = { mem_failures_below };

    ghost only_now = { mem_only_now };

    ghost counts_now = { mem_counts_now };

    ghost moments_need_disk = { λ modelled. refl };

    fn open_sequential_file(&mut self, name: &str) -> Result<MemHandle>
        ensures still { self.new ≡ self.old }
        ensures file { IfOk result
            (λ file. (handle_name file ≡ name.now) × (handle_offset file ≡ 0)) }
        ensures there { OnOk result (IsSome ((disk_of self.old).files name.now)) }
        ensures cause { IfErr result (IsNoFileOrMemory (disk_of self.old).files name.now) }
    {
        if !self.files.contains_key(name) {
            return missing(self.alloc, name);
        }
        Ok(MemHandle::new(self.alloc, name)?)
    }

    fn open_random_access_file(&mut self, name: &str) -> Result<MemHandle>
        ensures still { self.new ≡ self.old }
        ensures file { IfOk result
            (λ file. (handle_name file ≡ name.now) × (handle_offset file ≡ 0)) }
        ensures there { OnOk result (IsSome ((disk_of self.old).files name.now)) }
        ensures cause { IfErr result (IsNoFileOrMemory (disk_of self.old).files name.now) }
    {
        self.open_sequential_file(name)
    }

    fn open_writable_file(&mut self, name: &str) -> Result<MemHandle>
        ensures changes { ChangesOrFails (emptied name.now) self.old self.new result }
        ensures file { IfOk result (λ file. handle_name file ≡ name.now) }
        ensures cause { IfErr result IsOutOfMemory }
    {
        let handle = MemHandle::new(self.alloc, name)?;
        files::empty_file(&mut self.files, self.alloc, name)?;
        Ok(handle)
    }

    fn open_appendable_file(&mut self, name: &str) -> Result<MemHandle>
        ensures changes { ChangesOrFails (created name.now) self.old self.new result }
        ensures file { IfOk result (λ file. handle_name file ≡ name.now) }
        ensures cause { IfErr result IsOutOfMemory }
    {
        let handle = MemHandle::new(self.alloc, name)?;
        files::create_file(&mut self.files, self.alloc, name)?;
        Ok(handle)
    }

    fn read(&mut self, file: &mut MemHandle, target: &mut [u8]) -> Result<usize>
        ensures still { self.new ≡ self.old }
        ensures copied { IfOk result
            (λ n. CopiesFrom ((disk_of self.old).files (handle_name file.old))
            (handle_offset file.old) n target.old target.new) }
        ensures moved { IfOk result (λ n. IsMovedBy n file.old file.new) }
        ensures cause { IfErr result
            (IsNoSuchFile (disk_of self.old).files (handle_name file.old)) }
        ensures err { OnErr result ((target.new ≡ target.old) × (file.new ≡ file.old)) }
    {
        let n = self.copy_at(file.name.as_str(), file.offset, target)?;
        file.offset += n;
        Ok(n)
    }

    fn read_at(&mut self, file: &MemHandle, offset: usize, target: &mut [u8]) -> Result<usize>
        ensures still { self.new ≡ self.old }
        ensures copied { IfOk result
            (λ n. CopiesFrom ((disk_of self.old).files
            (handle_name file.now)) offset n target.old target.new) }
        ensures cause { IfErr result
            (IsNoSuchFile (disk_of self.old).files (handle_name file.now)) }
        ensures err { OnErr result (target.new ≡ target.old) }
    {
        self.copy_at(file.name.as_str(), offset, target)
    }

    fn append(&mut self, file: &mut MemHandle, bytes: &[u8]) -> Result<()>
        ensures changes { ChangesOrFails
            (extended (handle_name file.old) bytes.now) self.old self.new result }
        ensures file { file.new ≡ file.old }
        ensures there { OnOk result (IsSome ((disk_of self.old).files (handle_name file.old))) }
        ensures cause { IfErr result
            (IsNoFileOrMemory (disk_of self.old).files (handle_name file.old)) }
    {
        let name = file.name.as_str();
        if files::extend_file(&mut self.files, name, bytes)? {
            return Ok(());
        }
        missing(self.alloc, name)
    }

    fn sync(&mut self, file: &mut MemHandle) -> Result<()>
        ensures changes { ChangesOrFails (synced (handle_name file.old)) self.old self.new result }
        ensures file { file.new ≡ file.old }
        ensures there { OnOk result (IsSome ((disk_of self.old).files (handle_name file.old))) }
        ensures cause { IfErr result
            (IsNoSuchFile (disk_of self.old).files (handle_name file.old)) }
    {
        let name = file.name.as_str();
        if files::sync_file(&mut self.files, name) {
            return Ok(());
        }
        missing(self.alloc, name)
    }

    fn exists(&mut self, name: &str) -> Result<bool>
        ensures still { self.new ≡ self.old }
        ensures value { result ≡ Ok (is_some ((disk_of self.old).files name.now)) }
    {
        Ok(self.files.contains_key(name))
    }

    fn children(&mut self, alloc: Global, folder: &str) -> Result<Vec<String>>
        ensures still { self.new ≡ self.old }
        ensures ok { IfOk result
            (λ names. ListsChildren (disk_of self.old).files folder.now
            (map string_bytes names.items)) }
        ensures cause { IfErr result IsOutOfMemory }
    {
        Ok(files::list_children(&self.files, alloc, folder)?)
    }

    fn size_of(&mut self, name: &str) -> Result<usize>
        ensures still { self.new ≡ self.old }
        ensures ok { IfOk result
            (λ n. IsSomeAnd ((disk_of self.old).files name.now)
            (λ file. n ≡ length (bytes_of file))) }
        ensures cause { IfErr result (IsNoSuchFile (disk_of self.old).files name.now) }
    {
        match self.files.get(name) {
            Some(found) => Ok(found.size()),
            None => missing(self.alloc, name),
        }
    }

    fn delete(&mut self, name: &str) -> Result<()>
        ensures changes { ChangesOrFails (deleted name.now) self.old self.new result }
        ensures there { OnOk result (IsSome ((disk_of self.old).files name.now)) }
        ensures cause { IfErr result (IsNoSuchFile (disk_of self.old).files name.now) }
    {
        if files::delete_file(&mut self.files, name) {
            return Ok(());
        }
        missing(self.alloc, name)
    }

    fn mkdir(&mut self, _folder: &str) -> Result<()>
        ensures still { self.new ≡ self.old }
        ensures value { result ≡ Ok tt }
    {
        Ok(())
    }

    fn rmdir(&mut self, folder: &str) -> Result<()>
        ensures changes { ChangesOrFails (without_folder folder.now) self.old self.new result }
        ensures value { result ≡ Ok tt }
    {
        files::remove_folder(&mut self.files, folder);
        Ok(())
    }

    fn rename(&mut self, from: &str, to: &str) -> Result<()>
        ensures changes { ChangesOrFails (renamed from.now to.now) self.old self.new result }
        ensures there { OnOk result (IsSome ((disk_of self.old).files from.now)) }
        ensures cause { IfErr result (IsNoFileOrMemory (disk_of self.old).files from.now) }
    {
        if files::rename_file(&mut self.files, self.alloc, from, to)? {
            return Ok(());
        }
        missing(self.alloc, from)
    }

    fn lock(&mut self, name: &str) -> Result<()>
        ensures ok { OnOk result (disk_of self.new ≡ lock_taken name.now (disk_of self.old)) }
        ensures err { OnErr result (disk_of self.new ≡ disk_of self.old) }
        ensures time { time_of self.new ≡ time_of self.old }
        ensures was_free { OnOk result ((disk_of self.old).locked name.now ≡ false) }
        ensures cause { IfErr result
            (λ e. IsOutOfMemory e ⊎ IsAlreadyLocked (disk_of self.old).locked name.now e) }
    {
        if self.locks.contains(name) {
            return refuse(self.alloc, StatusCode::LockError, "already locked", name);
        }
        put_lock(&mut self.locks, self.alloc, name)?;
        if let Err(refused) = files::create_file(&mut self.files, self.alloc, name) {
            take_lock(&mut self.locks, name);
            return Err(Status::from(refused));
        }
        Ok(())
    }

    fn unlock(&mut self, name: &str) -> Result<()>
        ensures ok { OnOk result (disk_of self.new ≡ lock_freed name.now (disk_of self.old)) }
        ensures err { OnErr result (disk_of self.new ≡ disk_of self.old) }
        ensures time { time_of self.new ≡ time_of self.old }
        ensures was_locked { OnOk result ((disk_of self.old).locked name.now ≡ true) }
        ensures cause { IfErr result (IsNotLocked (disk_of self.old).locked name.now) }
    {
        if take_lock(&mut self.locks, name) {
            return Ok(());
        }
        Err(Status {
            code: StatusCode::LockError,
            err: None,
        })
    }

    fn micros(&mut self) -> Result<u64>
        ensures still { self.new ≡ self.old }
        ensures value { result ≡ Ok (time_of self.old) }
    {
        Ok(self.micros)
    }
}
