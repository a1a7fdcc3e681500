//! An environment over the files of the operating system.
// LevelDB: util/env_posix.cc
ghost use Rattle.std.specs.Prelude.{◌≡◌, ◌<◌, ◌^◌, ℕ, List, [], false, IfOk, IfErr, IfSome, IsErrAnd, Ok, string_bytes};
ghost use Rattle.leveldb_base.specs.Error.{status_text};
ghost use Rattle.leveldb_env.specs.Env.{HasCause};
ghost use Rattle.leveldb_disks.specs.DiskEnv.{nothing_observed, IsExcused, failed_call, NamesCall};
ghost use Rattle.leveldb_disks.specs.DiskEnvLaws.{disk_only_now, disk_counts_now};

mod calls;
mod errors;
mod folders;
mod host;
mod syncs;
pub mod system;

use folders::folder_of;
pub use host::reserve_descriptors;
use leveldb_base::error::{Result, Status, StatusCode};
use leveldb_env::env::Env;
use std::alloc::Global;
use std::collections::BTreeMap;
use std::io::{self, Read};
use syncs::FailedSyncs;
use system::{System, SystemFile};

/// An open file of the system, and the name under which it was opened: what errors say of it.
#[derive(Drop)]
pub struct DiskFile<F> {
    name: String,
    file: F,
}

/// The files of the operating system. A name is a path.
///
/// The text of each error says what was being done to which name, and then what the system says,
/// where there is memory for a text: `append db/000003.log: No space left on device (os error 28)`.
///
/// It reports its count of failures alone: what its disk holds is a premise, and no contract. A
/// file or a folder is created, deleted or renamed, and then the folder of its name is synced;
/// where that sync fails, the next call that takes a name makes it first. A folder is no file, and
/// a pipe or a device is refused. A handle that was opened to be read takes no bytes, nor does one
/// of a file of which a sync failed: `open_appendable_file` puts a synced copy in its place.
#[derive(Drop)]
pub struct PosixDiskEnv<S: System> {
    system: S,

    // the locked names, and the open file that holds each lock
    locks: BTreeMap<String, S::File>,
    syncs: FailedSyncs<S::File>,
    failures: u64,
    ghost counted: { failures < 2 ^ 64 },
}

impl<S: System + AllocGlobal + Drop> PosixDiskEnv<S> {
    /// An environment over the files of this system, as a program's runtime is one, which has
    /// locked no name and failed no call.
    pub fn new(system: S) -> PosixDiskEnv<S>
        ensures no_failure { ⟦<PosixDiskEnv<S> as Env>⟧.failures result ≡ 0 }
    {
        let locks = BTreeMap::new(system.alloc());
        let syncs = FailedSyncs::new(system.alloc());
        PosixDiskEnv {
            system,
            locks,
            syncs,
            failures: 0,
        }
    }
}

impl<S: System + AllocGlobal> PosixDiskEnv<S> {
    // What a call of the system returned. An error is counted, but for out of memory and for this
    // code; its text says what was being done to which name.
    fn settle<T>(
        &mut self,
        answer: io::Result<T>,
        uncounted: Option<StatusCode>,
        doing: &str,
        name: &str,
    ) -> Result<T>
        ensures value { IfOk result (λ value. answer ≡ Ok value) }
        ensures text { IfErr result (NamesCall doing.now name.now) }
        ensures cause { HasCause (IsExcused uncounted) self.old.failures self.new.failures result }
    {
        match answer {
            Ok(value) => Ok(value),
            Err(error) => {
                let code = errors::code_of(error);
                if code != StatusCode::OutOfMemory && uncounted != Some(code) {
                    self.failures = self.failures.saturating_add(1);
                }
                Err(errors::status_of(self.system.alloc(), code, doing, name, error))
            }
        }
    }

    // The error of a call that found the lock of a name other than it needs.
    #[cold]
    fn lock_error<T>(&self, doing: &str, name: &str, why: &str) -> Result<T>
        ensures code { IsErrAnd result (λ e. e.code ≡ StatusCode.LockError) }
        ensures text { IsErrAnd result (λ e. IfSome e.err (λ text. string_bytes text
            ≡ status_text StatusCode.LockError (failed_call doing.now name.now why.now))) }
    {
        let alloc = self.system.alloc();
        let code = StatusCode::LockError;
        Err(errors::describe(alloc, code, doing, name, why))
    }
}

impl<S: System> PosixDiskEnv<S> {
    // Whether the folder of a name was synced since others may have changed it: taking a lock in it
    // did that, and each change since is synced, or owed.
    fn is_settled(&self, name: &str) -> bool {
        for locked in self.locks.keys() {
            if folder_of(locked.as_str()) == folder_of(name) {
                return true;
            }
        }
        false
    }
}

impl<S: System + AllocGlobal + Drop> Env for PosixDiskEnv<S> {
    type File = DiskFile<S::File>;

    ghost models_disk = { false };

    ghost models_moments = { false };

    ghost observed = { λ _. nothing_observed };

    ghost failures = { λ env. env.failures };

    ghost name_of = { λ _. [] };

    ghost offset_of = { λ _. 0 };

    ghost counts = { λ env. env.counted };

    ghost only_now = { λ _. disk_only_now };

    ghost counts_now = { λ _. disk_counts_now };

    ghost moments_need_disk = { λ modelled. modelled };

    fn open_sequential_file(&mut self, name: &str) -> Result<DiskFile<S::File>> {
        let own_name = String::from_str(self.system.alloc(), name)?;
        let answer = calls::open(&self.system, &mut self.syncs, name);
        let file = self.settle(answer, Some(StatusCode::NotFound), "open", name)?;
        Ok(DiskFile {
            name: own_name,
            file,
        })
    }

    fn open_random_access_file(&mut self, name: &str) -> Result<DiskFile<S::File>> {
        self.open_sequential_file(name)
    }

    fn open_writable_file(&mut self, name: &str) -> Result<DiskFile<S::File>> {
        let alloc = self.system.alloc();
        let own_name = String::from_str(alloc, name)?;
        let is_settled = self.is_settled(name);
        let answer = calls::create_empty(&self.system, &mut self.syncs, alloc, name, is_settled);
        let file = self.settle(answer, None, "create", name)?;
        Ok(DiskFile {
            name: own_name,
            file,
        })
    }

    fn open_appendable_file(&mut self, name: &str) -> Result<DiskFile<S::File>> {
        let alloc = self.system.alloc();
        let own_name = String::from_str(alloc, name)?;
        let is_settled = self.is_settled(name);
        let answer = calls::create(&self.system, &mut self.syncs, alloc, name, is_settled);
        let file = self.settle(answer, None, "open", name)?;
        Ok(DiskFile {
            name: own_name,
            file,
        })
    }

    fn read(&mut self, file: &mut DiskFile<S::File>, target: &mut [u8]) -> Result<usize> {
        let answer = file.file.read(target);
        self.settle(
            answer,
            Some(StatusCode::NotFound),
            "read",
            file.name.as_str(),
        )
    }

    fn read_at(
        &mut self,
        file: &DiskFile<S::File>,
        offset: usize,
        target: &mut [u8],
    ) -> Result<usize> {
        // no file has bytes at offsets of 2^63 or more, and the system takes none that comes near
        if offset > (i64::MAX as usize).saturating_sub(target.len()) {
            return Ok(0);
        }
        let answer = file.file.read_at(target, offset as u64);
        self.settle(
            answer,
            Some(StatusCode::NotFound),
            "read",
            file.name.as_str(),
        )
    }

    #[tactic(auto, using(crate::proofs::DiskEnvLemmas::cause_not_gone))]
    fn append(&mut self, file: &mut DiskFile<S::File>, bytes: &[u8]) -> Result<()> {
        let answer = self.syncs.append(&mut file.file, bytes);
        self.settle(answer, None, "append", file.name.as_str())
    }

    #[tactic(auto, using(crate::proofs::DiskEnvLemmas::cause_not_gone))]
    fn sync(&mut self, file: &mut DiskFile<S::File>) -> Result<()> {
        let answer = self.syncs.sync(&file.file);
        self.settle(answer, None, "sync", file.name.as_str())
    }

    fn exists(&mut self, name: &str) -> Result<bool> {
        let answer = calls::exists(&self.system, &mut self.syncs, name);
        self.settle(answer, None, "look for", name)
    }

    fn children(&mut self, alloc: Global, folder: &str) -> Result<Vec<String>> {
        let answer = calls::children(&self.system, &mut self.syncs, alloc, folder);
        self.settle(answer, Some(StatusCode::NotFound), "list", folder)
    }

    fn size_of(&mut self, name: &str) -> Result<usize> {
        let answer = calls::size_of(&self.system, &mut self.syncs, name);
        self.settle(answer, Some(StatusCode::NotFound), "look at", name)
    }

    fn delete(&mut self, name: &str) -> Result<()> {
        let answer = calls::delete(&self.system, &mut self.syncs, name);
        self.settle(answer, Some(StatusCode::NotFound), "delete", name)
    }

    fn mkdir(&mut self, folder: &str) -> Result<()> {
        let answer = folders::make_folders(&self.system, &mut self.syncs, folder);
        self.settle(answer, None, "make folder", folder)
    }

    fn rmdir(&mut self, folder: &str) -> Result<()> {
        let alloc = self.system.alloc();
        let answer = calls::remove_folder(&self.system, &mut self.syncs, alloc, folder);
        self.settle(answer, None, "remove folder", folder)
    }

    fn rename(&mut self, from: &str, to: &str) -> Result<()> {
        let answer = calls::rename(&self.system, &mut self.syncs, from, to);
        if answer.is_ok() {
            return Ok(());
        }
        match format!(in self.system.alloc(); "{from} to {to}") {
            Ok(names) => {
                self.settle(answer, Some(StatusCode::NotFound), "rename", names.as_str())
            }
            Err(_) => self.settle(answer, Some(StatusCode::NotFound), "rename", from),
        }
    }

    fn lock(&mut self, name: &str) -> Result<()> {
        if self.locks.contains_key(name) {
            return self.lock_error("lock", name, "already held");
        }
        let answer = calls::lock(&self.system, &mut self.syncs, name);
        let Some(file) = self.settle(answer, Some(StatusCode::LockError), "lock", name)? else {
            return self.lock_error("lock", name, "already held");
        };
        let name = String::from_str(self.system.alloc(), name)?;
        self.locks.insert(name, file)?;
        Ok(())
    }

    fn unlock(&mut self, name: &str) -> Result<()> {
        let Some(file) = self.locks.get(name) else {
            return self.lock_error("unlock", name, "not held");
        };
        if let Err(error) = file.unlock() {
            self.failures = self.failures.saturating_add(1);
            let alloc = self.system.alloc();
            let code = StatusCode::IOError;
            return Err(errors::status_of(alloc, code, "unlock", name, error));
        }
        self.locks.remove(name);
        Ok(())
    }

    fn micros(&mut self) -> Result<u64> {
        let answer = self.system.now();
        let time = self.settle(answer, None, "read", "the clock")?;
        Ok(u64::try_from(time.as_micros()).unwrap_or(u64::MAX))
    }
}
