//! The environment: the calls by which a store reaches its disk, and the sinks and sources of
//! bytes.
// LevelDB: include/leveldb/env.h, Env
ghost use Rattle.std.specs.Prelude.{◌≡◌, ◌≢◌, ◌≤◌, ◌<◌, ◌+◌, ◌^◌, ℕ, Bool, true, false, List, length, map, IfOk, OnErr, IfErr, OnOk, IsTrue, ◌↔◌, IsSome, string_bytes, IfSome, Result};
ghost use Rattle.leveldb_env.specs.Env.{Files, bytes_of, created, emptied, deleted, renamed, extended, synced, without_folder, lock_set, same, Observed, ChangesFiles, BeforeOrAfter, PrefixAppended, FilesUnchanged, AnyFiles, ChangesLocks, SameLocks, HasCause, IsMissing, IsGone, IsEmptyFolder, IsLocked, LockIs, ReadsAt, ListsChildren};
ghost use Rattle.leveldb_base.specs.Error.{IsOutOfMemory};

pub mod env_file;
pub mod sink;
pub mod source;
pub mod whole_files;

pub use env_file::EnvFile;
use leveldb_base::error::{Result, StatusCode};
pub use sink::Sink;
pub use source::Source;
use std::alloc::Global;

/// A disk with names for files. A name is one text; `/` separates a folder from what is in it.
///
/// An implementation may report nothing but its count of failed calls, or also model what its disk
/// holds, or also what the files were at each moment. A count of failed calls is of those that the
/// device itself failed: what follows from the disk's own state, as a missing name, and out of
/// memory aren't counted. An open file is its name: what a call with a handle to a deleted or
/// renamed file returns is otherwise left open.
pub trait Env {
    /// A file that is open. It borrows nothing.
    type File: Drop;

    /// Whether it models what its disk holds. If not, the clauses on the disk say nothing.
    ghost models_disk: { Bool };

    /// Whether it also models what the files were at each moment.
    ghost models_moments: { Bool };

    /// What is observed of it.
    ghost observed: { Self → Observed };

    /// How many calls the device has failed. It stops at 2^64 - 1.
    ghost failures: { Self → ℕ };

    /// The name under which a file was opened.
    ghost name_of: { Self.File → List ℕ };

    /// The offset at which the next read begins.
    ghost offset_of: { Self.File → ℕ };

    /// Opens a file that is there, to be read from its first byte on.
    fn open_sequential_file(&mut self, name: &str) -> Result<Self::File>
        ensures does { ChangesFiles models_disk same FilesUnchanged (observed self.old)
            (observed self.new) result }
        ensures locks { SameLocks models_disk (observed self.old) (observed self.new) }
        ensures file { IfOk result
            (λ f. IsTrue models_disk → (name_of f ≡ name.now) × (offset_of f ≡ 0)) }
        ensures there { OnOk result (IsTrue models_disk
            → IsSome ((observed self.old).disk.files name.now)) }
        ensures cause { HasCause (IsMissing models_disk name.now (observed self.old))
            (failures self.old) (failures self.new) result };

    /// Opens a file that is there, to be read at any offset.
    fn open_random_access_file(&mut self, name: &str) -> Result<Self::File>
        ensures does { ChangesFiles models_disk same FilesUnchanged (observed self.old)
            (observed self.new) result }
        ensures locks { SameLocks models_disk (observed self.old) (observed self.new) }
        ensures file { IfOk result (λ f. IsTrue models_disk → name_of f ≡ name.now) }
        ensures there { OnOk result (IsTrue models_disk
            → IsSome ((observed self.old).disk.files name.now)) }
        ensures cause { HasCause (IsMissing models_disk name.now (observed self.old))
            (failures self.old) (failures self.new) result };

    /// Creates or empties a file, to be appended to.
    fn open_writable_file(&mut self, name: &str) -> Result<Self::File>
        ensures does { ChangesFiles models_disk (emptied name.now)
            (BeforeOrAfter (emptied name.now)) (observed self.old) (observed self.new) result }
        ensures locks { SameLocks models_disk (observed self.old) (observed self.new) }
        ensures file { IfOk result (λ f. IsTrue models_disk → name_of f ≡ name.now) }
        ensures cause { HasCause IsOutOfMemory (failures self.old) (failures self.new) result };

    /// Creates or keeps a file, to be appended to.
    fn open_appendable_file(&mut self, name: &str) -> Result<Self::File>
        ensures does { ChangesFiles models_disk (created name.now)
            (BeforeOrAfter (created name.now)) (observed self.old) (observed self.new) result }
        ensures locks { SameLocks models_disk (observed self.old) (observed self.new) }
        ensures file { IfOk result (λ f. IsTrue models_disk → name_of f ≡ name.now) }
        ensures cause { HasCause IsOutOfMemory (failures self.old) (failures self.new) result };

    /// Reads some of the bytes at the file's offset, which moves on after them. Returns how many
    /// came: 0 only at the end or for an empty target. After an Err the offset is left open.
    fn read(&mut self, file: &mut Self::File, target: &mut [u8]) -> Result<usize>
        ensures does { ChangesFiles models_disk same FilesUnchanged (observed self.old)
            (observed self.new) result }
        ensures locks { SameLocks models_disk (observed self.old) (observed self.new) }
        ensures fits { IfOk result (λ n. n ≤ length target.new) }
        ensures bytes { IfOk result
            (λ n. IsTrue models_disk
            → ReadsAt ((observed self.old).disk.files (name_of file.old))
            (offset_of file.old) n target.new) }
        ensures file { IsTrue models_disk → (name_of file.new ≡ name_of file.old)
            × IfOk result (λ n. offset_of file.new ≡ offset_of file.old + n) }
        ensures cause { HasCause (IsMissing models_disk (name_of file.old) (observed self.old))
            (failures self.old) (failures self.new) result };

    /// Reads some of the bytes from an offset on. Returns how many came: 0 only at or past the
    /// end or for an empty target.
    fn read_at(&mut self, file: &Self::File, offset: usize, target: &mut [u8]) -> Result<usize>
        ensures does { ChangesFiles models_disk same FilesUnchanged (observed self.old)
            (observed self.new) result }
        ensures locks { SameLocks models_disk (observed self.old) (observed self.new) }
        ensures fits { IfOk result (λ n. n ≤ length target.new) }
        ensures bytes { IfOk result
            (λ n. IsTrue models_disk
            → ReadsAt ((observed self.old).disk.files (name_of file.now)) offset n target.new) }
        ensures cause { HasCause (IsMissing models_disk (name_of file.now) (observed self.old))
            (failures self.old) (failures self.new) result };

    /// Appends bytes to the file. After an Err any prefix of them may have been appended.
    fn append(&mut self, file: &mut Self::File, bytes: &[u8]) -> Result<()>
        ensures does { ChangesFiles models_disk (extended (name_of file.old) bytes.now)
            (PrefixAppended (name_of file.old) bytes.now) (observed self.old)
            (observed self.new) result }
        ensures locks { SameLocks models_disk (observed self.old) (observed self.new) }
        ensures file { IsTrue models_disk → name_of file.new ≡ name_of file.old }
        ensures cause { HasCause (IsGone models_disk (name_of file.old) (observed self.old))
            (failures self.old) (failures self.new) result };

    /// Makes a crash keep all bytes of the file. After an Err it keeps what it kept before.
    fn sync(&mut self, file: &mut Self::File) -> Result<()>
        ensures does { ChangesFiles models_disk (synced (name_of file.old))
            (BeforeOrAfter (synced (name_of file.old))) (observed self.old)
            (observed self.new) result }
        ensures undone { OnErr result (IsTrue models_disk
            → (observed self.new).disk.files ≡ (observed self.old).disk.files) }
        ensures locks { SameLocks models_disk (observed self.old) (observed self.new) }
        ensures file { IsTrue models_disk → name_of file.new ≡ name_of file.old }
        ensures cause { HasCause (IsGone models_disk (name_of file.old) (observed self.old))
            (failures self.old) (failures self.new) result };

    /// Whether a file has the name.
    fn exists(&mut self, name: &str) -> Result<bool>
        ensures does { ChangesFiles models_disk same FilesUnchanged (observed self.old)
            (observed self.new) result }
        ensures locks { SameLocks models_disk (observed self.old) (observed self.new) }
        ensures ok { IfOk result
            (λ there. IsTrue models_disk → IsTrue there
            ↔ IsSome ((observed self.old).disk.files name.now)) }
        ensures cause { HasCause IsOutOfMemory (failures self.old) (failures self.new) result };

    /// Of the names under the folder the part after its `/`, where that has no other `/`, in any
    /// order.
    fn children(&mut self, alloc: Global, folder: &str) -> Result<Vec<String>>
        ensures does { ChangesFiles models_disk same FilesUnchanged (observed self.old)
            (observed self.new) result }
        ensures locks { SameLocks models_disk (observed self.old) (observed self.new) }
        ensures ok { IfOk result
            (λ names. IsTrue models_disk
            → ListsChildren (observed self.old).disk.files folder.now
            (map string_bytes names.items)) }
        ensures cause { HasCause (IsEmptyFolder models_disk folder.now (observed self.old))
            (failures self.old) (failures self.new) result };

    /// How many bytes the file has.
    fn size_of(&mut self, name: &str) -> Result<usize>
        ensures does { ChangesFiles models_disk same FilesUnchanged (observed self.old)
            (observed self.new) result }
        ensures locks { SameLocks models_disk (observed self.old) (observed self.new) }
        ensures ok { IfOk result
            (λ n. IsTrue models_disk
            → IfSome ((observed self.old).disk.files name.now) (λ f. n ≡ length (bytes_of f))) }
        ensures there { OnOk result (IsTrue models_disk
            → IsSome ((observed self.old).disk.files name.now)) }
        ensures cause { HasCause (IsMissing models_disk name.now (observed self.old))
            (failures self.old) (failures self.new) result };

    /// Removes a file and its name.
    fn delete(&mut self, name: &str) -> Result<()>
        ensures does { ChangesFiles models_disk (deleted name.now)
            (BeforeOrAfter (deleted name.now)) (observed self.old) (observed self.new) result }
        ensures locks { SameLocks models_disk (observed self.old) (observed self.new) }
        ensures there { OnOk result (IsTrue models_disk
            → IsSome ((observed self.old).disk.files name.now)) }
        ensures cause { HasCause (IsMissing models_disk name.now (observed self.old))
            (failures self.old) (failures self.new) result };

    /// Makes a folder; Ok too where it is there. Here only files have names, so nothing changes.
    fn mkdir(&mut self, folder: &str) -> Result<()>
        ensures does { ChangesFiles models_disk same FilesUnchanged (observed self.old)
            (observed self.new) result }
        ensures locks { SameLocks models_disk (observed self.old) (observed self.new) }
        ensures cause { HasCause IsOutOfMemory (failures self.old) (failures self.new) result };

    /// Removes each name under the folder. What an Err leaves, and what the files are meanwhile, is
    /// left open.
    fn rmdir(&mut self, folder: &str) -> Result<()>
        ensures does { ChangesFiles models_disk (without_folder folder.now) AnyFiles
            (observed self.old) (observed self.new) result }
        ensures locks { SameLocks models_disk (observed self.old) (observed self.new) }
        ensures cause { HasCause IsOutOfMemory (failures self.old) (failures self.new) result };

    /// Renames a file, which replaces what has the new name.
    fn rename(&mut self, from: &str, to: &str) -> Result<()>
        ensures does { ChangesFiles models_disk (renamed from.now to.now)
            (BeforeOrAfter (renamed from.now to.now)) (observed self.old)
            (observed self.new) result }
        ensures locks { SameLocks models_disk (observed self.old) (observed self.new) }
        ensures there { OnOk result (IsTrue models_disk
            → IsSome ((observed self.old).disk.files from.now)) }
        ensures cause { HasCause (IsMissing models_disk from.now (observed self.old))
            (failures self.old) (failures self.new) result };

    /// Locks a name that is free; `LockError` where it is locked. A missing name becomes an empty
    /// file first.
    fn lock(&mut self, name: &str) -> Result<()>
        ensures does { ChangesFiles models_disk (created name.now)
            (BeforeOrAfter (created name.now)) (observed self.old) (observed self.new) result }
        ensures locks { ChangesLocks models_disk (lock_set name.now true) (observed self.old)
            (observed self.new) result }
        ensures was_free { OnOk result (IsTrue models_disk
            → (observed self.old).disk.locked name.now ≡ false) }
        ensures cause { HasCause (IsLocked models_disk name.now (observed self.old))
            (failures self.old) (failures self.new) result };

    /// Frees a locked name; `LockError` where it is free, and nowhere else. It takes no memory.
    fn unlock(&mut self, name: &str) -> Result<()>
        ensures does { ChangesFiles models_disk same FilesUnchanged (observed self.old)
            (observed self.new) result }
        ensures locks { ChangesLocks models_disk (lock_set name.now false) (observed self.old)
            (observed self.new) result }
        ensures was_locked { OnOk result (IsTrue models_disk
            → (observed self.old).disk.locked name.now ≡ true) }
        ensures was_free { IfErr result
            (λ e. e.code ≡ StatusCode.LockError
            → LockIs models_disk false name.now (observed self.old) e) }
        ensures memory { IfErr result (λ e. e.code ≢ StatusCode.OutOfMemory) }
        ensures cause { HasCause (LockIs models_disk false name.now (observed self.old))
            (failures self.old) (failures self.new) result };

    /// The time in microseconds since some fixed point.
    fn micros(&mut self) -> Result<u64>
        ensures does { ChangesFiles models_disk same FilesUnchanged (observed self.old)
            (observed self.new) result }
        ensures locks { SameLocks models_disk (observed self.old) (observed self.new) }
        ensures cause { HasCause IsOutOfMemory (failures self.old) (failures self.new) result };

    /// The count is a number of 64 bits.
    ghost counts: { (e : Self) → failures e < 2 ^ 64 };

    /// At this moment the files are no others.
    ghost only_now: { (e : Self) (files : Files) → (observed e).at_moment (observed e).moment files
        → files ≡ (observed e).disk.files };

    /// What the files are now is observed of this moment.
    ghost counts_now: { (e : Self) → IsTrue models_moments
        → (observed e).at_moment (observed e).moment (observed e).disk.files };

    /// Moments are modelled of a disk that is modelled.
    ghost moments_need_disk: { IsTrue models_moments → IsTrue models_disk };
}
