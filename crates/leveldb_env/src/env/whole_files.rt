//! Files that are read or replaced whole, and files that must be there.
// LevelDB: util/env.cc, ReadFileToString and WriteStringToFileSync
ghost use Rattle.std.specs.Prelude.{◌≡◌, ◌≢◌, Some, IsTrue, IfOk, IfErr, IsSomeAnd};
ghost use Rattle.leveldb_env.specs.Env.{bytes_of, kept_file, same, with_file, AppendedAreBytes, ChangesFiles, FilesUnchanged, SameBut, SameLocks, HasCause};
ghost use Rattle.leveldb_base.specs.Error.{IsOutOfMemory};
ghost use Rattle.leveldb_env.specs.EnvFile.{opened, IsReadOut, IsGivenUp};
ghost use Rattle.leveldb_env.specs.WholeFiles.{replaced, Replacing, IsFoundOr, IsLost, IsLostUnobserved};

use crate::env::source::read_to_end;
use crate::env::{Env, EnvFile};
use crate::errors::refuse;
use leveldb_base::error::{Result, StatusCode};
use std::alloc::Global;

/// What a call of an environment returned for a file that must be there: the same, but `Corruption`
/// with the file's name in place of `NotFound`. It can't see whether the device was counted to have
/// failed, so a caller's clause excuses such an error only where it was not, as `IsLost` does.
pub fn found<T>(alloc: Global, name: &str, answer: Result<T>) -> Result<T>
    ensures { IsFoundOr name.now answer result }
{
    match answer {
        Err(status) if status.code == StatusCode::NotFound => {
            refuse(alloc, StatusCode::Corruption, "missing file", name)
        }
        other => other,
    }
}

/// All bytes of a file. `Corruption` where it is missing.
pub fn read_file<E: Env>(alloc: Global, env: &mut E, name: &str) -> Result<Vec<u8>>
    ensures does { IsTrue E.models_disk
        → ChangesFiles E.models_disk same FilesUnchanged (E.observed env.old)
        (E.observed env.new) result }
    ensures locks { SameLocks E.models_disk (E.observed env.old) (E.observed env.new) }
    ensures bytes { IfOk result
        (λ all. IsTrue E.models_disk
        → IsSomeAnd ((E.observed env.old).disk.files name.now)
        (λ file. all.items ≡ bytes_of file)) }
    ensures cause { HasCause (IsLost E.models_disk name.now (E.observed env.old)
        (E.failures env.old) (E.failures env.new))
        (E.failures env.old) (E.failures env.new) result }
{
    let mut file = found(alloc, name, env.open_sequential_file(name))?;
    found(alloc, name, read_rest(alloc, env, &mut file))
}

// All bytes of an open file from its offset on.
fn read_rest<E: Env>(alloc: Global, env: &mut E, file: &mut E::File) -> Result<Vec<u8>>
    ensures ok { IfOk result
        (λ all. IsReadOut E.Env (opened env.old file.old) all.items (opened env.new file.new)) }
    ensures err { IfErr result
        (λ status. IsGivenUp E.Env (opened env.old file.old) status (opened env.new file.new)) }
{
    read_to_end(alloc, &mut EnvFile { env, file })
}

/// Writes these bytes into a file, which is made or emptied before, and syncs it: a crash keeps all
/// of them. Returns the file, open. After an Err it may be there, whole or in part.
pub fn write_file<E: Env>(alloc: Global, env: &mut E, path: &str, bytes: &[u8]) -> Result<E::File>
    ensures does { IsTrue E.models_disk
        → ChangesFiles E.models_disk (with_file path.now (Some (kept_file bytes.now)))
        (SameBut path.now) (E.observed env.old) (E.observed env.new) result }
    ensures bytes { IsTrue E.models_disk → AppendedAreBytes (E.observed env.old).disk.files
        → AppendedAreBytes (E.observed env.new).disk.files }
    ensures locks { SameLocks E.models_disk (E.observed env.old) (E.observed env.new) }
    ensures file { IfOk result (λ f. IsTrue E.models_disk → E.name_of f ≡ path.now) }
    ensures cause { HasCause IsOutOfMemory (E.failures env.old) (E.failures env.new) result }
{
    let mut file = env.open_writable_file(path)?;
    found(alloc, path, env.append(&mut file, bytes))?;
    found(alloc, path, env.sync(&mut file))?;
    Ok(file)
}

/// Puts these bytes under a name, where they replace what is there, by way of a temporary file: it
/// is made, synced and then renamed. `Corruption` where it is missing once it was made. After an
/// Err the temporary file may be there.
pub fn replace_file<E: Env>(
    alloc: Global,
    env: &mut E,
    temp: &str,
    name: &str,
    bytes: &[u8],
) -> Result<()>
    requires { temp.now ≢ name.now }
    ensures does { IsTrue E.models_disk
        → ChangesFiles E.models_disk (replaced temp.now name.now bytes.now)
        (Replacing temp.now name.now bytes.now)
        (E.observed env.old) (E.observed env.new) result }
    ensures bytes { IsTrue E.models_disk → AppendedAreBytes (E.observed env.old).disk.files
        → AppendedAreBytes (E.observed env.new).disk.files }
    ensures locks { SameLocks E.models_disk (E.observed env.old) (E.observed env.new) }
    ensures cause { HasCause (IsLostUnobserved E.models_disk temp.now
        (E.failures env.old) (E.failures env.new))
        (E.failures env.old) (E.failures env.new) result }
{
    write_file(alloc, env, temp, bytes)?;
    found(alloc, temp, env.rename(temp, name))
}
