//! Files that hold a log.
// LevelDB: db/log_reader.cc, where it opens a file
ghost use Rattle.std.specs.Prelude.{IsTrue, IfOk, IfErr, IsSomeAnd, map, if◌then◌else◌};
ghost use Rattle.leveldb_env.specs.Env.{bytes_of, same, ChangesFiles, FilesUnchanged, SameLocks};
ghost use Rattle.leveldb_env.specs.EnvFile.{opened};
ghost use Rattle.leveldb_mem.specs.Log.{IsLogFile, clean, bad};
ghost use Rattle.leveldb_mem.specs.Log.Files.{IsReadAsLog, StopsReadingFile, HasReadCause};

use crate::log::read_records;
use leveldb_base::error::Result;
use leveldb_env::env::{Env, EnvFile};
use std::alloc::Global;

/// The records of a log's file, and whether it ends between two of them. Checksums are compared.
/// Returns `NotSupported` if a record has 2^64 bytes.
pub fn read_log_file<E: Env>(alloc: Global, env: &mut E, name: &str) -> Result<(Vec<Vec<u8>>, bool)>
    ensures does { IsTrue E.models_disk
        → ChangesFiles E.models_disk same FilesUnchanged (E.observed env.old)
        (E.observed env.new) result }
    ensures locks { SameLocks E.models_disk (E.observed env.old) (E.observed env.new) }
    ensures log { IfOk result (λ found. IsTrue E.models_disk
        → IsSomeAnd ((E.observed env.old).disk.files name.now) (λ file. IsLogFile (bytes_of file)
        (map (λ v. v.items) found.0.items) (if found.1 then clean else bad))) }
    ensures cause { HasReadCause E.models_disk name.now (E.observed env.old)
        (E.failures env.old) (E.failures env.new) result }
{
    let mut file = env.open_sequential_file(name)?;
    records_of_rest(alloc, env, &mut file)
}

// The records of what an open file has from its offset on.
fn records_of_rest<E: Env>(
    alloc: Global,
    env: &mut E,
    file: &mut E::File,
) -> Result<(Vec<Vec<u8>>, bool)>
    ensures ok { IfOk result (λ found. IsReadAsLog E.Env (opened env.old file.old)
        (map (λ v. v.items) found.0.items) (if found.1 then clean else bad)
        (opened env.new file.new)) }
    ensures err { IfErr result (λ status.
        StopsReadingFile E.Env (opened env.old file.old) status (opened env.new file.new)) }
{
    read_records(alloc, &mut EnvFile { env, file }, true)
}
