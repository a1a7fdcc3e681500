//! Readable tables: whether the file at a path is one, whatever its filters are. So a repair finds
//! out which of a folder's files it may read.
// LevelDB: db/repair.cc, Repairer::ScanTable
ghost use Rattle.leveldb_table.specs.ReadableTable.{JudgesTable, OpensJudged};

use judge::Judge;
use leveldb_base::cmp::{InternalKeyCmp, UserCmp};
use leveldb_base::error::Result;
use leveldb_env::compressor::{CompressorList, Compressors};
use leveldb_env::env::Env;
use leveldb_env::env::whole_files::found;
use std::alloc::Global;

mod blocks;
mod judge;
mod keys;

/// Whether the file at a path is a readable table under this order of users' keys: a table, but
/// for its filters, which aren't looked at, whose keys all have their tag, of a type that there is
/// and a sequence number from 1 on. The file is read once, and two of its blocks at most are in
/// memory.
///
/// `Corruption` if the file is missing; `NotSupported` for a block whose id has no compressor, and
/// a code of the compressor's own for one that it fails for. What is damaged is no error.
pub fn is_readable_table<E: Env, C: UserCmp + Copy + Drop>(
    alloc: Global,
    env: &mut E,
    path: &str,
    cmp: C,
    compressors: &CompressorList,
) -> Result<bool>
    ensures { JudgesTable E.Env (⟦<CompressorList as Compressors>⟧.codings compressors.now)
        (C.cmp cmp) path.now env.old result env.new }
{
    let (file, size) = open_file(alloc, env, path)?;
    let judge = Judge {
        alloc,
        cmp: InternalKeyCmp(cmp),
        compressors,
        file,
        size,
    };
    judge.is_table(env)
}

// Opens the file at this path, and returns how many bytes it has. `Corruption` if it is missing.
fn open_file<E: Env>(alloc: Global, env: &mut E, path: &str) -> Result<(E::File, usize)>
    ensures { OpensJudged E.Env path.now env.old result env.new }
{
    let size = found(alloc, path, env.size_of(path))?;
    let file = found(alloc, path, env.open_random_access_file(path))?;
    Ok((file, size))
}
